//! The pieces of a text with their lines. No line feed is counted twice.
ghost use Rattle.std.specs.Prelude.{◌≡◌, ◌≤◌, ◌<◌, false, true, length, map, take, count_by};
ghost use Rattle.cb_scan.specs.declared.source.TheConstants.{MOST_BYTES};
ghost use Rattle.std.specs.Iterator.{YieldsFirst, item_count};
ghost use Rattle.std.specs.List.{AllByRecursion};
ghost use Rattle.cb_scan.specs.steps.Cut.{pieces};
ghost use Rattle.cb_scan.specs.steps.Lined.{is_feed, lined, Within, holds_feeds};

use crate::lex::lanes::{LANES, feed_lanes, space_run};
use crate::lex::piece::{Class, Piece, first_piece};
use std::marker::Model;

/// A piece and the line of its first byte, from 1.
#[derive(Clone, Copy, Debug, PartialEq, Eq)]
pub(crate) struct Lined {
    pub piece: Piece,
    pub line: u32,
}

/// The pieces of a text that are still to come, first to last, each with its line.
#[derive(Drop)]
pub(crate) struct LinedPieces<'a> {
    text: &'a [u8],
    at: u32,
    line: u32,
}

impl<'a> Model for LinedPieces<'a> {
    ghost use Rattle.cb_scan.specs.declared.source.TheConstants.{MOST_BYTES};
    ghost use Rattle.std.specs.Prelude.{List, ◌≡◌, ◌≤◌, length, drop, map};
    ghost use Rattle.cb_scan.specs.declared.lex.lined.Lined.{Lined};
    ghost use Rattle.cb_scan.specs.Lines.{line_of};
    ghost use Rattle.cb_scan.specs.steps.Cut.{pieces_at};
    ghost use Rattle.cb_scan.specs.steps.Lined.{lined};

    ghost Value = { List Lined };

    ghost view = { λ s. map (lined s.text.now) (pieces_at s.at (drop s.at s.text.now)) };

    ghost invariant = { λ s. (length s.text.now ≤ MOST_BYTES) × (s.at ≤ length s.text.now)
        × (s.line ≡ line_of s.text.now s.at) };
}

/// How many of the bytes are line feeds, one byte after the other.
fn feeds_of(bytes: &[u8]) -> u32
    requires { length bytes.now ≤ MOST_BYTES }
    ensures { result ≡ count_by is_feed bytes.now }
{
    bytes.iter().filter(|byte| **byte == b'\n').count() as u32
}

/// The same, many bytes at a time.
fn feeds_among(bytes: &[u8]) -> u32
    requires { length bytes.now ≤ MOST_BYTES }
    ensures { result ≡ count_by is_feed bytes.now }
{
    let mut count = 0;
    let mut rest = bytes;
    while rest.len() >= LANES {
        count += feed_lanes(rest);
        rest = &rest[LANES..];
    }
    count + feeds_of(rest)
}

/// How many line feeds the bytes of a piece hold: a lone byte is looked at once, and pieces that are
/// often long many bytes at a time.
#[inline]
fn feeds_in(class: Class, bytes: &[u8]) -> u32
    requires { length bytes.now ≤ MOST_BYTES }
    ensures { result ≡ count_by is_feed bytes.now }
{
    match (class, bytes) {
        (Class::LineNote | Class::BlockNote, _) => feeds_among(bytes),
        (_, [byte]) => u32::from(*byte == b'\n'),
        _ => feeds_of(bytes),
    }
}

/// Whether the first bytes of a text are few, and spaces and tabs alone.
#[inline]
fn are_spaces(text: &[u8], len: usize) -> bool
    ensures { result ≡ true → count_by is_feed (take len text.now) ≡ 0 }
{
    text.len() >= LANES && len <= space_run(text)
}

/// How many line feeds the first bytes of a text hold, which are a piece. Most pieces can hold none
/// and are not looked at again; an indentation is looked at as its length was found.
#[inline]
fn feeds_at(class: Class, text: &[u8], len: usize) -> u32
    requires within { len ≤ length text.now }
    requires none { holds_feeds class ≡ false → count_by is_feed (take len text.now) ≡ 0 }
    requires small { length text.now ≤ MOST_BYTES }
    ensures { result ≡ count_by is_feed (take len text.now) }
{
    match class {
        Class::Name | Class::Number | Class::Byte => 0,
        Class::Blank if len > 1 && are_spaces(text, len) => 0,
        _ => feeds_in(class, &text[..len]),
    }
}

/// The pieces of a text with their lines.
pub(crate) fn lined_pieces(text: &[u8]) -> LinedPieces<'_>
    requires { length text.now ≤ MOST_BYTES }
    ensures value { result ≡ map (lined text.now) (pieces text.now) }
    ensures within { AllByRecursion (Within text.now) result }
    ensures len { length result ≤ MOST_BYTES }
{
    LinedPieces {
        text,
        at: 0,
        line: 1,
    }
}

impl<'a> Iterator for LinedPieces<'a> {
    type Item = Lined;

    ghost next_gives = { YieldsFirst (λ rest. rest) };

    ghost remaining = { item_count (λ rest. rest) };

    #[inline(always)]
    fn next(&mut self) -> Option<Lined> {
        let rest = &self.text[self.at as usize..];
        if rest.is_empty() {
            return None;
        }
        let piece = first_piece(self.at, rest);
        let len = (piece.span.end - self.at) as usize;
        let lined = Lined {
            piece,
            line: self.line,
        };
        self.line += feeds_at(piece.class, rest, len);
        self.at = piece.span.end;
        Some(lined)
    }
}
