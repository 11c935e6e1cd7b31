//! What a text is cut into.
ghost use Rattle.std.specs.Prelude.{◌≡◌, ◌+◌, ◌<◌, ◌≤◌, ⊤, length};
ghost use Rattle.cb_scan.specs.declared.source.TheConstants.{MOST_BYTES};
ghost use Rattle.std.specs.Iterator.{YieldsFirst, item_count};
ghost use Rattle.cb_scan.specs.steps.Cut.{piece_at, pieces_at};

use crate::lex::lexeme::{class_at, length_in};
use std::alloc::AllocError;
use std::iter::FusedIterator;
use std::marker::Model;

/// Bytes of a source, from `start` up to and without `end`.
#[derive(Clone, Copy, Debug, PartialEq, Eq)]
pub struct Span {
    pub start: u32,
    pub end: u32,
}

/// The classes of pieces, as PROFILE.md names them.
#[derive(Clone, Copy, Debug, PartialEq, Eq)]
pub enum Class {
    Name,
    Number,
    Str,
    Chr,
    LineNote,
    BlockNote,
    Blank,
    Newline,
    Byte,
}

/// A lexeme of a text: its class and its bytes.
#[derive(Clone, Copy, Debug, PartialEq, Eq)]
pub struct Piece {
    pub class: Class,
    pub span: Span,
}

/// The piece that `rest` begins with, where `rest` is what is left of a text from the place `at`
/// on.
#[inline(always)]
pub(crate) fn first_piece(at: u32, rest: &[u8]) -> Piece
    requires some { 0 < length rest.now }
    requires small { at + length rest.now ≤ MOST_BYTES }
    ensures value { result ≡ piece_at at rest.now }
    ensures after { at + 1 ≤ result.span.end }
    ensures within { result.span.end ≤ at + length rest.now }
{
    let class = class_at(rest);
    let len = length_in(class, rest);
    let end = at + len as u32;
    Piece {
        class,
        span: Span { start: at, end },
    }
}

/// The pieces of a text that are still to come, first to last.
#[derive(Drop)]
pub struct Pieces<'a> {
    rest: &'a [u8],
    at: u32,
}

impl<'a> Model for Pieces<'a> {
    ghost use Rattle.cb_scan.specs.declared.source.TheConstants.{MOST_BYTES};
    ghost use Rattle.std.specs.Prelude.{List, ◌+◌, ◌≤◌, length};
    ghost use Rattle.cb_scan.specs.declared.lex.piece.Piece.{Piece};
    ghost use Rattle.cb_scan.specs.steps.Cut.{pieces_at};

    ghost Value = { List Piece };

    ghost view = { λ s. pieces_at s.at s.rest.now };

    ghost invariant = { λ s. s.at + length s.rest.now ≤ MOST_BYTES };
}

impl<'a> Clone for Pieces<'a> {
    ghost is_clone = { λ it copy. copy ≡ it };

    ghost is_infallible = { λ _. ⊤ };

    fn clone(&self) -> Result<Self, AllocError> {
        Ok(Pieces {
            rest: self.rest,
            at: self.at,
        })
    }
}

impl<'a> Pieces<'a> {
    pub(crate) fn new(text: &'a [u8]) -> Pieces<'a>
        requires { length text.now ≤ MOST_BYTES }
        ensures value { result ≡ pieces_at 0 text.now }
        ensures len { length result ≤ MOST_BYTES }
    {
        Pieces { rest: text, at: 0 }
    }
}

impl<'a> Iterator for Pieces<'a> {
    type Item = Piece;

    ghost next_gives = { YieldsFirst (λ rest. rest) };

    ghost remaining = { item_count (λ rest. rest) };

    #[inline]
    fn next(&mut self) -> Option<Piece> {
        if self.rest.is_empty() {
            return None;
        }
        let piece = first_piece(self.at, self.rest);
        let len = piece.span.end - self.at;
        self.rest = &self.rest[len as usize..];
        self.at = piece.span.end;
        Some(piece)
    }
}

impl<'a> FusedIterator for Pieces<'a> {}
