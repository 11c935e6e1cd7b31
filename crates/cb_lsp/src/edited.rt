//! A text that parts are put into.
ghost use Rattle.std.specs.Prelude.{◌≡◌, ◌≤◌, ◌<◌, ◌+◌, IfSome, OnErr, OnOk, length};
ghost use Rattle.cb_wire.specs.Positions.{line_feeds, line_start, place, shown_line};
ghost use Rattle.cb_lsp.specs.Changes.{replaced, splice};
ghost use Rattle.cb_lsp.specs.steps.LineMarks.{IsBefore, IsLineMark};

use cb_wire::{Encoding, Position, Range, line_at, place_of_column};
use std::alloc::AllocError;
use std::marker::Model;

/// A place in a text, and how many line feeds stand before it.
#[derive(Clone, Copy)]
struct LineMark {
    place: usize,
    feeds: usize,
}

/// The start of a text.
const START: LineMark = LineMark { place: 0, feeds: 0 };

/// So many bytes are passed over at once. A byte holds how many line feeds there are in them, which
/// is what makes counting them quick.
const BLOCK: usize = 240;

/// How many line feeds there are in a block.
fn feeds_in(block: &[u8]) -> usize
    requires { length block.now ≤ 255 }
    ensures { result ≡ line_feeds block.now }
{
    let mut feeds: u8 = 0;
    'bytes: for byte in block {
        if *byte == b'\n' {
            feeds += 1;
        }
    }
    usize::from(feeds)
}

/// The mark a block before, or at the start.
fn mark_back(text: &[u8], mark: LineMark) -> LineMark
    requires mark { IsLineMark text.now mark.place mark.feeds }
    requires some { 0 < mark.place }
    ensures mark { IsLineMark text.now result.place result.feeds }
    ensures before { result.place < mark.place }
{
    let place = mark.place.saturating_sub(BLOCK);
    let block = text.split_at(mark.place).0.split_at(place).1;
    LineMark {
        place,
        feeds: mark.feeds - feeds_in(block),
    }
}

/// The mark a block behind, unless the text ends before.
fn mark_on(text: &[u8], mark: LineMark) -> Option<LineMark>
    requires { IsLineMark text.now mark.place mark.feeds }
    ensures { IfSome result (λ next. IsLineMark text.now next.place next.feeds
        × (mark.place < next.place)) }
{
    let rest = text.split_at(mark.place).1;
    if rest.len() < BLOCK {
        return None;
    }
    Some(LineMark {
        place: mark.place + BLOCK,
        feeds: mark.feeds + feeds_in(rest.split_at(BLOCK).0),
    })
}

/// A mark that a line begins behind, or the start. It is sought from another mark on, or from the
/// start if that is nearer.
fn mark_before(text: &[u8], mark: LineMark, line: usize) -> LineMark
    requires { IsLineMark text.now mark.place mark.feeds }
    ensures mark { IsLineMark text.now result.place result.feeds }
    ensures before { IsBefore result.place result.feeds line }
{
    let mut at = if line < mark.feeds / 2 { START } else { mark };
    'back: while 0 < at.place && line <= at.feeds {
        at = mark_back(text, at);
    }
    'on: while let Some(next) = mark_on(text, at) {
        if line <= next.feeds {
            return at;
        }
        at = next;
    }
    at
}

/// Where a line begins, and the line as it is shown; past the last line the end of the text, and
/// nothing.
fn line_from(text: &[u8], mark: LineMark, line: usize) -> (usize, &[u8])
    requires mark { IsLineMark text.now mark.place mark.feeds }
    requires before { IsBefore mark.place mark.feeds line }
    ensures start { result.0 ≡ line_start text.now line }
    ensures shown { result.1.now ≡ shown_line text.now line }
    ensures within { result.0 + length result.1.now ≤ length text.now }
    ensures behind { mark.place ≤ result.0 }
{
    let (start, shown) = line_at(text.split_at(mark.place).1, line - mark.feeds);
    (mark.place + start, shown)
}

/// The place that a position names.
fn place_from(encoding: Encoding, text: &[u8], mark: LineMark, position: Position) -> usize
    requires { IsLineMark text.now mark.place mark.feeds }
    ensures value { result ≡ place encoding text.now position }
    ensures within { result ≤ length text.now }
{
    let from = mark_before(text, mark, position.line);
    let (start, shown) = line_from(text, from, position.line);
    start + place_of_column(encoding, shown, position.character)
}

/// The places that the ends of a range name, and a mark that is not behind the first one.
fn places_of(
    encoding: Encoding,
    text: &[u8],
    mark: LineMark,
    range: Range,
) -> (usize, usize, LineMark)
    requires { IsLineMark text.now mark.place mark.feeds }
    ensures start { result.0 ≡ place encoding text.now range.start }
    ensures end { result.1 ≡ place encoding text.now range.end }
    ensures within { (result.0 ≤ length text.now) × (result.1 ≤ length text.now) }
    ensures mark { IsLineMark text.now result.2.place result.2.feeds }
    ensures before { result.2.place ≤ result.0 }
{
    let from = mark_before(text, mark, range.start.line);
    let (first, line) = line_from(text, from, range.start.line);
    let start = first + place_of_column(encoding, line, range.start.character);
    let end = if range.end.line == range.start.line {
        first + place_of_column(encoding, line, range.end.character)
    } else {
        place_from(encoding, text, from, range.end)
    };
    (start, end, from)
}

/// Puts another text in place of the bytes from a place up to another.
fn replace(text: &mut Vec<u8>, start: usize, end: usize, new: &[u8]) -> Result<(), AllocError>
    requires order { start ≤ end }
    requires within { end ≤ length text.old.items }
    ensures ok { OnOk result (text.new.items ≡ replaced start end new.now text.old.items) }
    ensures err { OnErr result (text.new.items ≡ text.old.items) }
{
    text.splice(start..end, new.iter().copied())?;
    Ok(())
}

/// A text that parts are put into, one after another. A line is sought from the place of the last
/// part on.
#[derive(Drop)]
pub(crate) struct Edited {
    text: Vec<u8>,
    mark: LineMark,
}

impl Model for Edited {
    ghost use Rattle.std.specs.Prelude.{List, ℕ};
    ghost use Rattle.cb_lsp.specs.steps.LineMarks.{IsLineMark};

    ghost Value = { List ℕ };

    ghost view = { λ e. e.text.items };

    ghost invariant = { λ e. IsLineMark e.text.items e.mark.place e.mark.feeds };
}

impl Edited {
    /// A text, as it is.
    pub(crate) fn new(text: Vec<u8>) -> Edited
        ensures { result ≡ text.items }
    {
        Edited { text, mark: START }
    }

    /// The text.
    pub(crate) fn into_text(self) -> Vec<u8>
        ensures { result.items ≡ self }
    {
        self.text
    }

    /// Puts a text in place of a range; an end before the start counts as the start.
    pub(crate) fn put(
        &mut self,
        encoding: Encoding,
        range: Range,
        new: &[u8],
    ) -> Result<(), AllocError>
        ensures { OnOk result (self.new ≡ splice encoding self.old range new.now) }
    {
        let (start, end, mark) = places_of(encoding, self.text.as_slice(), self.mark, range);
        self.mark = mark;
        replace(&mut self.text, start, start.max(end), new)
    }
}
