//! Positions in a text.
ghost use Rattle.std.specs.Prelude.{◌≡◌, ◌≤◌, ◌+◌, length};
ghost use Rattle.bstr.specs.Text.{without_terminator};
ghost use Rattle.cb_wire.specs.Positions.{line_start, place, position, shown_line};

use crate::units::before;
use crate::{Encoding, column_of_place, place_of_column};
use bstr::ByteSlice;

/// A line, counted from 0, and a column in it.
#[derive(Clone, Copy, Debug, PartialEq, Eq)]
pub struct Position {
    pub line: usize,
    pub character: usize,
}

/// What stands from one position up to another.
#[derive(Clone, Copy, Debug, PartialEq, Eq)]
pub struct Range {
    pub start: Position,
    pub end: Position,
}

/// A line without its line feed and one carriage return before that.
fn shown(line: &[u8]) -> &[u8]
    ensures value { result.now ≡ without_terminator line.now }
    ensures within { length result.now ≤ length line.now }
{
    match line {
        [text @ .., b'\r', b'\n'] => text,
        [text @ .., b'\n'] => text,
        _ => line,
    }
}

/// Where the line of that number begins, counted from 0, and the line as it is shown; past the last
/// line the end of the text, and nothing.
pub fn line_at(text: &[u8], line: usize) -> (usize, &[u8])
    ensures start { result.0 ≡ line_start text.now line }
    ensures shown { result.1.now ≡ shown_line text.now line }
    ensures within { result.0 + length result.1.now ≤ length text.now }
{
    let mut start = 0;
    let mut left = line;
    'lines: for found in text.lines_with_terminator() {
        if left == 0 {
            return (start, shown(found));
        }
        left -= 1;
        start += found.len();
    }
    (start, b"")
}

/// The position of a place in a text. It takes time linear in the text.
pub fn position_of_place(encoding: Encoding, text: &[u8], place: usize) -> Position
    ensures { result ≡ position encoding text.now place }
{
    let line = before(text, place)
        .iter()
        .filter(|byte| **byte == b'\n')
        .count();
    let (start, shown) = line_at(text, line);
    Position {
        line,
        character: column_of_place(encoding, shown, place.saturating_sub(start)),
    }
}

/// The place that a position names. It takes time linear in the text.
pub fn place_of_position(encoding: Encoding, text: &[u8], position: Position) -> usize
    ensures value { result ≡ place encoding text.now position }
    ensures within { result ≤ length text.now }
{
    let (start, shown) = line_at(text, position.line);
    start + place_of_column(encoding, shown, position.character)
}
