//! Numbers and ranges as they are written.
ghost use Rattle.std.specs.Prelude.{◌≡◌, ◌≤◌, decimal, length};
ghost use Rattle.cb_tags.specs.Writing.{Puts};
ghost use Rattle.cb_wire.specs.Values.{position_tree, range_tree, value_text};

use crate::{Position, Range};
use cb_tags::{Sink, WriteFault, put_text, put_texts};
use itoa::Buffer;
use std::io::Write;

/// Writes a number.
pub(crate) fn put_number<W: Write>(out: &mut Sink<W>, number: usize) -> Result<(), WriteFault>
    ensures { Puts out.old out.new result (decimal number) }
{
    let mut digits = Buffer::new();
    put_text(out, digits.format(number).as_bytes())
}

/// How many bytes a number takes.
pub(crate) fn number_length(number: usize) -> u128
    ensures value { result ≡ length (decimal number) }
    ensures few { result ≤ 40 }
{
    let mut digits = Buffer::new();
    digits.format(number).len() as u128
}

/// How many bytes a position takes.
fn position_length(position: Position) -> u128
    ensures value { result ≡ length (value_text (position_tree position)) }
    ensures few { result ≤ 102 }
{
    number_length(position.line) + number_length(position.character) + 22
}

/// Writes a range.
pub(crate) fn put_range<W: Write>(out: &mut Sink<W>, range: Range) -> Result<(), WriteFault>
    ensures { Puts out.old out.new result (value_text (range_tree range)) }
{
    let (mut first_line, mut first_character) = (Buffer::new(), Buffer::new());
    let (mut last_line, mut last_character) = (Buffer::new(), Buffer::new());
    let first_line = first_line.format(range.start.line).as_bytes();
    let first_character = first_character.format(range.start.character).as_bytes();
    let last_line = last_line.format(range.end.line).as_bytes();
    let last_character = last_character.format(range.end.character).as_bytes();
    put_texts(
        out,
        &[
            b"{\"start\":{\"line\":",
            first_line,
            b",\"character\":",
            first_character,
            b"},\"end\":{\"line\":",
            last_line,
            b",\"character\":",
            last_character,
            b"}}",
        ],
    )
}

/// How many bytes a range takes.
pub(crate) fn range_length(range: Range) -> u128
    ensures value { result ≡ length (value_text (range_tree range)) }
    ensures few { result ≤ 221 }
{
    position_length(range.start) + position_length(range.end) + 17
}
