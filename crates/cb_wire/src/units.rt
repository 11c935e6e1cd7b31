//! Columns of a line.
ghost use Rattle.std.specs.Prelude.{◌≡◌, ◌≤◌, ◌<◌, ◌==◌, cond, drop, length, take, IfNone};
ghost use Rattle.std.specs.Prelude.{IfSome, IsTrue};
ghost use Rattle.std.specs.Str.{IsAscii};
ghost use Rattle.cb_wire.specs.steps.Runs.{IsRun};
ghost use Rattle.cb_wire.specs.Units.{column, first, place_in_line};

use bstr::decode_utf8;

/// What a column counts.
#[derive(Clone, Copy, Debug, PartialEq, Eq)]
pub enum Encoding {
    /// Bytes.
    Utf8,
    /// Units of UTF-16, two for a character of four bytes; a byte that belongs to no well-formed
    /// sequence of UTF-8 is one unit.
    Utf16,
}

/// A character of a line: how many bytes it has, and how many units.
#[derive(Clone, Copy, Debug, PartialEq, Eq)]
struct Character {
    bytes: usize,
    units: usize,
}

/// The units of a well-formed sequence in UTF-16.
fn sequence_units(size: usize) -> usize
    ensures { result ≡ cond (size == 4) 2 1 }
{
    if size == 4 { 2 } else { 1 }
}

/// The sequence or the byte at the front of a line.
fn front(encoding: Encoding, line: &[u8]) -> Character
    ensures { result ≡ first encoding line.now }
{
    if encoding == Encoding::Utf16 {
        if let (Some(_), size) = decode_utf8(line) {
            return Character {
                bytes: size,
                units: sequence_units(size),
            };
        }
    }
    Character { bytes: 1, units: 1 }
}

/// The first character of a line, unless the line is empty.
fn first(encoding: Encoding, line: &[u8]) -> Option<Character>
    ensures end { IfNone result (length line.now ≡ 0) }
    ensures some { IfSome result (λ c. 0 < length line.now) }
    ensures value { IfSome result (λ c. c ≡ first encoding line.now) }
    ensures units { IfSome result (λ c. (1 ≤ c.units) × (c.units ≤ c.bytes)) }
    ensures within { IfSome result (λ c. c.bytes ≤ length line.now) }
{
    if line.is_empty() {
        return None;
    }
    Some(front(encoding, line))
}

/// So many bytes of ASCII at the front of a line are passed over at once.
const BLOCK: usize = 64;

/// Whether a line begins with a block of ASCII, for which there is room.
fn begins_with_block(line: &[u8], room: usize) -> bool
    ensures { IsTrue result → (64 ≤ room) × (64 ≤ length line.now) × IsAscii (take 64 line.now) }
{
    BLOCK <= room && (BLOCK <= line.len() && line.split_at(BLOCK).0.is_ascii())
}

/// What a line begins with, unless it is empty: a block of ASCII, for which there is room, or else
/// the first character.
fn first_run(encoding: Encoding, line: &[u8], room: usize) -> Option<Character>
    ensures end { IfNone result (length line.now ≡ 0) }
    ensures run { IfSome result (λ c. IsRun encoding line.now room c) }
    ensures within { IfSome result (λ c. (1 ≤ c.units) × (c.units ≤ c.bytes)
        × (c.bytes ≤ length line.now)) }
{
    if begins_with_block(line, room) {
        return Some(Character {
            bytes: BLOCK,
            units: BLOCK,
        });
    }
    first(encoding, line)
}

/// The bytes before a place.
pub(crate) fn before(text: &[u8], place: usize) -> &[u8]
    ensures value { result.now ≡ take place text.now }
    ensures within { length result.now ≤ length text.now }
{
    if place < text.len() {
        text.split_at(place).0
    } else {
        text
    }
}

/// The bytes after a place.
pub(crate) fn after_place(text: &[u8], place: usize) -> &[u8]
    requires { 1 ≤ place }
    ensures value { result.now ≡ drop place text.now }
    ensures shorter { 0 < length text.now → length result.now < length text.now }
{
    if place < text.len() {
        text.split_at(place).1
    } else {
        b""
    }
}

/// The column of a place in a line. Each byte of ASCII is a unit.
pub fn column_of_place(encoding: Encoding, line: &[u8], place: usize) -> usize
    ensures value { result ≡ column encoding line.now place }
    ensures within { result ≤ length line.now }
{
    let front = before(line, place);
    if front.is_ascii() {
        return front.len();
    }
    let mut rest = line;
    let mut left = place;
    let mut units = 0;
    'characters: while let Some(next) = first_run(encoding, rest, left) {
        if next.bytes > left {
            return units;
        }
        units += next.units;
        left -= next.bytes;
        rest = rest.split_at(next.bytes).1;
    }
    units
}

/// The place of a column in a line. Each byte of ASCII is a unit.
pub fn place_of_column(encoding: Encoding, line: &[u8], column: usize) -> usize
    ensures value { result ≡ place_in_line encoding line.now column }
    ensures within { result ≤ length line.now }
{
    let start = before(line, column);
    if start.is_ascii() {
        return start.len();
    }
    let mut rest = line;
    let mut left = column;
    let mut bytes = 0;
    'characters: while let Some(next) = first_run(encoding, rest, left) {
        if next.units > left {
            return bytes;
        }
        bytes += next.bytes;
        left -= next.units;
        rest = rest.split_at(next.bytes).1;
    }
    bytes
}
