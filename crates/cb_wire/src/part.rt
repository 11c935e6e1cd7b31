//! The parts of a message that is written.
ghost use Rattle.std.specs.Prelude.{◌≡◌, ◌≤◌, ◌<◌, ◌*◌, ◌^◌, length};
ghost use Rattle.cb_tags.specs.Writing.{Puts};
ghost use Rattle.json.specs.Print.{escape, escape_byte, escape_letter, quoted};
ghost use Rattle.std.specs.Char.{digit_char};
ghost use Rattle.bstr.specs.Utf8.{decoded};
ghost use Rattle.cb_wire.specs.Texts.{frame, frame_head, id_text, part_text, parts_text, readable};
ghost use Rattle.cb_wire.specs.Texts.{sequence_size, sequence_text};

use crate::range::{number_length, put_number, put_range, range_length};
use crate::uri::escaped_length;
use crate::{Id, Range, Root, put_escaped};
use bstr::decode_utf8;
use cb_tags::{Sink, WriteFault, put_text, put_texts};
use itoa::Buffer;
use std::io::Write;

/// A part of a message.
#[derive(Clone, Copy, Debug)]
pub enum Part<'a> {
    /// Bytes as they are.
    Raw(&'a [u8]),
    /// UTF-8 inside a string of JSON.
    Escaped(&'a [u8]),
    /// Bytes of a source inside a string of JSON: those that are no UTF-8 are U+FFFD.
    Source(&'a [u8]),
    /// The id of a request.
    Id(Id<'a>),
    /// A number.
    Number(usize),
    /// The URI of a name below a root, inside a string of JSON.
    Uri(&'a Root, &'a [u8]),
    /// A range, as the protocol writes it.
    Range(Range),
    /// A path with escapes as in a URI, inside a string of JSON.
    Path(&'a [u8]),
}

/// The letter of a short escape, or 0 where a byte has none.
fn escape_letter(byte: u8) -> u8
    ensures { result ≡ escape_letter byte }
{
    match byte {
        b'"' | b'\\' => byte,
        0x08 => b'b',
        0x0C => b'f',
        b'\n' => b'n',
        b'\r' => b'r',
        b'\t' => b't',
        _ => 0,
    }
}

/// A hexadecimal digit.
fn digit(value: u8) -> u8
    requires { value ≤ 15 }
    ensures { result ≡ digit_char value }
{
    if value < 10 {
        b'0' + value
    } else {
        b'a' + (value - 10)
    }
}

/// Writes a byte inside a string of JSON.
#[tactic(auto, unfolding(json::specs::Print::escape_byte))]
fn put_byte<W: Write>(out: &mut Sink<W>, byte: u8) -> Result<(), WriteFault>
    ensures { Puts out.old out.new result (escape_byte byte) }
{
    let letter = escape_letter(byte);
    if letter > 0 {
        put_text(out, &[b'\\', letter])
    } else if byte < 32 {
        let (high, low) = (digit(byte / 16), digit(byte % 16));
        put_text(out, &[b'\\', b'u', b'0', b'0', high, low])
    } else {
        put_text(out, &[byte])
    }
}

/// Writes UTF-8 inside a string of JSON, where it takes so many bytes: as it is, where no byte takes
/// more than one.
pub(crate) fn put_sized<W: Write>(
    out: &mut Sink<W>,
    text: &[u8],
    size: u128,
) -> Result<(), WriteFault>
    requires { size ≡ length (escape text.now) }
    ensures { Puts out.old out.new result (escape text.now) }
{
    if size == text.len() as u128 {
        return put_text(out, text);
    }
    for byte in text {
        put_byte(out, *byte)?;
    }
    Ok(())
}

/// Writes UTF-8 inside a string of JSON.
pub(crate) fn put_json<W: Write>(out: &mut Sink<W>, text: &[u8]) -> Result<(), WriteFault>
    ensures { Puts out.old out.new result (escape text.now) }
{
    put_sized(out, text, json_length(text))
}

/// How many bytes a byte takes inside a string of JSON.
#[tactic(auto, unfolding(json::specs::Print::escape_byte))]
fn byte_length(byte: u8) -> u128
    ensures value { result ≡ length (escape_byte byte) }
    ensures few { result ≤ 6 }
{
    if escape_letter(byte) > 0 {
        2
    } else if byte < 32 {
        6
    } else {
        1
    }
}

/// How many bytes a text takes inside a string of JSON.
pub(crate) fn json_length(text: &[u8]) -> u128
    ensures value { result ≡ length (escape text.now) }
    ensures few { result ≤ 6 * length text.now }
{
    let mut total = 0u128;
    for byte in text {
        total += byte_length(*byte);
    }
    total
}

/// What stands for the front of some bytes: a well-formed sequence, or U+FFFD for a byte.
fn sequence(bytes: &[u8]) -> (&[u8], usize)
    requires { 0 < length bytes.now }
    ensures text { result.0.now
        ≡ sequence_text (decoded bytes.now).char (decoded bytes.now).size bytes.now }
    ensures size { result.1 ≡ sequence_size (decoded bytes.now).char (decoded bytes.now).size }
    ensures within { (1 ≤ result.1) × (result.1 ≤ length bytes.now) }
    ensures few { length result.0.now ≤ 3 * result.1 }
{
    match decode_utf8(bytes) {
        (Some(_), size) => (bytes.split_at(size).0, size),
        (None, _) => (b"\xEF\xBF\xBD", 1),
    }
}

/// Writes bytes of a source inside a string of JSON.
fn put_source<W: Write>(out: &mut Sink<W>, bytes: &[u8]) -> Result<(), WriteFault>
    ensures { Puts out.old out.new result (escape (readable bytes.now)) }
{
    if bytes.is_ascii() {
        return put_json(out, bytes);
    }
    let mut rest = bytes;
    'sequences: while rest.len() > 0 {
        let (text, size) = sequence(rest);
        put_json(out, text)?;
        rest = rest.split_at(size).1;
    }
    Ok(())
}

/// How many bytes those of a source take inside a string of JSON.
fn source_length(bytes: &[u8]) -> u128
    ensures value { result ≡ length (escape (readable bytes.now)) }
    ensures few { result ≤ 18 * length bytes.now }
{
    if bytes.is_ascii() {
        return json_length(bytes);
    }
    let mut rest = bytes;
    let mut total = 0u128;
    'sequences: while rest.len() > 0 {
        let (text, size) = sequence(rest);
        total += json_length(text);
        rest = rest.split_at(size).1;
    }
    total
}

/// Writes an id.
fn put_id<W: Write>(out: &mut Sink<W>, id: &Id<'_>) -> Result<(), WriteFault>
    ensures { Puts out.old out.new result (id_text id.now) }
{
    match id {
        Id::Number(text) => put_text(out, text.as_bytes()),
        Id::Text(text) => put_quoted(out, text.as_bytes()),
    }
}

/// Writes a string of JSON.
fn put_quoted<W: Write>(out: &mut Sink<W>, text: &[u8]) -> Result<(), WriteFault>
    ensures { Puts out.old out.new result (quoted text.now) }
{
    put_text(out, b"\"")?;
    put_json(out, text)?;
    put_text(out, b"\"")
}

/// How many bytes an id takes.
fn id_length(id: &Id<'_>) -> u128
    ensures value { result ≡ length (id_text id.now) }
    ensures few { result < 2 ^ 69 }
{
    match id {
        Id::Number(text) => text.len() as u128,
        Id::Text(text) => json_length(text.as_bytes()) + 2,
    }
}

/// Writes a part.
fn put_part<W: Write>(out: &mut Sink<W>, part: &Part<'_>) -> Result<(), WriteFault>
    ensures { Puts out.old out.new result (part_text part.now) }
{
    match part {
        Part::Raw(text) => put_text(out, text),
        Part::Escaped(text) => put_json(out, text),
        Part::Source(bytes) => put_source(out, bytes),
        Part::Id(id) => put_id(out, id),
        Part::Number(number) => put_number(out, *number),
        Part::Uri(root, name) => root.put_uri_inside(out, name),
        Part::Range(range) => put_range(out, *range),
        Part::Path(path) => put_escaped(out, path),
    }
}

/// Writes parts, one after another.
pub fn put_parts<W: Write>(out: &mut Sink<W>, parts: &[Part<'_>]) -> Result<(), WriteFault>
    ensures { Puts out.old out.new result (parts_text parts.now) }
{
    for part in parts {
        put_part(out, part)?;
    }
    Ok(())
}

/// How many bytes a part takes.
pub fn part_length(part: &Part<'_>) -> u128
    ensures value { result ≡ length (part_text part.now) }
    ensures few { result < 2 ^ 69 }
{
    match part {
        Part::Raw(text) => text.len() as u128,
        Part::Escaped(text) => json_length(text),
        Part::Source(bytes) => source_length(bytes),
        Part::Id(id) => id_length(id),
        Part::Number(number) => number_length(*number),
        Part::Uri(root, name) => root.uri_length_inside(name),
        Part::Range(range) => range_length(*range),
        Part::Path(path) => escaped_length(path),
    }
}

/// How many bytes parts take.
pub fn parts_length(parts: &[Part<'_>]) -> u128
    requires { length parts.now ≤ 64 }
    ensures value { result ≡ length (parts_text parts.now) }
    ensures few { result < 2 ^ 76 }
    ensures each { result ≤ 2 ^ 69 * length parts.now }
{
    let mut total = 0u128;
    for part in parts {
        total += part_length(part);
    }
    total
}

/// Writes the head of a message with so many bytes.
pub(crate) fn put_head<W: Write>(out: &mut Sink<W>, length: u128) -> Result<(), WriteFault>
    ensures { Puts out.old out.new result (frame_head length) }
{
    let mut digits = Buffer::new();
    let digits = digits.format(length).as_bytes();
    put_texts(out, &[b"Content-Length: ", digits, b"\r\n\r\n"])
}

/// Writes a message with a body of these parts.
pub fn put_message<W: Write>(out: &mut Sink<W>, parts: &[Part<'_>]) -> Result<(), WriteFault>
    requires { length parts.now ≤ 64 }
    ensures { Puts out.old out.new result (frame (parts_text parts.now)) }
{
    put_head(out, parts_length(parts))?;
    put_parts(out, parts)
}
