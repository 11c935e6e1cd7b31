//! The lines of a tags file and of a listing.
ghost use Rattle.std.specs.Prelude.{◌≡◌, ◌++◌};
ghost use Rattle.std.specs.List.{flat_map};
ghost use Rattle.cb_tags.specs.Addresses.{address};
ghost use Rattle.cb_tags.specs.TagLines.{tag_of, plain_line, kind_letter, file_field, fields};
ghost use Rattle.cb_tags.specs.TagLines.{scope_field, scope_word, extended_line, listing_line};
ghost use Rattle.cb_tags.specs.TagLines.{head_lines};
ghost use Rattle.cb_tags.specs.Writing.{Puts};

use crate::address::put_address;
use crate::sink::{Sink, WriteFault};
use crate::tag_name::tag_name;
use crate::text::{put_text, put_texts};
use cb_scan::Kind;
use itoa::Buffer;
use std::io::Write;

/// The body of a structure, union or enumeration that a definition is in: of which kind it is, and
/// its tag.
#[derive(Clone, Copy, Debug, PartialEq, Eq)]
pub struct Scope<'a> {
    pub kind: Kind,
    pub name: &'a [u8],
}

/// A definition as a tags file has it: its name, its file, its line (from 1) and the whole shown
/// text of that line, its kind, whether it is `static`, and the body that it is in, if that has a
/// tag; and the byte of the text at which the name begins, from 0, which no line tells.
#[derive(Clone, Copy, Debug, PartialEq, Eq)]
pub struct TagRow<'a> {
    pub name: &'a [u8],
    pub file: &'a [u8],
    pub place: u32,
    pub line: u32,
    pub text: &'a [u8],
    pub kind: Kind,
    pub local: bool,
    pub scope: Option<Scope<'a>>,
}

/// Writes the address of a line that reads so, between other texts.
fn put_around<W: Write>(
    out: &mut Sink<W>,
    before: &[&[u8]],
    text: &[u8],
    after: &[&[u8]],
) -> Result<(), WriteFault>
    ensures { Puts out.old out.new result (flat_map (λ part. part.now) before.now
        ++ (address text.now ++ flat_map (λ part. part.now) after.now)) }
{
    put_texts(out, before)?;
    put_address(out, text)?;
    put_texts(out, after)
}

/// Writes the plain line of a row: tag name, file and address.
pub fn put_plain<W: Write>(out: &mut Sink<W>, row: &TagRow<'_>) -> Result<(), WriteFault>
    ensures { Puts out.old out.new result (plain_line (tag_of row.now)) }
{
    let name = tag_name(row.name, row.file);
    put_around(
        out,
        &[name.first, name.rest, b"\t", row.file, b"\t"],
        row.text,
        &[b"\n"],
    )
}

/// The letter of a kind.
fn kind_letter(kind: Kind) -> &'static [u8]
    ensures { result.now ≡ kind_letter kind }
{
    match kind {
        Kind::Function => b"f",
        Kind::Macro => b"d",
        Kind::Typedef => b"t",
        Kind::Struct => b"s",
        Kind::Union => b"u",
        Kind::Enum => b"g",
        Kind::Enumerator => b"e",
        Kind::Member => b"m",
        Kind::Variable => b"v",
        Kind::External => b"x",
        Kind::Prototype => b"p",
    }
}

/// The field of a definition that only its file sees; nothing for any other.
fn file_field(row: &TagRow<'_>) -> &'static [u8]
    ensures { result.now ≡ file_field (tag_of row.now) }
{
    match row.kind {
        Kind::Function | Kind::Variable | Kind::Prototype if row.local => b"\tfile:",
        _ => b"",
    }
}

/// What begins the field of a body.
fn scope_word(kind: Kind) -> &'static [u8]
    ensures { result.now ≡ scope_word kind }
{
    match kind {
        Kind::Union => b"\tunion:",
        Kind::Enum => b"\tenum:",
        _ => b"\tstruct:",
    }
}

/// Writes two texts.
fn put_two<W: Write>(out: &mut Sink<W>, first: &[u8], second: &[u8]) -> Result<(), WriteFault>
    ensures { Puts out.old out.new result (first.now ++ second.now) }
{
    put_text(out, first)?;
    put_text(out, second)
}

/// Writes the field of the body that a definition is in.
fn put_scope<W: Write>(out: &mut Sink<W>, row: &TagRow<'_>) -> Result<(), WriteFault>
    ensures { Puts out.old out.new result (scope_field (tag_of row.now)) }
{
    match &row.scope {
        Some(scope) => put_two(out, scope_word(scope.kind), scope.name),
        None => Ok(()),
    }
}

/// Writes the field of the body that a definition is in, between other texts.
fn put_scope_around<W: Write>(
    out: &mut Sink<W>,
    before: &[&[u8]],
    row: &TagRow<'_>,
    after: &[&[u8]],
) -> Result<(), WriteFault>
    ensures { Puts out.old out.new result (flat_map (λ part. part.now) before.now
        ++ (scope_field (tag_of row.now) ++ flat_map (λ part. part.now) after.now)) }
{
    put_texts(out, before)?;
    put_scope(out, row)?;
    put_texts(out, after)
}

/// Writes the fields of an extended line.
fn put_fields<W: Write>(out: &mut Sink<W>, row: &TagRow<'_>) -> Result<(), WriteFault>
    ensures { Puts out.old out.new result (fields (tag_of row.now)) }
{
    let mut digits = Buffer::new();
    let line = digits.format(row.line).as_bytes();
    put_scope_around(
        out,
        &[b";\"\t", kind_letter(row.kind), b"\tline:", line],
        row,
        &[file_field(row), b"\n"],
    )
}

/// Writes the address of a row and the fields of its extended line, after other texts.
fn put_row<W: Write>(
    out: &mut Sink<W>,
    before: &[&[u8]],
    row: &TagRow<'_>,
) -> Result<(), WriteFault>
    ensures { Puts out.old out.new result (flat_map (λ part. part.now) before.now
        ++ (address row.now.text.now ++ fields (tag_of row.now))) }
{
    put_texts(out, before)?;
    put_address(out, row.text)?;
    put_fields(out, row)
}

/// Writes the extended line of a row: name, file and address, then the fields for the kind, the
/// line, the body around, and the file.
pub fn put_extended<W: Write>(out: &mut Sink<W>, row: &TagRow<'_>) -> Result<(), WriteFault>
    ensures { Puts out.old out.new result (extended_line (tag_of row.now)) }
{
    put_row(out, &[row.name, b"\t", row.file, b"\t"], row)
}

/// Writes the line of a row in a listing: name, line, file and text.
pub fn put_listing<W: Write>(out: &mut Sink<W>, row: &TagRow<'_>) -> Result<(), WriteFault>
    ensures { Puts out.old out.new result (listing_line (tag_of row.now)) }
{
    let mut digits = Buffer::new();
    let line = digits.format(row.line).as_bytes();
    put_texts(
        out,
        &[row.name, b" ", line, b" ", row.file, b" ", row.text, b"\n"],
    )
}

/// Writes the two lines that an extended file begins with.
pub fn put_heads<W: Write>(out: &mut Sink<W>) -> Result<(), WriteFault>
    ensures { Puts out.old out.new result head_lines }
{
    put_texts(
        out,
        &[
            b"!_TAG_FILE_FORMAT\t2\t/extended format; --format=1 will not append ;\" to lines/\n",
            b"!_TAG_FILE_SORTED\t1\t/0=unsorted, 1=sorted, 2=foldcase/\n",
        ],
    )
}
