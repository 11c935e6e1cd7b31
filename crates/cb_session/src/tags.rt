//! Tags files and listings, and the replies that show them.
ghost use Rattle.std.specs.Prelude.{◌≡◌};
ghost use Rattle.std.specs.List.{flat_map};
ghost use Rattle.cb_tags.specs.TagLines.{tag_of, listing_line};
ghost use Rattle.cb_session.specs.Writing.{Puts};
ghost use Rattle.cb_session.specs.Output.{tags_reply, listing_reply};
ghost use Rattle.cb_desk.specs.Tags.{tag_line, heads, head_count, tags_text, listing_text};

use crate::Fault;
use crate::reply::put_count;
use cb_desk::{Format, TagRows};
use cb_tags::{Sink, TagRow, put_extended, put_heads, put_listing, put_plain};
use std::io::Write;

/// Writes the lines that a tags file begins with.
fn put_heads_of<W: Write>(out: &mut Sink<W>, format: Format) -> Result<(), Fault>
    ensures { Puts out.old out.new result (heads format) }
{
    match format {
        Format::Plain => Ok(()),
        Format::Extended => Ok(put_heads(out)?),
    }
}

/// How many these are.
fn head_count(format: Format) -> u128
    ensures { result ≡ head_count format }
{
    match format {
        Format::Plain => 0,
        Format::Extended => 2,
    }
}

/// Writes the line of a row.
fn put_tag<W: Write>(out: &mut Sink<W>, format: Format, row: &TagRow<'_>) -> Result<(), Fault>
    ensures { Puts out.old out.new result (tag_line format (tag_of row.now)) }
{
    match format {
        Format::Plain => Ok(put_plain(out, row)?),
        Format::Extended => Ok(put_extended(out, row)?),
    }
}

/// Writes the lines of rows, one after another.
fn put_tags<W: Write>(out: &mut Sink<W>, format: Format, rows: TagRows<'_>) -> Result<(), Fault>
    ensures { Puts out.old out.new result (flat_map (tag_line format) rows.entry) }
{
    for row in rows {
        put_tag(out, format, &row)?;
    }
    Ok(())
}

/// Writes a tags file.
pub fn put_tags_file<W: Write>(
    out: &mut Sink<W>,
    format: Format,
    rows: TagRows<'_>,
) -> Result<(), Fault>
    ensures { Puts out.old out.new result (tags_text format rows.entry) }
{
    put_heads_of(out, format)?;
    put_tags(out, format, rows)
}

/// Writes the line of a row in a listing.
fn put_listed<W: Write>(out: &mut Sink<W>, row: &TagRow<'_>) -> Result<(), Fault>
    ensures { Puts out.old out.new result (listing_line (tag_of row.now)) }
{
    Ok(put_listing(out, row)?)
}

/// Writes a listing.
pub fn put_listing_file<W: Write>(out: &mut Sink<W>, rows: TagRows<'_>) -> Result<(), Fault>
    ensures { Puts out.old out.new result (listing_text rows.entry) }
{
    for row in rows {
        put_listed(out, &row)?;
    }
    Ok(())
}

/// Writes the reply that shows a tags file.
pub(crate) fn put_tags_reply<W: Write>(
    out: &mut Sink<W>,
    format: Format,
    tags: TagRows<'_>,
) -> Result<(), Fault>
    ensures { Puts out.old out.new result (tags_reply format tags.entry) }
{
    put_count(out, tags.len() as u128 + head_count(format))?;
    put_tags_file(out, format, tags)
}

/// Writes the reply that shows a listing.
pub(crate) fn put_listing_reply<W: Write>(out: &mut Sink<W>, tags: TagRows<'_>) -> Result<(), Fault>
    ensures { Puts out.old out.new result (listing_reply tags.entry) }
{
    put_count(out, tags.len() as u128)?;
    put_listing_file(out, tags)
}
