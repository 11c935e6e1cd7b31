//! The replies: the texts that they are made of, answers to questions, the marks and the tag stack.
ghost use Rattle.std.specs.List.{flat_map};
ghost use Rattle.std.specs.Prelude.{◌≡◌, IfOk, false, ◌≢◌, []};
ghost use Rattle.cb_desk.specs.Answer.{answer};
ghost use Rattle.cb_desk.specs.Models.{row_of, place_at};
ghost use Rattle.cb_desk.specs.Tags.{tags};
ghost use Rattle.cb_desk.specs.declared.rows.Format.TheVariants.{Extended};
ghost use Rattle.cb_session.specs.Output.{row_line, answer_lines, count_line, done_line};
ghost use Rattle.cb_session.specs.Output.{refused_line, prompt, listing_reply, tags_reply};
ghost use Rattle.cb_session.specs.Places.{place_row, mark_rows, stack_rows};
ghost use Rattle.cb_session.specs.Writing.{Puts};
ghost use Rattle.cb_session.specs.steps.Rounds.{move_line};

use crate::Fault;
use crate::tags::{put_listing_reply, put_tags_reply};
use cb_desk::{Desk, Field, Format, RefRow, Refusal, Rows, line_row};
use cb_tags::{Sink, put_text, put_texts};
use itoa::Buffer;
use std::io::Write;

// ---- texts and rows

/// Writes a whole text.
fn put<W: Write>(out: &mut Sink<W>, text: &[u8]) -> Result<(), Fault>
    ensures { Puts out.old out.new result text.now }
{
    put_text(out, text)?;
    Ok(())
}

/// Writes texts, one after another.
pub fn put_all<W: Write>(out: &mut Sink<W>, texts: &[&[u8]]) -> Result<(), Fault>
    ensures { Puts out.old out.new result (flat_map (λ text. text.now) texts.now) }
{
    put_texts(out, texts)?;
    Ok(())
}

/// Writes the prompt, and hands it on.
pub fn put_prompt<W: Write>(out: &mut Sink<W>) -> Result<(), Fault>
    ensures put { Puts out.old out.new result prompt }
    ensures handed_on { IfOk result (λ _. out.new.pending ≡ false) }
{
    put(out, b">> ")?;
    out.flush()?;
    Ok(())
}

/// Writes the reply to a command that is done.
fn put_done<W: Write>(out: &mut Sink<W>) -> Result<(), Fault>
    ensures { Puts out.old out.new result done_line }
{
    put(out, b"cscope: done\n")
}

/// Writes the reply to what is refused.
pub fn put_refusal<W: Write>(out: &mut Sink<W>, refusal: Refusal) -> Result<(), Fault>
    ensures { Puts out.old out.new result (refused_line refusal) }
{
    put_all(
        out,
        &[b"cscope: refused: ", refusal.text().as_bytes(), b"\n"],
    )
}

/// Writes the reply to a move of the timeline.
pub fn put_move<W: Write>(out: &mut Sink<W>, done: Result<(), Refusal>) -> Result<(), Fault>
    ensures { Puts out.old out.new result (move_line done_line done) }
{
    match done {
        Ok(()) => put_done(out),
        Err(refusal) => put_refusal(out, refusal),
    }
}

/// Writes a row: its four columns with single spaces between them, and a line feed.
pub fn put_row<W: Write>(out: &mut Sink<W>, row: &RefRow<'_>) -> Result<(), Fault>
    ensures { Puts out.old out.new result (row_line (row_of row.now)) }
{
    let mut digits = Buffer::new();
    let line = digits.format(row.line).as_bytes();
    put_all(
        out,
        &[
            row.file,
            b" ",
            row.function,
            b" ",
            line,
            b" ",
            row.text,
            b"\n",
        ],
    )
}

/// Writes how many lines there are.
pub fn put_count<W: Write>(out: &mut Sink<W>, count: u128) -> Result<(), Fault>
    ensures { Puts out.old out.new result (count_line count) }
{
    let mut digits = Buffer::new();
    let count = digits.format(count).as_bytes();
    put_all(out, &[b"cscope: ", count, b" lines\n"])
}

/// Writes the reply to a query: how many rows there are, and the rows. It takes no memory.
pub(crate) fn put_rows<W: Write>(out: &mut Sink<W>, rows: Rows<'_, '_>) -> Result<(), Fault>
    ensures { Puts out.old out.new result (answer_lines rows.entry) }
{
    let count = rows.count_left();
    put_count(out, count as u128)?;
    let mut left = rows;
    // The texts after the last row are not searched once more.
    'rows: for _row in 0..count {
        match left.next() {
            Some(row) => put_row(out, &row)?,
            None => {}
        }
    }
    Ok(())
}

/// Writes rows, one after another.
pub fn put_answer<W: Write>(out: &mut Sink<W>, rows: Rows<'_, '_>) -> Result<(), Fault>
    ensures { Puts out.old out.new result (flat_map row_line rows.entry) }
{
    for row in rows {
        put_row(out, &row)?;
    }
    Ok(())
}

// ---- answers: what a question reads is put in order first, where it has many rows

/// Writes the rows that answer a question. It takes no memory.
pub(crate) fn put_query<W: Write>(
    out: &mut Sink<W>,
    desk: &mut Desk,
    field: Field,
    pattern: &[u8],
) -> Result<(), Fault>
    requires { pattern.now ≢ [] }
    ensures timeline { desk.new.timeline ≡ desk.old.timeline }
    ensures meter { desk.new.meter ≡ desk.old.meter }
    ensures turns { desk.new.turns ≡ desk.old.turns }
    ensures written { Puts out.old out.new result
        (answer_lines (answer desk.old.timeline.present field pattern.now)) }
{
    desk.settle(field);
    put_rows(out, desk.rows(field, pattern))
}

/// Writes the tags of a format. It takes no memory.
pub(crate) fn put_tags<W: Write>(
    out: &mut Sink<W>,
    desk: &mut Desk,
    format: Format,
) -> Result<(), Fault>
    ensures timeline { desk.new.timeline ≡ desk.old.timeline }
    ensures meter { desk.new.meter ≡ desk.old.meter }
    ensures turns { desk.new.turns ≡ desk.old.turns }
    ensures written { Puts out.old out.new result
        (tags_reply format (tags format desk.old.timeline.present)) }
{
    desk.settle_tags(format);
    put_tags_reply(out, format, desk.tag_rows(format))
}

/// Writes the listing. It takes no memory.
pub(crate) fn put_listing<W: Write>(out: &mut Sink<W>, desk: &mut Desk) -> Result<(), Fault>
    ensures timeline { desk.new.timeline ≡ desk.old.timeline }
    ensures meter { desk.new.meter ≡ desk.old.meter }
    ensures turns { desk.new.turns ≡ desk.old.turns }
    ensures written { Puts out.old out.new result
        (listing_reply (tags Extended desk.old.timeline.present)) }
{
    desk.settle_tags(Format::Extended);
    put_listing_reply(out, desk.tag_rows(Format::Extended))
}

// ---- the marks and the tag stack

/// The row of a place.
fn place_row<'a>(desk: &'a Desk, file: &'a [u8], line: u32) -> RefRow<'a>
    ensures { row_of result
        ≡ place_row desk.now.timeline.present.files (place_at (file.entry, line)) }
{
    match desk.source(file) {
        Some(source) => line_row(file, source, line),
        None => RefRow {
            file,
            function: b"<unknown>",
            line,
            text: b"",
        },
    }
}

/// Writes the reply that shows the marks. It takes no memory.
pub fn put_marks<W: Write>(out: &mut Sink<W>, desk: &Desk) -> Result<(), Fault>
    ensures { Puts out.old out.new result (answer_lines (mark_rows desk.now.timeline.present)) }
{
    put_count(out, desk.marks().len() as u128)?;
    for (file, line) in desk.marks() {
        put_row(out, &place_row(desk, file, line))?;
    }
    Ok(())
}

/// Writes the rows of the frames, from the top of the stack down.
fn put_frames<W: Write>(out: &mut Sink<W>, desk: &Desk) -> Result<(), Fault>
    ensures { Puts out.old out.new result
        (flat_map row_line (stack_rows desk.now.timeline.present)) }
{
    let mut frames = desk.frames();
    while let Some((file, line)) = frames.next_back() {
        put_row(out, &place_row(desk, file, line))?;
    }
    Ok(())
}

/// Writes the reply that shows the tag stack. It takes no memory.
pub fn put_stack<W: Write>(out: &mut Sink<W>, desk: &Desk) -> Result<(), Fault>
    ensures { Puts out.old out.new result (answer_lines (stack_rows desk.now.timeline.present)) }
{
    put_count(out, desk.frames().len() as u128)?;
    put_frames(out, desk)
}
