//! A text in which another text is put in the place of a pattern, on marked lines.
ghost use Rattle.std.specs.Prelude.{◌≡◌, ◌≢◌, ◌≤◌, ◌+◌, ◌*◌, ◌++◌, [], IfOk, length, map};
ghost use Rattle.std.specs.Iterator.{YieldsFirstBy, item_count};
ghost use Rattle.std.specs.List.Sorted.{IsStrictlySortedBy};
ghost use Rattle.std.specs.Ordering.{nat_cmp};
ghost use Rattle.bstr.specs.Text.{lines_of, without_terminator};
ghost use Rattle.cb_desk.specs.Replacement.{marked_from, replaced_line};
ghost use Rattle.cb_desk.specs.Replacement as meant;
ghost use Rattle.cb_desk.specs.declared.bounds.TheConstants.{MOST_BYTES};
ghost use Rattle.cb_desk.specs.steps.MarkedLines.{leads, marked_line, without_first};

use crate::bounds::MOST_BYTES;
use crate::places::FileLine;
use bstr::{ByteSlice, LinesWithTerminator};
use cb_scan::Source;
use memchr::memmem::find_iter;
use std::alloc::{AllocError, Global};
use std::marker::Model;

// ---- lines

/// A line as it is shown: without its line feed and one carriage return before that.
pub(crate) fn shown(line: &[u8]) -> &[u8]
    ensures value { result.now ≡ without_terminator line.now }
    ensures within { length result.now ≤ length line.now }
{
    match line {
        [text @ .., b'\r', b'\n'] => text,
        [text @ .., b'\n'] => text,
        _ => line,
    }
}

/// The lines of a text from some line on, each with its end and with whether it is marked. The
/// marks are walked beside the lines.
#[derive(Drop)]
pub(crate) struct MarkedLines<'a> {
    lines: LinesWithTerminator<'a>,
    /// The number of the next line, from 1.
    number: u32,
    /// The marks from that line on.
    marks: &'a [FileLine],
}

impl<'a> Model for MarkedLines<'a> {
    ghost use Rattle.std.specs.Prelude.{List, ℕ, Bool, map, length, ◌≤◌, ◌+◌};
    ghost use Rattle.cb_desk.specs.declared.bounds.TheConstants.{MOST_BYTES};
    ghost use Rattle.cb_desk.specs.Replacement.{marked_from};
    ghost use Rattle.cb_desk.specs.steps.MarkedLines.{Rises};

    ghost Value = { List (List ℕ × Bool) };

    ghost view = { λ s. marked_from (map (λ m. m.line) s.marks.now) s.number s.lines };

    ghost invariant = { λ s. Rises s.number (map (λ m. m.line) s.marks.now)
        × (s.number + length s.lines ≤ MOST_BYTES + 1) };
}

/// The marks after a line, and whether the first mark is on it.
fn split_at_line<'a>(marks: &'a [FileLine], number: u32) -> (&'a [FileLine], bool)
    ensures rest { map (λ m. m.line) result.0.now
        ≡ without_first number (map (λ m. m.line) marks.now) }
    ensures marked { result.1 ≡ leads number (map (λ m. m.line) marks.now) }
{
    match marks.split_first() {
        Some((mark, more)) => {
            if mark.line == number {
                (more, true)
            } else {
                (marks, false)
            }
        }
        None => (marks, false),
    }
}

impl<'a> MarkedLines<'a> {
    /// The lines of a text. The lines of the marks ascend, each once; one that is not there is
    /// passed over.
    pub(crate) fn new(source: &'a Source, marks: &'a [FileLine]) -> MarkedLines<'a>
        requires { IsStrictlySortedBy nat_cmp (map (λ m. m.line) marks.now) }
        ensures value { result ≡ marked_from (map (λ m. m.line) marks.now) 1 (lines_of source.now) }
        ensures len { length result ≤ MOST_BYTES }
        ensures small { length source.now ≤ MOST_BYTES }
    {
        let (marks, _) = split_at_line(marks, 0);
        MarkedLines {
            lines: source.bytes().lines_with_terminator(),
            number: 1,
            marks,
        }
    }
}

impl<'a> Iterator for MarkedLines<'a> {
    type Item = (&'a [u8], bool);

    ghost next_gives = { YieldsFirstBy marked_line (λ rest. rest) };

    ghost remaining = { item_count (λ rest. rest) };

    fn next(&mut self) -> Option<(&'a [u8], bool)> {
        let line = self.lines.next()?;
        let (marks, marked) = split_at_line(self.marks, self.number);
        self.marks = marks;
        self.number += 1;
        Some((line, marked))
    }
}

// ---- texts

/// How many bytes a line has, with its end, after a replacement in it.
fn replaced_line_len(line: &[u8], old: &[u8], new: &[u8]) -> u64
    requires some { old.now ≢ [] }
    requires short { length line.now ≤ MOST_BYTES }
    requires small { length new.now ≤ MOST_BYTES }
    ensures value { result ≡ length (replaced_line old.now new.now line.now) }
    ensures within { result ≤ (MOST_BYTES + 1) * length line.now }
{
    let count = find_iter(shown(line), old).count() as u64;
    line.len() as u64 + count * new.len() as u64 - count * old.len() as u64
}

/// Adds a line, with its end, after a replacement in it.
fn put_replaced_line(
    made: &mut Vec<u8>,
    line: &[u8],
    old: &[u8],
    new: &[u8],
) -> Result<(), AllocError>
    ensures { IfOk result
        (λ _. made.new.items ≡ made.old.items ++ replaced_line old.now new.now line.now) }
{
    let text = shown(line);
    text.replace_into(old, new, made)?;
    made.extend_from_slice(&line[text.len()..])?;
    Ok(())
}

/// How many bytes a text has after a replacement on the marked lines. The lines of the marks
/// ascend, each once. It takes no memory.
pub(crate) fn replaced_len(source: &Source, old: &[u8], new: &[u8], marks: &[FileLine]) -> u64
    requires some { old.now ≢ [] }
    requires small { length new.now ≤ MOST_BYTES }
    requires ascending { IsStrictlySortedBy nat_cmp (map (λ m. m.line) marks.now) }
    ensures { result
        ≡ length (meant.replaced_text old.now new.now (map (λ m. m.line) marks.now) source.now) }
{
    let mut total = 0;
    for (line, marked) in MarkedLines::new(source, marks) {
        if marked {
            total += replaced_line_len(line, old, new);
        } else {
            total += line.len() as u64;
        }
    }
    total
}

/// A text after a replacement on the marked lines. The lines of the marks ascend, each once. One
/// allocation makes it, of its exact size.
pub(crate) fn replaced_text(
    alloc: Global,
    source: &Source,
    old: &[u8],
    new: &[u8],
    marks: &[FileLine],
) -> Result<Vec<u8>, AllocError>
    requires some { old.now ≢ [] }
    requires small { length new.now ≤ MOST_BYTES }
    requires ascending { IsStrictlySortedBy nat_cmp (map (λ m. m.line) marks.now) }
    ensures { IfOk result (λ made. made.items ≡ meant.replaced_text old.now new.now
        (map (λ m. m.line) marks.now) source.now) }
{
    let mut made = Vec::with_capacity(alloc, replaced_len(source, old, new, marks) as usize)?;
    for (line, marked) in MarkedLines::new(source, marks) {
        if marked {
            put_replaced_line(&mut made, line, old, new)?;
        } else {
            made.extend_from_slice(line)?;
        }
    }
    Ok(made)
}
