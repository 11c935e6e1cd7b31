//! The lines of a text that hold another text.
ghost use Rattle.std.specs.Prelude.{◌≡◌, ◌≢◌, ◌≤◌, ◌+◌, ◌==◌, [], ◌∷◌, length, count_by};
ghost use Rattle.std.specs.Prelude.{MatchOption, ⊤};
ghost use Rattle.std.specs.Iterator.{YieldsFirst, item_count};
ghost use Rattle.cb_scan.specs.Lines.{lines};
ghost use Rattle.cb_desk.specs.declared.bounds.TheConstants.{MOST_BYTES};
ghost use Rattle.cb_desk.specs.Search.{lines_with};
ghost use Rattle.cb_desk.specs.steps.Search.{found_in, IsLineStart};

use bstr::ByteSlice;
use cb_scan::Source;
use memchr::memmem::Finder;
use memchr::{memchr_iter, memrchr};
use std::marker::Model;

/// What is left of a text from the start of a line on, and the number of that line.
#[derive(Clone, Copy)]
pub(crate) struct LinesLeft<'t> {
    rest: &'t [u8],
    /// From 1.
    line: u32,
}

impl<'t> LinesLeft<'t> {
    /// All lines of a text.
    pub(crate) fn new(source: &'t Source) -> LinesLeft<'t>
        ensures text { result.rest.now ≡ source.now }
        ensures line { result.line ≡ 1 }
        ensures len { length (lines source.now) ≤ MOST_BYTES }
    {
        LinesLeft {
            rest: source.bytes(),
            line: 1,
        }
    }
}

/// Where the line of a place begins.
fn line_start(text: &[u8], place: usize) -> usize
    requires { place ≤ length text.now }
    ensures within { result ≤ place }
    ensures start { IsLineStart text.now result }
{
    match memrchr(b'\n', &text[..place]) {
        Some(feed) => feed + 1,
        None => 0,
    }
}

/// How many line feeds there are.
fn feeds_in(bytes: &[u8]) -> usize
    ensures { result ≡ count_by (λ b. b == 10) bytes.now }
{
    memchr_iter(b'\n', bytes).count()
}

/// The number of the next line that holds a text, and what is left after it. Lines between matches
/// are only counted. It takes no memory.
pub(crate) fn next_line<'t>(
    finder: &Finder<'_>,
    left: LinesLeft<'t>,
) -> Option<(u32, LinesLeft<'t>)>
    requires some { finder.now ≢ [] }
    requires small { left.line + length (lines left.rest.now) ≤ MOST_BYTES + 1 }
    ensures found { MatchOption result (found_in finder.now left.entry ≡ [])
        (λ r. found_in finder.now left.entry ≡ r.0 ∷ found_in finder.now r.1) }
    ensures small { MatchOption result ⊤
        (λ r. r.1.line + length (lines r.1.rest.now) ≤ MOST_BYTES + 1) }
{
    let mut left = left;
    while let Some(place) = finder.find(left.rest) {
        let start = line_start(left.rest, place);
        let number = left.line + feeds_in(&left.rest[..start]) as u32;
        let mut lines = (&left.rest[start..]).lines();
        let line = lines.next()?;
        left = LinesLeft {
            rest: lines.as_bytes(),
            line: number + 1,
        };
        // The match may take the end of the line, which is not shown.
        if finder.needle().len() <= line.len().saturating_sub(place - start) {
            return Some((number, left));
        }
    }
    None
}

/// The numbers of the lines of a text that hold another text, ascending. They take no memory.
#[derive(Drop)]
pub(crate) struct TextLines<'t, 'p> {
    left: LinesLeft<'t>,
    finder: &'p Finder<'p>,
}

impl<'t, 'p> Model for TextLines<'t, 'p> {
    ghost use Rattle.std.specs.Prelude.{List, ℕ, ◌≢◌, ◌≤◌, ◌+◌, [], length};
    ghost use Rattle.cb_scan.specs.Lines.{lines};
    ghost use Rattle.cb_desk.specs.declared.bounds.TheConstants.{MOST_BYTES};
    ghost use Rattle.cb_desk.specs.steps.Search.{found_in};

    ghost Value = { List ℕ };

    ghost view = { λ t. found_in t.finder.now t.left };

    ghost invariant = { λ t. (t.finder.now ≢ [])
        × (t.left.line + length (lines t.left.rest.now) ≤ MOST_BYTES + 1) };
}

impl<'t, 'p> TextLines<'t, 'p> {
    pub(crate) fn new(source: &'t Source, finder: &'p Finder<'p>) -> TextLines<'t, 'p>
        requires { finder.now ≢ [] }
        ensures value { result ≡ lines_with finder.now source.now }
        ensures len { length result ≤ MOST_BYTES }
    {
        TextLines {
            left: LinesLeft::new(source),
            finder,
        }
    }
}

impl<'t, 'p> Iterator for TextLines<'t, 'p> {
    type Item = u32;

    ghost next_gives = { YieldsFirst (λ lines. lines) };

    ghost remaining = { item_count (λ lines. lines) };

    fn next(&mut self) -> Option<u32> {
        let (line, left) = next_line(self.finder, self.left)?;
        self.left = left;
        Some(line)
    }
}
