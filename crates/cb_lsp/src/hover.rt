//! A definition as a hover shows it.
ghost use Rattle.std.specs.Prelude.{◌≡◌};
ghost use Rattle.json.specs.Print.{escape};
ghost use Rattle.cb_wire.specs.Texts.{parts_text};
ghost use Rattle.cb_lsp.specs.Hovers.{cut_line, hover_at_place};
ghost use Rattle.cb_lsp.specs.steps.Elements.{hover_element, hovers_left};

use cb_desk::unindented;
use cb_scan::Source;
use cb_tags::{Sink, TagRow, WriteFault};
use cb_wire::{
    Element, Elements, Encoding, Part, column_of_place, parts_length, place_of_column, put_parts,
};
use std::io::Write;

/// The most definitions that a hover shows.
pub(crate) const MOST_HOVERS: usize = 8;

/// The most bytes of a line that a hover shows.
const MOST_LINE: usize = 400;

/// At most so many bytes of a line, up to the end of a character.
fn cut_line(line: &[u8]) -> &[u8]
    ensures { result.now ≡ cut_line line.now }
{
    let column = column_of_place(Encoding::Utf16, line, MOST_LINE);
    line.split_at(place_of_column(Encoding::Utf16, line, column))
        .0
}

/// A definition: its file, its line (from 1) and the text of that line.
#[derive(Clone, Copy)]
pub(crate) struct Hover<'a> {
    file: &'a [u8],
    line: u32,
    text: &'a [u8],
}

impl<'a> Hover<'a> {
    /// The line of a place of a file.
    pub(crate) fn at_place(file: &'a [u8], source: &'a Source, place: u32) -> Hover<'a>
        ensures { hover_element result
            ≡ escape (hover_at_place file.entry.now source.entry.now place) }
    {
        let line = source.line_of(place);
        Hover {
            file,
            line,
            text: source.shown_line(line),
        }
    }

    /// The parts of its text, inside a string of JSON.
    fn parts(&self) -> [Part<'a>; 5]
        ensures { parts_text result ≡ hover_element self.now }
    {
        [
            Part::Source(self.file),
            Part::Raw(b":"),
            Part::Number(self.line as usize),
            Part::Raw(b"\\n"),
            Part::Source(cut_line(unindented(self.text))),
        ]
    }
}

impl Element for Hover<'_> {
    ghost text = { hover_element };

    fn put<W: Write>(&self, out: &mut Sink<W>) -> Result<(), WriteFault> {
        put_parts(out, &self.parts())
    }

    fn length(&self) -> u128 {
        parts_length(&self.parts())
    }
}

/// The definitions that are shown of a word, as a hover shows them.
#[derive(Drop)]
pub(crate) struct Hovers<'a, 'p> {
    pub(crate) rest: &'p [TagRow<'a>],
}

impl<'a, 'p> Elements for Hovers<'a, 'p> {
    type Item = Hover<'a>;

    ghost texts = { hovers_left };

    fn again(&self) -> Hovers<'a, 'p> {
        Hovers { rest: self.rest }
    }

    fn next(&mut self) -> Option<Hover<'a>> {
        match self.rest {
            [row, rest @ ..] => {
                self.rest = rest;
                Some(Hover {
                    file: row.file,
                    line: row.line,
                    text: row.text,
                })
            }
            [] => None,
        }
    }
}
