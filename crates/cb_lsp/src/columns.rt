//! Columns and positions of places that come one behind the other.
ghost use Rattle.std.specs.Prelude.{◌≡◌, ◌≤◌};
ghost use Rattle.cb_lsp.specs.steps.Columns.{IsMark};

use cb_scan::Source;
use cb_wire::{Encoding, Position, Range, column_of_place, place_of_column};
use std::marker::Model;

/// Where a character of a line begins, or the line ends, and the column there.
#[derive(Clone, Copy)]
struct Mark {
    bytes: usize,
    units: usize,
}

/// A mark at or before a place. If this one is past the place, the mark goes back: to the place, by
/// the units between, or to the start of the line if that is nearer. Only a byte of ASCII is sure to
/// begin a character; another place is counted from the start.
fn mark_up_to(encoding: Encoding, line: &[u8], mark: Mark, place: usize) -> Mark
    requires { IsMark encoding line.now mark.bytes mark.units }
    ensures mark { IsMark encoding line.now result.bytes result.units }
    ensures before { result.bytes ≤ place }
{
    if mark.bytes <= place {
        return mark;
    }
    let behind = mark.bytes - place;
    if place < behind || !line[place].is_ascii() {
        return Mark { bytes: 0, units: 0 };
    }
    let units = column_of_place(encoding, line.split_at(place).1, behind);
    Mark {
        bytes: place,
        units: mark.units - units,
    }
}

/// Columns of places in a line. Places that come one behind the other, forwards or backwards, go
/// through the line once.
#[derive(Drop)]
pub(crate) struct Columns<'a> {
    encoding: Encoding,
    line: &'a [u8],
    /// The last place, or the start of the character that it is in.
    mark: Mark,
}

impl<'a> Model for Columns<'a> {
    ghost use Rattle.cb_lsp.specs.steps.Columns.{IsMark, LineColumns};

    ghost Value = { LineColumns };

    ghost view = { λ c. record { encoding = c.encoding; line = c.line.now } };

    ghost invariant = { λ c. IsMark c.encoding c.line.now c.mark.bytes c.mark.units };
}

impl<'a> Columns<'a> {
    ghost use Rattle.cb_wire.specs.Units.{column};

    fn new(encoding: Encoding, line: &'a [u8]) -> Columns<'a>
        ensures { result ≡ record { encoding = encoding; line = line.now } }
    {
        Columns {
            encoding,
            line,
            mark: Mark { bytes: 0, units: 0 },
        }
    }

    /// The column of a place.
    fn column(&mut self, place: usize) -> usize
        ensures column { result ≡ column self.old.encoding self.old.line place }
        ensures same { self.new ≡ self.old }
    {
        let mark = mark_up_to(self.encoding, self.line, self.mark, place);
        let rest = self.line.split_at(mark.bytes).1;
        let units = column_of_place(self.encoding, rest, place - mark.bytes);
        let bytes = place_of_column(self.encoding, rest, units);
        self.mark = Mark {
            bytes: mark.bytes + bytes,
            units: mark.units + units,
        };
        self.mark.units
    }
}

/// Positions in a source. Places that come one behind the other go through each line once, and once
/// more where its end is asked for.
#[derive(Drop)]
pub(crate) struct Positions<'a> {
    encoding: Encoding,
    source: &'a Source,
    /// The line of the last place, from 1.
    line: u32,
    /// The column of its end, if it was asked for.
    width: Option<usize>,
    columns: Columns<'a>,
}

impl<'a> Model for Positions<'a> {
    ghost use Rattle.cb_lsp.specs.steps.Columns.{AreOfLine, SourceColumns};

    ghost Value = { SourceColumns };

    ghost view = { λ p. record { encoding = p.encoding; text = p.source.now; line = p.line } };

    ghost invariant = { λ p. AreOfLine p.encoding p.source.now p.line p.width p.columns };
}

impl<'a> Positions<'a> {
    ghost use Rattle.std.specs.Prelude.{length};
    ghost use Rattle.cb_scan.specs.Lines.{line_of, line_text};
    ghost use Rattle.cb_wire.specs.Positions.{position};
    ghost use Rattle.cb_wire.specs.Units.{column};
    ghost use Rattle.cb_lsp.specs.Places.{line_range, range_of};

    /// None yet.
    pub(crate) fn new(encoding: Encoding, source: &'a Source) -> Positions<'a>
        ensures encoding { result.encoding ≡ encoding }
        ensures text { result.text ≡ source.now }
    {
        Positions {
            encoding,
            source,
            line: 0,
            width: None,
            columns: Columns::new(encoding, b""),
        }
    }

    /// The source.
    pub(crate) fn source(&self) -> &'a Source
        ensures { result.now ≡ self.now.text }
    {
        self.source
    }

    /// What columns count.
    pub(crate) fn encoding(&self) -> Encoding
        ensures { result ≡ self.now.encoding }
    {
        self.encoding
    }

    /// The line of a place: the last one, where the place is on it, or else by the table of lines.
    fn line_of(&self, place: u32) -> u32
        ensures { result ≡ line_of self.now.text place }
    {
        let line = self.line;
        if line > 0
            && line < u32::MAX
            && self.source.line_start(line) <= place
            && place < self.source.line_start(line + 1)
        {
            line
        } else {
            self.source.line_of(place)
        }
    }

    /// Goes to a line: that of the place that is asked for next, as far as it is known.
    pub(crate) fn go_to(&mut self, line: u32)
        ensures encoding { self.new.encoding ≡ self.old.encoding }
        ensures text { self.new.text ≡ self.old.text }
        ensures line { self.new.line ≡ line }
    {
        if self.line != line {
            let shown = self.source.shown_line(line);
            self.line = line;
            self.width = None;
            self.columns = Columns::new(self.encoding, shown);
        }
    }

    /// The column of the end of the line.
    fn width(&mut self) -> usize
        ensures width { result ≡ column self.old.encoding (line_text self.old.text self.old.line)
            (length (line_text self.old.text self.old.line)) }
        ensures same { self.new ≡ self.old }
    {
        match self.width {
            Some(width) => width,
            None => {
                let shown = self.source.shown_line(self.line);
                let width = column_of_place(self.encoding, shown, shown.len());
                self.width = Some(width);
                width
            }
        }
    }

    /// The position of a place, by the table of lines.
    fn position(&mut self, place: usize) -> Position
        ensures position { result ≡ position self.old.encoding self.old.text place }
        ensures encoding { self.new.encoding ≡ self.old.encoding }
        ensures text { self.new.text ≡ self.old.text }
    {
        let line = self.line_of(place.min(self.source.bytes().len()) as u32);
        let start = self.source.line_start(line) as usize;
        self.go_to(line);
        Position {
            line: line as usize - 1,
            character: self.columns.column(place.saturating_sub(start)),
        }
    }

    /// The range of bytes.
    pub(crate) fn range(&mut self, start: usize, end: usize) -> Range
        ensures range { result ≡ range_of self.old.encoding self.old.text start end }
        ensures encoding { self.new.encoding ≡ self.old.encoding }
        ensures text { self.new.text ≡ self.old.text }
    {
        let start = self.position(start);
        let end = self.position(end);
        Range { start, end }
    }

    /// The range of the shown line of a place.
    pub(crate) fn line_range(&mut self, place: u32) -> Range
        ensures range { result ≡ line_range self.old.encoding self.old.text place }
        ensures encoding { self.new.encoding ≡ self.old.encoding }
        ensures text { self.new.text ≡ self.old.text }
    {
        let line = self.line_of(place);
        self.go_to(line);
        let row = line as usize - 1;
        Range {
            start: Position {
                line: row,
                character: 0,
            },
            end: Position {
                line: row,
                character: self.width(),
            },
        }
    }
}
