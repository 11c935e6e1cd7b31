//! Where definitions and uses are, and how a client has it.
ghost use Rattle.std.specs.Prelude.{◌≡◌, ◌+◌, length};
ghost use Rattle.cb_desk.specs.World.{text_of_file};
ghost use Rattle.cb_index.specs.steps.Left.{fact_of_spot};
ghost use Rattle.cb_tags.specs.TagLines.{tag_of};
ghost use Rattle.cb_wire.specs.Calls.{call_item_tree};
ghost use Rattle.cb_wire.specs.Locations.{location_tree};
ghost use Rattle.cb_lsp.specs.Calls.{item_at};
ghost use Rattle.cb_lsp.specs.Places.{line_range, range_of, start_of_file};
ghost use Rattle.cb_lsp.specs.Symbols.{file_place, name_place, place_of, place_of_use};
ghost use Rattle.cb_lsp.specs.steps.Located.{client_in};

use crate::columns::Positions;
use crate::kind::kind_number;
use cb_desk::Desk;
use cb_index::FactSpot;
use cb_scan::{Kind, Source, Span};
use cb_tags::TagRow;
use cb_wire::{CallItem, Encoding, Location, Position, Range, Root};
use std::marker::Model;

/// What a client takes.
#[derive(Clone, Copy)]
pub(crate) struct Forms<'a> {
    /// The folder of its files.
    pub(crate) root: &'a Root,
    /// What its columns count.
    pub(crate) encoding: Encoding,
    /// The symbols of a document form a tree.
    pub(crate) tree: bool,
}

/// The start of a file.
fn start_of_file() -> Range
    ensures { result ≡ start_of_file }
{
    let start = Position {
        line: 0,
        character: 0,
    };
    Range { start, end: start }
}

/// The range of a span of a source.
pub(crate) fn range_of(forms: Forms<'_>, source: &Source, span: Span) -> Range
    ensures { result ≡ range_of forms.entry.encoding source.now span.start span.end }
{
    let mut positions = Positions::new(forms.encoding, source);
    positions.range(span.start as usize, span.end as usize)
}

/// The start of a file.
pub(crate) fn file_place<'a>(forms: Forms<'a>, name: &'a [u8]) -> Location<'a>
    ensures { location_tree result ≡ file_place (client_in forms.entry) name.entry.now }
{
    Location {
        root: forms.root,
        name,
        range: start_of_file(),
    }
}

/// Positions in a file.
#[derive(Drop)]
struct FilePositions<'a> {
    file: &'a [u8],
    positions: Positions<'a>,
}

/// Where definitions and uses are, as a client has it. Those of one file that come one behind the
/// other go through each line of it twice.
#[derive(Drop)]
pub(crate) struct Located<'a> {
    forms: Forms<'a>,
    desk: &'a Desk,
    /// Those in the file of the last one.
    last: Option<FilePositions<'a>>,
}

impl<'a> Model for Located<'a> {
    ghost use Rattle.cb_lsp.specs.steps.Located.{AreIn, Locating, client_in};

    ghost Value = { Locating };

    ghost view = { λ l. record {
      client = client_in l.forms;
      files = l.desk.now.timeline.present.files;
    } };

    ghost invariant = { λ l.
        AreIn l.forms.encoding l.desk.now.timeline.present.files l.last };
}

impl<'a> Located<'a> {
    ghost use Rattle.std.specs.Prelude.{[], MatchOption};

    /// None yet.
    pub(crate) fn new(forms: Forms<'a>, desk: &'a Desk) -> Located<'a>
        ensures { result ≡ record {
          client = client_in forms.entry;
          files = desk.entry.now.timeline.present.files;
        } }
    {
        Located {
            forms,
            desk,
            last: None,
        }
    }

    /// The same.
    pub(crate) fn again(&self) -> Located<'a>
        ensures { result ≡ self.now }
    {
        Located::new(self.forms, self.desk)
    }

    /// Positions in a file, if it is there.
    fn positions_in(&mut self, file: &[u8]) -> Option<Positions<'a>>
        ensures found { MatchOption result (text_of_file self.old.files file.now ≡ [])
            (λ p. (p.encoding ≡ self.old.client.encoding)
            × (p.text ≡ text_of_file self.old.files file.now)) }
        ensures same { self.new ≡ self.old }
    {
        if let Some(last) = self.last.take() {
            if last.file == file {
                return Some(last.positions);
            }
        }
        let Some(source) = self.desk.source(file) else {
            return None;
        };
        Some(Positions::new(self.forms.encoding, source))
    }

    /// The range of a name that begins at a place of a file, which is on this line as far as it is
    /// known.
    pub(crate) fn range(&mut self, file: &'a [u8], name: &[u8], place: u32, line: u32) -> Range
        ensures range { result ≡ range_of self.old.client.encoding
            (text_of_file self.old.files file.now) place (place + length name.now) }
        ensures same { self.new ≡ self.old }
    {
        let start = place as usize;
        let end = start + name.len();
        match self.positions_in(file) {
            Some(found) => {
                let mut positions = found;
                positions.go_to(line);
                let range = positions.range(start, end);
                self.last = Some(FilePositions { file, positions });
                range
            }
            None => start_of_file(),
        }
    }

    /// Where a name is that begins at a place of a file, which is on this line as far as it is
    /// known.
    fn name_place(&mut self, file: &'a [u8], name: &[u8], place: u32, line: u32) -> Location<'a>
        ensures place { location_tree result
            ≡ name_place self.old.client self.old.files file.entry.now name.now place }
        ensures same { self.new ≡ self.old }
    {
        let range = self.range(file, name, place, line);
        Location {
            root: self.forms.root,
            name: file,
            range,
        }
    }

    /// Where the name of a definition is.
    pub(crate) fn place(&mut self, row: &TagRow<'a>) -> Location<'a>
        ensures place { location_tree result
            ≡ place_of self.old.client self.old.files (tag_of row.now) }
        ensures same { self.new ≡ self.old }
    {
        self.name_place(row.file, row.name, row.place, row.line)
    }

    /// Where the name of a use is.
    pub(crate) fn use_place(&mut self, spot: &FactSpot<'a>) -> Location<'a>
        ensures place { location_tree result
            ≡ place_of_use self.old.client self.old.files (fact_of_spot spot.now) }
        ensures same { self.new ≡ self.old }
    {
        self.name_place(spot.file, spot.name, spot.place, spot.line)
    }

    /// The range of the line of a name that begins at a place of a file, and that of the name.
    fn ranges(&mut self, file: &'a [u8], name: &[u8], place: u32) -> (Range, Range)
        ensures line { result.0 ≡ line_range self.old.client.encoding
            (text_of_file self.old.files file.entry.now) place }
        ensures range { result.1 ≡ range_of self.old.client.encoding
            (text_of_file self.old.files file.entry.now) place
            (place + length name.now) }
        ensures same { self.new ≡ self.old }
    {
        let start = place as usize;
        match self.positions_in(file) {
            Some(found) => {
                let mut positions = found;
                let line = positions.line_range(place);
                let range = positions.range(start, start + name.len());
                self.last = Some(FilePositions { file, positions });
                (line, range)
            }
            None => (start_of_file(), start_of_file()),
        }
    }

    /// A function or macro of a name that begins at a place of a file.
    pub(crate) fn item(
        &mut self,
        name: &'a [u8],
        kind: Kind,
        file: &'a [u8],
        place: u32,
    ) -> CallItem<'a>
        ensures item { call_item_tree result ≡ item_at self.old.client self.old.files
            name.entry.now kind file.entry.now place }
        ensures same { self.new ≡ self.old }
    {
        let (line, range) = self.ranges(file, name, place);
        CallItem {
            name,
            kind: kind_number(kind),
            line,
            location: Location {
                root: self.forms.root,
                name: file,
                range,
            },
        }
    }
}
