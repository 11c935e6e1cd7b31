//! The symbols of a document, of the whole session, and where they are.
ghost use Rattle.std.specs.Prelude.{◌≡◌, ◌≤◌, ◌++◌, ◌∷◌, [], Bool, MatchOption, false, filter};
ghost use Rattle.std.specs.Prelude.{length, map, take, true};
ghost use Rattle.std.specs.Iterator.{YieldsFirstBy};
ghost use Rattle.cb_index.specs.steps.Left.{tag_of_spot};
ghost use Rattle.cb_tags.specs.TagLines.{tag_of};
ghost use Rattle.cb_wire.specs.Symbols.{symbol_text, tree_symbol_text};
ghost use Rattle.cb_wire.specs.Values.{value_text};
ghost use Rattle.cb_lsp.specs.Headers.{files_named};
ghost use Rattle.cb_lsp.specs.Searches.{is_like, is_name_like};
ghost use Rattle.cb_lsp.specs.Symbols.{file_symbol_as, session_symbol};
ghost use Rattle.cb_desk.specs.Tags.{tags};
ghost use Rattle.cb_desk.specs.declared.rows.Format.TheVariants.{Extended};
ghost use Rattle.cb_index.specs.Rows.{tags_named};
ghost use Rattle.cb_lsp.specs.steps.Elements.{client_of_defs, defs_left, file_left, files_left};
ghost use Rattle.cb_lsp.specs.steps.Elements.{found_left};
ghost use Rattle.cb_lsp.specs.steps.Elements.{flat_left, places_left, session_left, tree_left};

use crate::columns::Positions;
use crate::kind::kind_number;
use crate::location::{Forms, Located, file_place};
use crate::place::bytes_of;
use crate::text::holds_like;
use cb_desk::{Definitions, Desk, Files, Format, TagRows, is_header};
use cb_index::TagSpot;
use cb_scan::Def;
use cb_tags::TagRow;
use cb_wire::{Elements, Location, Root, Symbol, TreeSymbol};

/// The most symbols of a session that are told.
pub(crate) const MOST_SYMBOLS: usize = 1_000;

/// The most bytes of a query that is sought in names.
const MOST_QUERY: usize = 255;

/// The definitions of a file.
#[derive(Drop)]
pub(crate) struct FileDefs<'a> {
    pub(crate) root: &'a Root,
    pub(crate) file: &'a [u8],
    pub(crate) positions: Positions<'a>,
    pub(crate) rest: &'a [Def],
}

impl<'a> FileDefs<'a> {
    /// The same, from here on.
    fn again(&self) -> FileDefs<'a>
        ensures { (tree : Bool) → defs_left tree result ≡ defs_left tree self.now }
    {
        FileDefs {
            root: self.root,
            file: self.file,
            positions: Positions::new(self.positions.encoding(), self.positions.source()),
            rest: self.rest,
        }
    }

    /// A definition in the flat form.
    fn flat(&mut self, def: &Def) -> Symbol<'a>
        ensures symbol { symbol_text result ≡ value_text (file_symbol_as false
            (client_of_defs self.old) self.old.file.now self.old.positions.text def.now) }
        ensures left { defs_left false self.new ≡ defs_left false self.old }
    {
        let source = self.positions.source();
        let range = self
            .positions
            .range(def.name.start as usize, def.name.end as usize);
        Symbol {
            name: bytes_of(source, def.name),
            kind: kind_number(def.kind),
            location: Location {
                root: self.root,
                name: self.file,
                range,
            },
        }
    }

    /// A definition in the tree form.
    fn tree(&mut self, def: &Def) -> TreeSymbol<'a>
        ensures symbol { tree_symbol_text result ≡ value_text (file_symbol_as true
            (client_of_defs self.old) self.old.file.now self.old.positions.text def.now) }
        ensures left { defs_left true self.new ≡ defs_left true self.old }
    {
        let source = self.positions.source();
        let line = self.positions.line_range(def.name.start);
        let range = self
            .positions
            .range(def.name.start as usize, def.name.end as usize);
        TreeSymbol {
            name: bytes_of(source, def.name),
            kind: kind_number(def.kind),
            line,
            range,
        }
    }
}

/// As symbols of the flat form.
#[derive(Drop)]
pub(crate) struct FlatSymbols<'a> {
    pub(crate) defs: FileDefs<'a>,
}

impl<'a> Elements for FlatSymbols<'a> {
    type Item = Symbol<'a>;

    ghost texts = { flat_left };

    fn again(&self) -> FlatSymbols<'a> {
        FlatSymbols {
            defs: self.defs.again(),
        }
    }

    fn next(&mut self) -> Option<Symbol<'a>> {
        match self.defs.rest {
            [def, rest @ ..] => {
                self.defs.rest = rest;
                Some(self.defs.flat(def))
            }
            [] => None,
        }
    }
}

/// As symbols of the tree form.
#[derive(Drop)]
pub(crate) struct TreeSymbols<'a> {
    pub(crate) defs: FileDefs<'a>,
}

impl<'a> Elements for TreeSymbols<'a> {
    type Item = TreeSymbol<'a>;

    ghost texts = { tree_left };

    fn again(&self) -> TreeSymbols<'a> {
        TreeSymbols {
            defs: self.defs.again(),
        }
    }

    fn next(&mut self) -> Option<TreeSymbol<'a>> {
        match self.defs.rest {
            [def, rest @ ..] => {
                self.defs.rest = rest;
                Some(self.defs.tree(def))
            }
            [] => None,
        }
    }
}

/// Where the definitions that are shown of a word are.
#[derive(Drop)]
pub(crate) struct Places<'a, 'p> {
    pub(crate) places: Located<'a>,
    pub(crate) rest: &'p [TagRow<'a>],
}

impl<'a, 'p> Elements for Places<'a, 'p> {
    type Item = Location<'a>;

    ghost texts = { places_left };

    fn again(&self) -> Places<'a, 'p> {
        Places {
            places: self.places.again(),
            rest: self.rest,
        }
    }

    fn next(&mut self) -> Option<Location<'a>> {
        match self.rest {
            [row, rest @ ..] => {
                self.rest = rest;
                Some(self.places.place(row))
            }
            [] => None,
        }
    }
}

/// A definition of the session.
fn session_symbol<'a>(places: &mut Located<'a>, row: &TagRow<'a>) -> Symbol<'a>
    ensures symbol { symbol_text result ≡ value_text (session_symbol places.old.client
        places.old.files (tag_of row.now)) }
    ensures same { places.new ≡ places.old }
{
    Symbol {
        name: row.name,
        kind: kind_number(row.kind),
        location: places.place(row),
    }
}

/// Whether a name holds the query, and is not it.
fn is_like(query: &[u8], name: &[u8]) -> bool
    ensures { result ≡ is_name_like query.now name.now }
{
    query.len() <= MOST_QUERY && (name != query && holds_like(query, name))
}

/// The next definition whose name holds the query, and is not it.
pub(crate) fn next_like<'a>(rows: &mut TagRows<'a>, query: &[u8]) -> Option<TagSpot<'a>>
    ensures { YieldsFirstBy tag_of_spot (filter (is_like query.now)) rows.old result rows.new }
{
    'rows: while let Some(spot) = rows.next_spot() {
        if is_like(query, spot.name()) {
            return Some(spot);
        }
    }
    None
}

/// Keeps the next such definitions behind one, as many as there is room for. Returned is how many
/// are kept then.
pub(crate) fn keep_like<'a>(rows: &mut TagRows<'a>, query: &[u8], kept: &mut [TagSpot<'a>]) -> usize
    requires { 1 ≤ length kept.old }
    ensures within { result ≤ length kept.new }
    ensures kept { map tag_of_spot (take result kept.new) ≡ take (length kept.old)
        (map tag_of_spot (take 1 kept.old) ++ filter (is_like query.now) rows.old) }
{
    let mut count = 1;
    'kept: while count < kept.len() {
        match next_like(rows, query) {
            Some(spot) => kept[count] = spot,
            None => return count,
        }
        count += 1;
    }
    count
}

/// The definitions that a query names: those whose name it is, and then those whose name holds it.
#[derive(Drop)]
pub(crate) struct FoundTags<'a, 'p> {
    named: Definitions<'a, 'p>,
    rest: TagRows<'a>,
    query: &'p [u8],
}

impl<'a, 'p> FoundTags<'a, 'p> {
    /// All of them.
    pub(crate) fn new(desk: &'a Desk, query: &'p [u8]) -> FoundTags<'a, 'p>
        ensures { found_left result ≡ tags_named desk.entry.now.timeline.present.profile
            query.entry.now desk.entry.now.timeline.present.files
            ++ filter (is_like query.entry.now)
            (tags Extended desk.entry.now.timeline.present) }
    {
        FoundTags {
            named: desk.definitions(query),
            rest: desk.tag_rows(Format::Extended),
            query,
        }
    }

    /// The next one.
    pub(crate) fn next(&mut self) -> Option<TagRow<'a>>
        ensures { YieldsFirstBy tag_of found_left self.old result self.new }
    {
        match self.named.next() {
            Some(row) => Some(row),
            None => match next_like(&mut self.rest, self.query) {
                Some(spot) => Some(spot.row()),
                None => None,
            },
        }
    }
}

/// The definitions of the session whose name is a text, and then those that were kept.
#[derive(Drop)]
pub(crate) struct SessionSymbols<'a, 'p> {
    pub(crate) places: Located<'a>,
    pub(crate) named: Definitions<'a, 'p>,
    pub(crate) kept: &'p [TagSpot<'a>],
}

impl<'a, 'p> Elements for SessionSymbols<'a, 'p> {
    type Item = Symbol<'a>;

    ghost texts = { session_left };

    fn again(&self) -> SessionSymbols<'a, 'p> {
        SessionSymbols {
            places: self.places.again(),
            named: self.named.again(),
            kept: self.kept,
        }
    }

    fn next(&mut self) -> Option<Symbol<'a>> {
        match self.named.next() {
            Some(row) => Some(session_symbol(&mut self.places, &row)),
            None => match self.kept {
                [spot, kept @ ..] => {
                    self.kept = kept;
                    Some(session_symbol(&mut self.places, &spot.row()))
                }
                [] => None,
            },
        }
    }
}

/// The next file whose name is the header, or ends in a slash and that.
fn next_named<'a>(files: &mut Files<'a>, header: &[u8]) -> Option<&'a [u8]>
    ensures { MatchOption result (files_named header.now files.old ≡ [])
        (λ name. files_named header.now files.old
        ≡ name.now ∷ files_named header.now files.new) }
{
    'files: while let Some((name, _)) = files.next() {
        if is_header(header, name) {
            return Some(name);
        }
    }
    None
}

/// Where the files that a header means are: those whose name is the header, or ends in a slash and
/// that.
#[derive(Drop)]
pub(crate) struct HeaderFiles<'a, 'p> {
    pub(crate) forms: Forms<'a>,
    pub(crate) header: &'p [u8],
    pub(crate) rest: Files<'a>,
}

impl<'a, 'p> Elements for HeaderFiles<'a, 'p> {
    type Item = Location<'a>;

    ghost texts = { files_left };

    fn again(&self) -> HeaderFiles<'a, 'p> {
        HeaderFiles {
            forms: self.forms,
            header: self.header,
            rest: self.rest.again(),
        }
    }

    fn next(&mut self) -> Option<Location<'a>> {
        let name = next_named(&mut self.rest, self.header)?;
        Some(file_place(self.forms, name))
    }
}

/// Where the files of a name are: one, or none.
#[derive(Clone, Copy)]
pub(crate) struct OneFile<'a> {
    pub(crate) forms: Forms<'a>,
    pub(crate) rest: Option<&'a [u8]>,
}

impl<'a> Elements for OneFile<'a> {
    type Item = Location<'a>;

    ghost texts = { file_left };

    fn again(&self) -> OneFile<'a> {
        *self
    }

    fn next(&mut self) -> Option<Location<'a>> {
        let name = self.rest.take()?;
        Some(file_place(self.forms, name))
    }
}
