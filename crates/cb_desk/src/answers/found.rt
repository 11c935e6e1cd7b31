//! The rows of definitions, of uses and calls, of includes and of names of files, one after
//! another. Their texts are looked up only where they are asked for. Of uses and calls the index
//! leaves equal ones out; the others may be equal.
ghost use Rattle.std.specs.Prelude.{◌≡◌, ◌<◌, ◌^◌, length, map};
ghost use Rattle.std.specs.Iterator.{YieldsFirstBy, item_count};
ghost use Rattle.std.specs.Option.{option_map};
ghost use Rattle.cb_tags.specs.TagLines.{tag_of};
ghost use Rattle.cb_index.specs.Counts.{column};
ghost use Rattle.cb_index.specs.steps.Left.{fact_of, fact_of_spot, rows_counted, spots_left};
ghost use Rattle.cb_desk.specs.Models.{row_of};
ghost use Rattle.cb_desk.specs.Search.{holds};
ghost use Rattle.cb_desk.specs.steps.Lent.{defined_left, found_left, headers_left, names_left};
ghost use Rattle.cb_desk.specs.steps.Lent.{row_around, row_named, row_of_tag, row_shown, spot_row};
ghost use Rattle.cb_desk.specs.steps.Lent.{spot_text};
ghost use Rattle.cb_desk.specs.steps.LookBack.{alike};

use crate::rows::{RefRow, file_row, is_header, unindented};
use cb_index::{Entries, FactRow, FactSpot, FactSpots, IncludeRows, TagRows};
use cb_scan::Source;
use cb_tags::TagRow;
use memchr::memmem;
use std::marker::Model;

// ---- rows without their texts

/// Where the text of a row is.
#[derive(Clone, Copy)]
pub(crate) enum SpotText<'a> {
    /// The line of the row in a text, without its leading spaces and tabs.
    LineOf(&'a Source),
    /// A text as it is.
    Whole(&'a [u8]),
}

/// A row, and where its text is.
#[derive(Clone, Copy)]
pub(crate) struct RowSpot<'a> {
    pub file: &'a [u8],
    pub function: &'a [u8],
    /// From 1.
    pub line: u32,
    pub text: SpotText<'a>,
}

fn text_of<'a>(line: u32, text: SpotText<'a>) -> &'a [u8]
    ensures { result.now ≡ spot_text line text.entry }
{
    match text {
        SpotText::LineOf(source) => unindented(source.shown_line(line)),
        SpotText::Whole(text) => text,
    }
}

impl<'a> RowSpot<'a> {
    /// The row.
    pub(crate) fn row(&self) -> RefRow<'a>
        ensures { row_of result ≡ spot_row self.now }
    {
        RefRow {
            file: self.file,
            function: self.function,
            line: self.line,
            text: text_of(self.line, self.text),
        }
    }

    /// Whether two rows are equal but for their texts, which rows on one line of a file share.
    pub(crate) fn is_like(&self, other: &RowSpot<'_>) -> bool
        ensures { result ≡ alike (spot_row self.now) (spot_row other.now) }
    {
        self.line == other.line && self.function == other.function && self.file == other.file
    }
}

// ---- definitions, includes and names of files

/// Definitions that are no external declaration and no prototype. They take no memory.
#[derive(Clone, Copy)]
pub(crate) struct DefinedRows<'a, 'p> {
    pub rest: TagRows<'a, 'p>,
}

impl<'a, 'p> Iterator for DefinedRows<'a, 'p> {
    type Item = TagRow<'a>;

    ghost next_gives = { YieldsFirstBy tag_of defined_left };

    ghost remaining = { item_count defined_left };

    fn next(&mut self) -> Option<TagRow<'a>> {
        while let Some(row) = self.rest.next() {
            if !row.kind.is_declaration() {
                return Some(row);
            }
        }
        None
    }
}

/// The includes whose header a pattern asks for.
#[derive(Clone, Copy)]
pub(crate) struct HeaderRows<'a, 'p> {
    pub rest: IncludeRows<'a>,
    pub pattern: &'p [u8],
}

impl<'a, 'p> Iterator for HeaderRows<'a, 'p> {
    type Item = FactRow<'a>;

    ghost next_gives = { YieldsFirstBy fact_of headers_left };

    ghost remaining = { item_count headers_left };

    fn next(&mut self) -> Option<FactRow<'a>> {
        while let Some(row) = self.rest.next() {
            if is_header(self.pattern, row.name) {
                return Some(row);
            }
        }
        None
    }
}

/// The rows of the files whose name holds a pattern.
#[derive(Clone, Copy)]
pub(crate) struct NameRows<'a, 'p> {
    pub rest: Entries<'a>,
    pub pattern: &'p [u8],
}

/// Whether a name holds a pattern.
fn holds(pattern: &[u8], name: &[u8]) -> bool
    ensures { result ≡ holds pattern.now name.now }
{
    memmem::find(name, pattern).is_some()
}

impl<'a, 'p> Iterator for NameRows<'a, 'p> {
    type Item = RefRow<'a>;

    ghost next_gives = { YieldsFirstBy row_of names_left };

    ghost remaining = { item_count names_left };

    fn next(&mut self) -> Option<RefRow<'a>> {
        while let Some((name, _, _)) = self.rest.next() {
            if holds(self.pattern, name) {
                return Some(file_row(name));
            }
        }
        None
    }
}

/// The rows of a question, by file and place.
#[derive(Clone, Copy)]
pub(crate) enum FoundRows<'a, 'p> {
    /// Definitions.
    Defs(DefinedRows<'a, 'p>),
    /// Includes.
    Headers(HeaderRows<'a, 'p>),
    /// Files.
    Names(NameRows<'a, 'p>),
}

/// The name in the function column; outside of functions and macros it is `<global>`.
fn column(scope: Option<&[u8]>) -> &[u8]
    ensures { result.now ≡ column (option_map (λ s. s.now) scope.entry) }
{
    match scope {
        Some(name) => name,
        None => b"<global>",
    }
}

fn spot_around(fact: FactSpot<'_>) -> RowSpot<'_>
    ensures { spot_row result ≡ row_around (fact_of_spot fact.entry) }
{
    RowSpot {
        file: fact.file,
        function: column(fact.scope),
        line: fact.line,
        text: SpotText::LineOf(fact.source),
    }
}

fn spot_named(fact: FactSpot<'_>) -> RowSpot<'_>
    ensures { spot_row result ≡ row_named (fact_of_spot fact.entry) }
{
    RowSpot {
        file: fact.file,
        function: fact.name,
        line: fact.line,
        text: SpotText::LineOf(fact.source),
    }
}

fn spot_of_include(include: FactRow<'_>) -> RowSpot<'_>
    ensures { spot_row result ≡ row_around (fact_of include.entry) }
{
    RowSpot {
        file: include.file,
        function: column(include.scope),
        line: include.line,
        text: SpotText::Whole(unindented(include.text)),
    }
}

fn spot_of_tag(tag: TagRow<'_>) -> RowSpot<'_>
    ensures { spot_row result ≡ row_of_tag (tag_of tag.entry) }
{
    RowSpot {
        file: tag.file,
        function: tag.name,
        line: tag.line,
        text: SpotText::Whole(unindented(tag.text)),
    }
}

fn spot_of_row(row: RefRow<'_>) -> RowSpot<'_>
    ensures { spot_row result ≡ row_of row.entry }
{
    RowSpot {
        file: row.file,
        function: row.function,
        line: row.line,
        text: SpotText::Whole(row.text),
    }
}

impl<'a, 'p> Iterator for FoundRows<'a, 'p> {
    type Item = RowSpot<'a>;

    ghost next_gives = { YieldsFirstBy spot_row found_left };

    ghost remaining = { item_count found_left };

    fn next(&mut self) -> Option<RowSpot<'a>> {
        match self {
            FoundRows::Defs(rows) => {
                let tag = rows.next()?;
                Some(spot_of_tag(tag))
            }
            FoundRows::Headers(rows) => {
                let include = rows.next()?;
                Some(spot_of_include(include))
            }
            FoundRows::Names(rows) => {
                let row = rows.next()?;
                Some(spot_of_row(row))
            }
        }
    }
}

// ---- uses and calls

/// The rows of facts that are left, no two of which are equal, without their texts. They take no
/// memory.
#[derive(Drop)]
pub(crate) struct FactRows<'a, 'p> {
    spots: FactSpots<'a, 'p>,
    /// Each shows its own name, and not the one around it.
    named: bool,
    /// None was taken yet.
    whole: bool,
}

impl<'a, 'p> Model for FactRows<'a, 'p> {
    ghost use Rattle.std.specs.Prelude.{List, ◌≡◌, ◌<◌, ◌^◌, true, length, map};
    ghost use Rattle.cb_index.specs.steps.Left.{rows_counted, spots_left};
    ghost use Rattle.cb_desk.specs.Answer.{AnswerRow};
    ghost use Rattle.cb_desk.specs.steps.Lent.{row_shown};

    ghost Value = { List AnswerRow };

    ghost view = { λ r. map (row_shown r.named) (spots_left r.spots) };

    ghost invariant = { λ r. (r.whole ≡ true → rows_counted r.spots ≡ length (spots_left r.spots))
        × (length (spots_left r.spots) < 2 ^ 64) };
}

/// The row of a fact that shows its own name, or the one around it.
fn spot_shown(fact: FactSpot<'_>, named: bool) -> RowSpot<'_>
    ensures { spot_row result ≡ row_shown named (fact_of_spot fact.entry) }
{
    if named {
        spot_named(fact)
    } else {
        spot_around(fact)
    }
}

impl<'a, 'p> FactRows<'a, 'p> {
    /// The rows of facts, of which none was taken.
    pub(crate) fn new(spots: FactSpots<'a, 'p>, named: bool) -> FactRows<'a, 'p>
        requires counted { rows_counted spots ≡ length (spots_left spots) }
        requires few { length (spots_left spots) < 2 ^ 64 }
        ensures { result ≡ map (row_shown named) (spots_left spots.entry) }
    {
        FactRows {
            spots,
            named,
            whole: true,
        }
    }

    /// How many rows are left. They are counted by their index, as long as none was taken. Else it
    /// walks over all that are left.
    pub(crate) fn count_left(&self) -> usize
        ensures { result ≡ length self.now }
    {
        if self.whole {
            return self.spots.row_count() as usize;
        }
        let rows = FactRows {
            spots: self.spots,
            named: self.named,
            whole: false,
        };
        rows.count()
    }
}

impl<'a, 'p> Iterator for FactRows<'a, 'p> {
    type Item = RowSpot<'a>;

    ghost next_gives = { YieldsFirstBy spot_row (λ rows. rows) };

    ghost remaining = { item_count (λ rows. rows) };

    fn next(&mut self) -> Option<RowSpot<'a>> {
        self.whole = false;
        let fact = self.spots.next()?;
        Some(spot_shown(fact, self.named))
    }
}
