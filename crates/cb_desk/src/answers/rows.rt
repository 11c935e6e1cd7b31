//! The rows that answer a question, equal ones once: by a look back at those before them.
ghost use Rattle.std.specs.Prelude.{◌≡◌, ◌≢◌, ◌<◌, ◌^◌, ◌++◌, ◌∷◌, [], ⊤, MatchOption};
ghost use Rattle.std.specs.Prelude.{if◌then◌else◌, length, not, take};
ghost use Rattle.std.specs.Cmp.Lexicographic.{slice_cmp};
ghost use Rattle.std.specs.Iterator.{YieldsFirstBy, item_count};
ghost use Rattle.std.specs.List.{flat_map, list_any};
ghost use Rattle.std.specs.Ordering.{nat_cmp};
ghost use Rattle.cb_index.specs.Shelved.{files};
ghost use Rattle.cb_desk.specs.Answer.{distinct, field_rows, row_eq};
ghost use Rattle.cb_desk.specs.Models.{row_of};
ghost use Rattle.cb_desk.specs.World.{AreValidFiles, place_key, widest_bounds};
ghost use Rattle.cb_desk.specs.declared.rows.Field.{Field};
ghost use Rattle.cb_desk.specs.steps.Lent.{asked_by, found_left, is_named, spot_row};
ghost use Rattle.cb_desk.specs.steps.LookBack.{HaveLineTexts, IsLookBack, alike, news_left};
ghost use Rattle.cb_desk.specs.steps.LookBack.{row_key, seen};

use crate::answers::files::Files;
use crate::answers::found::{DefinedRows, FactRows, FoundRows, HeaderRows, NameRows, RowSpot};
use crate::answers::texts::TextRows;
use crate::rows::{Field, RefRow};
use cb_index::{FactKind, Shelf};
use std::cmp::Ordering;
use std::marker::Model;

// ---- the look back

/// Rows that are left, and copies of the iterator to look back from. Rows that are equal are in one
/// file and on one line, and rows come by file and line, so a row is compared with those of its
/// line alone. A row on a line before the greatest one would be compared with all rows.
#[derive(Clone, Copy)]
pub(crate) struct LookBack<'a, 'p> {
    /// From the first row on.
    all: FoundRows<'a, 'p>,
    /// File and line of the greatest row so far.
    file: &'a [u8],
    line: u32,
    /// From the first row on that line on.
    group: FoundRows<'a, 'p>,
    /// How many rows come before that one.
    first: usize,
    rest: FoundRows<'a, 'p>,
    /// How many rows come before the rest.
    passed: usize,
}

/// Whether one of the first `count` rows is equal to a row but for its text.
fn has_like(rows: FoundRows<'_, '_>, count: usize, row: &RowSpot<'_>) -> bool
    ensures { result ≡ list_any (alike (spot_row row.now)) (take count (found_left rows.entry)) }
{
    let mut left = rows;
    let mut count = count;
    while count > 0 {
        count -= 1;
        match left.next() {
            Some(other) => {
                if row.is_like(&other) {
                    return true;
                }
            }
            None => return false,
        }
    }
    false
}

/// The order of a line and that of a row: by the bytes of the files' names, and then by number.
fn compare(file: &[u8], line: u32, row: &RowSpot<'_>) -> Ordering
    ensures { result ≡ slice_cmp nat_cmp (place_key (record { file = file.now; line = line }))
        (row_key (spot_row row.now)) }
{
    match file.cmp(row.file) {
        Ordering::Equal => line.cmp(&row.line),
        unlike => unlike,
    }
}

impl<'a, 'p> LookBack<'a, 'p> {
    /// All rows; none is passed.
    pub(crate) fn new(rows: FoundRows<'a, 'p>) -> LookBack<'a, 'p>
        requires texts { HaveLineTexts (found_left rows) }
        requires few { length (found_left rows) < 2 ^ 64 }
        ensures all { result.all ≡ rows.entry }
        ensures kept { IsLookBack result }
        ensures rows { news_left result ≡ distinct (found_left rows.entry) }
        ensures few { length (news_left result) < 2 ^ 64 }
    {
        LookBack {
            all: rows,
            file: b"",
            line: 0,
            group: rows,
            first: 0,
            rest: rows,
            passed: 0,
        }
    }
}

/// Whether no row before is equal to the next one, by the order of the greatest line and its own.
fn is_new<'a, 'p>(
    left: &LookBack<'a, 'p>,
    order: Ordering,
    row: &RowSpot<'a>,
    rest: &FoundRows<'a, 'p>,
) -> bool
    requires kept { IsLookBack left.now }
    requires next { found_left left.now.rest ≡ spot_row row.now ∷ found_left rest.now }
    requires order { order ≡ slice_cmp nat_cmp
        (place_key (record { file = left.now.file.now; line = left.now.line }))
        (row_key (spot_row row.now)) }
    ensures { result ≡ not (list_any (row_eq (spot_row row.now)) (seen left.now)) }
{
    match order {
        Ordering::Less => true,
        Ordering::Equal => !has_like(left.group, left.passed - left.first, row),
        Ordering::Greater => !has_like(left.all, left.passed, row),
    }
}

/// Goes on after the next row, by the order of the greatest line and its own.
fn pass<'a, 'p>(
    left: &mut LookBack<'a, 'p>,
    order: Ordering,
    row: &RowSpot<'a>,
    rest: FoundRows<'a, 'p>,
)
    requires kept { IsLookBack left.old }
    requires next { found_left left.old.rest ≡ spot_row row.now ∷ found_left rest }
    requires order { order ≡ slice_cmp nat_cmp
        (place_key (record { file = left.old.file.now; line = left.old.line }))
        (row_key (spot_row row.now)) }
    ensures all { left.new.all ≡ left.old.all }
    ensures kept { IsLookBack left.new }
    ensures seen { seen left.new ≡ seen left.old ++ spot_row row.now ∷ [] }
    ensures rest { found_left left.new.rest ≡ found_left rest.entry }
{
    match order {
        Ordering::Less => {
            left.file = row.file;
            left.line = row.line;
            left.group = left.rest;
            left.first = left.passed;
            left.rest = rest;
            left.passed += 1;
        }
        _ => {
            left.rest = rest;
            left.passed += 1;
        }
    }
}

/// The next row, and whether no row before is equal to it.
#[tactic(auto, unfolding(crate::specs::steps::LookBack::fresh))]
fn next_row<'a, 'p>(left: &mut LookBack<'a, 'p>) -> Option<(RowSpot<'a>, bool)>
    requires { IsLookBack left.old }
    ensures rows { MatchOption result (left.new ≡ left.old) (λ r. news_left left.old
        ≡ (if r.1 then spot_row r.0 ∷ news_left left.new else news_left left.new)) }
    ensures none { MatchOption result (news_left left.old ≡ []) (λ _. ⊤) }
    ensures all { left.new.all ≡ left.old.all }
    ensures kept { IsLookBack left.new }
    ensures fewer { MatchOption result ⊤
        (λ _. length (found_left left.new.rest) < length (found_left left.old.rest)) }
{
    let mut rest = left.rest;
    let row = rest.next()?;
    let order = compare(left.file, left.line, &row);
    let is_new = is_new(left, order, &row, &rest);
    pass(left, order, &row, rest);
    Some((row, is_new))
}

/// The next row that is equal to none before.
fn next_new<'a, 'p>(left: &mut LookBack<'a, 'p>) -> Option<RowSpot<'a>>
    requires { IsLookBack left.old }
    ensures rows { MatchOption result (news_left left.old ≡ [])
        (λ r. news_left left.old ≡ spot_row r ∷ news_left left.new) }
    ensures none { MatchOption result (news_left left.new ≡ []) (λ _. ⊤) }
    ensures all { left.new.all ≡ left.old.all }
    ensures kept { IsLookBack left.new }
{
    while let Some((row, is_new)) = next_row(left) {
        if is_new {
            return Some(row);
        }
    }
    None
}

/// The rows that are left, of equal ones the first, without their texts. They take no memory.
#[derive(Drop)]
pub(crate) struct DistinctSpots<'a, 'p> {
    left: LookBack<'a, 'p>,
}

impl<'a, 'p> Model for DistinctSpots<'a, 'p> {
    ghost use Rattle.std.specs.Prelude.{List, ◌<◌, ◌^◌, length};
    ghost use Rattle.cb_desk.specs.Answer.{AnswerRow};
    ghost use Rattle.cb_desk.specs.steps.LookBack.{IsLookBack, news_left};

    ghost Value = { List AnswerRow };

    ghost view = { λ d. news_left d.left };

    ghost invariant = { λ d. IsLookBack d.left × (length (news_left d.left) < 2 ^ 64) };
}

impl<'a, 'p> DistinctSpots<'a, 'p> {
    pub(crate) fn new(rows: FoundRows<'a, 'p>) -> DistinctSpots<'a, 'p>
        requires texts { HaveLineTexts (found_left rows) }
        requires few { length (found_left rows) < 2 ^ 64 }
        ensures { result ≡ distinct (found_left rows.entry) }
    {
        DistinctSpots {
            left: LookBack::new(rows),
        }
    }

    /// How many rows are left. It walks over all of them.
    pub(crate) fn count_left(&self) -> usize
        ensures { result ≡ length self.now }
    {
        let spots = DistinctSpots { left: self.left };
        spots.count()
    }
}

impl<'a, 'p> Iterator for DistinctSpots<'a, 'p> {
    type Item = RowSpot<'a>;

    ghost next_gives = { YieldsFirstBy spot_row (λ rows. rows) };

    ghost remaining = { item_count (λ rows. rows) };

    fn next(&mut self) -> Option<RowSpot<'a>> {
        next_new(&mut self.left)
    }
}

// ---- the rows of a question

/// Lines that hold a text or rows of facts, no two of which are equal, or other rows.
#[derive(Drop)]
enum RowSource<'a, 'p> {
    Lines(TextRows<'a, 'p>),
    Facts(FactRows<'a, 'p>),
    Others(DistinctSpots<'a, 'p>),
}

/// The rows of an answer, by file and place; equal ones once. They take no memory.
#[derive(Drop)]
pub struct Rows<'a, 'p> {
    source: RowSource<'a, 'p>,
}

impl<'a, 'p> Model for Rows<'a, 'p> {
    ghost use Rattle.std.specs.Prelude.{List};
    ghost use Rattle.cb_desk.specs.Answer.{AnswerRow};
    ghost use Rattle.cb_desk.specs.steps.Asked.{rows_in};

    ghost Value = { List AnswerRow };

    ghost view = { λ r. rows_in r.source };
}

impl<'a, 'p> Rows<'a, 'p> {
    /// The rows that answer a question.
    pub(crate) fn new(shelf: &'a Shelf, field: Field, pattern: &'p [u8]) -> Rows<'a, 'p>
        requires some { pattern.now ≢ [] }
        requires valid { AreValidFiles widest_bounds (files shelf.now) }
        ensures { result ≡ distinct
            (flat_map (field_rows shelf.now.archive.profile field pattern.now) (files shelf.now)) }
    {
        let files = Files::new(shelf);
        match field {
            Field::Text => Rows {
                source: RowSource::Lines(TextRows::new(files, pattern)),
            },
            Field::Symbol => Rows {
                source: RowSource::Facts(fact_rows(shelf, FactKind::Uses, pattern)),
            },
            Field::Called => Rows {
                source: RowSource::Facts(fact_rows(shelf, FactKind::Callers, pattern)),
            },
            Field::Calling => Rows {
                source: RowSource::Facts(fact_rows(shelf, FactKind::Callees, pattern)),
            },
            _ => Rows {
                source: RowSource::Others(DistinctSpots::new(found_rows(shelf, field, pattern))),
            },
        }
    }

    /// How many rows are left. Uses and calls are counted by their index, as long as no row was
    /// taken. Else it walks over all that are left. It takes no memory.
    pub fn count_left(&self) -> usize
        ensures { result ≡ length self.now }
    {
        match &self.source {
            RowSource::Lines(rows) => rows.count_left(),
            RowSource::Facts(rows) => rows.count_left(),
            RowSource::Others(rows) => rows.count_left(),
        }
    }
}

impl<'a, 'p> Iterator for Rows<'a, 'p> {
    type Item = RefRow<'a>;

    ghost next_gives = { YieldsFirstBy row_of (λ rows. rows) };

    ghost remaining = { item_count (λ rows. rows) };

    fn next(&mut self) -> Option<RefRow<'a>> {
        match &mut self.source {
            RowSource::Lines(rows) => rows.next(),
            RowSource::Facts(spots) => {
                let spot = spots.next()?;
                Some(spot.row())
            }
            RowSource::Others(spots) => {
                let spot = spots.next()?;
                Some(spot.row())
            }
        }
    }
}

/// Whether the name of a fact of that kind stands in the function column of its row.
fn is_named(kind: FactKind) -> bool
    ensures { result ≡ is_named kind }
{
    match kind {
        FactKind::Callers => true,
        FactKind::Uses | FactKind::Callees => false,
    }
}

/// The rows of the uses or calls of a kind that have a name as their key.
fn fact_rows<'a, 'p>(shelf: &'a Shelf, kind: FactKind, pattern: &'p [u8]) -> FactRows<'a, 'p>
    requires valid { AreValidFiles widest_bounds (files shelf.now) }
    ensures { result ≡ distinct (flat_map
        (field_rows shelf.now.archive.profile (asked_by kind) pattern.now) (files shelf.now)) }
{
    let _totals = shelf.totals();
    let _shown = shelf.shown();
    FactRows::new(shelf.facts(kind, pattern).spots(), is_named(kind))
}

/// The rows of definitions, includes and names of files, by file and place, equal ones included.
fn found_rows<'a, 'p>(shelf: &'a Shelf, field: Field, pattern: &'p [u8]) -> FoundRows<'a, 'p>
    requires no_text { field ≢ Field.Text }
    requires no_use { field ≢ Field.Symbol }
    requires no_called { field ≢ Field.Called }
    requires no_calling { field ≢ Field.Calling }
    requires valid { AreValidFiles widest_bounds (files shelf.now) }
    ensures rows { found_left result
        ≡ flat_map (field_rows shelf.now.archive.profile field pattern.now) (files shelf.now) }
    ensures few { length (found_left result) < 2 ^ 64 }
{
    match field {
        Field::Definition => {
            let rest = shelf.defs(pattern);
            let _count = rest.len();
            FoundRows::Defs(DefinedRows { rest })
        }
        Field::Including => FoundRows::Headers(HeaderRows {
            rest: shelf.includes(),
            pattern,
        }),
        Field::File => FoundRows::Names(NameRows {
            rest: shelf.entries(),
            pattern,
        }),
        Field::Text | Field::Symbol | Field::Called | Field::Calling => unreachable!(),
    }
}
