//! An index of rows in one order, for its own sake: rows, the five orders of them, and the rows of
//! entries, one after another.
ghost use Rattle.std.specs.Prelude.{◌≡◌, ◌≤◌, ◌+◌, ◌++◌, ◌∷◌, [], List, MatchOption, OnOk, Some};
ghost use Rattle.std.specs.Prelude.{false, filter, length, nat_eq, not, true};
ghost use Rattle.std.specs.Cmp.Lexicographic.{slice_cmp};
ghost use Rattle.std.specs.Iterator.{YieldsFirst, item_count};
ghost use Rattle.std.specs.Ordering.{nat_cmp, ordering_then};
ghost use Rattle.std.specs.declared.cmp.Ordering.TheVariants.{Less};
ghost use Rattle.cb_scan.specs.Order.{AreOrdered, in_order, kind_rank, put};
ghost use Rattle.cb_index.specs.Archived.{Archived, name_of, text_at};
ghost use Rattle.cb_index.specs.Entries.{has_key, sort_key};
ghost use Rattle.cb_index.specs.Files.{IsThere, count_for, is_shown, shown_name, shown_under};
ghost use Rattle.cb_index.specs.Held.{entries_of, listed_of};
ghost use Rattle.cb_index.specs.Kinds.{fact_kind, keyer_of, lister_of, prefix_of};
ghost use Rattle.cb_index.specs.RowOrders.{def_rank, rank_for, row_key, row_numbers, row_order};
ghost use Rattle.cb_index.specs.RowOrders.{start_for, start_of};
ghost use Rattle.cb_index.specs.Spreads.{HoldsRowsOf, rows_of_key};
ghost use Rattle.cb_index.specs.declared.entry.Posting.{Posting};
ghost use Rattle.cb_index.specs.declared.entry.Shown.{Shown};
ghost use Rattle.cb_index.specs.steps.RowsLeft.{entry_rows, entry_rows_if, items_left, rows_left};
ghost use Rattle.cb_index.specs.steps.Runs.{run_items};
ghost use Rattle.cb_index.specs.steps.Spread.{items_at, rows_in};

use crate::archive::{Archive, OutOfMemory, Version};
use crate::blocks::{BlockList, Run};
use crate::entry::{FactKind, IndexKind, Posting, Shown};
use crate::items::{Chain, item_span};
use crate::order::{compare_key_bytes, compare_keys, count, def_span};
use crate::totals::count_of;
use cb_scan::{Kind, Span};
use std::alloc::Global;
use std::cmp::Ordering;
use std::marker::{Model, PhantomData};

// ---- rows and their orders

/// A fact of a version that is shown under a name, by its number among the facts of its kind.
#[derive(Clone, Copy, Debug, PartialEq, Eq)]
pub struct Row {
    pub name: u32,
    pub version: u32,
    pub item: u32,
}

/// The row as an entry, of which only what its key is looked up by matters.
fn entry_of(row: Row) -> Posting
    ensures name { result.name ≡ row.name }
    ensures version { result.version ≡ row.version }
    ensures number { result.number ≡ row.item }
{
    Posting {
        prefix: 0,
        name: row.name,
        version: row.version,
        number: row.item,
        rows: 0,
    }
}

fn start_of(span: Option<Span>) -> u32
    ensures { result ≡ start_of span }
{
    match span {
        Some(span) => span.start,
        None => 0,
    }
}

/// The kinds at one place, in their order.
fn rank_of(kind: Kind) -> u32
    ensures { result ≡ kind_rank kind }
{
    match kind {
        Kind::Function => 0,
        Kind::Macro => 1,
        Kind::Typedef => 2,
        Kind::Struct => 3,
        Kind::Union => 4,
        Kind::Enum => 5,
        Kind::Enumerator => 6,
        Kind::Member => 7,
        Kind::Variable => 8,
        Kind::External => 9,
        Kind::Prototype => 10,
    }
}

fn def_rank(version: &Version, item: u32) -> u32
    ensures { result ≡ def_rank (Some version.now) item }
{
    match version.facts().defs().get(item as usize) {
        Some(def) => rank_of(def.kind),
        None => 0,
    }
}

/// Where the fact of a row begins.
fn start(kind: IndexKind, archive: &Archive, row: Row) -> u32
    ensures { result ≡ start_for kind (text_at archive.now row.version) row.item }
{
    match archive.version(row.version) {
        Some(version) => match kind {
            IndexKind::DefsByName => start_of(def_span(version.facts(), row.item)),
            IndexKind::DefsByTagName => start_of(def_span(version.facts(), row.item)),
            IndexKind::Facts(FactKind::Uses) => {
                start_of(item_span(FactKind::Uses, version.facts(), row.item))
            }
            IndexKind::Facts(_) => start_of(item_span(
                FactKind::Callees,
                version.facts(),
                row.item,
            )),
        },
        None => 0,
    }
}

/// The rank of the kind of a definition at its place; uses and calls have none.
fn rank(kind: IndexKind, archive: &Archive, row: Row) -> u32
    ensures { result ≡ rank_for kind (text_at archive.now row.version) row.item }
{
    match kind {
        IndexKind::Facts(_) => 0,
        _ => match archive.version(row.version) {
            Some(version) => def_rank(version, row.item),
            None => 0,
        },
    }
}

fn numbers(kind: IndexKind, archive: &Archive, row: Row) -> [u32; 5]
    ensures { result ≡ row_numbers (start_for kind) (rank_for kind) archive.now row }
{
    [
        start(kind, archive, row),
        rank(kind, archive, row),
        row.name,
        row.version,
        row.item,
    ]
}

/// The order of two rows of one key.
fn compare_files(kind: IndexKind, archive: &Archive, a: Row, b: Row) -> Ordering
    ensures { result ≡ ordering_then
        (slice_cmp nat_cmp (name_of archive.now a.name) (name_of archive.now b.name))
        (slice_cmp nat_cmp (row_numbers (start_for kind) (rank_for kind) archive.now a)
        (row_numbers (start_for kind) (rank_for kind) archive.now b)) }
{
    match archive.name(a.name).cmp(archive.name(b.name)) {
        Ordering::Less => Ordering::Less,
        Ordering::Greater => Ordering::Greater,
        Ordering::Equal => numbers(kind, archive, a).cmp(&numbers(kind, archive, b)),
    }
}

/// The order of two rows.
fn compare_rows(kind: IndexKind, archive: &Archive, a: Row, b: Row) -> Ordering
    ensures { result ≡ row_order kind archive.now a b }
{
    match compare_keys(kind, archive, entry_of(a), entry_of(b)) {
        Ordering::Less => Ordering::Less,
        Ordering::Greater => Ordering::Greater,
        Ordering::Equal => compare_files(kind, archive, a, b),
    }
}

/// An order of rows: by key, by file name, by place, by kind, and then by the numbers of the row.
/// All but these are looked up in the archive; so what is pushed there changes nothing of the order
/// of rows whose numbers were there. The rows of a version under a name are those whose item is
/// below the number of its items.
pub trait RowOrder {
    ghost use Rattle.cb_index.specs.declared.entry.IndexKind.{IndexKind};

    ghost kind: { IndexKind };

    /// The kind of index that has this order.
    fn kind() -> IndexKind
        ensures { result ≡ kind };

    /// The order of two rows.
    fn compare(archive: &Archive, a: Row, b: Row) -> Ordering
        ensures { result ≡ row_order kind archive.now a b }
    {
        compare_rows(Self::kind(), archive, a, b)
    }

    /// The order of a key and that of a row by their bytes.
    fn compare_key(archive: &Archive, key: &[u8], row: Row) -> Ordering
        ensures { result ≡ slice_cmp nat_cmp key.now (row_key (keyer_of kind) archive.now row) }
    {
        compare_key_bytes(Self::kind(), archive, key, entry_of(row))
    }

    /// How many facts of the order's kind a version has; none where it is not there.
    fn items(archive: &Archive, version: u32) -> u32
        ensures { result ≡ count_for kind (text_at archive.now version) }
    {
        count_of(Self::kind(), archive, version) as u32
    }
}

/// Definitions by name.
pub struct DefsByName;

/// Definitions by the name that a plain tags file has for them.
pub struct DefsByTagName;

/// Uses by name.
pub struct UsesByName;

/// Calls by the called name.
pub struct CallsByCallee;

/// Calls by the name that calls.
pub struct CallsByCaller;

impl RowOrder for DefsByName {
    ghost use Rattle.cb_index.specs.declared.entry.IndexKind.TheVariants.{DefsByName};

    ghost kind = { DefsByName };

    fn kind() -> IndexKind {
        IndexKind::DefsByName
    }
}

impl RowOrder for DefsByTagName {
    ghost use Rattle.cb_index.specs.declared.entry.IndexKind.TheVariants.{DefsByTagName};

    ghost kind = { DefsByTagName };

    fn kind() -> IndexKind {
        IndexKind::DefsByTagName
    }
}

impl RowOrder for UsesByName {
    ghost use Rattle.cb_index.specs.declared.entry.FactKind.TheVariants.{Uses};
    ghost use Rattle.cb_index.specs.declared.entry.IndexKind.TheVariants.{Facts};

    ghost kind = { Facts Uses };

    fn kind() -> IndexKind {
        IndexKind::Facts(FactKind::Uses)
    }
}

impl RowOrder for CallsByCallee {
    ghost use Rattle.cb_index.specs.declared.entry.FactKind.TheVariants.{Callees};
    ghost use Rattle.cb_index.specs.declared.entry.IndexKind.TheVariants.{Facts};

    ghost kind = { Facts Callees };

    fn kind() -> IndexKind {
        IndexKind::Facts(FactKind::Callees)
    }
}

impl RowOrder for CallsByCaller {
    ghost use Rattle.cb_index.specs.declared.entry.FactKind.TheVariants.{Callers};
    ghost use Rattle.cb_index.specs.declared.entry.IndexKind.TheVariants.{Facts};

    ghost kind = { Facts Callers };

    fn kind() -> IndexKind {
        IndexKind::Facts(FactKind::Callers)
    }
}

// ---- the rows of entries

/// The items of one entry that are still to come.
#[derive(Clone, Copy)]
pub(crate) enum Items<'a> {
    /// None.
    Nothing,
    /// A definition.
    One(u32),
    /// Uses or calls of one key.
    Chain(Chain<'a>),
}

/// The rows of one entry that are still to come.
#[derive(Clone, Copy)]
pub(crate) struct EntryRows<'a> {
    entry: Posting,
    items: Items<'a>,
}

/// Rows. They take no memory.
#[derive(Clone, Copy)]
pub struct Rows<'a> {
    sort: Option<FactKind>,
    archive: &'a Archive,
    entries: Run<'a, Posting>,
    first: Option<EntryRows<'a>>,
}

/// The items of an entry: a definition, or a use or a call and the later ones that have its key.
fn items_of<'a>(sort: Option<FactKind>, archive: &'a Archive, entry: Posting) -> Items<'a>
    ensures { items_left result ≡ items_at sort archive.now entry }
{
    match sort {
        Some(sort) => match archive.version(entry.version) {
            Some(version) => Items::Chain(Chain::from(sort, version, entry.number)),
            None => Items::Nothing,
        },
        None => Items::One(entry.number),
    }
}

/// The first item, and those after it.
fn next_item<'a>(items: Items<'a>) -> Option<(u32, Items<'a>)>
    ensures { MatchOption result (items_left items.entry ≡ [])
        (λ r. items_left items.entry ≡ r.0 ∷ items_left r.1) }
{
    match items {
        Items::Nothing => None,
        Items::One(item) => Some((item, Items::Nothing)),
        Items::Chain(chain) => {
            let mut rest = chain;
            let item = rest.take()?;
            Some((item, Items::Chain(rest)))
        }
    }
}

/// The first row of an entry, and what is left after it.
fn next_row<'a>(first: Option<EntryRows<'a>>) -> Option<(Row, EntryRows<'a>)>
    ensures { MatchOption result (entry_rows_if first.entry ≡ [])
        (λ r. entry_rows_if first.entry ≡ r.0 ∷ entry_rows r.1) }
{
    let first = first?;
    let (item, rest) = next_item(first.items)?;
    let row = Row {
        name: first.entry.name,
        version: first.entry.version,
        item,
    };
    Some((
        row,
        EntryRows {
            entry: first.entry,
            items: rest,
        },
    ))
}

/// A row, what is left of its entry, and the entries after that.
#[derive(Clone, Copy)]
struct Step<'a> {
    row: Row,
    first: EntryRows<'a>,
    entries: Run<'a, Posting>,
}

/// The first row of some entries.
fn first_row<'a>(
    sort: Option<FactKind>,
    archive: &'a Archive,
    entries: Run<'a, Posting>,
) -> Option<Step<'a>>
    ensures { MatchOption result (rows_in sort archive.now (run_items entries.entry) ≡ [])
        (λ r. rows_in sort archive.now (run_items entries.entry)
        ≡ r.row ∷ (entry_rows r.first ++ rows_in sort archive.now (run_items r.entries))) }
{
    let mut left = entries;
    while let Some((entry, rest)) = left.split_first() {
        left = rest;
        let here = EntryRows {
            entry: *entry,
            items: items_of(sort, archive, *entry),
        };
        if let Some((row, first)) = next_row(Some(here)) {
            return Some(Step {
                row,
                first,
                entries: left,
            });
        }
    }
    None
}

impl<'a> Rows<'a> {
    pub(crate) fn new(
        sort: Option<FactKind>,
        archive: &'a Archive,
        entries: Run<'a, Posting>,
    ) -> Rows<'a>
        ensures { rows_left result ≡ rows_in sort archive.now (run_items entries.entry) }
    {
        Rows {
            sort,
            archive,
            entries,
            first: None,
        }
    }
}

impl<'a> Iterator for Rows<'a> {
    type Item = Row;

    ghost next_gives = { YieldsFirst rows_left };

    ghost remaining = { item_count rows_left };

    fn next(&mut self) -> Option<Row> {
        if let Some((row, first)) = next_row(self.first) {
            self.first = Some(first);
            return Some(row);
        }
        self.first = None;
        let found = first_row(self.sort, self.archive, self.entries)?;
        self.first = Some(found.first);
        self.entries = found.entries;
        Some(found.row)
    }
}

// ---- an index

/// The rows of the versions that were put, in the order `O`.
#[derive(Drop)]
pub struct Sorted<O> {
    postings: BlockList<Posting>,
    order: PhantomData<O>,
}

impl<O> Model for Sorted<O> {
    ghost use Rattle.cb_index.specs.Held.{Held};

    ghost Value = { Held };

    ghost view = { λ s. record {
      entries = s.postings.items;
      room = s.postings.room;
    } };
}

/// The facts of which the first of each key is an entry; none where each definition is one.
fn fact_kind(kind: IndexKind) -> Option<FactKind>
    ensures { result ≡ fact_kind kind }
{
    match kind {
        IndexKind::Facts(kind) => Some(kind),
        _ => None,
    }
}

impl<O: RowOrder> Sorted<O> {
    /// An index that holds nothing. It takes no memory.
    pub fn new(alloc: Global) -> Sorted<O>
        ensures entries { result.entries ≡ [] }
        ensures rows { (a : Archived) → HoldsRowsOf O.kind a [] result.entries }
    {
        Sorted {
            postings: BlockList::new(alloc),
            order: PhantomData,
        }
    }

    /// Makes room for `n` rows in all. What is held stays, also where memory is refused.
    pub fn reserve(&mut self, n: u64) -> Result<(), OutOfMemory>
        ensures ok { OnOk result (n ≤ self.new.room) }
        ensures entries { self.new.entries ≡ self.old.entries }
        ensures room { self.old.room ≤ self.new.room }
    {
        self.postings.reserve(n)
    }

    /// For how many rows there is room.
    pub fn room(&self) -> usize
        ensures { result ≡ self.now.room }
    {
        self.postings.room()
    }

    /// Whether what is held is in order in an archive. It is in the one from which all was put,
    /// whatever was pushed there since.
    pub fn is_in_order(&self, archive: &Archive) -> bool
        ensures { result ≡ true → self.now.entries
            ≡ in_order (sort_key (keyer_of O.kind) archive.now) self.now.entries }
    {
        self.postings.is_in_order(O::kind(), archive)
    }

    /// How many entries a version has in this order.
    pub fn count(&self, archive: &Archive, version: u32) -> usize
        ensures { result ≡ length (listed_of (lister_of O.kind) archive.now version) }
    {
        count(O::kind(), archive, version)
    }

    /// Puts the rows of a version under a name between the others, in the room that is there. It
    /// takes no memory.
    pub fn put_all(&mut self, archive: &Archive, shown: Shown)
        requires order { self.old.entries
            ≡ in_order (sort_key (keyer_of O.kind) archive.now) self.old.entries }
        requires room { length self.old.entries
            + length (listed_of (lister_of O.kind) archive.now shown.version) ≤ self.old.room }
        ensures entries { self.new.entries ≡ in_order (sort_key (keyer_of O.kind) archive.now)
            (self.old.entries ++ entries_of (lister_of O.kind) archive.now shown) }
        ensures rows { (files : List Shown) → HoldsRowsOf O.kind archive.now files self.old.entries
            → IsThere archive.now shown → is_shown archive.now files shown ≡ false
            → HoldsRowsOf O.kind archive.now (put (shown_name archive.now) shown files)
            self.new.entries }
        ensures room { self.old.room ≤ self.new.room }
    {
        self.postings.put_all(O::kind(), archive, shown);
    }

    /// Takes away the rows of a version under a name, all of which are there. It takes no memory,
    /// and the room stays.
    pub fn take_version(&mut self, archive: &Archive, shown: Shown)
        requires { (rest : List Posting) × (self.old.entries
            ≡ in_order (sort_key (keyer_of O.kind) archive.now)
            (entries_of (lister_of O.kind) archive.now shown ++ rest)) }
        ensures entries { (rest : List Posting) → self.old.entries
            ≡ in_order (sort_key (keyer_of O.kind) archive.now)
            (entries_of (lister_of O.kind) archive.now shown ++ rest)
            → self.new.entries ≡ in_order (sort_key (keyer_of O.kind) archive.now) rest }
        ensures rows { (files : List Shown) → HoldsRowsOf O.kind archive.now files self.old.entries
            → shown_under shown.name files ≡ Some shown
            → HoldsRowsOf O.kind archive.now
            (filter (λ (s : Shown). not (nat_eq s.name shown.name)) files) self.new.entries }
        ensures room { self.old.room ≤ self.new.room }
    {
        self.postings.take_all(O::kind(), archive, shown);
    }

    /// The rows of a key, by file name and then by item.
    pub fn range<'a>(&'a self, archive: &'a Archive, key: &[u8]) -> Rows<'a>
        requires { self.now.entries
            ≡ in_order (sort_key (keyer_of O.kind) archive.now) self.now.entries }
        ensures entries { rows_left result ≡ rows_in (fact_kind O.kind) archive.now (filter
            (has_key (keyer_of O.kind) archive.now (prefix_of O.kind key.now) key.now)
            self.now.entries) }
        ensures rows { (files : List Shown) → HoldsRowsOf O.kind archive.now files self.now.entries
            → rows_left result ≡ rows_of_key O.kind archive.now key.now files }
        ensures ascending { (files : List Shown)
            → HoldsRowsOf O.kind archive.now files self.now.entries
            → AreOrdered (λ r s. row_order O.kind archive.now r s ≡ Less) (rows_left result) }
    {
        Rows::new(
            fact_kind(O::kind()),
            archive,
            self.postings.with_key(O::kind(), archive, key),
        )
    }
}
