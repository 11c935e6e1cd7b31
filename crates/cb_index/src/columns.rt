//! What a version keeps of each of its uses and calls beside the facts: a hash of its key, by which
//! those of one key are found, and whether its row is that of an earlier one.
ghost use Rattle.std.specs.Prelude.{◌≡◌, ◌+◌, ◌%◌, ◌^◌, ◌<◌, ◌≤◌, ℕ, IfOk, IfSome, OnOk, Some, List};
ghost use Rattle.std.specs.Prelude.{[], length, map, max, nat_eq, unwrap_or, vec_capacity};
ghost use Rattle.std.specs.Borrow.{Bor};
ghost use Rattle.std.specs.Cmp.Lexicographic.{slice_cmp};
ghost use Rattle.std.specs.List.{list_any, range_with_len};
ghost use Rattle.std.specs.Option.{option_or};
ghost use Rattle.std.specs.Ordering.{is_eq, nat_cmp};
ghost use Rattle.cb_index.specs.Cells.{Cell};
ghost use Rattle.cb_index.specs.Columns.{AreColumns, AreFar, AreFlagged, cells_to, column_for};
ghost use Rattle.cb_index.specs.Columns.{column_of, flag_of, is_near, with_flags};
ghost use Rattle.cb_index.specs.Hash.{hash, key_end};
ghost use Rattle.cb_index.specs.Items.{item_count};
ghost use Rattle.cb_index.specs.declared.entry.FactKind.TheVariants.{Callees, Callers};
ghost use Rattle.cb_index.specs.steps.Numbering.{Knows, first_shown, function_at, known_as};
ghost use Rattle.cb_index.specs.steps.Numbering.{number_of, some_if};

use crate::archive::{OutOfMemory, ScannedSource};
use crate::entry::FactKind;
use crate::items::{count_in, item_line, key_in};
use crate::repeats::{function_in, function_span, have_one_span, search_repeat};
use cb_scan::{Facts, key_prefix};
use std::alloc::Global;
use std::collections::{BTreeMap, BTreeSet};
use std::marker::Model;

// ---- what is kept

/// What is kept of an item: a hash of its key, and whether an item before it has its key and its
/// row.
#[derive(Debug, Drop)]
pub(crate) struct Cell {
    /// Twice the hash, and one more for a repeat.
    bits: u32,
}

impl Model for Cell {
    ghost use Rattle.std.specs.Prelude.{◌/◌, ◌%◌, nat_eq};
    ghost use Rattle.cb_index.specs.Cells as cells;

    ghost Value = { cells.Cell };

    ghost view = { λ c. record { hash = c.bits / 2; repeat = nat_eq (c.bits % 2) 1 } };
}

impl Cell {
    /// A cell.
    fn new(hash: u32, repeat: bool) -> Cell
        requires { hash < 2 ^ 31 }
        ensures { result ≡ record { hash = hash; repeat = repeat } }
    {
        Cell {
            bits: hash * 2 + repeat as u32,
        }
    }

    /// The hash.
    pub(crate) fn hash(&self) -> u32
        ensures { result ≡ self.now.hash }
    {
        self.bits / 2
    }

    /// Whether it is that of a repeat.
    pub(crate) fn repeat(&self) -> bool
        ensures { result ≡ self.now.repeat }
    {
        self.bits % 2 == 1
    }
}

/// The cells of the uses of a text, of its calls by the called name and of its calls by the name
/// that calls.
#[derive(Debug, Drop)]
pub(crate) struct Columns {
    uses: Vec<Cell>,
    callees: Vec<Cell>,
    callers: Vec<Cell>,
    /// A row of flags, in which that of each hash is set that a cell has. A text without a name
    /// mostly has a clear one for it, and is passed over.
    signature: Vec<bool>,
}

impl Model for Columns {
    ghost use Rattle.cb_index.specs.Columns.{Columned};

    ghost Value = { Columned };

    ghost view = { λ c. record {
      uses = c.uses.items;
      callees = c.callees.items;
      callers = c.callers.items;
      signature = c.signature.items;
    } };
}

impl Columns {
    /// The columns of a text.
    pub(crate) fn new(alloc: Global, text: &ScannedSource) -> Result<Columns, OutOfMemory>
        ensures { IfOk result (λ c. AreColumns text.now c) }
    {
        let uses = column(alloc, FactKind::Uses, text)?;
        let callees = column(alloc, FactKind::Callees, text)?;
        let callers = callers_of(alloc, text, callees.as_slice())?;
        let signature = signature_of(
            alloc,
            uses.as_slice(),
            callees.as_slice(),
            callers.as_slice(),
        )?;
        Ok(Columns {
            uses,
            callees,
            callers,
            signature,
        })
    }

    /// Whether a cell may have a hash: none has it where its flag is clear.
    pub(crate) fn may_have(&self, hash: u32) -> bool
        ensures { result ≡ flag_of self.now.signature hash }
    {
        flag_of(self.signature.as_slice(), hash)
    }

    /// The column of a sort.
    pub(crate) fn of(&self, sort: FactKind) -> &[Cell]
        ensures { result.now ≡ column_for sort self.now }
    {
        match sort {
            FactKind::Uses => self.uses.as_slice(),
            FactKind::Callees => self.callees.as_slice(),
            FactKind::Callers => self.callers.as_slice(),
        }
    }
}

// ---- hashes

/// An odd number whose bits look like chance: 2^64 over the golden ratio.
const SPREAD: u64 = 0x9e37_79b9_7f4a_7c15;

/// The last eight bytes of a key as a number, where it is longer than that.
#[tactic(auto, unfolding(crate::specs::Hash::key_end))]
fn key_end(key: &[u8]) -> u64
    ensures { result ≡ key_end key.now }
{
    if key.len() > 8 {
        key_prefix(&key[key.len() - 8..])
    } else {
        0
    }
}

/// A key as a number of 31 bits. Where it differs in any bit of its first bytes, of its last ones
/// or of its length, many of these bits differ.
#[tactic(auto, unfolding(crate::specs::Hash::hash))]
pub(crate) fn hash(key: &[u8]) -> u32
    ensures value { result ≡ hash key.now }
    ensures small { result < 2 ^ 31 }
{
    let whole = key_prefix(key)
        .wrapping_add(key_end(key).wrapping_mul(SPREAD))
        .wrapping_add(key.len() as u64);
    let folded = whole.wrapping_add(whole >> 32);
    (folded.wrapping_mul(SPREAD) >> 33) as u32
}

/// Whether an item may have a key of a hash: it has none where its cell has another one.
pub(crate) fn is_near(cells: &[Cell], item: u32, hash: u32) -> bool
    ensures { result ≡ is_near cells.now item hash }
{
    match cells.get(item as usize) {
        Some(cell) => cell.hash() == hash,
        None => true,
    }
}

/// So many cells are compared at once.
const BLOCK: usize = 16;

/// Whether one of some cells has a hash. All are looked at, so that many are compared at once.
fn any_near(cells: &[Cell], hash: u32) -> bool
    ensures { result ≡ list_any (λ (c : Cell). nat_eq c.hash hash) cells.now }
{
    let mut found = false;
    for one in cells {
        found |= one.hash() == hash;
    }
    found
}

/// Passes blocks of cells, from an item on, in which none has a hash.
fn pass_blocks(cells: &[Cell], from: usize, hash: u32) -> usize
    ensures from { from ≤ result }
    ensures far { AreFar cells.now from result hash }
{
    let mut at = from;
    while at.saturating_add(BLOCK) <= cells.len() {
        if any_near(&cells[at..at + BLOCK], hash) {
            return at;
        }
        at += BLOCK;
    }
    at
}

/// The next item, from one on, that may have a key of a hash; behind the last one if none has.
pub(crate) fn next_near(cells: &[Cell], from: usize, hash: u32) -> usize
    ensures from { from ≤ result }
    ensures far { AreFar cells.now from result hash }
{
    let mut at = pass_blocks(cells, from, hash);
    while at < cells.len() {
        if cells[at].hash() == hash {
            return at;
        }
        at += 1;
    }
    at
}

// ---- signatures

/// The place of the flag of a hash among so many.
fn flag_place(hash: u32, flags: usize) -> usize
    ensures { result ≡ hash % max flags 1 }
{
    hash as usize % flags.max(1)
}

/// The flag of a hash; set where there is none.
fn flag_of(flags: &[bool], hash: u32) -> bool
    ensures { result ≡ flag_of flags.now hash }
{
    let place = flag_place(hash, flags.len());
    if place < flags.len() {
        flags[place]
    } else {
        true
    }
}

/// Sets the flags of cells.
#[tactic(auto, unfolding(crate::specs::Columns::with_flags))]
fn set_flags(flags: &mut [bool], cells: &[Cell])
    ensures flags { flags.new ≡ with_flags flags.old cells.now }
    ensures len { length flags.new ≡ length flags.old }
{
    for cell in cells {
        let place = flag_place(cell.hash(), flags.len());
        if place < flags.len() {
            flags[place] = true;
        }
    }
}

/// Sets the flags of three columns.
fn set_all_flags(flags: &mut [bool], uses: &[Cell], callees: &[Cell], callers: &[Cell])
    ensures uses { AreFlagged flags.new uses.now }
    ensures callees { AreFlagged flags.new callees.now }
    ensures callers { AreFlagged flags.new callers.now }
    ensures len { length flags.new ≡ length flags.old }
{
    set_flags(flags, uses);
    set_flags(flags, callees);
    set_flags(flags, callers);
}

/// The signature of three columns: a flag for each cell.
fn signature_of(
    alloc: Global,
    uses: &[Cell],
    callees: &[Cell],
    callers: &[Cell],
) -> Result<Vec<bool>, OutOfMemory>
    ensures uses { IfOk result (λ flags. AreFlagged flags.items uses.now) }
    ensures callees { IfOk result (λ flags. AreFlagged flags.items callees.now) }
    ensures callers { IfOk result (λ flags. AreFlagged flags.items callers.now) }
{
    let count = uses
        .len()
        .saturating_add(callees.len())
        .saturating_add(callers.len());
    let mut flags = room_for(alloc, count)?;
    if flags.resize(count, false).is_err() {
        return Err(OutOfMemory);
    }
    set_all_flags(flags.as_mut_slice(), uses, callees, callers);
    Ok(flags)
}

// ---- the cells of a text

/// The column of a sort. Repeats are looked for on their lines, or among all items that are sorted
/// where a line has many.
fn column(alloc: Global, sort: FactKind, text: &ScannedSource) -> Result<Vec<Cell>, OutOfMemory>
    ensures { IfOk result (λ cells. cells.items ≡ column_of sort text.now) }
{
    if is_crowded(sort, text) {
        column_by_rows(alloc, sort, text)
    } else {
        column_by_lines(alloc, sort, text)
    }
}

/// So many items of one line are compared with each other.
const FEW: usize = 32;

/// Whether a line has more than `FEW` items.
fn is_crowded(sort: FactKind, text: &ScannedSource) -> bool {
    for item in FEW..count_in(sort, text) {
        let first = item_line(sort, text.facts(), (item - FEW) as u32);
        if item_line(sort, text.facts(), item as u32) == first {
            return true;
        }
    }
    false
}

/// An empty list with room for the items of a text.
fn room_for<T>(alloc: Global, count: usize) -> Result<Vec<T>, OutOfMemory>
    ensures items { IfOk result (λ list. list.items ≡ []) }
    ensures room { IfOk result (λ list. count ≤ vec_capacity list) }
{
    match Vec::with_capacity(alloc, count) {
        Ok(list) => Ok(list),
        Err(_) => Err(OutOfMemory),
    }
}

/// The column, where each repeat is looked for among the items before it on its line.
fn column_by_lines(
    alloc: Global,
    sort: FactKind,
    text: &ScannedSource,
) -> Result<Vec<Cell>, OutOfMemory>
    ensures { IfOk result (λ cells. cells.items ≡ column_of sort text.now) }
{
    let mut cells = room_for(alloc, count_in(sort, text))?;
    for item in 0..count_in(sort, text) {
        let _ = cells.push(Cell::new(
            hash(key_in(sort, text, item as u32)),
            search_repeat(sort, text, cells.as_slice(), item as u32),
        ));
    }
    Ok(cells)
}

// ---- repeats where a line has many items

/// A name in the function column, and the first item that shows it.
type Known<'a> = BTreeMap<&'a [u8], u32>;

/// Where the name in the function column of an item begins; 0 where it is not in the text.
fn function_start(sort: FactKind, facts: &Facts, item: u32) -> u32 {
    match function_span(sort, facts, item) {
        Some(span) => span.start,
        None => 0,
    }
}

/// The number of an item, if another one shows its name at the same place and has a number.
fn number_of_other(
    sort: FactKind,
    text: &ScannedSource,
    numbers: &[u32],
    other: u32,
    item: u32,
) -> Option<u32>
    requires { numbers.now ≡ map (number_of sort text.now) (range_with_len 0 item) }
    ensures { IfSome result (λ n. first_shown sort text.now (function_at sort text.now item) item
        ≡ Some n) }
{
    let number = *numbers.get(other as usize)?;
    if have_one_span(sort, text.facts(), other, item) {
        Some(number)
    } else {
        None
    }
}

/// The number of an item, where one before it shows its name at the same place. It is looked for at
/// the item before, and among the first items of all places, which rise.
fn number_at_place(
    sort: FactKind,
    text: &ScannedSource,
    numbers: &[u32],
    places: &[u32],
    item: u32,
) -> Option<u32>
    requires { numbers.now ≡ map (number_of sort text.now) (range_with_len 0 item) }
    ensures { IfSome result (λ n. first_shown sort text.now (function_at sort text.now item) item
        ≡ Some n) }
{
    let last = number_of_other(sort, text, numbers, item.saturating_sub(1), item);
    if last.is_some() {
        return last;
    }
    let start = function_start(sort, text.facts(), item);
    let at = places.partition_point(|other: &u32| -> bool {
        function_start(sort, text.facts(), *other) < start
    });
    let other = *places.get(at)?;
    number_of_other(sort, text, numbers, other, item)
}

/// The first item that shows the name of an item, which becomes known.
fn first_known<'a>(known: &mut Known<'a>, name: &'a [u8], item: u32) -> Result<u32, OutOfMemory>
    ensures first { IfOk result (λ n. n ≡ unwrap_or (known_as known.old name.entry) item) }
    ensures known { OnOk result ((q : Bor (List ℕ)) → known_as known.new q
        ≡ option_or (known_as known.old q)
        (some_if (is_eq (slice_cmp nat_cmp name.entry.now q.now)) item)) }
{
    if let Some(first) = known.get(&name) {
        return Ok(*first);
    }
    match known.insert(name, item) {
        Ok(_) => Ok(item),
        Err(_) => Err(OutOfMemory),
    }
}

/// The number of an item, whose name becomes known.
fn next_number<'a>(
    sort: FactKind,
    text: &'a ScannedSource,
    numbers: &[u32],
    places: &mut Vec<u32>,
    known: &mut Known<'a>,
    item: u32,
) -> Result<u32, OutOfMemory>
    requires numbers { numbers.now ≡ map (number_of sort text.now) (range_with_len 0 item) }
    requires known { Knows sort text.now known.old item }
    ensures value { IfOk result (λ n. n ≡ number_of sort text.now item) }
    ensures known { OnOk result (Knows sort text.now known.new (item + 1)) }
{
    if let Some(number) = number_at_place(sort, text, numbers, places.as_slice(), item) {
        return Ok(number);
    }
    if places.push(item).is_err() {
        return Err(OutOfMemory);
    }
    let number = first_known(known, function_in(sort, text, item), item)?;
    Ok(number)
}

/// The number of each item: the first one that shows its name in the function column. A name may
/// be long, and around many items: its bytes are compared once for each place.
fn numbers_of(alloc: Global, sort: FactKind, text: &ScannedSource) -> Result<Vec<u32>, OutOfMemory>
    ensures { IfOk result (λ numbers. numbers.items
        ≡ map (number_of sort text.now) (range_with_len 0 (item_count sort text.now))) }
{
    let mut known = BTreeMap::new(alloc);
    let mut places = Vec::new(alloc);
    let mut numbers = room_for(alloc, count_in(sort, text))?;
    for item in 0..count_in(sort, text) {
        let number = next_number(
            sort,
            text,
            numbers.as_slice(),
            &mut places,
            &mut known,
            item as u32,
        )?;
        let _ = numbers.push(number);
    }
    Ok(numbers)
}

/// The column, where the rows of the items so far are kept in order.
fn column_by_rows(
    alloc: Global,
    sort: FactKind,
    text: &ScannedSource,
) -> Result<Vec<Cell>, OutOfMemory>
    ensures { IfOk result (λ cells. cells.items ≡ column_of sort text.now) }
{
    let numbers = numbers_of(alloc, sort, text)?;
    let mut rows: BTreeSet<(u32, u32, &[u8])> = BTreeSet::new(alloc);
    let mut cells = room_for(alloc, count_in(sort, text))?;
    for item in 0..count_in(sort, text) {
        let key = key_in(sort, text, item as u32);
        let line = item_line(sort, text.facts(), item as u32);
        let Ok(new) = rows.insert((line, numbers[item], key)) else {
            return Err(OutOfMemory);
        };
        let _ = cells.push(Cell::new(hash(key), !new));
    }
    Ok(cells)
}

/// The column of calls by the name that calls, from that by the called name: the rows of a call in
/// the two are repeats of the same.
fn callers_of(
    alloc: Global,
    text: &ScannedSource,
    callees: &[Cell],
) -> Result<Vec<Cell>, OutOfMemory>
    requires { callees.now ≡ column_of Callees text.now }
    ensures { IfOk result (λ cells. cells.items ≡ column_of Callers text.now) }
{
    let _count = count_in(FactKind::Callees, text);
    let mut cells = room_for(alloc, callees.len())?;
    for (item, callee) in callees.iter().enumerate() {
        let _ = cells.push(Cell::new(
            hash(key_in(FactKind::Callers, text, item as u32)),
            callee.repeat(),
        ));
    }
    Ok(cells)
}
