//! An index: its entries in the order of its kind, and the versions that are pending until a
//! question comes.
ghost use Rattle.std.specs.Prelude.{◌≡◌, ◌≤◌, ◌+◌, ◌++◌, ◌∷◌, [], List, OnOk, Some, false};
ghost use Rattle.std.specs.Prelude.{filter, length, true, vec_capacity};
ghost use Rattle.std.specs.List.{AllByRecursion};
ghost use Rattle.std.specs.List.Sorted.{IsStrictlyIncreasing};
ghost use Rattle.cb_scan.specs.Order.{goes_first, in_order};
ghost use Rattle.cb_index.specs.Blocks.{joined};
ghost use Rattle.cb_index.specs.Entries.{has_key, has_key_from, sort_key};
ghost use Rattle.cb_index.specs.Files.{shown_under};
ghost use Rattle.cb_index.specs.Held.{Indexed, all_entries, entries_of, listed_of};
ghost use Rattle.cb_index.specs.Kinds.{keyer_of, lister_of, prefix_of};
ghost use Rattle.cb_index.specs.Names.{names_of};
ghost use Rattle.cb_index.specs.Shelved.{HasRoom, IsIndex, room_for};
ghost use Rattle.cb_index.specs.declared.entry.Posting.{Posting};
ghost use Rattle.cb_index.specs.declared.entry.Shown.{Shown};
ghost use Rattle.cb_index.specs.steps.Lists.{Fit};
ghost use Rattle.cb_index.specs.steps.Moves.{Become, CanTakeIn, LetsGo, LetsGoAll, StaysItself};
ghost use Rattle.cb_index.specs.steps.Moves.{StaysSame, TakesIn};
ghost use Rattle.cb_index.specs.steps.Runs.{run_items};
ghost use Rattle.cb_index.specs.steps.ToCome.{is_asked};

use crate::archive::{Archive, OutOfMemory};
use crate::blocks::{BlockList, Blocks, Place, Run, lower_bound, take_named};
use crate::entry::{Asked, FactKind, IndexKind, Posting, Shown};
use crate::order::{EntryBound, Side, append, compare, count, prefix};
use crate::shelf::Room;
use crate::shown::place_of_name;
use crate::sort::sort;
use std::alloc::Global;
use std::cmp::Ordering;
use std::marker::Model;

// ---- entries in order

/// Entries are put one after another where they are at most this part of those that are held. One
/// that is put so takes about as long as that many take in a sort of all.
const FEW: usize = 5;

/// Entries are taken away one after another where they are at most this part of those that are
/// held. One that is taken so takes about as long as that many in a pass over all.
const FEW_GONE: usize = 256;

/// Whether an entry does not come after another.
fn goes_first(kind: IndexKind, archive: &Archive, a: Posting, b: Posting) -> bool
    ensures { result ≡ goes_first (sort_key (keyer_of kind) archive.now) a b }
{
    compare(kind, archive, a, b) != Ordering::Greater
}

/// Whether the entries of versions are few beside the `held` ones.
fn are_few(kind: IndexKind, archive: &Archive, shown: &[Shown], held: usize) -> bool {
    let mut left = held / FEW;
    for one in shown {
        let count = count(kind, archive, one.version);
        if count > left {
            return false;
        }
        left -= count;
    }
    true
}

/// Appends the entries of versions, in the room that is there.
fn append_each(kind: IndexKind, archive: &Archive, shown: &[Shown], entries: &mut Vec<Posting>)
    requires { length entries.old.items
        + length (all_entries (lister_of kind) archive.now shown.now)
        ≤ vec_capacity entries.old }
    ensures items { entries.new.items
        ≡ entries.old.items ++ all_entries (lister_of kind) archive.now shown.now }
    ensures room { vec_capacity entries.old ≤ vec_capacity entries.new }
{
    for one in shown {
        append(kind, archive, *one, entries);
    }
}

/// Puts an entry between the others; not where a block is wanted and none is left.
fn try_put(kind: IndexKind, archive: &Archive, one: Posting, blocks: &mut Blocks<Posting>) -> bool
    requires { joined blocks.old.used
        ≡ in_order (sort_key (keyer_of kind) archive.now) (joined blocks.old.used) }
    ensures put { result ≡ true → joined blocks.new.used
        ≡ in_order (sort_key (keyer_of kind) archive.now) (joined blocks.old.used ++ one ∷ []) }
    ensures stays { result ≡ false → blocks.new.used ≡ blocks.old.used }
    ensures count { blocks.new.count ≡ blocks.old.count }
{
    let bound = EntryBound {
        kind,
        archive,
        side: Side::Behind(one),
    };
    let place = lower_bound(&bound, blocks.used());
    blocks.try_insert(place, one)
}

/// Takes away an entry that is there.
fn take_one(kind: IndexKind, archive: &Archive, one: Posting, blocks: &mut Blocks<Posting>)
    requires { (rest : List Posting)
        × (joined blocks.old.used ≡ in_order (sort_key (keyer_of kind) archive.now) (one ∷ rest)) }
    ensures taken { (rest : List Posting)
        → joined blocks.old.used ≡ in_order (sort_key (keyer_of kind) archive.now) (one ∷ rest)
        → joined blocks.new.used ≡ in_order (sort_key (keyer_of kind) archive.now) rest }
    ensures count { blocks.new.count ≡ blocks.old.count }
{
    let bound = EntryBound {
        kind,
        archive,
        side: Side::Behind(one),
    };
    let place = lower_bound(&bound, blocks.used());
    if place.at == 0 {
        unreachable!()
    }
    blocks.remove(Place {
        block: place.block,
        at: place.at - 1,
    });
}

/// Puts entries between the others, one after another; all together from where no block is left.
fn put_rest(
    kind: IndexKind,
    archive: &Archive,
    news: &mut Vec<Posting>,
    blocks: &mut Blocks<Posting>,
)
    requires order { joined blocks.old.used
        ≡ in_order (sort_key (keyer_of kind) archive.now) (joined blocks.old.used) }
    requires fits { Fit (length news.old.items + length (joined blocks.old.used))
        (vec_capacity news.old) blocks.old.count }
    ensures entries { joined blocks.new.used ≡ in_order (sort_key (keyer_of kind) archive.now)
        (joined blocks.old.used ++ news.old.items) }
    ensures fits { Fit (length (joined blocks.new.used)) (vec_capacity news.new) blocks.new.count }
    ensures room { vec_capacity news.old ≤ vec_capacity news.new }
    ensures count { blocks.new.count ≡ blocks.old.count }
{
    while let Some(one) = news.pop() {
        if !try_put(kind, archive, one, blocks) {
            news.push_reserved(one);
            blocks.lift(news);
            sort(kind, archive, news);
            blocks.deal(news.as_slice());
            return;
        }
    }
}

/// Takes entries away that are there.
fn take_rest(
    kind: IndexKind,
    archive: &Archive,
    gone: &mut Vec<Posting>,
    blocks: &mut Blocks<Posting>,
)
    requires { (rest : List Posting) × (joined blocks.old.used
        ≡ in_order (sort_key (keyer_of kind) archive.now) (gone.old.items ++ rest)) }
    ensures taken { (rest : List Posting)
        → joined blocks.old.used
        ≡ in_order (sort_key (keyer_of kind) archive.now) (gone.old.items ++ rest)
        → joined blocks.new.used ≡ in_order (sort_key (keyer_of kind) archive.now) rest }
    ensures room { vec_capacity gone.new ≡ vec_capacity gone.old }
    ensures count { blocks.new.count ≡ blocks.old.count }
{
    while let Some(one) = gone.pop() {
        take_one(kind, archive, one, blocks);
    }
}

/// The entries of the versions that were put, in the order of one kind, which each call is told.
impl BlockList<Posting> {
    /// Whether the entries are in order in an archive. They are in the one from which all were put,
    /// whatever was pushed there since.
    pub(crate) fn is_in_order(&self, kind: IndexKind, archive: &Archive) -> bool
        ensures { result ≡ true
            → self.now.items ≡ in_order (sort_key (keyer_of kind) archive.now) self.now.items }
    {
        let (mut last, mut left) = match self.items().split_first() {
            Some((entry, rest)) => (*entry, rest),
            None => return true,
        };
        while let Some((entry, rest)) = left.split_first() {
            if !goes_first(kind, archive, last, *entry) {
                return false;
            }
            last = *entry;
            left = rest;
        }
        true
    }

    /// Puts the entries of a version under a name between the others, in the room that is there. It
    /// takes no memory. Where no block is left for one of them, it sorts all.
    pub(crate) fn put_all(&mut self, kind: IndexKind, archive: &Archive, shown: Shown)
        requires order { self.old.items
            ≡ in_order (sort_key (keyer_of kind) archive.now) self.old.items }
        requires room { length self.old.items
            + length (listed_of (lister_of kind) archive.now shown.version) ≤ self.old.room }
        ensures entries { self.new.items ≡ in_order (sort_key (keyer_of kind) archive.now)
            (self.old.items ++ entries_of (lister_of kind) archive.now shown) }
        ensures room { self.old.room ≤ self.new.room }
    {
        self.scratch.truncate(0);
        append(kind, archive, shown, &mut self.scratch);
        put_rest(kind, archive, &mut self.scratch, &mut self.blocks);
    }

    /// Puts the entries of many versions among the others, in the room that is there: one version
    /// after another where they are few, else by one sort. It takes no memory.
    pub(crate) fn put_each(&mut self, kind: IndexKind, archive: &Archive, shown: &[Shown])
        requires order { self.old.items
            ≡ in_order (sort_key (keyer_of kind) archive.now) self.old.items }
        requires room { length self.old.items
            + length (all_entries (lister_of kind) archive.now shown.now) ≤ self.old.room }
        ensures entries { self.new.items ≡ in_order (sort_key (keyer_of kind) archive.now)
            (self.old.items ++ all_entries (lister_of kind) archive.now shown.now) }
        ensures room { self.old.room ≤ self.new.room }
    {
        if are_few(kind, archive, shown, self.items().len()) {
            for one in shown {
                self.put_all(kind, archive, *one);
            }
            return;
        }
        self.scratch.truncate(0);
        self.blocks.lift(&mut self.scratch);
        append_each(kind, archive, shown, &mut self.scratch);
        sort(kind, archive, &mut self.scratch);
        self.blocks.deal(self.scratch.as_slice());
    }

    /// Whether the entries of a version are few beside those that are held.
    pub(crate) fn has_few(&self, kind: IndexKind, archive: &Archive, version: u32) -> bool {
        count(kind, archive, version) <= self.items().len() / FEW_GONE
    }

    /// Takes away the entries of a version under a name, all of which are there, one after another.
    /// It takes no memory, and the room stays.
    pub(crate) fn take_all(&mut self, kind: IndexKind, archive: &Archive, shown: Shown)
        requires { (rest : List Posting)
            × (self.old.items ≡ in_order (sort_key (keyer_of kind) archive.now)
            (entries_of (lister_of kind) archive.now shown ++ rest)) }
        ensures entries { (rest : List Posting)
            → self.old.items ≡ in_order (sort_key (keyer_of kind) archive.now)
            (entries_of (lister_of kind) archive.now shown ++ rest)
            → self.new.items ≡ in_order (sort_key (keyer_of kind) archive.now) rest }
        ensures room { self.old.room ≤ self.new.room }
    {
        self.scratch.truncate(0);
        append(kind, archive, shown, &mut self.scratch);
        take_rest(kind, archive, &mut self.scratch, &mut self.blocks);
    }

    /// The entries that have the key, in order.
    pub(crate) fn with_key(
        &self,
        kind: IndexKind,
        archive: &Archive,
        key: &[u8],
    ) -> Run<'_, Posting>
        requires { self.now.items
            ≡ in_order (sort_key (keyer_of kind) archive.now) self.now.items }
        ensures { run_items result
            ≡ filter (has_key (keyer_of kind) archive.now (prefix_of kind key.now) key.now)
            self.now.items }
    {
        let _room = self.scratch.capacity();
        let prefix = prefix(kind, key);
        let blocks = self.blocks.used();
        let before = EntryBound {
            kind,
            archive,
            side: Side::Before(prefix, key),
        };
        let after = EntryBound {
            kind,
            archive,
            side: Side::After(prefix, key),
        };
        let from = lower_bound(&before, blocks);
        let to = lower_bound(&after, blocks);
        Run::between(blocks, from, to)
    }

    /// The entries whose keys are not less than this one, in order.
    pub(crate) fn from_key(
        &self,
        kind: IndexKind,
        archive: &Archive,
        key: &[u8],
    ) -> Run<'_, Posting>
        requires { self.now.items
            ≡ in_order (sort_key (keyer_of kind) archive.now) self.now.items }
        ensures { run_items result
            ≡ filter (has_key_from (keyer_of kind) archive.now (prefix_of kind key.now) key.now)
            self.now.items }
    {
        let _room = self.scratch.capacity();
        let prefix = prefix(kind, key);
        let blocks = self.blocks.used();
        let before = EntryBound {
            kind,
            archive,
            side: Side::Before(prefix, key),
        };
        Run::after(blocks, lower_bound(&before, blocks))
    }
}

// ---- indexes

/// An index of versions. Those that come are pending until `flush`, so that the entries of many are
/// put in order together.
#[derive(Drop)]
pub(crate) struct Index {
    kind: IndexKind,
    postings: BlockList<Posting>,
    pending: Vec<Shown>,
}

impl Model for Index {
    ghost use Rattle.std.specs.Prelude.{vec_capacity};
    ghost use Rattle.cb_index.specs.Held.{Indexed};

    ghost Value = { Indexed };

    ghost view = { λ x. record {
      kind = x.kind;
      held = x.postings.items;
      pending = x.pending.items;
      room = x.postings.room;
      version_room = vec_capacity x.pending;
    } };
}

/// Where the version under the number of a name is likely to be pending: at the end, where the
/// newest one stands, or where a binary search finds it, since most numbers rise.
fn likely_place(name: u32, pending: &[Shown]) -> usize {
    if let Some(newest) = pending.last()
        && newest.name == name
    {
        return pending.len() - 1;
    }
    pending.partition_point(|s: &Shown| -> bool { s.name < name })
}

/// For how many entries of a kind there is to be room.
fn room_for(kind: IndexKind, room: &Room) -> u64
    ensures { result ≡ room_for kind room.now }
{
    match kind {
        IndexKind::DefsByName => room.defs,
        IndexKind::DefsByTagName => room.defs,
        IndexKind::Facts(FactKind::Uses) => room.uses,
        IndexKind::Facts(_) => room.calls,
    }
}

impl Index {
    /// An index that holds nothing. It takes no memory.
    pub(crate) fn new(alloc: Global, kind: IndexKind) -> Index
        ensures kind { result.kind ≡ kind }
        ensures held { result.held ≡ [] }
        ensures pending { result.pending ≡ [] }
    {
        Index {
            kind,
            postings: BlockList::new(alloc),
            pending: Vec::new(alloc),
        }
    }

    /// Makes the room of its kind. What is held and pending stays, also where memory is refused.
    pub(crate) fn reserve(&mut self, room: &Room) -> Result<(), OutOfMemory>
        ensures room { OnOk result (HasRoom room.now self.new) }
        ensures same { StaysSame self.old self.new }
    {
        let more = (room.entries as usize).saturating_sub(self.pending.len());
        match self.pending.reserve(more) {
            Ok(()) => {}
            Err(_) => return Err(OutOfMemory),
        }
        self.postings.reserve(room_for(self.kind, room))
    }

    /// Takes versions in, in the room that is there: they are pending. It takes no memory.
    pub(crate) fn put(&mut self, news: &[Shown])
        requires { length self.old.pending + length news.now ≤ self.old.version_room }
        ensures { TakesIn news.now self.old self.new }
    {
        if self.pending.extend_from_slice(news).is_err() {
            unreachable!()
        }
    }

    /// Takes a version away, which is pending or whose entries are held. It takes no memory, and
    /// the room stays.
    pub(crate) fn take(&mut self, archive: &Archive, one: Shown)
        requires { (shown : List Shown)
            × IsIndex archive.now shown self.old
            × (shown_under one.name shown ≡ Some one) }
        ensures { LetsGo archive.now one self.old self.new }
    {
        let pending = self.pending.as_slice();
        let at = place_of_name(one.name, likely_place(one.name, pending), pending);
        if at == self.pending.len() {
            if self.postings.has_few(self.kind, archive, one.version) {
                self.postings.take_all(self.kind, archive, one);
            } else {
                self.postings.take_names(&[one]);
            }
            return;
        }
        let _one = self.pending.remove(at);
    }

    /// Takes the versions under the names of many files away, in one pass. It takes no memory, and
    /// the room stays.
    pub(crate) fn take_names(&mut self, files: &[Shown])
        requires { IsStrictlyIncreasing (names_of files.now) }
        ensures { LetsGoAll (names_of files.now) self.old self.new }
    {
        take_named(&mut self.pending, files);
        self.postings.take_names(files);
    }

    /// Whether nothing is pending.
    pub(crate) fn is_flushed(&self) -> bool
        ensures { result ≡ true → self.now.pending ≡ [] }
    {
        self.pending.is_empty()
    }

    /// Puts what is pending in order among the entries that are held, in the room that is there. It
    /// takes no memory.
    pub(crate) fn flush(&mut self, archive: &Archive)
        requires order { self.old.held
            ≡ in_order (sort_key (keyer_of self.old.kind) archive.now) self.old.held }
        requires room { length self.old.held
            + length (all_entries (lister_of self.old.kind) archive.now self.old.pending)
            ≤ self.old.room }
        ensures held { self.new.held ≡ in_order (sort_key (keyer_of self.old.kind) archive.now)
            (self.old.held ++ all_entries (lister_of self.old.kind) archive.now self.old.pending) }
        ensures pending { self.new.pending ≡ [] }
        ensures itself { StaysItself self.old self.new }
    {
        self.postings
            .put_each(self.kind, archive, self.pending.as_slice());
        self.pending.clear();
    }

    /// The entries that are held, in order: those that are asked for.
    pub(crate) fn asked(&self, archive: &Archive, asked: Asked<'_>) -> Run<'_, Posting>
        requires { self.now.held
            ≡ in_order (sort_key (keyer_of self.now.kind) archive.now) self.now.held }
        ensures { run_items result
            ≡ filter (is_asked self.now.kind archive.now asked.entry) self.now.held }
    {
        match asked {
            Asked::Every => self.postings.items(),
            Asked::OfKey(key) => self.postings.with_key(self.kind, archive, key),
            Asked::FromKey(key) => self.postings.from_key(self.kind, archive, key),
        }
    }
}

/// Makes the room of its kind in each index. What is held and pending stays, also where memory is
/// refused.
pub(crate) fn reserve_each(indexes: &mut [Index], room: &Room) -> Result<(), OutOfMemory>
    ensures room { OnOk result (AllByRecursion (HasRoom room.now) indexes.new) }
    ensures same { Become StaysSame indexes.old indexes.new }
{
    for index in indexes.iter_mut() {
        index.reserve(room)?;
    }
    Ok(())
}

/// Each index takes versions in.
pub(crate) fn put_in_each(indexes: &mut [Index], news: &[Shown])
    requires { AllByRecursion (CanTakeIn news.now) indexes.old }
    ensures { Become (TakesIn news.now) indexes.old indexes.new }
{
    for index in indexes.iter_mut() {
        index.put(news);
    }
}

/// A version is taken away from each index.
pub(crate) fn take_from_each(indexes: &mut [Index], archive: &Archive, one: Shown)
    requires { (shown : List Shown)
        × AllByRecursion (IsIndex archive.now shown) indexes.old
        × (shown_under one.name shown ≡ Some one) }
    ensures { Become (LetsGo archive.now one) indexes.old indexes.new }
{
    for index in indexes.iter_mut() {
        index.take(archive, one);
    }
}

/// The versions under the names of many files are taken away from each index.
pub(crate) fn take_names_from_each(indexes: &mut [Index], files: &[Shown])
    requires { IsStrictlyIncreasing (names_of files.now) }
    ensures { Become (LetsGoAll (names_of files.now)) indexes.old indexes.new }
{
    for index in indexes.iter_mut() {
        index.take_names(files);
    }
}
