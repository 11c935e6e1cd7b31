//! What is kept in blocks: blocks, and places in them, found by binary search; what is lent
//! from them; and lists in blocks.
ghost use Rattle.std.specs.List.{AllByRecursion, insert};
ghost use Rattle.std.specs.List.Sorted.{IsPartitionPoint, IsPartitionedBy, IsStrictlyIncreasing};
ghost use Rattle.std.specs.Prelude.{◌≡◌, ◌<◌, ◌≤◌, ◌+◌, ◌*◌, ◌++◌, ◌∷◌, [], IfOk, OnOk, drop};
ghost use Rattle.std.specs.Prelude.{false, length, slice_index_or, suc, take, true, vec_capacity};
ghost use Rattle.std.specs.Prelude.{◌^◌, ⊤, MatchOption, filter, not};
ghost use Rattle.std.specs.Ordering.{nat_cmp};
ghost use Rattle.cb_index.specs.Blocks.{AreParted, IsFilled, IsPlace, IsPlaceOf, before, head_is};
ghost use Rattle.cb_index.specs.Blocks.{joined};
ghost use Rattle.cb_index.specs.Names.{is_among, names_of};
ghost use Rattle.cb_index.specs.declared.blocks.TheConstants.{HALF, SIZE};

use crate::archive::OutOfMemory;
use crate::entry::{Posting, Shown};
use std::alloc::{AllocError, Global};
use std::cmp::Ordering;
use std::marker::Model;

// ---- a block

/// The most elements of a block. Room that nothing is put into costs a page of memory a block, so
/// blocks are large; what follows an element moves when it comes or goes, so they are not larger.
const SIZE: usize = 4096;

/// So many elements stay in a full block that is split.
pub(crate) const HALF: usize = 2048;

/// Up to `SIZE` elements, in room that is made once.
#[derive(Drop)]
pub(crate) struct Block<T> {
    items: Vec<T>,
}

impl<T> Model for Block<T> {
    ghost use Rattle.std.specs.Prelude.{List, length, vec_capacity, ◌≤◌};
    ghost use Rattle.cb_index.specs.declared.blocks.TheConstants.{SIZE};

    ghost Value = { List T };

    ghost view = { λ b. b.items.items };

    ghost invariant = { λ b. (SIZE ≤ vec_capacity b.items) × (length b.items.items ≤ SIZE) };
}

impl<T: Copy> Block<T> {
    /// A block without elements.
    pub(crate) fn new(alloc: Global) -> Result<Block<T>, OutOfMemory>
        ensures { IfOk result (λ block. block ≡ []) }
    {
        let mut items = Vec::new(alloc);
        match items.reserve(SIZE) {
            Ok(()) => Ok(Block { items }),
            Err(_) => Err(OutOfMemory),
        }
    }

    /// The elements.
    pub(crate) fn items(&self) -> &[T]
        ensures value { result.now ≡ self.now }
        ensures few { length self.now ≤ SIZE }
    {
        self.items.as_slice()
    }

    /// Whether there is no room for another element.
    pub(crate) fn is_full(&self) -> bool
        ensures full { result ≡ true → length self.now ≡ SIZE }
        ensures free { result ≡ false → length self.now < SIZE }
    {
        self.items.len() >= SIZE
    }

    /// Puts an element at a place.
    pub(crate) fn insert(&mut self, at: usize, one: T)
        requires place { at ≤ length self.old }
        requires room { length self.old < SIZE }
        ensures { self.new ≡ take at self.old ++ one ∷ drop at self.old }
    {
        if self.items.insert(at, one).is_err() {
            unreachable!()
        }
    }

    /// Takes away the element at a place.
    pub(crate) fn remove(&mut self, at: usize)
        requires { at < length self.old }
        ensures { self.new ≡ take at self.old ++ drop (suc at) self.old }
    {
        self.items.remove(at);
    }

    /// Keeps these elements alone.
    pub(crate) fn fill(&mut self, items: &[T])
        requires { length items.now ≤ SIZE }
        ensures { self.new ≡ items.now }
    {
        self.items.truncate(0);
        if self.items.extend_from_slice(items).is_err() {
            unreachable!()
        }
    }

    /// Moves the upper half to another block, which keeps nothing else.
    fn split(&mut self, upper: &mut Block<T>)
        requires { length self.old ≡ SIZE }
        ensures lower { self.new ≡ take HALF self.old }
        ensures upper { upper.new ≡ drop HALF self.old }
        ensures lower_count { length self.new ≡ HALF }
        ensures upper_count { length upper.new ≡ HALF }
    {
        upper.fill(self.items.as_slice().split_at(HALF).1);
        self.items.truncate(HALF);
    }

    /// Puts an element at a place of a full block, whose upper half moves to another one.
    pub(crate) fn insert_split(&mut self, at: usize, one: T, upper: &mut Block<T>)
        requires place { at ≤ length self.old }
        requires full { length self.old ≡ SIZE }
        ensures both { self.new ++ upper.new ≡ take at self.old ++ one ∷ drop at self.old }
        ensures lower { 0 < length self.new }
        ensures upper { 0 < length upper.new }
    {
        self.split(upper);
        if at <= HALF {
            self.insert(at, one);
        } else {
            upper.insert(at - HALF, one);
        }
    }
}

// ---- places

/// What parts elements that are in order into those ahead of it and those behind it.
pub(crate) trait Bound<T> {
    ghost use Rattle.std.specs.Prelude.{Bool};

    ghost is_ahead: { Self → T → Bool };

    /// Whether an element stands ahead of it.
    fn is_ahead(&self, one: T) -> bool
        ensures { result ≡ is_ahead self.now one };
}

/// A place in a block.
#[derive(Clone, Copy, Debug)]
pub(crate) struct Place {
    pub(crate) block: usize,
    pub(crate) at: usize,
}

/// How many elements stand ahead of a bound.
pub(crate) fn count_ahead<T: Copy, B: Bound<T>>(bound: &B, items: &[T]) -> usize
    requires { IsPartitionedBy (B.is_ahead bound.now) items.now }
    ensures bound { result ≤ length items.now }
    ensures parted { IsPartitionPoint (λ e. B.is_ahead bound.now e ≡ true)
        (λ e. B.is_ahead bound.now e ≡ false) items.now result }
{
    items.partition_point(
        |e: &T| -> bool
            ensures { result ≡ B.is_ahead bound.entry.now e.now }
        { bound.is_ahead(*e) },
    )
}

/// Whether the first element of a block stands ahead of a bound.
#[tactic(auto, unfolding(crate::specs::Blocks::head_is))]
fn begins_ahead<T: Copy, B: Bound<T>>(bound: &B, block: &Block<T>) -> bool
    ensures { result ≡ head_is (B.is_ahead bound.now) block.now }
{
    match block.items().first() {
        Some(one) => bound.is_ahead(*one),
        None => false,
    }
}

/// How many blocks begin ahead of a bound.
fn count_begun<T: Copy, B: Bound<T>>(bound: &B, blocks: &[Block<T>]) -> usize
    requires { IsPartitionedBy (head_is (B.is_ahead bound.now)) blocks.now }
    ensures bound { result ≤ length blocks.now }
    ensures parted { IsPartitionPoint (λ b. head_is (B.is_ahead bound.now) b ≡ true)
        (λ b. head_is (B.is_ahead bound.now) b ≡ false) blocks.now result }
{
    blocks.partition_point(
        |b: &Block<T>| -> bool
            ensures { result ≡ head_is (B.is_ahead bound.entry.now) b.now }
        { begins_ahead(bound, b) },
    )
}

/// The place of a bound in blocks: in the last one that begins ahead of it, else at the start.
pub(crate) fn lower_bound<T: Copy, B: Bound<T>>(bound: &B, blocks: &[Block<T>]) -> Place
    requires parted { AreParted (B.is_ahead bound.now) (joined blocks.now) }
    requires filled { AllByRecursion IsFilled blocks.now }
    ensures { IsPlaceOf (B.is_ahead bound.now) blocks.now result.block result.at }
{
    let begun = count_begun(bound, blocks);
    if begun == 0 {
        return Place { block: 0, at: 0 };
    }
    let block = begun - 1;
    let at = count_ahead(bound, blocks[block].items());
    Place { block, at }
}

// ---- all blocks

/// So many elements come into a block where all are put anew. Some room is left for more.
const FILL: usize = 3072;

/// Blocks with elements, none of them empty, and blocks to spare. Only `reserve` takes memory.
#[derive(Drop)]
pub(crate) struct Blocks<T> {
    used: Vec<Block<T>>,
    spare: Vec<Block<T>>,
}

impl<T> Model for Blocks<T> {
    ghost use Rattle.std.specs.Prelude.{◌+◌, length, vec_capacity};
    ghost use Rattle.cb_index.specs.Blocks.{AreBlocks, Parted};

    ghost Value = { Parted T };

    ghost view = { λ b. record {
      used = b.used.items;
      count = length b.used.items + length b.spare.items;
    } };

    ghost invariant = { λ b. AreBlocks b.used.items (length b.used.items + length b.spare.items)
        (vec_capacity b.used) (vec_capacity b.spare) };
}

/// Inserts in the room that is there.
fn insert_block<T: Drop>(blocks: &mut Vec<Block<T>>, at: usize, block: Block<T>)
    requires place { at ≤ length blocks.old.items }
    requires room { length blocks.old.items < vec_capacity blocks.old }
    ensures items { blocks.new.items ≡ insert blocks.old.items at block }
    ensures len { length blocks.new.items ≡ length blocks.old.items + 1 }
    ensures room { vec_capacity blocks.old ≤ vec_capacity blocks.new }
{
    if blocks.insert(at, block).is_err() {
        unreachable!()
    }
}

/// Appends elements, in the room that is there.
fn extend<T: Copy>(items: &mut Vec<T>, more: &[T])
    requires { length items.old.items + length more.now ≤ vec_capacity items.old }
    ensures items { items.new.items ≡ items.old.items ++ more.now }
    ensures room { vec_capacity items.old ≤ vec_capacity items.new }
{
    if items.extend_from_slice(more).is_err() {
        unreachable!()
    }
}

impl<T: Copy + Drop> Blocks<T> {
    /// No blocks. It takes no memory.
    pub(crate) fn new(alloc: Global) -> Blocks<T>
        ensures used { result.used ≡ [] }
        ensures count { result.count ≡ 0 }
    {
        Blocks {
            used: Vec::new(alloc),
            spare: Vec::new(alloc),
        }
    }

    /// The blocks with elements.
    pub(crate) fn used(&self) -> &[Block<T>]
        ensures value { result.now ≡ self.now.used }
        ensures filled { AllByRecursion IsFilled result.now }
    {
        self.used.as_slice()
    }

    /// How many blocks there are in all.
    pub(crate) fn count(&self) -> usize
        ensures { result ≡ self.now.count }
    {
        self.used.len() + self.spare.len()
    }

    /// Makes one more block.
    fn grow(&mut self) -> Result<(), OutOfMemory>
        ensures ok { OnOk result (self.new.count ≡ self.old.count + 1) }
        ensures used { self.new.used ≡ self.old.used }
        ensures count { self.old.count ≤ self.new.count }
    {
        let count = self.used.len() + self.spare.len();
        let block = match Block::new(*self.spare.allocator()) {
            Ok(block) => block,
            Err(_) => return Err(OutOfMemory),
        };
        if self.used.reserve(count + 1 - self.used.len()).is_err() {
            return Err(OutOfMemory);
        }
        if self.spare.reserve(count + 1 - self.spare.len()).is_err() {
            return Err(OutOfMemory);
        }
        self.spare.push_reserved(block);
        Ok(())
    }

    /// Makes `n` blocks in all. Where more are made they become an eighth more at least, so that
    /// many blocks lie together, in memory that nothing used before. What they have stays, also
    /// where memory is refused.
    pub(crate) fn reserve(&mut self, n: usize) -> Result<(), OutOfMemory>
        ensures ok { OnOk result (n ≤ self.new.count) }
        ensures used { self.new.used ≡ self.old.used }
        ensures count { self.old.count ≤ self.new.count }
    {
        let mut count = self.count();
        if n <= count {
            return Ok(());
        }
        let all = n.max(count.saturating_add(count / 8));
        while count < all {
            match self.grow() {
                Ok(()) => {}
                Err(_) => return Err(OutOfMemory),
            }
            count += 1;
        }
        Ok(())
    }

    /// Uses a spare block for one element, as the first block; not where none is left.
    fn begin(&mut self, one: T) -> bool
        requires { self.old.used ≡ [] }
        ensures put { result ≡ true → joined self.new.used ≡ one ∷ [] }
        ensures stays { result ≡ false → self.new.used ≡ self.old.used }
        ensures count { self.new.count ≡ self.old.count }
    {
        let mut block = match self.spare.pop() {
            Some(block) => block,
            None => return false,
        };
        block.fill(&[one]);
        self.used.push_reserved(block);
        true
    }

    /// Splits a full block in two and puts an element in; not where no block is left.
    fn put_split(&mut self, place: Place, one: T) -> bool
        requires block { place.block < length self.old.used }
        requires place { IsPlace self.old.used place.block place.at }
        requires full { length (slice_index_or self.old.used place.block []) ≡ SIZE }
        ensures put { result ≡ true → joined self.new.used
            ≡ take (before self.old.used place.block place.at) (joined self.old.used)
            ++ one ∷ drop (before self.old.used place.block place.at) (joined self.old.used) }
        ensures stays { result ≡ false → self.new.used ≡ self.old.used }
        ensures count { self.new.count ≡ self.old.count }
    {
        let mut upper = match self.spare.pop() {
            Some(block) => block,
            None => return false,
        };
        let block = &mut self.used[place.block];
        block.insert_split(place.at, one, &mut upper);
        insert_block(&mut self.used, place.block + 1, upper);
        true
    }

    /// Puts an element at a place; not where a block is wanted and none is left.
    pub(crate) fn try_insert(&mut self, place: Place, one: T) -> bool
        requires { IsPlace self.old.used place.block place.at }
        ensures put { result ≡ true → joined self.new.used
            ≡ take (before self.old.used place.block place.at) (joined self.old.used)
            ++ one ∷ drop (before self.old.used place.block place.at) (joined self.old.used) }
        ensures stays { result ≡ false → self.new.used ≡ self.old.used }
        ensures count { self.new.count ≡ self.old.count }
    {
        if self.used.is_empty() {
            return self.begin(one);
        }
        if self.used[place.block].is_full() {
            return self.put_split(place, one);
        }
        let block = &mut self.used[place.block];
        block.insert(place.at, one);
        true
    }

    /// Takes away the element at a place. A block that is emptied is to spare.
    pub(crate) fn remove(&mut self, place: Place)
        requires block { place.block < length self.old.used }
        requires at { place.at < length (slice_index_or self.old.used place.block []) }
        ensures taken { joined self.new.used
            ≡ take (before self.old.used place.block place.at) (joined self.old.used)
            ++ drop (suc (before self.old.used place.block place.at)) (joined self.old.used) }
        ensures count { self.new.count ≡ self.old.count }
    {
        let block = &mut self.used[place.block];
        block.remove(place.at);
        let emptied = block.items().is_empty();
        if emptied {
            let block = self.used.remove(place.block);
            self.spare.push_reserved(block);
        }
    }

    /// Forgets all elements.
    pub(crate) fn clear(&mut self)
        ensures used { self.new.used ≡ [] }
        ensures count { self.new.count ≡ self.old.count }
    {
        while let Some(block) = self.used.pop() {
            self.spare.push_reserved(block);
        }
    }

    /// Appends all elements to a list, in the room that is there, and forgets them.
    pub(crate) fn lift(&mut self, items: &mut Vec<T>)
        requires { length items.old.items + length (joined self.old.used)
            ≤ vec_capacity items.old }
        ensures items { items.new.items ≡ items.old.items ++ joined self.old.used }
        ensures room { vec_capacity items.old ≤ vec_capacity items.new }
        ensures used { self.new.used ≡ [] }
        ensures count { self.new.count ≡ self.old.count }
    {
        let used = self.used();
        for block in used {
            extend(items, block.items());
        }
        self.clear();
    }

    /// Deals elements out into blocks that are not full.
    pub(crate) fn deal(&mut self, items: &[T])
        requires empty { self.old.used ≡ [] }
        requires room { length items.now ≤ HALF * self.old.count }
        ensures items { joined self.new.used ≡ items.now }
        ensures count { self.new.count ≡ self.old.count }
    {
        let mut left = items;
        while !left.is_empty() {
            let (now, later) = left.split_at(left.len().min(FILL));
            let mut block = match self.spare.pop() {
                Some(block) => block,
                None => unreachable!(),
            };
            block.fill(now);
            self.used.push_reserved(block);
            left = later;
        }
    }
}

// ---- what is lent of blocks

/// The rest of a block, whole blocks after it, and the front of the next one.
pub(crate) struct Run<'a, T> {
    first: &'a [T],
    blocks: &'a [Block<T>],
    last: &'a [T],
    ghost fits: { length (first.now ++ (joined blocks.now ++ last.now)) < 2 ^ 64 },
}

impl<'a, T> Clone for Run<'a, T> {
    ghost is_clone = { λ s r. r ≡ s };

    ghost is_infallible = { λ _. ⊤ };

    fn clone(&self) -> Result<Run<'a, T>, AllocError> {
        Ok(*self)
    }
}

impl<'a, T> Copy for Run<'a, T> {}

impl<'a, T: Copy> Run<'a, T> {
    ghost use Rattle.cb_index.specs.steps.Runs.{run_items};

    /// All elements of blocks.
    pub(crate) fn whole(blocks: &'a [Block<T>]) -> Run<'a, T>
        requires { length (joined blocks.now) < 2 ^ 64 }
        ensures { run_items result ≡ joined blocks.now }
    {
        Run {
            first: &[],
            blocks,
            last: &[],
        }
    }

    /// The elements of these, one after another.
    fn parts(first: &'a [T], blocks: &'a [Block<T>], last: &'a [T]) -> Run<'a, T>
        requires { length (first.now ++ (joined blocks.now ++ last.now)) < 2 ^ 64 }
        ensures { run_items result ≡ first.now ++ (joined blocks.now ++ last.now) }
    {
        Run {
            first,
            blocks,
            last,
        }
    }

    /// The elements from a place up to another one.
    pub(crate) fn between(blocks: &'a [Block<T>], from: Place, to: Place) -> Run<'a, T>
        requires fits { length (joined blocks.now) < 2 ^ 64 }
        requires from { IsPlace blocks.now from.block from.at }
        requires to { IsPlace blocks.now to.block to.at }
        ensures { run_items result ≡ drop (before blocks.now from.block from.at)
            (take (before blocks.now to.block to.at) (joined blocks.now)) }
    {
        if blocks.is_empty() {
            return Run::whole(blocks);
        }
        if to.block < from.block {
            return Run::whole(&[]);
        }
        let last = blocks[to.block].items().split_at(to.at).0;
        if from.block == to.block {
            let first = last.split_at(from.at.min(to.at)).1;
            return Run::parts(first, &[], &[]);
        }
        let first = blocks[from.block].items().split_at(from.at).1;
        let whole = blocks.split_at(to.block).0.split_at(from.block + 1).1;
        Run::parts(first, whole, last)
    }

    /// The elements from a place on.
    pub(crate) fn after(blocks: &'a [Block<T>], from: Place) -> Run<'a, T>
        requires fits { length (joined blocks.now) < 2 ^ 64 }
        requires from { IsPlace blocks.now from.block from.at }
        ensures { run_items result
            ≡ drop (before blocks.now from.block from.at) (joined blocks.now) }
    {
        if blocks.is_empty() {
            return Run::whole(blocks);
        }
        let first = blocks[from.block].items().split_at(from.at).1;
        let whole = blocks.split_at(from.block + 1).1;
        Run::parts(first, whole, &[])
    }

    /// The first element, and the others.
    pub(crate) fn split_first(self) -> Option<(&'a T, Run<'a, T>)>
        ensures { MatchOption result (run_items self.entry ≡ [])
            (λ r. run_items self.entry ≡ r.0.now ∷ run_items r.1) }
    {
        if let Some((one, first)) = self.first.split_first() {
            return Some((
                one,
                Run {
                    first,
                    blocks: self.blocks,
                    last: self.last,
                },
            ));
        }
        let mut blocks = self.blocks;
        while let Some((block, later)) = blocks.split_first() {
            blocks = later;
            if let Some((one, first)) = block.items().split_first() {
                return Some((
                    one,
                    Run {
                        first,
                        blocks,
                        last: self.last,
                    },
                ));
            }
        }
        let (one, first) = self.last.split_first()?;
        Some((
            one,
            Run {
                first,
                blocks: &[],
                last: &[],
            },
        ))
    }

    /// How many elements there are.
    pub(crate) fn len(&self) -> usize
        ensures { result ≡ length (run_items self.now) }
    {
        let mut count = self.first.len() + self.last.len();
        let blocks = self.blocks;
        for block in blocks {
            count += block.items().len();
        }
        count
    }
}

// ---- a list

/// Files by the numbers of their names, each below the next.
#[derive(Clone, Copy)]
pub(crate) struct Names<'a> {
    pub(crate) files: &'a [Shown],
    ghost rising: { IsStrictlyIncreasing (names_of files.now) },
}

impl<'a> Names<'a> {
    /// Whether a number is that of one of the names, by binary search.
    pub(crate) fn has(&self, number: u32) -> bool
        ensures { result ≡ is_among (names_of self.now.files.now) number }
    {
        let files = self.files;
        files
            .binary_search_by(
                |s: &Shown| -> Ordering
                    ensures { result ≡ nat_cmp s.now.name number }
                { s.name.cmp(&number) },
            )
            .is_ok()
    }
}

/// What stands under the number of a file name.
pub(crate) trait Named {
    ghost use Rattle.std.specs.Prelude.{ℕ};

    ghost number_of: { Self → ℕ };

    /// The number.
    fn number(&self) -> u32
        ensures { result ≡ number_of self.now };
}

impl Named for Posting {
    ghost number_of = { λ e. e.name };

    fn number(&self) -> u32 {
        self.name
    }
}

impl Named for Shown {
    ghost number_of = { λ s. s.name };

    fn number(&self) -> u32 {
        self.name
    }
}

/// Takes away what stands under the names of files.
pub(crate) fn take_named<T: Named + Copy>(items: &mut Vec<T>, files: &[Shown])
    requires { IsStrictlyIncreasing (names_of files.now) }
    ensures items { items.new.items ≡ filter
        (λ e. not (is_among (names_of files.now) (T.number_of e))) items.old.items }
    ensures few { length items.new.items ≤ length items.old.items }
    ensures room { vec_capacity items.new ≡ vec_capacity items.old }
{
    let names = Names { files };
    items.retain(
        |e: &T| -> bool
            ensures { result ≡ not
                (is_among (names_of names.entry.files.now) (T.number_of e.now)) }
        { !names.has(e.number()) },
    );
}

/// A list in blocks, so that an element that comes or goes moves the others of one block. A second
/// list has room for all; there they are put in order where many come in at once. Only `reserve`
/// takes memory.
#[derive(Drop)]
pub(crate) struct BlockList<T> {
    pub(crate) blocks: Blocks<T>,
    pub(crate) scratch: Vec<T>,
}

impl<T> Model for BlockList<T> {
    ghost use Rattle.std.specs.Prelude.{◌*◌, length, min, vec_capacity};
    ghost use Rattle.cb_index.specs.Blocks.{Listing, joined};
    ghost use Rattle.cb_index.specs.steps.Lists.{Fit};
    ghost use Rattle.cb_index.specs.declared.blocks.TheConstants.{HALF};

    ghost Value = { Listing T };

    ghost view = { λ s. record {
      items = joined s.blocks.used;
      room = min (vec_capacity s.scratch) (HALF * s.blocks.count);
    } };

    ghost invariant = { λ s. Fit (length (joined s.blocks.used)) (vec_capacity s.scratch)
        s.blocks.count };
}

impl<T: Copy + Drop> BlockList<T> {
    ghost use Rattle.cb_index.specs.steps.Runs.{run_items};

    /// A list of nothing. It takes no memory.
    pub(crate) fn new(alloc: Global) -> BlockList<T>
        ensures { result.items ≡ [] }
    {
        BlockList {
            blocks: Blocks::new(alloc),
            scratch: Vec::new(alloc),
        }
    }

    /// Makes room for `n` elements in all. What is listed stays, also where memory is refused.
    pub(crate) fn reserve(&mut self, n: u64) -> Result<(), OutOfMemory>
        ensures ok { OnOk result (n ≤ self.new.room) }
        ensures items { self.new.items ≡ self.old.items }
        ensures room { self.old.room ≤ self.new.room }
    {
        match self.blocks.reserve(n as usize / HALF + 1) {
            Ok(()) => {}
            Err(_) => return Err(OutOfMemory),
        }
        self.scratch.truncate(0);
        match self.scratch.reserve(n as usize) {
            Ok(()) => Ok(()),
            Err(_) => Err(OutOfMemory),
        }
    }

    /// All elements.
    pub(crate) fn items(&self) -> Run<'_, T>
        ensures { run_items result ≡ self.now.items }
    {
        let _room = self.scratch.capacity();
        Run::whole(self.blocks.used())
    }

    /// For how many elements there is room.
    pub(crate) fn room(&self) -> usize
        ensures { result ≡ self.now.room }
    {
        self.scratch
            .capacity()
            .min(self.blocks.count().saturating_mul(HALF))
    }
}

impl<T: Named + Copy + Drop> BlockList<T> {
    /// Takes away what stands under the names of files, in one pass. It takes no memory.
    pub(crate) fn take_names(&mut self, files: &[Shown])
        requires { IsStrictlyIncreasing (names_of files.now) }
        ensures items { self.new.items ≡ filter
            (λ e. not (is_among (names_of files.now) (T.number_of e))) self.old.items }
        ensures room { self.old.room ≤ self.new.room }
    {
        self.scratch.truncate(0);
        self.blocks.lift(&mut self.scratch);
        take_named(&mut self.scratch, files);
        self.blocks.deal(self.scratch.as_slice());
    }
}
