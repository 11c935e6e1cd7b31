//! The files that are shown, by name.
ghost use Rattle.std.specs.Prelude.{◌≡◌, ◌<◌, ◌^◌, ◌++◌, ◌∷◌, [], ℕ, MatchOption, drop, false};
ghost use Rattle.std.specs.Prelude.{length, true};
ghost use Rattle.std.proofs.Props.{props};
ghost use Rattle.std.specs.Cmp.Lexicographic.{slice_cmp};
ghost use Rattle.std.specs.List.{AllByRecursion};
ghost use Rattle.std.specs.List.Sorted.{IsPartitionPoint};
ghost use Rattle.std.specs.Ordering.{is_lt, nat_cmp};
ghost use Rattle.cb_index.specs.Archived.{name_of};
ghost use Rattle.cb_index.specs.Blocks.{IsFilled, joined};
ghost use Rattle.cb_index.specs.Compact.{shows_version};
ghost use Rattle.cb_index.specs.Files.{AreAscending};
ghost use Rattle.cb_index.specs.declared.entry.Shown.{Shown};
ghost use Rattle.cb_index.specs.steps.Compact.{IsAmong};

use crate::archive::Archive;
use crate::blocks::{Block, count_ahead, lower_bound};
use crate::entry::Shown;
use crate::shown::BeforeName;

/// Versions that are shown, from one of them on, by file name: the rest of a block, and whole
/// blocks after it. They take no memory.
#[derive(Clone, Copy)]
pub struct ShownFiles<'a> {
    first: &'a [Shown],
    blocks: &'a [Block<Shown>],
    ghost fits: { length (first.now ++ joined blocks.now) < 2 ^ 64 },
    ghost filled: { AllByRecursion IsFilled blocks.now } by { Prim.hlevel props },
}

impl<'a> ShownFiles<'a> {
    ghost use Rattle.cb_index.specs.steps.ShownIn.{shown_in};

    /// All versions of blocks.
    pub(crate) fn whole(blocks: &'a [Block<Shown>]) -> ShownFiles<'a>
        requires fits { length (joined blocks.now) < 2 ^ 64 }
        requires filled { AllByRecursion IsFilled blocks.now }
        ensures { shown_in result ≡ joined blocks.now }
    {
        ShownFiles { first: &[], blocks }
    }

    /// How many there are.
    pub fn len(&self) -> usize
        ensures { result ≡ length (shown_in self.now) }
    {
        let mut count = self.first.len();
        let blocks = self.blocks;
        for block in blocks {
            count += block.items().len();
        }
        count
    }

    /// The first, and those after it.
    pub fn split_first(self) -> Option<(Shown, ShownFiles<'a>)>
        ensures { MatchOption result (shown_in self.entry ≡ [])
            (λ r. shown_in self.entry ≡ r.0 ∷ shown_in r.1) }
    {
        if let Some((one, first)) = self.first.split_first() {
            let rest = ShownFiles {
                first,
                blocks: self.blocks,
            };
            return Some((*one, rest));
        }
        let (block, blocks) = self.blocks.split_first()?;
        let (one, first) = block.items().split_first()?;
        Some((*one, ShownFiles { first, blocks }))
    }

    /// A file that shows a version, if one does.
    pub(crate) fn with_version(self, version: usize) -> Option<Shown>
        ensures { MatchOption result (shows_version version (shown_in self.entry) ≡ false)
            (λ s. (s.version ≡ version) × IsAmong (shown_in self.entry) s) }
    {
        let mut left = self;
        while let Some((one, rest)) = left.split_first() {
            if one.version as usize == version {
                return Some(one);
            }
            left = rest;
        }
        None
    }

    /// Those whose file names are not below a name. They are found by binary search.
    pub fn from_name(self, archive: &Archive, name: &[u8]) -> ShownFiles<'a>
        requires { AreAscending archive.now (shown_in self) }
        ensures { (i : ℕ)
            × IsPartitionPoint
            (λ (s : Shown). is_lt (slice_cmp nat_cmp (name_of archive.now s.name) name.now) ≡ true)
            (λ (s : Shown). is_lt (slice_cmp nat_cmp (name_of archive.now s.name) name.now)
            ≡ false)
            (shown_in self.entry) i
            × (shown_in result ≡ drop i (shown_in self.entry)) }
    {
        let bound = BeforeName { archive, name };
        let at = count_ahead(&bound, self.first);
        if at < self.first.len() || self.blocks.is_empty() {
            return ShownFiles {
                first: self.first.split_at(at).1,
                blocks: self.blocks,
            };
        }
        let place = lower_bound(&bound, self.blocks);
        ShownFiles {
            first: self.blocks[place.block].items().split_at(place.at).1,
            blocks: self.blocks.split_at(place.block + 1).1,
        }
    }
}
