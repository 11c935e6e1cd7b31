//! The tags of definitions, one after another. Where some definitions are pending, each is found by
//! a search of all files.
ghost use Rattle.std.specs.Prelude.{◌≡◌, ◌<◌, ◌^◌, ◌∷◌, [], MatchOption, None, Some, length};
ghost use Rattle.std.specs.Iterator.{YieldsFirstBy, item_count};
ghost use Rattle.cb_tags.specs.TagLines.{tag_of};
ghost use Rattle.cb_index.specs.Entries.{has_key};
ghost use Rattle.cb_index.specs.Files.{AreAscending};
ghost use Rattle.cb_index.specs.Held.{all_entries, entries_of};
ghost use Rattle.cb_index.specs.Kinds.{def_kind, keyer_of, lister_of, prefix_of};
ghost use Rattle.cb_index.specs.declared.entry.Posting.{Posting};
ghost use Rattle.cb_index.specs.steps.ShownIn.{shown_in};
ghost use Rattle.cb_index.specs.steps.ToCome.{GoesOn, earlier, first_of, is_asked, is_later};
ghost use Rattle.cb_index.specs.steps.ToCome.{to_come};

use crate::archive::Archive;
use crate::blocks::Run;
use crate::entry::{Asked, IndexKind, Posting, Shown};
use crate::files::ShownFiles;
use crate::order::{compare, compare_key, compare_key_bytes, def_entry, defs_of, prefix};
use crate::rows::TagSpot;
use cb_tags::TagRow;
use std::cmp::Ordering;

// ---- the search

/// The kind of index of definitions, by tag name or else by name.
pub(crate) fn def_kind(by_tag_name: bool) -> IndexKind
    ensures { result ≡ def_kind by_tag_name }
{
    if by_tag_name {
        IndexKind::DefsByTagName
    } else {
        IndexKind::DefsByName
    }
}

/// The definitions of files that are still to come, in order, of those that are asked for. To give
/// one takes a search of all.
#[derive(Clone, Copy)]
pub(crate) struct DefSearch<'a, 'p> {
    by_tag_name: bool,
    archive: &'a Archive,
    shown: ShownFiles<'a>,
    asked: Asked<'p>,
    last: Option<Posting>,
    ghost goes_on: { GoesOn (def_kind by_tag_name) archive.now asked
        (all_entries (lister_of (def_kind by_tag_name)) archive.now (shown_in shown)) },
    ghost few: { length (all_entries (lister_of (def_kind by_tag_name)) archive.now
        (shown_in shown)) < 2 ^ 64 },
}

/// Whether an entry comes after the last one, if there is one.
fn is_later(kind: IndexKind, archive: &Archive, last: Option<Posting>, entry: Posting) -> bool
    ensures { result ≡ is_later (keyer_of kind) archive.now last entry }
{
    match last {
        Some(last) => compare(kind, archive, entry, last) == Ordering::Greater,
        None => true,
    }
}

/// Whether an entry has a key.
fn has_key(kind: IndexKind, archive: &Archive, key: &[u8], entry: Posting) -> bool
    ensures { result ≡ has_key (keyer_of kind) archive.now (prefix_of kind key.now) key.now entry }
{
    prefix(kind, key) == entry.prefix
        && compare_key_bytes(kind, archive, key, entry) == Ordering::Equal
}

/// Whether an entry is asked for.
fn is_asked(kind: IndexKind, archive: &Archive, asked: Asked<'_>, entry: Posting) -> bool
    ensures { result ≡ is_asked kind archive.now asked.entry entry }
{
    match asked {
        Asked::Every => true,
        Asked::OfKey(key) => has_key(kind, archive, key, entry),
        Asked::FromKey(key) => {
            let prefix = prefix(kind, key);
            compare_key(kind, archive, prefix, key, entry) != Ordering::Greater
        }
    }
}

/// Of an entry and of one before it, if there is one, the first.
fn earlier(kind: IndexKind, archive: &Archive, before: Option<Posting>, entry: Posting) -> Posting
    ensures { result ≡ earlier (keyer_of kind) archive.now before entry }
{
    match before {
        Some(before) if compare(kind, archive, entry, before) == Ordering::Greater => before,
        _ => entry,
    }
}

impl<'a, 'p> DefSearch<'a, 'p> {
    ghost use Rattle.cb_index.specs.steps.DefSearch.{earlier_of, first_among, search_left};

    /// The definitions of files, whose names ascend, that are asked for.
    pub(crate) fn new(
        by_tag_name: bool,
        archive: &'a Archive,
        shown: ShownFiles<'a>,
        asked: Asked<'p>,
    ) -> DefSearch<'a, 'p>
        requires ascending { AreAscending archive.now (shown_in shown) }
        requires few { length (all_entries (lister_of (def_kind by_tag_name)) archive.now
            (shown_in shown)) < 2 ^ 64 }
        ensures { search_left result ≡ to_come (def_kind by_tag_name) archive.now asked.entry None
            (all_entries (lister_of (def_kind by_tag_name)) archive.now (shown_in shown.entry)) }
    {
        DefSearch {
            by_tag_name,
            archive,
            shown,
            asked,
            last: None,
        }
    }

    /// Of an entry, if it is still to come, and of one before it, the first.
    fn earlier(&self, before: Option<Posting>, entry: Posting) -> Option<Posting>
        ensures { result ≡ earlier_of self.now before entry }
    {
        let kind = def_kind(self.by_tag_name);
        if !is_later(kind, self.archive, self.last, entry)
            || !is_asked(kind, self.archive, self.asked, entry)
        {
            return before;
        }
        Some(earlier(kind, self.archive, before, entry))
    }

    /// Of the entries of a version that are still to come and of one before them, the first.
    fn first_in(&self, shown: Shown, before: Option<Posting>) -> Option<Posting>
        ensures { result ≡ first_among self.now before
            (entries_of (lister_of (def_kind self.now.by_tag_name)) self.now.archive.now shown) }
    {
        let Some(version) = self.archive.version(shown.version) else {
            return before;
        };
        let text = version.source().bytes();
        let defs = defs_of(version);
        let mut first = before;
        for (i, def) in defs.iter().enumerate() {
            let entry = def_entry(self.by_tag_name, text, def, shown, i as u32);
            first = self.earlier(first, entry);
        }
        first
    }

    /// The first of the entries that are still to come.
    fn first(&self) -> Option<Posting>
        ensures { result ≡ first_of (search_left self.now) }
    {
        let mut left = self.shown;
        let mut first = None;
        while let Some((one, rest)) = left.split_first() {
            left = rest;
            first = self.first_in(one, first);
        }
        first
    }

    /// Takes the first entry.
    pub(crate) fn take(&mut self) -> Option<Posting>
        ensures { MatchOption result
            ((search_left self.old ≡ []) × (search_left self.new ≡ []))
            (λ e. search_left self.old ≡ e ∷ search_left self.new) }
    {
        let entry = self.first()?;
        self.last = Some(entry);
        Some(entry)
    }

    /// How many are still to come.
    pub(crate) fn len(&self) -> usize
        ensures { result ≡ length (search_left self.now) }
    {
        let mut left = *self;
        let mut count = 0;
        while let Some(_entry) = left.take() {
            count += 1;
        }
        count
    }
}

// ---- tags

/// Where definitions are found.
#[derive(Clone, Copy)]
pub(crate) enum Defs<'a, 'p> {
    /// In the entries of an index.
    Indexed(Run<'a, Posting>),
    /// By a search of all files.
    Searched(DefSearch<'a, 'p>),
}

impl<'a, 'p> Defs<'a, 'p> {
    ghost use Rattle.cb_index.specs.steps.Left.{defs_left};

    /// Takes the first one.
    fn take(&mut self) -> Option<Posting>
        ensures { MatchOption result ((defs_left self.old ≡ []) × (defs_left self.new ≡ []))
            (λ e. defs_left self.old ≡ e ∷ defs_left self.new) }
    {
        match self {
            Defs::Indexed(entries) => {
                let (entry, rest) = entries.split_first()?;
                *entries = rest;
                Some(*entry)
            }
            Defs::Searched(search) => search.take(),
        }
    }
}

/// The tags of definitions. They take no memory.
#[derive(Clone, Copy)]
pub struct TagRows<'a, 'p> {
    pub(crate) archive: &'a Archive,
    pub(crate) defs: Defs<'a, 'p>,
}

impl<'a, 'p> TagRows<'a, 'p> {
    ghost use Rattle.cb_index.specs.steps.Left.{tag_of_spot, tags_left};

    /// How many are left.
    pub fn len(&self) -> usize
        ensures { result ≡ length (tags_left self.now) }
    {
        match &self.defs {
            Defs::Indexed(entries) => entries.len(),
            Defs::Searched(search) => search.len(),
        }
    }

    /// Takes the first one, of which nothing is looked up yet.
    pub fn next_spot(&mut self) -> Option<TagSpot<'a>>
        ensures { YieldsFirstBy tag_of_spot tags_left self.old result self.new }
    {
        let entry = self.defs.take()?;
        Some(TagSpot {
            archive: self.archive,
            entry,
        })
    }
}

impl<'a, 'p> Iterator for TagRows<'a, 'p> {
    ghost use Rattle.cb_index.specs.steps.Left.{tags_left};

    type Item = TagRow<'a>;

    ghost next_gives = { YieldsFirstBy tag_of tags_left };

    ghost remaining = { item_count tags_left };

    fn next(&mut self) -> Option<TagRow<'a>> {
        let spot = self.next_spot()?;
        Some(spot.row())
    }
}
