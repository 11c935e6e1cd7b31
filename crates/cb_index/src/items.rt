//! Uses and calls by their keys. An item is the number of a use among the uses of a version, or of
//! a call among its calls, from 0. Facts of one key on one line that have the same name in the
//! function column have one row.
ghost use Rattle.std.specs.Prelude.{◌≡◌, ◌<◌, ◌^◌, ◌∷◌, [], MatchOption, true};
ghost use Rattle.cb_index.specs.Counts.{row_count};
ghost use Rattle.cb_index.specs.Hash.{hash};
ghost use Rattle.cb_index.specs.Items.{have_one_key, is_first, item_count, item_key, item_line};
ghost use Rattle.cb_index.specs.Items.{item_span, later};
ghost use Rattle.cb_index.specs.steps.Chains.{chain_left};
ghost use Rattle.cb_index.specs.steps.Spread.{items_from};

use crate::archive::{ScannedSource, Version, bytes_at};
use crate::columns::{hash, is_near, next_near};
use crate::entry::FactKind;
use crate::repeats::is_repeat;
use cb_scan::{Facts, Span};

/// How many items a text has.
pub(crate) fn count_in(sort: FactKind, text: &ScannedSource) -> usize
    ensures value { result ≡ item_count sort text.now }
    ensures few { result < 2 ^ 32 }
{
    match sort {
        FactKind::Uses => text.facts().uses().len(),
        FactKind::Callees => text.facts().calls().len(),
        FactKind::Callers => text.facts().calls().len(),
    }
}

/// How many items a version has.
pub(crate) fn item_count(sort: FactKind, version: &Version) -> usize
    ensures value { result ≡ item_count sort version.now }
    ensures few { result < 2 ^ 32 }
{
    count_in(sort, version.text())
}

/// The name of a use, the called name of a call or the name that calls, if it is there.
pub(crate) fn item_span(sort: FactKind, facts: &Facts, item: u32) -> Option<Span>
    ensures { result ≡ item_span sort facts.now item }
{
    match sort {
        FactKind::Uses => match facts.uses().get(item as usize) {
            Some(found) => Some(found.name),
            None => None,
        },
        FactKind::Callees => match facts.calls().get(item as usize) {
            Some(found) => Some(found.callee),
            None => None,
        },
        FactKind::Callers => match facts.calls().get(item as usize) {
            Some(found) => Some(found.caller),
            None => None,
        },
    }
}

/// The line of an item; 0 where it is not there.
pub(crate) fn item_line(sort: FactKind, facts: &Facts, item: u32) -> u32
    ensures { result ≡ item_line sort facts.now item }
{
    match sort {
        FactKind::Uses => match facts.uses().get(item as usize) {
            Some(found) => found.line,
            None => 0,
        },
        FactKind::Callees | FactKind::Callers => match facts.calls().get(item as usize) {
            Some(found) => found.line,
            None => 0,
        },
    }
}

/// The key of an item of a text; empty where it is not there.
pub(crate) fn key_in(sort: FactKind, text: &ScannedSource, item: u32) -> &[u8]
    ensures { result.now ≡ item_key sort text.now item }
{
    bytes_at(text.source().bytes(), item_span(sort, text.facts(), item))
}

/// The key of an item of a version; empty where it is not there.
pub(crate) fn item_key(sort: FactKind, version: &Version, item: u32) -> &[u8]
    ensures { result.now ≡ item_key sort version.now item }
{
    key_in(sort, version.text(), item)
}

/// Whether the keys of two items stand at one place of the text: calls of one function have its
/// name, which may be long, and stand around many.
pub(crate) fn have_one_place(sort: FactKind, facts: &Facts, a: u32, b: u32) -> bool
    ensures { result ≡ true → item_span sort facts.now a ≡ item_span sort facts.now b }
{
    match (item_span(sort, facts, a), item_span(sort, facts, b)) {
        (Some(one), Some(other)) => one.start == other.start && one.end == other.end,
        _ => false,
    }
}

/// Whether two items of a text have one key.
pub(crate) fn share_key(sort: FactKind, text: &ScannedSource, a: u32, b: u32) -> bool
    ensures { result ≡ have_one_key sort text.now a b }
{
    have_one_place(sort, text.facts(), a, b) || key_in(sort, text, a) == key_in(sort, text, b)
}

/// Whether an item has the key of another one, whose hash is this.
fn has_key_of(sort: FactKind, version: &Version, item: u32, own: u32, other: u32) -> bool
    requires { own ≡ hash (item_key sort version.now item) }
    ensures { result ≡ have_one_key sort version.now item other }
{
    is_near(version.column(sort), other, own) && share_key(sort, version.text(), item, other)
}

/// Whether no item before an item has its key.
pub(crate) fn is_first(sort: FactKind, version: &Version, item: u32) -> bool
    ensures { result ≡ is_first sort version.now item }
{
    let hash = hash(item_key(sort, version, item));
    for before in 0..item {
        if has_key_of(sort, version, item, hash, before) {
            return false;
        }
    }
    true
}

/// The next item that has the key of an item.
fn next_of_key(sort: FactKind, version: &Version, item: u32) -> Option<u32>
    ensures { MatchOption result (later sort version.now item ≡ [])
        (λ next. later sort version.now item ≡ next ∷ later sort version.now next) }
{
    let hash = hash(item_key(sort, version, item));
    let cells = version.column(sort);
    let mut next = next_near(cells, item as usize + 1, hash);
    while next < item_count(sort, version) {
        if share_key(sort, version.text(), item, next as u32) {
            return Some(next as u32);
        }
        next = next_near(cells, next + 1, hash);
    }
    None
}

/// The items of one key that are still to come.
#[derive(Clone, Copy)]
pub(crate) struct Chain<'a> {
    sort: FactKind,
    version: &'a Version,
    next: Option<u32>,
}

impl<'a> Chain<'a> {
    /// An item and the later ones that have its key.
    pub(crate) fn from(sort: FactKind, version: &'a Version, item: u32) -> Chain<'a>
        ensures sort { result.sort ≡ sort }
        ensures version { result.version.now ≡ version.now }
        ensures left { chain_left result ≡ items_from sort version.now item }
    {
        Chain {
            sort,
            version,
            next: Some(item),
        }
    }

    /// The first item.
    pub(crate) fn take(&mut self) -> Option<u32>
        ensures left { MatchOption result (chain_left self.old ≡ [])
            (λ item. chain_left self.old ≡ item ∷ chain_left self.new) }
        ensures sort { self.new.sort ≡ self.old.sort }
        ensures version { self.new.version.now ≡ self.old.version.now }
    {
        let item = self.next?;
        self.next = next_of_key(self.sort, self.version, item);
        Some(item)
    }

    /// The sort of the items.
    pub(crate) fn sort(&self) -> FactKind
        ensures { result ≡ self.now.sort }
    {
        self.sort
    }

    /// The version of the items.
    pub(crate) fn version(&self) -> &'a Version
        ensures { result.now ≡ self.now.version.now }
    {
        self.version
    }
}

/// How many rows the first item of a key and the later ones that have its key have together: as
/// many as are no repeats.
pub(crate) fn row_count(sort: FactKind, version: &Version, item: u32) -> u32
    requires { is_first sort version.now item ≡ true }
    ensures { result ≡ row_count sort version.now item }
{
    let _count = item_count(sort, version);
    let mut items = Chain::from(sort, version, item);
    let mut count = 0;
    while let Some(next) = items.take() {
        if !is_repeat(sort, version, next) {
            count += 1;
        }
    }
    count
}
