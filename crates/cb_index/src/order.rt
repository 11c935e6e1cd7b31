//! The keys and the entries of a version, how two entries compare, and bounds among them, each by
//! the kind of an index. Entries compare by prefix, key, file name and then by their own numbers.
//! Key and name are looked up in the archive; so what is pushed there changes nothing of the order
//! of entries that are held. Of one key in one file the numbers go by place.
ghost use Rattle.std.specs.Prelude.{◌≡◌, ◌<◌, ◌≤◌, ◌+◌, ◌^◌, ◌++◌, [], ℕ, IfSome, List, length};
ghost use Rattle.std.specs.Prelude.{map, vec_capacity, vec_len};
ghost use Rattle.std.specs.Cmp.Lexicographic.{slice_cmp};
ghost use Rattle.std.specs.Ordering.{nat_cmp};
ghost use Rattle.cb_tags.specs.TagNames.{tag_name};
ghost use Rattle.cb_index.specs.Archived.{text_at};
ghost use Rattle.cb_index.specs.Entries.{bytes_key, file_key, key_cmp, key_of, numbers, sort_key};
ghost use Rattle.cb_index.specs.Firsts.{firsts};
ghost use Rattle.cb_index.specs.Held.{entries_of, entry_of, listed_of};
ghost use Rattle.cb_index.specs.Kinds.{keyer_of, lister_of, prefix_of};
ghost use Rattle.cb_index.specs.Orders.{def_entry, def_key, def_prefix, def_span, key_in, numbered};
ghost use Rattle.cb_index.specs.Orders.{prefixed, tag_front, tag_prefix};
ghost use Rattle.cb_index.specs.Scanned.{facts_of};

use crate::archive::{Archive, Version, bytes_at, compare_by_words, cut};
use crate::blocks::Bound;
use crate::entry::{FactKind, IndexKind, Posting, Shown};
use crate::items::{is_first, item_count, item_key, row_count};
use cb_scan::{Def, Facts, Span, key_prefix};
use cb_tags::{compare_tag_key, compare_tag_names};
use std::cmp::Ordering;

// ---- keys

pub(crate) fn def_span(facts: &Facts, item: u32) -> Option<Span>
    ensures { result ≡ def_span facts.now item }
{
    match facts.defs().get(item as usize) {
        Some(found) => Some(found.name),
        None => None,
    }
}

/// The key of an item, in the text of its version.
fn key_in(kind: FactKind, archive: &Archive, version: u32, item: u32) -> &[u8]
    ensures { result.now ≡ key_in kind (text_at archive.now version) item }
{
    match archive.version(version) {
        Some(version) => item_key(kind, version, item),
        None => &[],
    }
}

/// The name of a definition, in the text of its version.
pub(crate) fn name_in(archive: &Archive, version: u32, item: u32) -> &[u8]
    ensures { result.now ≡ def_key (text_at archive.now version) [] item }
{
    match archive.version(version) {
        Some(version) => bytes_at(version.source().bytes(), def_span(version.facts(), item)),
        None => &[],
    }
}

/// The tag name of a definition where that is its name: not that of a `main`.
fn plain_name(name: &[u8]) -> Option<&[u8]>
    ensures { IfSome result (λ key. (file : List ℕ) → key.now ≡ tag_name name.now file) }
{
    if name == b"main".as_slice() {
        None
    } else {
        Some(name)
    }
}

/// The key of an entry where that stands in a text.
pub(crate) fn plain_key(kind: IndexKind, archive: &Archive, entry: Posting) -> Option<&[u8]>
    ensures { IfSome result (λ key. key.now ≡ key_of (keyer_of kind) archive.now entry) }
{
    match kind {
        IndexKind::DefsByName => Some(name_in(archive, entry.version, entry.number)),
        IndexKind::DefsByTagName => plain_name(name_in(archive, entry.version, entry.number)),
        IndexKind::Facts(kind) => Some(key_in(kind, archive, entry.version, entry.number)),
    }
}

/// The order of the keys of two entries by their bytes.
pub(crate) fn compare_keys(kind: IndexKind, archive: &Archive, a: Posting, b: Posting) -> Ordering
    ensures { result ≡ slice_cmp nat_cmp (key_of (keyer_of kind) archive.now a)
        (key_of (keyer_of kind) archive.now b) }
{
    match kind {
        IndexKind::DefsByName => compare_by_words(
            name_in(archive, a.version, a.number),
            name_in(archive, b.version, b.number),
        ),
        IndexKind::DefsByTagName => compare_tag_names(
            name_in(archive, a.version, a.number),
            archive.name(a.name),
            name_in(archive, b.version, b.number),
            archive.name(b.name),
        ),
        IndexKind::Facts(kind) => compare_by_words(
            key_in(kind, archive, a.version, a.number),
            key_in(kind, archive, b.version, b.number),
        ),
    }
}

/// The order of a key and that of an entry by their bytes.
pub(crate) fn compare_key_bytes(
    kind: IndexKind,
    archive: &Archive,
    key: &[u8],
    entry: Posting,
) -> Ordering
    ensures { result ≡ slice_cmp nat_cmp key.now (key_of (keyer_of kind) archive.now entry) }
{
    match kind {
        IndexKind::DefsByName => key.cmp(name_in(archive, entry.version, entry.number)),
        IndexKind::DefsByTagName => compare_tag_key(
            key,
            name_in(archive, entry.version, entry.number),
            archive.name(entry.name),
        ),
        IndexKind::Facts(kind) => key.cmp(key_in(kind, archive, entry.version, entry.number)),
    }
}

/// What the prefix of a tag name is made of.
#[tactic(auto, unfolding(crate::specs::Orders::tag_front))]
fn tag_front(key: &[u8]) -> &[u8]
    ensures { result.now ≡ tag_front key.now }
{
    match key {
        [b'M', ..] => b"M",
        _ => key,
    }
}

/// What the prefix of the tag name of a definition is made of: of its name, in any file.
fn front_of_tag(name: &[u8]) -> &[u8]
    ensures { result.now ≡ tag_front (tag_name name.now []) }
{
    if name == b"main".as_slice() {
        b"M"
    } else {
        tag_front(name)
    }
}

/// The prefix that an entry with this key has.
pub(crate) fn prefix(kind: IndexKind, key: &[u8]) -> u64
    ensures { result ≡ prefix_of kind key.now }
{
    match kind {
        IndexKind::DefsByName => key_prefix(key),
        IndexKind::DefsByTagName => key_prefix(tag_front(key)),
        IndexKind::Facts(_) => key_prefix(key),
    }
}

// ---- entries

/// Appends the entries of a version under a name: an item for each key, the first that
/// has it.
fn append_firsts(kind: FactKind, version: &Version, shown: Shown, entries: &mut Vec<Posting>)
    requires { vec_len entries.old + length (firsts kind version.now) ≤ vec_capacity entries.old }
    ensures entries { entries.new.items
        ≡ entries.old.items ++ map (entry_of shown) (firsts kind version.now) }
    ensures room { vec_capacity entries.old ≤ vec_capacity entries.new }
{
    for item in 0..item_count(kind, version) {
        if is_first(kind, version, item as u32) {
            let entry = Posting {
                prefix: key_prefix(item_key(kind, version, item as u32)),
                name: shown.name,
                version: shown.version,
                number: item as u32,
                rows: row_count(kind, version, item as u32),
            };
            let _ = entries.push(entry);
        }
    }
}

/// How many keys the items of a version have.
fn first_count(kind: FactKind, version: &Version) -> usize
    ensures { result ≡ length (firsts kind version.now) }
{
    let mut count = 0;
    for item in 0..item_count(kind, version) {
        if is_first(kind, version, item as u32) {
            count += 1;
        }
    }
    count
}

/// The definitions of a version.
pub(crate) fn defs_of(version: &Version) -> &[Def]
    ensures value { result.now ≡ (facts_of version.now).defs }
    ensures few { length result.now < 2 ^ 32 }
{
    version.facts().defs()
}

#[tactic(auto, unfolding(crate::specs::Orders::def_prefix))]
fn def_prefix(text: &[u8], def: &Def) -> u64
    ensures { result ≡ def_prefix text.now def.now }
{
    key_prefix(cut(text, def.name))
}

#[tactic(auto, unfolding(crate::specs::Orders::tag_prefix))]
fn tag_prefix(text: &[u8], def: &Def) -> u64
    ensures { result ≡ tag_prefix text.now def.now }
{
    key_prefix(front_of_tag(cut(text, def.name)))
}

/// The entry of a definition, with the prefix of its name or, if so, of its tag name.
pub(crate) fn def_entry(
    by_tag_name: bool,
    text: &[u8],
    def: &Def,
    shown: Shown,
    number: u32,
) -> Posting
    ensures { result ≡ def_entry by_tag_name text.now shown number def.now }
{
    let prefix = if by_tag_name {
        tag_prefix(text, def)
    } else {
        def_prefix(text, def)
    };
    Posting {
        prefix,
        name: shown.name,
        version: shown.version,
        number,
        rows: 1,
    }
}

/// Appends the entries of definitions, with the prefixes of their names or, if so, of
/// their tag names.
fn append_defs(
    by_tag_name: bool,
    text: &[u8],
    defs: &[Def],
    shown: Shown,
    entries: &mut Vec<Posting>,
)
    requires room { vec_len entries.old + length defs.now ≤ vec_capacity entries.old }
    requires few { length defs.now < 2 ^ 32 }
    ensures entries { entries.new.items ≡ entries.old.items
        ++ map (entry_of shown) (numbered 0 (map (prefixed by_tag_name text.now) defs.now)) }
    ensures room { vec_capacity entries.old ≤ vec_capacity entries.new }
{
    for (i, def) in defs.iter().enumerate() {
        let _ = entries.push(def_entry(by_tag_name, text, def, shown, i as u32));
    }
}

/// How many entries a version has.
pub(crate) fn count(kind: IndexKind, archive: &Archive, version: u32) -> usize
    ensures { result ≡ length (listed_of (lister_of kind) archive.now version) }
{
    match archive.version(version) {
        Some(version) => match kind {
            IndexKind::DefsByName => defs_of(version).len(),
            IndexKind::DefsByTagName => defs_of(version).len(),
            IndexKind::Facts(kind) => first_count(kind, version),
        },
        None => 0,
    }
}

/// Appends the entries of a version under a name, in the room that is there.
pub(crate) fn append(kind: IndexKind, archive: &Archive, shown: Shown, entries: &mut Vec<Posting>)
    requires { vec_len entries.old + length (listed_of (lister_of kind) archive.now shown.version)
        ≤ vec_capacity entries.old }
    ensures entries { entries.new.items
        ≡ entries.old.items ++ entries_of (lister_of kind) archive.now shown }
    ensures room { vec_capacity entries.old ≤ vec_capacity entries.new }
{
    let Some(kept) = archive.version(shown.version) else {
        return;
    };
    let text = kept.source().bytes();
    match kind {
        IndexKind::DefsByName => append_defs(false, text, defs_of(kept), shown, entries),
        IndexKind::DefsByTagName => append_defs(true, text, defs_of(kept), shown, entries),
        IndexKind::Facts(kind) => append_firsts(kind, kept, shown, entries),
    }
}

// ---- the order of entries

fn numbers(entry: Posting) -> [u32; 4]
    ensures { result ≡ numbers entry }
{
    [entry.name, entry.version, entry.number, entry.rows]
}

/// The order of two entries with one key.
fn compare_files(archive: &Archive, a: Posting, b: Posting) -> Ordering
    ensures { result ≡ slice_cmp nat_cmp (file_key archive.now a) (file_key archive.now b) }
{
    match compare_by_words(archive.name(a.name), archive.name(b.name)) {
        Ordering::Equal => numbers(a).cmp(&numbers(b)),
        settled => settled,
    }
}

/// The order of two entries with one prefix.
fn compare_bytes(kind: IndexKind, archive: &Archive, a: Posting, b: Posting) -> Ordering
    ensures { result
        ≡ slice_cmp nat_cmp (bytes_key (keyer_of kind) archive.now a)
        (bytes_key (keyer_of kind) archive.now b) }
{
    match compare_keys(kind, archive, a, b) {
        Ordering::Equal => compare_files(archive, a, b),
        settled => settled,
    }
}

/// The order of two entries.
pub(crate) fn compare(kind: IndexKind, archive: &Archive, a: Posting, b: Posting) -> Ordering
    ensures { result
        ≡ slice_cmp nat_cmp (sort_key (keyer_of kind) archive.now a)
        (sort_key (keyer_of kind) archive.now b) }
{
    match a.prefix.cmp(&b.prefix) {
        Ordering::Equal => compare_bytes(kind, archive, a, b),
        settled => settled,
    }
}

// ---- bounds

/// Where a bound stands among the entries of an index.
#[derive(Clone, Copy)]
pub(crate) enum Side<'a> {
    /// After an entry and all that go before it.
    Behind(Posting),
    /// Before the entries of a key, whose prefix is this.
    Before(u64, &'a [u8]),
    /// After the entries of a key, whose prefix is this.
    After(u64, &'a [u8]),
}

/// A bound among the entries of an index of a kind.
#[derive(Clone, Copy)]
pub(crate) struct EntryBound<'a, 'k> {
    pub(crate) kind: IndexKind,
    pub(crate) archive: &'a Archive,
    pub(crate) side: Side<'k>,
}

/// A key with its prefix against an entry.
pub(crate) fn compare_key(
    kind: IndexKind,
    archive: &Archive,
    prefix: u64,
    key: &[u8],
    entry: Posting,
) -> Ordering
    ensures { result ≡ key_cmp (keyer_of kind) archive.now prefix key.now entry }
{
    match prefix.cmp(&entry.prefix) {
        Ordering::Equal => compare_key_bytes(kind, archive, key, entry),
        settled => settled,
    }
}

impl<'a, 'k> Bound<Posting> for EntryBound<'a, 'k> {
    ghost use Rattle.cb_index.specs.Kinds.{keyer_of};
    ghost use Rattle.cb_index.specs.steps.Bounds.{is_ahead};

    ghost is_ahead = { λ b. is_ahead (keyer_of b.kind) b.archive.now b.side };

    #[tactic(auto, unfolding(crate::specs::steps::Bounds::is_ahead))]
    fn is_ahead(&self, one: Posting) -> bool {
        let (kind, archive) = (self.kind, self.archive);
        match self.side {
            Side::Behind(entry) => compare(kind, archive, one, entry) != Ordering::Greater,
            Side::Before(prefix, key) => {
                compare_key(kind, archive, prefix, key, one) == Ordering::Greater
            }
            Side::After(prefix, key) => {
                compare_key(kind, archive, prefix, key, one) != Ordering::Less
            }
        }
    }
}
