//! Entries are sorted by their prefixes, and those of one prefix by the words of their keys that
//! follow, each looked up once. What has one key is sorted by comparing files.
ghost use Rattle.std.specs.Prelude.{◌≡◌, ℕ, true, IfSome, length, map, nat_eq, nat_le, nat_lt};
ghost use Rattle.std.specs.Prelude.{vec_capacity};
ghost use Rattle.std.specs.List.{AllByRecursion, list_all};
ghost use Rattle.std.specs.Cmp.Lexicographic.{slice_cmp};
ghost use Rattle.std.specs.List.Sorted.{IsNonDecreasingBy, IsPermutation};
ghost use Rattle.std.specs.Ordering.{nat_cmp};
ghost use Rattle.cb_scan.specs.Order.{in_order};
ghost use Rattle.cb_index.specs.Entries.{sort_key};
ghost use Rattle.cb_index.specs.Kinds.{keyer_of};
ghost use Rattle.cb_index.specs.steps.Quick.{IsBoundary, IsDeep, prefix_of, with_prefix};
ghost use Rattle.cb_index.specs.declared.entry.Posting.{Posting};

use crate::archive::{Archive, read_bytes};
use crate::entry::{IndexKind, Posting};
use crate::order::{compare, plain_key};
use cb_scan::key_prefix;
use std::cmp::Ordering;

/// Fewer entries are sorted by comparing their keys.
const FEW: usize = 4;

/// How many bytes of a key are a prefix.
const WORD: usize = 8;

/// So many bytes of keys at most are passed over.
const DEEPEST: usize = 128;

/// Sorts entries by prefix.
fn sort_by_prefix(entries: &mut [Posting])
    ensures moved { IsPermutation entries.old entries.new }
    ensures order { IsNonDecreasingBy prefix_of entries.new }
{
    entries.sort_unstable_by_key(
        |e: &Posting| -> u64
            ensures { result ≡ e.now.prefix }
        { e.prefix },
    );
}

/// Sorts entries by name and number, which is near to the order of those of one key.
fn sort_by_numbers(entries: &mut [Posting])
    ensures { IsPermutation entries.old entries.new }
{
    entries.sort_unstable_by_key(|e: &Posting| -> (u32, u32) { (e.name, e.number) });
}

/// Where the entries of a prefix begin.
fn start_of(entries: &[Posting], prefix: u64) -> usize
    requires { IsNonDecreasingBy prefix_of entries.now }
    ensures { IsBoundary entries.now result }
{
    entries.partition_point(
        |e: &Posting| -> bool
            ensures { result ≡ nat_lt e.now.prefix prefix }
        { e.prefix < prefix },
    )
}

/// Where the entries of a prefix end.
fn end_of(entries: &[Posting], prefix: u64) -> usize
    requires { IsNonDecreasingBy prefix_of entries.now }
    ensures { IsBoundary entries.now result }
{
    entries.partition_point(
        |e: &Posting| -> bool
            ensures { result ≡ nat_le e.now.prefix prefix }
        { e.prefix <= prefix },
    )
}

/// Where the prefix in the middle begins; where it ends, if it begins with the entries.
fn boundary(entries: &[Posting]) -> usize
    requires { IsNonDecreasingBy prefix_of entries.now }
    ensures { IsBoundary entries.now result }
{
    let prefix = match entries.get(entries.len() / 2) {
        Some(entry) => entry.prefix,
        None => 0,
    };
    let start = start_of(entries, prefix);
    if start > 0 {
        return start;
    }
    end_of(entries, prefix)
}

/// Puts entries in order by looking their keys and files up.
fn sort_whole(kind: IndexKind, archive: &Archive, entries: &mut [Posting])
    ensures { entries.new ≡ in_order (sort_key (keyer_of kind) archive.now) entries.old }
{
    entries.sort_unstable_by(
        |a: &Posting, b: &Posting| -> Ordering
            ensures { result ≡ slice_cmp nat_cmp (sort_key (keyer_of kind) archive.entry.now a.now)
                (sort_key (keyer_of kind) archive.entry.now b.now) }
        { compare(kind, archive, *a, *b) },
    );
}

/// Puts entries in order, of which many have one key.
fn sort_by_files(kind: IndexKind, archive: &Archive, entries: &mut [Posting])
    ensures { entries.new ≡ in_order (sort_key (keyer_of kind) archive.now) entries.old }
{
    sort_by_numbers(entries);
    sort_whole(kind, archive, entries);
}

/// Whether all entries have this prefix.
fn have_prefix(prefix: u64, entries: &[Posting]) -> bool
    ensures { result ≡ list_all (λ (e : Posting). nat_eq e.prefix prefix) entries.now }
{
    entries.iter().all(|e: &Posting| e.prefix == prefix)
}

/// An entry with another prefix.
fn with_prefix(prefix: u64, entry: Posting) -> Posting
    ensures { result ≡ with_prefix prefix entry }
{
    Posting { prefix, ..entry }
}

/// Gives entries this prefix.
fn set_prefix(prefix: u64, entries: &mut [Posting])
    ensures { entries.new ≡ map (with_prefix prefix) entries.old }
{
    for entry in entries.iter_mut() {
        *entry = with_prefix(prefix, *entry);
    }
}

/// The eight bytes of a key that follow these, with which it begins, as a number.
fn next_word(kind: IndexKind, archive: &Archive, front: &[u8], entry: Posting) -> Option<u64>
    ensures { IfSome result (λ word. IsDeep (keyer_of kind) archive.now front.now
        (with_prefix word entry)) }
{
    let rest = plain_key(kind, archive, entry)?.strip_prefix(front)?;
    read_bytes(rest);
    Some(key_prefix(rest))
}

/// Gives entries the next words of their keys as prefixes; false where a key does not begin with
/// these bytes, and then only some have others.
fn deepen(kind: IndexKind, archive: &Archive, front: &[u8], entries: &mut [Posting]) -> bool
    ensures same { (prefix : ℕ)
        → map (with_prefix prefix) entries.new ≡ map (with_prefix prefix) entries.old }
    ensures deep { result ≡ true
        → AllByRecursion (IsDeep (keyer_of kind) archive.now front.now) entries.new }
{
    for entry in entries.iter_mut() {
        match next_word(kind, archive, front, *entry) {
            Some(word) => *entry = with_prefix(word, *entry),
            None => return false,
        }
    }
    true
}

/// The prefix of the first entry.
fn first_prefix(entries: &[Posting]) -> u64 {
    match entries.first() {
        Some(first) => first.prefix,
        None => 0,
    }
}

/// The first bytes of the key of the first entry, if it has as many.
fn first_bytes<'a>(
    kind: IndexKind,
    archive: &'a Archive,
    depth: usize,
    entries: &[Posting],
) -> Option<&'a [u8]> {
    plain_key(kind, archive, *entries.first()?)?.get(..depth)
}

/// Puts entries of one prefix in order by the words of their keys from a depth on: each word takes
/// the place of the prefix, until all are sorted by it.
#[cycle(parts)]
fn sort_run(kind: IndexKind, archive: &Archive, depth: usize, entries: &mut [Posting])
    ensures { entries.new ≡ in_order (sort_key (keyer_of kind) archive.now) entries.old }
{
    let prefix = first_prefix(entries);
    if depth > DEEPEST || !have_prefix(prefix, entries) {
        sort_by_files(kind, archive, entries);
        return;
    }
    let Some(front) = first_bytes(kind, archive, depth, entries) else {
        sort_by_files(kind, archive, entries);
        return;
    };
    if deepen(kind, archive, front, entries) {
        sort_by_prefix(entries);
        sort_parts(kind, archive, depth + WORD, entries);
        set_prefix(prefix, entries);
    } else {
        set_prefix(prefix, entries);
        sort_by_files(kind, archive, entries);
    }
}

/// Puts entries in order whose prefixes are.
#[cycle(parts)]
fn sort_parts(kind: IndexKind, archive: &Archive, depth: usize, entries: &mut [Posting])
    requires { IsNonDecreasingBy prefix_of entries.old }
    ensures { entries.new ≡ in_order (sort_key (keyer_of kind) archive.now) entries.old }
{
    if entries.len() < FEW {
        sort_whole(kind, archive, entries);
        return;
    }
    let at = boundary(entries);
    if at == 0 || at == entries.len() {
        sort_run(kind, archive, depth, entries);
        return;
    }
    let (front, back) = entries.split_at_mut(at);
    sort_parts(kind, archive, depth, front);
    sort_parts(kind, archive, depth, back);
}

/// Puts entries in order.
fn sort_slice(kind: IndexKind, archive: &Archive, entries: &mut [Posting])
    ensures items { entries.new ≡ in_order (sort_key (keyer_of kind) archive.now) entries.old }
    ensures len { length entries.new ≡ length entries.old }
{
    sort_by_prefix(entries);
    sort_parts(kind, archive, WORD, entries);
}

/// Puts entries in order.
pub(crate) fn sort(kind: IndexKind, archive: &Archive, entries: &mut Vec<Posting>)
    ensures items { entries.new.items
        ≡ in_order (sort_key (keyer_of kind) archive.now) entries.old.items }
    ensures len { length entries.new.items ≡ length entries.old.items }
    ensures room { vec_capacity entries.new ≡ vec_capacity entries.old }
{
    sort_slice(kind, archive, entries.as_mut_slice());
}
