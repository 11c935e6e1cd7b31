//! How many facts versions have together.
ghost use Rattle.std.specs.Prelude.{◌≡◌, ◌+◌, ◌-◌, ◌^◌, ◌≤◌, ◌<◌, MatchOption};
ghost use Rattle.cb_index.specs.Archived.{text_at};
ghost use Rattle.cb_index.specs.Files.{call_count, count_for, def_count, total, use_count};
ghost use Rattle.cb_index.specs.Shelved.{AreTotals, AreTooMany};
ghost use Rattle.cb_index.specs.steps.ShownIn.{shown_in};

use crate::archive::Archive;
use crate::entry::{FactKind, IndexKind, Shown};
use crate::files::ShownFiles;

/// So many definitions, uses and calls.
#[derive(Clone, Copy, Debug, PartialEq, Eq)]
pub struct Totals {
    pub defs: u64,
    pub uses: u64,
    pub calls: u64,
}

/// How many facts of its kind a version has.
pub(crate) fn count_of(kind: IndexKind, archive: &Archive, version: u32) -> usize
    ensures value { result ≡ count_for kind (text_at archive.now version) }
    ensures few { result < 2 ^ 32 }
{
    match archive.version(version) {
        Some(version) => match kind {
            IndexKind::DefsByName => version.facts().defs().len(),
            IndexKind::DefsByTagName => version.facts().defs().len(),
            IndexKind::Facts(FactKind::Uses) => version.facts().uses().len(),
            IndexKind::Facts(FactKind::Callees) => version.facts().calls().len(),
            IndexKind::Facts(FactKind::Callers) => version.facts().calls().len(),
        },
        None => 0,
    }
}

/// A count with the facts of versions more.
fn total_with(kind: IndexKind, archive: &Archive, shown: &[Shown], before: u64) -> u64
    requires { before + total (count_for kind) archive.now shown.now ≤ 2 ^ 64 - 1 }
    ensures { result ≡ before + total (count_for kind) archive.now shown.now }
{
    let mut count = before;
    for s in shown {
        count += count_of(kind, archive, s.version) as u64;
    }
    count
}

/// How many facts all files have that are shown.
fn total_in(kind: IndexKind, archive: &Archive, shown: ShownFiles<'_>) -> u64
    requires { total (count_for kind) archive.now (shown_in shown) ≤ 2 ^ 64 - 1 }
    ensures { result ≡ total (count_for kind) archive.now (shown_in shown.entry) }
{
    let mut count = 0;
    let mut left = shown;
    while let Some((one, rest)) = left.split_first() {
        left = rest;
        count += count_of(kind, archive, one.version) as u64;
    }
    count
}

/// How many facts versions have, if that is a number.
fn total_of(kind: IndexKind, archive: &Archive, shown: &[Shown]) -> Option<u64>
    ensures { MatchOption result (2 ^ 64 ≤ total (count_for kind) archive.now shown.now)
        (λ n. n ≡ total (count_for kind) archive.now shown.now) }
{
    let mut count = 0u64;
    for s in shown {
        count = count.checked_add(count_of(kind, archive, s.version) as u64)?;
    }
    Some(count)
}

/// How many facts of each kind versions have together, if these are numbers.
pub(crate) fn totals_of(archive: &Archive, shown: &[Shown]) -> Option<Totals>
    ensures { MatchOption result (AreTooMany archive.now shown.now)
        (AreTotals archive.now shown.now) }
{
    Some(Totals {
        defs: total_of(IndexKind::DefsByName, archive, shown)?,
        uses: total_of(IndexKind::Facts(FactKind::Uses), archive, shown)?,
        calls: total_of(IndexKind::Facts(FactKind::Callees), archive, shown)?,
    })
}

impl Totals {
    /// The totals with the facts of versions more.
    pub(crate) fn with(self, archive: &Archive, shown: &[Shown]) -> Totals
        requires defs { self.defs + total def_count archive.now shown.now ≤ 2 ^ 64 - 1 }
        requires uses { self.uses + total use_count archive.now shown.now ≤ 2 ^ 64 - 1 }
        requires calls { self.calls + total call_count archive.now shown.now ≤ 2 ^ 64 - 1 }
        ensures defs { result.defs ≡ self.defs + total def_count archive.now shown.now }
        ensures uses { result.uses ≡ self.uses + total use_count archive.now shown.now }
        ensures calls { result.calls ≡ self.calls + total call_count archive.now shown.now }
    {
        Totals {
            defs: total_with(IndexKind::DefsByName, archive, shown, self.defs),
            uses: total_with(IndexKind::Facts(FactKind::Uses), archive, shown, self.uses),
            calls: total_with(
                IndexKind::Facts(FactKind::Callees),
                archive,
                shown,
                self.calls,
            ),
        }
    }

    /// The totals of some versions that have no more facts than these.
    pub(crate) fn of_fewer(self, archive: &Archive, shown: ShownFiles<'_>) -> Totals
        requires defs { total def_count archive.now (shown_in shown) ≤ self.defs }
        requires uses { total use_count archive.now (shown_in shown) ≤ self.uses }
        requires calls { total call_count archive.now (shown_in shown) ≤ self.calls }
        ensures defs { result.defs ≡ total def_count archive.now (shown_in shown.entry) }
        ensures uses { result.uses ≡ total use_count archive.now (shown_in shown.entry) }
        ensures calls { result.calls ≡ total call_count archive.now (shown_in shown.entry) }
    {
        Totals {
            defs: total_in(IndexKind::DefsByName, archive, shown),
            uses: total_in(IndexKind::Facts(FactKind::Uses), archive, shown),
            calls: total_in(IndexKind::Facts(FactKind::Callees), archive, shown),
        }
    }

    /// The totals with the facts of a version less.
    pub(crate) fn without(self, archive: &Archive, version: u32) -> Totals
        requires defs { def_count (text_at archive.now version) ≤ self.defs }
        requires uses { use_count (text_at archive.now version) ≤ self.uses }
        requires calls { call_count (text_at archive.now version) ≤ self.calls }
        ensures defs { result.defs + def_count (text_at archive.now version) ≡ self.defs }
        ensures uses { result.uses + use_count (text_at archive.now version) ≡ self.uses }
        ensures calls { result.calls + call_count (text_at archive.now version)
            ≡ self.calls }
    {
        Totals {
            defs: self.defs - count_of(IndexKind::DefsByName, archive, version) as u64,
            uses: self.uses - count_of(IndexKind::Facts(FactKind::Uses), archive, version) as u64,
            calls: self.calls
                - count_of(IndexKind::Facts(FactKind::Callees), archive, version) as u64,
        }
    }
}
