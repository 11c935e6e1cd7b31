//! Uses and calls, one after another.
ghost use Rattle.std.specs.Prelude.{◌≡◌, ◌+◌, ◌++◌, ◌∷◌, [], Bool, true, false, ⊤, IfSome};
ghost use Rattle.std.specs.Prelude.{MatchOption, sum_by};
ghost use Rattle.std.specs.List.{flat_map};
ghost use Rattle.std.specs.Iterator.{YieldsFirstBy, item_count};
ghost use Rattle.cb_index.specs.Items.{is_first};
ghost use Rattle.cb_index.specs.steps.Spread.{items_from};
ghost use Rattle.cb_index.specs.steps.Searched.{items_with, searched_at, searched_count};
ghost use Rattle.cb_index.specs.steps.Left.{fact_of, fact_of_spot, facts_counted, facts_left};
ghost use Rattle.cb_index.specs.steps.Left.{facts_new, group_left, group_count, group_left_if};
ghost use Rattle.cb_index.specs.steps.Left.{groups_left, rows_counted, spots_left, walk_left};
ghost use Rattle.cb_index.specs.steps.ShownIn.{shown_in};

use crate::archive::{Archive, Version};
use crate::columns::{hash, next_near};
use crate::entry::{FactKind, Shown};
use crate::files::ShownFiles;
use crate::items::{Chain, item_count, item_key, row_count};
use crate::repeats::take_given;
use crate::rows::{FactRow, FactSpot, fact_at};

/// The facts of one key in one version that are still to come.
#[derive(Clone, Copy)]
pub(crate) struct Group<'a> {
    file: &'a [u8],
    items: Chain<'a>,
}

/// A key, and the files in which it is still to be searched for.
#[derive(Clone, Copy)]
pub(crate) struct Groups<'a, 'p> {
    key: &'p [u8],
    shown: ShownFiles<'a>,
}

/// The facts of a key that are still to come: those of the group, and then those of the others.
#[derive(Clone, Copy)]
pub(crate) struct Walk<'a, 'p> {
    sort: FactKind,
    archive: &'a Archive,
    groups: Groups<'a, 'p>,
    group: Option<Group<'a>>,
}

/// Uses or calls that are no repeats, without their lines: of those of one key with equal rows the
/// first. They take no memory.
#[derive(Clone, Copy)]
pub struct FactSpots<'a, 'p> {
    walk: Walk<'a, 'p>,
}

/// Uses or calls, each with its line. They take no memory.
#[derive(Clone, Copy)]
pub struct FactRows<'a, 'p> {
    walk: Walk<'a, 'p>,
}

/// Takes the first fact of a group that is given: of all, or of those that are no repeats.
fn take_spot<'a>(group: &mut Group<'a>, all: bool) -> Option<FactSpot<'a>>
    ensures { MatchOption result (group_left all group.old ≡ [])
        (λ s. group_left all group.old ≡ fact_of_spot s ∷ group_left all group.new) }
{
    let item = take_given(&mut group.items, all)?;
    Some(fact_at(group.items.sort(), group.file, group.items.version(), item))
}

/// The first item of a version that has a key.
fn first_with_key(sort: FactKind, version: &Version, key: &[u8]) -> Option<u32>
    ensures first { IfSome result (λ item. is_first sort version.now item ≡ true) }
    ensures items { MatchOption result (items_with sort version.now key.now ≡ [])
        (λ item. items_with sort version.now key.now ≡ items_from sort version.now item) }
{
    let hash = hash(key);
    if !version.may_have(hash) {
        return None;
    }
    let cells = version.column(sort);
    let mut item = next_near(cells, 0, hash);
    while item < item_count(sort, version) {
        if key == item_key(sort, version, item as u32) {
            return Some(item as u32);
        }
        item = next_near(cells, item + 1, hash);
    }
    None
}

/// The facts of a key in a file, if there are any.
fn search_group<'a>(
    sort: FactKind,
    archive: &'a Archive,
    key: &[u8],
    shown: Shown,
) -> Option<Group<'a>>
    ensures { (all : Bool) → group_left_if all result ≡ searched_at all sort archive.now key.now
        shown }
{
    let version = archive.version(shown.version)?;
    let item = first_with_key(sort, version, key)?;
    Some(Group {
        file: archive.name(shown.name),
        items: Chain::from(sort, version, item),
    })
}

/// A group, which may be none, and those after it.
#[derive(Clone, Copy)]
pub(crate) struct GroupStep<'a, 'p> {
    group: Option<Group<'a>>,
    rest: Groups<'a, 'p>,
}

/// The first of some groups.
fn next_group<'a, 'p>(
    sort: FactKind,
    archive: &'a Archive,
    groups: Groups<'a, 'p>,
) -> Option<GroupStep<'a, 'p>>
    ensures given { (all : Bool)
        → MatchOption result (groups_left all sort archive.now groups.entry ≡ [])
        (λ r. groups_left all sort archive.now groups.entry
        ≡ group_left_if all r.group ++ groups_left all sort archive.now r.rest) }
    ensures fewer { MatchOption result ⊤ (λ r. group_count groups.entry ≡ 1 + group_count r.rest) }
{
    let (one, rest) = groups.shown.split_first()?;
    Some(GroupStep {
        group: search_group(sort, archive, groups.key, one),
        rest: Groups {
            key: groups.key,
            shown: rest,
        },
    })
}

/// A fact, what is left of its group, and the groups after that.
#[derive(Clone, Copy)]
struct Step<'a, 'p> {
    spot: FactSpot<'a>,
    group: Group<'a>,
    groups: Groups<'a, 'p>,
}

/// The first fact of some groups that is given.
fn first_spot<'a, 'p>(
    sort: FactKind,
    archive: &'a Archive,
    groups: Groups<'a, 'p>,
    all: bool,
) -> Option<Step<'a, 'p>>
    ensures { MatchOption result (groups_left all sort archive.now groups.entry ≡ [])
        (λ r. groups_left all sort archive.now groups.entry
        ≡ fact_of_spot r.spot
        ∷ (group_left all r.group ++ groups_left all sort archive.now r.groups)) }
{
    let mut left = groups;
    while let Some(step) = next_group(sort, archive, left) {
        left = step.rest;
        if let Some(mut group) = step.group {
            if let Some(spot) = take_spot(&mut group, all) {
                return Some(Step {
                    spot,
                    group,
                    groups: left,
                });
            }
        }
    }
    None
}

/// The next fact that is given.
fn next_fact<'a, 'p>(walk: &mut Walk<'a, 'p>, all: bool) -> Option<FactSpot<'a>>
    ensures { YieldsFirstBy fact_of_spot (walk_left all) walk.old result walk.new }
{
    if let Some(group) = &mut walk.group {
        if let Some(spot) = take_spot(group, all) {
            return Some(spot);
        }
    }
    walk.group = None;
    let found = first_spot(walk.sort, walk.archive, walk.groups, all)?;
    walk.group = Some(found.group);
    walk.groups = found.groups;
    Some(found.spot)
}

impl<'a, 'p> FactRows<'a, 'p> {
    /// The facts of a key in files.
    pub(crate) fn searched(
        sort: FactKind,
        archive: &'a Archive,
        key: &'p [u8],
        shown: ShownFiles<'a>,
    ) -> FactRows<'a, 'p>
        ensures rows { facts_left result
            ≡ flat_map (searched_at true sort archive.now key.now) (shown_in shown.entry) }
        ensures new { facts_new result
            ≡ flat_map (searched_at false sort archive.now key.now) (shown_in shown.entry) }
        ensures counted { facts_counted result
            ≡ sum_by (searched_count sort archive.now key.now) (shown_in shown.entry) }
    {
        FactRows {
            walk: Walk {
                sort,
                archive,
                groups: Groups { key, shown },
                group: None,
            },
        }
    }

    /// Those that are no repeats, without their lines.
    pub fn spots(self) -> FactSpots<'a, 'p>
        ensures rows { spots_left result ≡ facts_new self.entry }
        ensures counted { rows_counted result ≡ facts_counted self.entry }
    {
        FactSpots { walk: self.walk }
    }

    /// Takes the first one, whose line is not looked up yet.
    pub fn next_spot(&mut self) -> Option<FactSpot<'a>>
        ensures { YieldsFirstBy fact_of_spot facts_left self.old result self.new }
    {
        next_fact(&mut self.walk, true)
    }
}

/// How many rows the facts of a key in a file have.
fn count_in(sort: FactKind, archive: &Archive, key: &[u8], shown: Shown) -> u32
    ensures { result ≡ searched_count sort archive.now key.now shown }
{
    let Some(version) = archive.version(shown.version) else {
        return 0;
    };
    match first_with_key(sort, version, key) {
        Some(item) => row_count(sort, version, item),
        None => 0,
    }
}

/// How many rows the facts of a key in files have.
fn count_searched(sort: FactKind, archive: &Archive, key: &[u8], shown: ShownFiles<'_>) -> u128
    ensures { result ≡ sum_by (searched_count sort archive.now key.now) (shown_in shown.entry) }
{
    let mut count = 0;
    let mut left = shown;
    while let Some((one, rest)) = left.split_first() {
        left = rest;
        count += count_in(sort, archive, key, one) as u128;
    }
    count
}

impl<'a, 'p> FactSpots<'a, 'p> {
    /// How many they are. It asks the groups alone, so it is for an iterator that has given nothing
    /// yet.
    pub fn row_count(&self) -> u128
        ensures { result ≡ rows_counted self.now }
    {
        let Groups { key, shown } = self.walk.groups;
        count_searched(self.walk.sort, self.walk.archive, key, shown)
    }
}

impl<'a, 'p> Iterator for FactSpots<'a, 'p> {
    type Item = FactSpot<'a>;

    ghost next_gives = { YieldsFirstBy fact_of_spot spots_left };

    ghost remaining = { item_count spots_left };

    fn next(&mut self) -> Option<FactSpot<'a>> {
        next_fact(&mut self.walk, false)
    }
}

impl<'a, 'p> Iterator for FactRows<'a, 'p> {
    type Item = FactRow<'a>;

    ghost next_gives = { YieldsFirstBy fact_of facts_left };

    ghost remaining = { item_count facts_left };

    fn next(&mut self) -> Option<FactRow<'a>> {
        let spot = self.next_spot()?;
        Some(spot.row())
    }
}
