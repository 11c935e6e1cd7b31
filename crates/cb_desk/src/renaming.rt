//! Places of a file that gets another number.
ghost use Rattle.std.specs.Prelude.{◌≡◌, ◌≤◌, ◌+◌, ◌++◌, ◌↔◌, length, drop, map, take};
ghost use Rattle.std.specs.Prelude.{vec_capacity, IfOk, IsTrue, MatchOption};
ghost use Rattle.cb_desk.specs.steps.Edits.{renamed, rotated, turned_renaming, with_number};
ghost use Rattle.cb_desk.specs.steps.Renamings.{LeadsBetween, count_before, count_of};
ghost use Rattle.cb_desk.specs.steps.Renamings.{renaming_between};

use crate::edits::put_places;
use crate::places::FileLine;
use std::alloc::{AllocError, Global};

/// A file's number becomes another one. In the range from `start` to `end` the first `split` places
/// then go behind the others, so that places by file and line stay so; `back` is how many go behind
/// the others on the way back.
#[derive(Clone, Copy, Debug)]
pub(crate) struct Renaming {
    pub(crate) from: u32,
    pub(crate) to: u32,
    pub(crate) start: usize,
    pub(crate) end: usize,
    pub(crate) split: usize,
    pub(crate) back: usize,
}

/// How many places stand before the first one of a file.
fn count_before(places: &[FileLine], name: u32) -> usize
    ensures { result ≡ count_before places.now name }
{
    places.iter().take_while(|place| place.name != name).count()
}

/// How many places of a file there are.
fn count_of(places: &[FileLine], name: u32) -> usize
    ensures { result ≡ count_of places.now name }
{
    places.iter().filter(|place| place.name == name).count()
}

/// Appends a list with its first places moved to its end.
fn put_rotated(places: &[FileLine], split: usize, into: &mut Vec<FileLine>)
    requires { length into.old.items + length places.now ≤ vec_capacity into.old }
    ensures items { into.new.items
        ≡ into.old.items ++ (drop split places.now ++ take split places.now) }
    ensures room { vec_capacity into.old ≤ vec_capacity into.new }
{
    let (first, more) = places.split_at(split.min(places.len()));
    put_places(more, into);
    put_places(first, into);
}

impl Renaming {
    /// The renaming that leads from one list to another, where the places of a file are together
    /// in each of them or are where they were.
    fn between(from: u32, to: u32, old: &[FileLine], new: &[FileLine]) -> Renaming
        ensures { result ≡ renaming_between from to old.now new.now }
    {
        let count = count_of(old, from);
        let before = count_before(old, from);
        let after = count_before(new, to);
        let is_later = before <= after;
        Renaming {
            from,
            to,
            start: before.min(after),
            end: before.max(after).saturating_add(count),
            split: if is_later {
                count
            } else {
                before.saturating_sub(after)
            },
            back: if is_later {
                after.saturating_sub(before)
            } else {
                count
            },
        }
    }

    /// The renaming that takes this one back.
    pub(crate) fn turned(self) -> Renaming
        ensures { result ≡ turned_renaming self }
    {
        Renaming {
            from: self.to,
            to: self.from,
            start: self.start,
            end: self.end,
            split: self.back,
            back: self.split,
        }
    }

    /// A place, in the file of the other number if it is in the one of the first.
    fn with_number(self, place: FileLine) -> FileLine
        ensures { result ≡ with_number self place }
    {
        if place.name == self.from {
            FileLine {
                name: self.to,
                line: place.line,
            }
        } else {
            place
        }
    }

    #[tactic(auto, using(std::proofs::lemmas::List::Edits::map_over_more))]
    /// Gives all places of the file the other number.
    fn renumber(self, places: &mut [FileLine])
        ensures { places.new ≡ map (with_number self) places.old }
    {
        for place in places.iter_mut() {
            *place = self.with_number(*place);
        }
    }

    /// Writes places at which the range is turned into a list that has room for them.
    fn rotate_into(self, places: &[FileLine], into: &mut Vec<FileLine>)
        requires { length places.now ≤ vec_capacity into.old }
        ensures items { into.new.items
            ≡ rotated self.start self.end self.split places.now }
        ensures room { vec_capacity into.old ≤ vec_capacity into.new }
    {
        into.truncate(0);
        let (front, rest) = places.split_at(self.end.min(places.len()));
        let (start, range) = front.split_at(self.start.min(front.len()));
        put_places(start, into);
        put_rotated(range, self.split, into);
        put_places(rest, into);
    }

    /// Renames in a list, and writes what that makes into one that has room for it.
    pub(crate) fn write_into(self, places: &mut [FileLine], into: &mut Vec<FileLine>)
        requires { length places.old ≤ vec_capacity into.old }
        ensures items { into.new.items ≡ renamed self places.old }
        ensures room { vec_capacity into.old ≤ vec_capacity into.new }
    {
        self.renumber(places);
        self.rotate_into(places, into);
    }

    /// Whether this makes one list from another.
    fn leads(self, alloc: Global, old: &[FileLine], new: &[FileLine]) -> Result<bool, AllocError>
        ensures { IfOk result (λ leads. IsTrue leads ↔ (renamed self old.now ≡ new.now)) }
    {
        let mut places = Vec::from_slice(alloc, old)?;
        let mut made = Vec::with_capacity(alloc, old.len())?;
        self.write_into(places.as_mut_slice(), &mut made);
        Ok(made.as_slice() == new)
    }

    /// The renaming between two lists, if it makes one from the other and back.
    pub(crate) fn found(
        alloc: Global,
        from: u32,
        to: u32,
        old: &[FileLine],
        new: &[FileLine],
    ) -> Result<Option<Renaming>, AllocError>
        ensures { IfOk result (λ found. MatchOption found
            (LeadsBetween (renaming_between from to old.now new.now) old.now new.now → ⊥)
            (λ r. LeadsBetween r old.now new.now)) }
    {
        let way = Renaming::between(from, to, old, new);
        if way.leads(alloc, old, new)? && way.turned().leads(alloc, new, old)? {
            Ok(Some(way))
        } else {
            Ok(None)
        }
    }
}
