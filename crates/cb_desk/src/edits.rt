//! What a change does to a list of places, kept so that it can be taken back and done again: place
//! by place, or in its shortest form.
ghost use Rattle.std.specs.Prelude.{◌≡◌, ◌≤◌, ◌+◌, ◌-◌, ◌++◌, ◌∷◌, [], IfOk, MatchOption, drop};
ghost use Rattle.std.specs.Prelude.{false, length, take, vec_capacity};
ghost use Rattle.cb_desk.specs.steps.Edits.{IsDifference, IsEachDifference, IsFirstStep, each};
ghost use Rattle.cb_desk.specs.steps.Edits.{edited, edited_each, more, turned_each, turned_edit};
ghost use Rattle.cb_desk.specs.steps.Edits.{turned_edits};
ghost use Rattle.cb_desk.specs.steps.Renamings.{LeadsBetween, is_renaming, renaming_between};

use crate::places::FileLine;
use crate::renaming::Renaming;
use std::alloc::{AllocError, Global};
use std::marker::Model;
use std::mem;

// ---- place by place

/// A place that is put into a list or taken out of it, after a number of places that stay.
#[derive(Clone, Copy, Debug)]
pub(crate) struct Edit {
    pub(crate) kept: usize,
    pub(crate) place: FileLine,
    pub(crate) is_put: bool,
}

impl Edit {
    /// The edit that takes this one back.
    fn turned(self) -> Edit
        ensures { result ≡ turned_edit self }
    {
        Edit {
            kept: self.kept,
            place: self.place,
            is_put: !self.is_put,
        }
    }
}

#[tactic(auto, using(std::proofs::lemmas::List::Edits::map_over_more))]
/// Makes edits those that take them back.
fn turn_edits(edits: &mut [Edit])
    ensures { edits.new ≡ turned_each edits.old }
{
    for edit in edits.iter_mut() {
        *edit = edit.turned();
    }
}

/// The list without its first place, if it has one.
fn without_first(places: &[FileLine]) -> &[FileLine]
    ensures { result.now ≡ drop 1 places.now }
{
    match places.split_first() {
        Some((_, rest)) => rest,
        None => places,
    }
}

/// Adds places to a list that has room for them.
pub(crate) fn put_places(places: &[FileLine], into: &mut Vec<FileLine>)
    requires { length into.old.items + length places.now ≤ vec_capacity into.old }
    ensures items { into.new.items ≡ into.old.items ++ places.now }
    ensures room { vec_capacity into.old ≤ vec_capacity into.new }
{
    if into.extend_from_slice(places).is_err() {
        unreachable!()
    }
}

/// Writes what edits make of a list into one that has room for it.
fn edit_into(edits: &[Edit], places: &[FileLine], into: &mut Vec<FileLine>)
    requires { length (edited_each edits.now places.now) ≤ vec_capacity into.old }
    ensures items { into.new.items ≡ edited_each edits.now places.now }
    ensures room { vec_capacity into.old ≤ vec_capacity into.new }
{
    into.truncate(0);
    let mut rest = places;
    for edit in edits {
        let (kept, more) = rest.split_at(edit.kept.min(rest.len()));
        put_places(kept, into);
        if edit.is_put {
            put_places(&[edit.place], into);
            rest = more;
        } else {
            rest = without_first(more);
        }
    }
    put_places(rest, into);
}

/// What is done first to make one list of places from another.
#[derive(Clone, Copy, Debug)]
enum Step {
    /// The first place of both stays.
    Keep,
    /// The first of the old places is taken out.
    Take(FileLine),
    /// The first of the new places is put in.
    Put(FileLine),
}

/// What is done first, if anything is left. Of two places that differ the old one is taken out if
/// its file is gone or if more old places than new ones are left.
fn first_step(gone: Option<u32>, olds: &[FileLine], news: &[FileLine]) -> Option<Step>
    ensures { MatchOption result (IsEachDifference [] olds.now news.now)
        (λ step. IsFirstStep step olds.now news.now) }
{
    match (olds.first(), news.first()) {
        (None, None) => None,
        (Some(old), None) => Some(Step::Take(*old)),
        (None, Some(new)) => Some(Step::Put(*new)),
        (Some(old), Some(new)) => Some(if old == new {
            Step::Keep
        } else if gone == Some(old.name) || olds.len() > news.len() {
            Step::Take(*old)
        } else {
            Step::Put(*new)
        }),
    }
}

/// Edits that make one list of places from another. `gone` is the name of a file that goes away, if
/// one does: with it the edits are no more than the places that change.
fn each_difference(
    alloc: Global,
    gone: Option<u32>,
    old: &[FileLine],
    new: &[FileLine],
) -> Result<Vec<Edit>, AllocError>
    ensures { IfOk result (λ edits. IsEachDifference edits.items old.now new.now) }
{
    let mut edits = Vec::new(alloc);
    let mut kept = 0;
    let mut olds = old;
    let mut news = new;
    while let Some(step) = first_step(gone, olds, news) {
        match step {
            Step::Keep => {
                kept += 1;
                olds = without_first(olds);
                news = without_first(news);
            }
            Step::Take(place) => {
                edits.push(Edit {
                    kept,
                    place,
                    is_put: false,
                })?;
                kept = 0;
                olds = without_first(olds);
            }
            Step::Put(place) => {
                edits.push(Edit {
                    kept,
                    place,
                    is_put: true,
                })?;
                kept = 0;
                news = without_first(news);
            }
        }
    }
    Ok(edits)
}

/// One edit.
fn one_edit(alloc: Global, edit: Edit) -> Result<Vec<Edit>, AllocError>
    ensures { IfOk result (λ edits. edits.items ≡ edit ∷ []) }
{
    let mut edits = Vec::with_capacity(alloc, 1)?;
    edits.push(edit)?;
    Ok(edits)
}

/// The edits that append a place.
fn push_edits(alloc: Global, places: &[FileLine], place: FileLine) -> Result<Vec<Edit>, AllocError>
    ensures { IfOk result
        (λ edits. IsEachDifference edits.items places.now (places.now ++ place ∷ [])) }
{
    let kept = places.len();
    one_edit(
        alloc,
        Edit {
            kept,
            place,
            is_put: true,
        },
    )
}

/// The edits that take the last place out, if there is one.
fn pop_edits(alloc: Global, places: &[FileLine]) -> Result<Vec<Edit>, AllocError>
    ensures { IfOk result
        (λ edits. IsEachDifference edits.items places.now
        (take (length places.now - 1) places.now)) }
{
    match places.split_last() {
        Some((last, rest)) => one_edit(
            alloc,
            Edit {
                kept: rest.len(),
                place: *last,
                is_put: false,
            },
        ),
        None => Ok(Vec::new(alloc)),
    }
}

// ---- the shortest form

/// The forms. None is larger than what it puts in and takes out, and a file that gets another
/// number is told by the two numbers.
#[derive(Drop)]
pub(crate) enum Way {
    /// Places put in and taken out, one by one.
    Each(Vec<Edit>),
    /// The list before and the list after.
    Both(Vec<FileLine>, Vec<FileLine>),
    /// A file gets another number.
    Renamed(Renaming),
}

/// Edits of a list of places, which can be taken back.
#[derive(Drop)]
pub(crate) struct PlaceEdits {
    way: Way,
}

impl Model for PlaceEdits {
    ghost use Rattle.cb_desk.specs.steps.Edits.{Edits, edits_in};

    ghost Value = { Edits };

    ghost view = { λ e. edits_in e.way };
}

impl PlaceEdits {
    /// No edits. It takes no memory.
    pub(crate) fn none(alloc: Global) -> PlaceEdits
        ensures { result ≡ each [] }
    {
        PlaceEdits {
            way: Way::Each(Vec::new(alloc)),
        }
    }

    /// For how many places more there has to be room.
    pub(crate) fn more(&self) -> usize
        ensures { result ≡ more self.now }
    {
        match &self.way {
            Way::Each(edits) => edits.len(),
            Way::Both(_, new) => new.len(),
            Way::Renamed(_) => 0,
        }
    }

    /// Makes these the edits that take them back.
    pub(crate) fn turn(&mut self)
        ensures { self.new ≡ turned_edits self.old }
    {
        match &mut self.way {
            Way::Each(edits) => turn_edits(edits.as_mut_slice()),
            Way::Both(old, new) => mem::swap(old, new),
            Way::Renamed(renaming) => *renaming = renaming.turned(),
        }
    }

    /// Writes what the edits make of a list into one that has room for it.
    pub(crate) fn write_into(&self, places: &mut [FileLine], into: &mut Vec<FileLine>)
        requires { length (edited self.now places.old) ≤ vec_capacity into.old }
        ensures items { into.new.items ≡ edited self.now places.old }
        ensures room { vec_capacity into.old ≤ vec_capacity into.new }
    {
        match &self.way {
            Way::Each(edits) => edit_into(edits.as_slice(), places, into),
            Way::Both(_, new) => {
                into.truncate(0);
                put_places(new.as_slice(), into);
            }
            Way::Renamed(renaming) => renaming.write_into(places, into),
        }
    }
}

/// Edits that make one list of places from another. `gone` is the name of a file that goes away, if
/// one does: with it the edits are no more than the places that change.
pub(crate) fn difference(
    alloc: Global,
    gone: Option<u32>,
    old: &[FileLine],
    new: &[FileLine],
) -> Result<PlaceEdits, AllocError>
    ensures { IfOk result (λ edits. IsDifference edits old.now new.now) }
{
    let edits = each_difference(alloc, gone, old, new)?;
    // An edit is as large as three places.
    if old.len().saturating_add(new.len()) / 3 < edits.len() {
        let before = Vec::from_slice(alloc, old)?;
        let after = Vec::from_slice(alloc, new)?;
        return Ok(PlaceEdits {
            way: Way::Both(before, after),
        });
    }
    // A list that was grown place by place may have twice the room.
    let exact = Vec::from_slice(alloc, edits.as_slice())?;
    Ok(PlaceEdits {
        way: Way::Each(exact),
    })
}

/// Edits that make one list of places from another, where a file gets another number.
pub(crate) fn renaming_difference(
    alloc: Global,
    from: u32,
    to: u32,
    old: &[FileLine],
    new: &[FileLine],
) -> Result<PlaceEdits, AllocError>
    ensures difference { IfOk result (λ edits. IsDifference edits old.now new.now) }
    ensures short { IfOk result (λ edits. is_renaming edits ≡ false
        → LeadsBetween (renaming_between from to old.now new.now) old.now new.now → ⊥) }
{
    match Renaming::found(alloc, from, to, old, new)? {
        Some(renaming) => Ok(PlaceEdits {
            way: Way::Renamed(renaming),
        }),
        None => difference(alloc, Some(from), old, new),
    }
}

/// The edits that append a place.
pub(crate) fn pushed(
    alloc: Global,
    places: &[FileLine],
    place: FileLine,
) -> Result<PlaceEdits, AllocError>
    ensures { IfOk result
        (λ edits. IsDifference edits places.now (places.now ++ place ∷ [])) }
{
    let edits = push_edits(alloc, places, place)?;
    Ok(PlaceEdits {
        way: Way::Each(edits),
    })
}

/// The edits that take the last place out, if there is one.
pub(crate) fn popped(alloc: Global, places: &[FileLine]) -> Result<PlaceEdits, AllocError>
    ensures { IfOk result
        (λ edits. IsDifference edits places.now (take (length places.now - 1) places.now)) }
{
    let edits = pop_edits(alloc, places)?;
    Ok(PlaceEdits {
        way: Way::Each(edits),
    })
}
