//! Plans that change the files. A file that gets another name takes its places along, in numbers.
ghost use Rattle.std.specs.Prelude.{◌≡◌, ◌∷◌, [], IfOk, false, map};
ghost use Rattle.std.specs.Cmp.Lexicographic.{slice_cmp};
ghost use Rattle.std.specs.Ordering.{nat_cmp};
ghost use Rattle.cb_scan.specs.Order.{in_order};
ghost use Rattle.cb_index.specs.Archived.{name_of};
ghost use Rattle.cb_index.specs.Files.{files_of};
ghost use Rattle.cb_desk.specs.Files.{loaded, reloaded, renamed, unloaded};
ghost use Rattle.cb_desk.specs.World.{has_file};
ghost use Rattle.cb_desk.specs.steps.Edits.{IsDifference};
ghost use Rattle.cb_desk.specs.steps.Plans.{IsAmong, IsPlan, key_then, name_then, places_without};
ghost use Rattle.cb_desk.specs.steps.Plans.{renumbered};
ghost use Rattle.cb_desk.specs.steps.Records.{moves, world_in};
ghost use Rattle.cb_desk.specs.steps.Walks.{IsKept};

use crate::edits::{PlaceEdits, difference, renaming_difference};
use crate::places::FileLine;
use crate::plan::{NewVersions, Plan, Record};
use crate::present::{Present, sum};
use cb_index::{Archive, Shown, Version};
use std::alloc::{AllocError, Global};
use std::cmp::Ordering;

// ---- places of a file that gets another name

/// The places, those of the file of that name with another number for it.
fn renumbered(
    alloc: Global,
    archive: &Archive,
    name: &[u8],
    number: u32,
    places: &[FileLine],
) -> Result<Vec<FileLine>, AllocError>
    ensures { IfOk result
        (λ made. made.items ≡ map (renumbered archive.now name.now number) places.now) }
{
    let mut made = Vec::with_capacity(alloc, places.len())?;
    for place in places {
        let mut moved = *place;
        if archive.name(place.name) == name {
            moved.name = number;
        }
        made.push(moved)?;
    }
    Ok(made)
}

/// The name under a number, where one number is that of a new name.
fn name_then<'a>(archive: &'a Archive, number: u32, new: &'a [u8], name: u32) -> &'a [u8]
    ensures { result.now ≡ name_then archive.now number new.now name }
{
    if name == number {
        new
    } else {
        archive.name(name)
    }
}

/// The order of two places: by the bytes of the files' names, and then by line.
fn compare(archive: &Archive, number: u32, new: &[u8], a: FileLine, b: FileLine) -> Ordering
    ensures { result ≡ slice_cmp nat_cmp (key_then archive.now number new.now a)
        (key_then archive.now number new.now b) }
{
    let file = name_then(archive, number, new, a.name);
    let other = name_then(archive, number, new, b.name);
    match file.cmp(other) {
        Ordering::Equal => a.line.cmp(&b.line),
        unlike => unlike,
    }
}

/// Sorts places by file and line.
fn sort_places(
    archive: &Archive,
    number: u32,
    new: &[u8],
    places: &mut Vec<FileLine>,
) -> Result<(), AllocError>
    ensures { IfOk result (λ _. places.new.items
        ≡ in_order (key_then archive.now number new.now) places.old.items) }
{
    places.sort_by(
        |a: &FileLine, b: &FileLine| -> Ordering
            ensures { result
                ≡ slice_cmp nat_cmp (key_then archive.entry.now number new.entry.now a.now)
                (key_then archive.entry.now number new.entry.now b.now) }
        { compare(archive, number, new, *a, *b) },
    )?;
    Ok(())
}

/// The edits that give the places of a file the number of its new name.
fn edits_renumbered(
    alloc: Global,
    archive: &Archive,
    old: u32,
    number: u32,
    places: &[FileLine],
) -> Result<PlaceEdits, AllocError>
    ensures { IfOk result (λ edits. IsDifference edits places.now
        (map (renumbered archive.now (name_of archive.now old) number) places.now)) }
{
    let made = renumbered(alloc, archive, archive.name(old), number, places)?;
    renaming_difference(alloc, old, number, places, made.as_slice())
}

/// The same for places that are by file and line, and stay so.
fn edits_moved(
    alloc: Global,
    archive: &Archive,
    old: u32,
    number: u32,
    new: &[u8],
    places: &[FileLine],
) -> Result<PlaceEdits, AllocError>
    ensures { IfOk result (λ edits. IsDifference edits places.now
        (in_order (key_then archive.now number new.now)
        (map (renumbered archive.now (name_of archive.now old) number) places.now))) }
{
    let mut made = renumbered(alloc, archive, archive.name(old), number, places)?;
    sort_places(archive, number, new, &mut made)?;
    renaming_difference(alloc, old, number, places, made.as_slice())
}

// ---- plans

/// The places that are not in the file of that name.
fn places_without(
    alloc: Global,
    archive: &Archive,
    name: &[u8],
    places: &[FileLine],
) -> Result<Vec<FileLine>, AllocError>
    ensures { IfOk result (λ kept. kept.items ≡ places_without archive.now name.now places.now) }
{
    let mut kept = Vec::new(alloc);
    for place in places {
        if archive.name(place.name) != name {
            kept.push(*place)?;
        }
    }
    Ok(kept)
}

/// The edits that take the places of a file away.
fn edits_without(
    alloc: Global,
    archive: &Archive,
    gone: u32,
    places: &[FileLine],
) -> Result<PlaceEdits, AllocError>
    ensures { IfOk result (λ edits. IsDifference edits places.now
        (places_without archive.now (name_of archive.now gone) places.now)) }
{
    let kept = places_without(alloc, archive, archive.name(gone), places)?;
    difference(alloc, Some(gone), places, kept.as_slice())
}

/// A list of one.
fn only_one<T: Drop>(alloc: Global, one: T) -> Result<Vec<T>, AllocError>
    ensures { IfOk result (λ list. list.items ≡ one ∷ []) }
{
    let mut list = Vec::with_capacity(alloc, 1)?;
    list.push(one)?;
    Ok(list)
}

impl Present {
    /// The plan to take a file away, with its marks and frames.
    pub(crate) fn plan_unload(&self, alloc: Global, hides: Shown) -> Result<Plan, AllocError>
        requires kept { IsKept self.now.rooms self.now.archive self.now.now }
        requires among { IsAmong self.now.now.shown hides }
        ensures { IfOk result
            (λ p. IsPlan self.now p (unloaded (world_in self.now.archive self.now.now)
            (name_of self.now.archive hides.name))) }
    {
        let _shown = self.shelf.shown();
        let archive = self.shelf.archive();
        let marks = edits_without(alloc, archive, hides.name, self.marks.as_slice())?;
        let frames = edits_without(alloc, archive, hides.name, self.frames.as_slice())?;
        Ok(Plan {
            names: Vec::new(alloc),
            versions: NewVersions::none(alloc, self.shelf.archive().profile()),
            record: Record {
                hides: only_one(alloc, hides)?,
                shows: Vec::new(alloc),
                wanted: None,
                marks,
                frames,
                names: self.names,
                versions: self.versions,
            },
        })
    }

    /// The plan to load a file. No file of that name is shown.
    pub(crate) fn plan_load(
        &self,
        alloc: Global,
        name: &[u8],
        version: Version,
    ) -> Result<Plan, AllocError>
        requires kept { IsKept self.now.rooms self.now.archive self.now.now }
        requires fresh { has_file (files_of self.now.archive self.now.now.shown) name.now ≡ false }
        requires profile { version.profile ≡ self.now.archive.profile }
        ensures plan { IfOk result (λ p. IsPlan self.now p
            (loaded (world_in self.now.archive self.now.now) name.now version.bytes)) }
        ensures one { IfOk result (λ p. moves p.turn ≡ 1) }
    {
        let _shown = self.shelf.shown();
        let new = Shown {
            name: self.names,
            version: self.versions,
        };
        let names = sum(self.names, 1).ok_or(AllocError)?;
        let versions = sum(self.versions, 1).ok_or(AllocError)?;
        Ok(Plan {
            names: only_one(alloc, Vec::from_slice(alloc, name)?)?,
            versions: NewVersions::one(alloc, version)?,
            record: Record {
                hides: Vec::new(alloc),
                shows: only_one(alloc, new)?,
                wanted: None,
                marks: PlaceEdits::none(alloc),
                frames: PlaceEdits::none(alloc),
                names,
                versions,
            },
        })
    }

    /// The plan to give a file another version, without its marks and frames.
    pub(crate) fn plan_reload(
        &self,
        alloc: Global,
        file: Shown,
        version: Version,
    ) -> Result<Plan, AllocError>
        requires kept { IsKept self.now.rooms self.now.archive self.now.now }
        requires among { IsAmong self.now.now.shown file }
        requires profile { version.profile ≡ self.now.archive.profile }
        ensures { IfOk result
            (λ p. IsPlan self.now p (reloaded (world_in self.now.archive self.now.now)
            (name_of self.now.archive file.name) version.bytes)) }
    {
        let _shown = self.shelf.shown();
        let archive = self.shelf.archive();
        let marks = edits_without(alloc, archive, file.name, self.marks.as_slice())?;
        let frames = edits_without(alloc, archive, file.name, self.frames.as_slice())?;
        let changed = Shown {
            name: file.name,
            version: self.versions,
        };
        let versions = sum(self.versions, 1).ok_or(AllocError)?;
        Ok(Plan {
            names: Vec::new(alloc),
            versions: NewVersions::one(alloc, version)?,
            record: Record {
                hides: only_one(alloc, file)?,
                shows: only_one(alloc, changed)?,
                wanted: None,
                marks,
                frames,
                names: self.names,
                versions,
            },
        })
    }

    /// The plan to give a file another name, that no file has, with its marks and frames.
    pub(crate) fn plan_rename(
        &self,
        alloc: Global,
        old: Shown,
        new: &[u8],
    ) -> Result<Plan, AllocError>
        requires kept { IsKept self.now.rooms self.now.archive self.now.now }
        requires among { IsAmong self.now.now.shown old }
        requires fresh { has_file (files_of self.now.archive self.now.now.shown) new.now ≡ false }
        ensures { IfOk result
            (λ p. IsPlan self.now p (renamed (world_in self.now.archive self.now.now)
            (name_of self.now.archive old.name) new.now)) }
    {
        let _shown = self.shelf.shown();
        let archive = self.shelf.archive();
        let marks = edits_moved(
            alloc,
            archive,
            old.name,
            self.names,
            new,
            self.marks.as_slice(),
        )?;
        let frames = edits_renumbered(
            alloc,
            archive,
            old.name,
            self.names,
            self.frames.as_slice(),
        )?;
        let moved = Shown {
            name: self.names,
            version: old.version,
        };
        let names = sum(self.names, 1).ok_or(AllocError)?;
        Ok(Plan {
            names: only_one(alloc, Vec::from_slice(alloc, new)?)?,
            versions: NewVersions::none(alloc, self.shelf.archive().profile()),
            record: Record {
                hides: only_one(alloc, old)?,
                shows: only_one(alloc, moved)?,
                wanted: None,
                marks,
                frames,
                names,
                versions: self.versions,
            },
        })
    }
}
