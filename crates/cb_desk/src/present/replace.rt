//! The replacement of the wanted text on the marked lines: the files that get new versions under
//! the names that they have, and the frames of lines that are still there.
ghost use Rattle.std.specs.Prelude.{◌≡◌, ◌<◌, ◌≤◌, ◌+◌, ◌^◌, IfOk, None, Some, false, filter};
ghost use Rattle.std.specs.Prelude.{length, map, true};
ghost use Rattle.std.specs.Cmp.Lexicographic.{slice_cmp};
ghost use Rattle.std.specs.List.Sorted.{IsNonDecreasingBy, IsPartitionPoint, IsPermutation};
ghost use Rattle.std.specs.Ordering.{is_lt, nat_cmp};
ghost use Rattle.cb_index.specs.Archived.{name_of};
ghost use Rattle.cb_index.specs.Files.{AreAscending};
ghost use Rattle.cb_index.specs.declared.entry.Shown.{Shown};
ghost use Rattle.cb_desk.specs.Desk.{CountsUpTo, bytes_in, new_texts};
ghost use Rattle.cb_desk.specs.Marks.{replace_refusal, replaced_files, replaced_on_marks};
ghost use Rattle.cb_desk.specs.Marks.{with_files};
ghost use Rattle.cb_desk.specs.World.{IsValidWorld, is_short};
ghost use Rattle.cb_desk.specs.declared.present.replace.Renewal.{Renewal};
ghost use Rattle.cb_desk.specs.steps.Edits.{IsDifference};
ghost use Rattle.cb_desk.specs.steps.Plans.{IsPlan};
ghost use Rattle.cb_desk.specs.steps.Records.{place_in, world_in};
ghost use Rattle.cb_desk.specs.steps.Replaced.{files_changed, files_then, has_mark, new_of, old_of};
ghost use Rattle.cb_desk.specs.steps.Replaced.{renewals, staying, stays_in, texts_of};
ghost use Rattle.cb_desk.specs.steps.Walks.{IsKept};

use crate::Refusal;
use crate::edits::{PlaceEdits, difference};
use crate::places::FileLine;
use crate::plan::{NewVersions, Plan, Record};
use crate::present::changes::is_short;
use crate::present::replaced::Replacing;
use crate::present::{Present, sum};
use cb_index::{Archive, Shown};
use cb_scan::Meter;
use std::alloc::{AllocError, Global};
use std::cmp::Ordering;

// ---- new versions under the names that are there

/// A file that gets another version: the number of its name, and those of both versions.
#[derive(Clone, Copy, Debug)]
pub(crate) struct Renewal {
    pub(crate) name: u32,
    pub(crate) old: u32,
    pub(crate) new: u32,
}

/// The renewals of files. The new versions are numbered in their order, from a first number on.
fn renewals(alloc: Global, files: &[Shown], first: u32) -> Result<Vec<Renewal>, AllocError>
    requires { first + length files.now < 2 ^ 32 }
    ensures { IfOk result (λ made. made.items ≡ renewals first files.now) }
{
    let mut made = Vec::with_capacity(alloc, files.len())?;
    let mut new = first;
    for file in files {
        made.push(Renewal {
            name: file.name,
            old: file.version,
            new,
        })?;
        new += 1;
    }
    Ok(made)
}

/// Sorts renewals by the numbers of the names.
fn sort_by_name(renewals: &mut [Renewal])
    ensures same { IsPermutation renewals.old renewals.new }
    ensures rising { IsNonDecreasingBy (λ (r : Renewal). r.name) renewals.new }
{
    renewals.sort_unstable_by(
        |a: &Renewal, b: &Renewal| -> Ordering
            ensures { result ≡ nat_cmp a.now.name b.now.name }
        { a.name.cmp(&b.name) },
    );
}

/// The renewals of files, by the numbers of the names.
fn sorted_renewals(alloc: Global, files: &[Shown], first: u32) -> Result<Vec<Renewal>, AllocError>
    requires { first + length files.now < 2 ^ 32 }
    ensures same { IfOk result (λ made. IsPermutation (renewals first files.now) made.items) }
    ensures rising { IfOk result (λ made. IsNonDecreasingBy (λ (r : Renewal). r.name) made.items) }
{
    let mut made = renewals(alloc, files, first)?;
    sort_by_name(made.as_mut_slice());
    Ok(made)
}

/// What is shown before renewals.
fn old_versions(alloc: Global, renewals: &[Renewal]) -> Result<Vec<Shown>, AllocError>
    ensures { IfOk result (λ made. made.items ≡ map old_of renewals.now) }
{
    let mut made = Vec::with_capacity(alloc, renewals.len())?;
    for renewal in renewals {
        made.push(Shown {
            name: renewal.name,
            version: renewal.old,
        })?;
    }
    Ok(made)
}

/// What is shown after renewals.
fn new_versions(alloc: Global, renewals: &[Renewal]) -> Result<Vec<Shown>, AllocError>
    ensures { IfOk result (λ made. made.items ≡ map new_of renewals.now) }
{
    let mut made = Vec::with_capacity(alloc, renewals.len())?;
    for renewal in renewals {
        made.push(Shown {
            name: renewal.name,
            version: renewal.new,
        })?;
    }
    Ok(made)
}

// ---- frames that stay

/// Where the files begin whose names are not below a name, by binary search.
fn index_for(archive: &Archive, files: &[Shown], name: &[u8]) -> usize
    requires { AreAscending archive.now files.now }
    ensures within { result ≤ length files.now }
    ensures parted { IsPartitionPoint
        (λ (s : Shown). is_lt (slice_cmp nat_cmp (name_of archive.now s.name) name.now) ≡ true)
        (λ (s : Shown). is_lt (slice_cmp nat_cmp (name_of archive.now s.name) name.now) ≡ false)
        files.now result }
{
    files.partition_point(
        |s: &Shown| -> bool
            ensures { result
                ≡ is_lt (slice_cmp nat_cmp (name_of archive.entry.now s.now.name) name.entry.now) }
        { archive.name(s.name).cmp(name) == Ordering::Less },
    )
}

impl<'a> Replacing<'a> {
    /// Whether a place stays a line where some files get new versions. In other files it does.
    fn stays(self, changed: &[Shown], versions: &NewVersions, place: FileLine) -> bool
        requires ascending { AreAscending self.archive.now changed.now }
        requires versions { versions.now.texts ≡ texts_of
            (files_then self.archive.now self.marks.now self.old.now self.new.now changed.now) }
        ensures { result ≡ stays_in (files_then self.entry.archive.now self.entry.marks.now
            self.entry.old.now self.entry.new.now changed.now)
            (place_in self.entry.archive.now place) }
    {
        let name = self.archive.name(place.name);
        let index = index_for(self.archive, changed, name);
        if index < changed.len() && self.archive.name(changed[index].name) == name {
            1 <= place.line && place.line <= versions.source(index).line_count()
        } else {
            true
        }
    }

    /// The places that stay lines where some files get new versions.
    fn staying(
        self,
        alloc: Global,
        changed: &[Shown],
        versions: &NewVersions,
        places: &[FileLine],
    ) -> Result<Vec<FileLine>, AllocError>
        requires ascending { AreAscending self.archive.now changed.now }
        requires versions { versions.now.texts ≡ texts_of
            (files_then self.archive.now self.marks.now self.old.now self.new.now changed.now) }
        ensures { IfOk result (λ kept. kept.items ≡ staying self.entry.archive.now
            (files_then self.entry.archive.now self.entry.marks.now self.entry.old.now
            self.entry.new.now changed.now) places.now) }
    {
        let mut kept = Vec::new(alloc);
        for place in places {
            if self.stays(changed, versions, *place) {
                kept.push(*place)?;
            }
        }
        Ok(kept)
    }

    /// The edits that take away the places of lines that are gone where some files get new
    /// versions.
    pub(crate) fn edits_staying(
        self,
        alloc: Global,
        changed: &[Shown],
        versions: &NewVersions,
        places: &[FileLine],
    ) -> Result<PlaceEdits, AllocError>
        requires ascending { AreAscending self.archive.now changed.now }
        requires versions { versions.now.texts ≡ texts_of
            (files_then self.archive.now self.marks.now self.old.now self.new.now changed.now) }
        ensures { IfOk result (λ edits. IsDifference edits places.now
            (staying self.entry.archive.now (files_then self.entry.archive.now
            self.entry.marks.now self.entry.old.now self.entry.new.now changed.now) places.now)) }
    {
        let kept = self.staying(alloc, changed, versions, places)?;
        difference(alloc, None, places, kept.as_slice())
    }
}

// ---- plans

impl Present {
    /// The replacement of a text, which is the wanted one, on the marked lines.
    fn replacing<'a>(&'a self, old: &'a [u8], new: &'a [u8]) -> Replacing<'a>
        requires wanted { self.now.now.wanted ≡ Some old.now }
        requires valid { IsValidWorld (world_in self.now.archive self.now.now) }
        requires short { is_short new.now ≡ true }
        ensures archive { result.archive.now ≡ self.now.archive }
        ensures marks { result.marks.now ≡ self.now.now.marks }
        ensures old { result.old.now ≡ old.now }
        ensures new { result.new.now ≡ new.now }
        ensures most { result.most ≡ self.now.now.bounds.file_bytes }
    {
        Replacing {
            archive: self.shelf.archive(),
            marks: self.marks.as_slice(),
            old,
            new,
            most: self.bounds.file_bytes(),
        }
    }

    /// Why the wanted text can't be replaced, if it can't: the lowest refusal that applies.
    pub(crate) fn replace_refusal(&self, text: &[u8]) -> Option<Refusal>
        requires kept { IsKept self.now.rooms self.now.archive self.now.now }
        requires valid { IsValidWorld (world_in self.now.archive self.now.now) }
        ensures { result ≡ replace_refusal (world_in self.now.archive self.now.now) text.now }
    {
        if !is_short(text) {
            return Some(Refusal::BadText);
        }
        let Some(wanted) = &self.wanted else {
            return Some(Refusal::NothingWanted);
        };
        if self.marks.as_slice().is_empty() {
            Some(Refusal::NothingMarked)
        } else if self
            .replacing(wanted.as_slice(), text)
            .has_large(self.shelf.shown())
        {
            Some(Refusal::TooLarge)
        } else {
            None
        }
    }

    /// The plan to show new versions of the files with a mark.
    fn plan_renewed(
        &self,
        alloc: Global,
        replacing: Replacing<'_>,
        marked: &[Shown],
        made: NewVersions,
    ) -> Result<Plan, AllocError>
        requires kept { IsKept self.now.rooms self.now.archive self.now.now }
        requires valid { IsValidWorld (world_in self.now.archive self.now.now) }
        requires ascending { AreAscending self.now.archive self.now.now.shown }
        requires archive { replacing.archive.now ≡ self.now.archive }
        requires marks { replacing.marks.now ≡ self.now.now.marks }
        requires marked { marked.now
            ≡ filter (has_mark self.now.archive self.now.now.marks) self.now.now.shown }
        requires profile { made.profile ≡ self.now.archive.profile }
        requires versions { made.texts ≡ texts_of (files_changed self.now.archive self.now.now.marks
            replacing.old.now replacing.new.now self.now.now.shown) }
        ensures { IfOk result
            (λ p. IsPlan self.now p (with_files (world_in self.now.archive self.now.now)
            (replaced_files replacing.entry.old.now replacing.entry.new.now
            (world_in self.now.archive self.now.now)))) }
    {
        let versions = sum(self.versions, made.len()).ok_or(AllocError)?;
        let renewals = sorted_renewals(alloc, marked, self.versions)?;
        let places = self.frames.as_slice();
        let frames = replacing.edits_staying(alloc, marked, &made, places)?;
        let marks = difference(alloc, None, self.marks.as_slice(), &[])?;
        Ok(Plan {
            names: Vec::new(alloc),
            versions: made,
            record: Record {
                hides: old_versions(alloc, renewals.as_slice())?,
                shows: new_versions(alloc, renewals.as_slice())?,
                wanted: Some(None),
                marks,
                frames,
                names: self.names,
                versions,
            },
        })
    }

    /// The plan to put another text in place of the wanted one on the marked lines. The new
    /// contents are scanned, and no other files.
    pub(crate) fn plan_replace(
        &self,
        alloc: Global,
        meter: &mut Meter,
        text: &[u8],
    ) -> Result<Plan, AllocError>
        requires kept { IsKept self.now.rooms self.now.archive self.now.now }
        requires valid { IsValidWorld (world_in self.now.archive self.now.now) }
        requires accepted { replace_refusal (world_in self.now.archive self.now.now) text.now
            ≡ None }
        ensures plan { IfOk result (λ p. IsPlan self.now p (replaced_on_marks
            (world_in self.now.archive self.now.now) self.now.now.wanted text.now)) }
        ensures meter { CountsUpTo
            (bytes_in (new_texts (world_in self.now.archive self.now.now) text.now))
            meter.old meter.new result }
    {
        let _counted = meter.read();
        let Some(wanted) = &self.wanted else {
            return Err(AllocError);
        };
        let replacing = self.replacing(wanted.as_slice(), text);
        let marked = replacing.marked_files(alloc, self.shelf.shown())?;
        let versions = replacing.versions_then(alloc, meter, marked.as_slice())?;
        self.plan_renewed(alloc, replacing, marked.as_slice(), versions)
    }
}
