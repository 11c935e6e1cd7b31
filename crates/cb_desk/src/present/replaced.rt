//! Files with a text replaced on their marked lines, and new versions of them.
ghost use Rattle.std.specs.Prelude.{◌≡◌, ◌≢◌, ◌≤◌, [], true, false, length, filter, map, IfOk};
ghost use Rattle.std.proofs.lemmas.Map.Keys.{IsStrictlySortedBy-prop};
ghost use Rattle.std.specs.Cmp.Lexicographic.{slice_cmp};
ghost use Rattle.std.specs.List.{AllByRecursion, list_any};
ghost use Rattle.std.specs.List.Sorted.{IsPartitionPoint, IsStrictlySortedBy};
ghost use Rattle.std.specs.Ordering.{is_lt, nat_cmp};
ghost use Rattle.cb_index.specs.Archived.{name_of};
ghost use Rattle.cb_index.specs.Files as shelf;
ghost use Rattle.cb_index.specs.Files.{IsThere, files_of};
ghost use Rattle.cb_index.specs.steps.ShownIn.{shown_in};
ghost use Rattle.cb_desk.specs.Desk.{CountsUpTo, bytes_in};
ghost use Rattle.cb_desk.specs.Marks.{is_too_large, marked_lines, replaced_file};
ghost use Rattle.cb_desk.specs.World.{AreAscending, File};
ghost use Rattle.cb_desk.specs.declared.bounds.TheConstants.{MOST_BYTES};
ghost use Rattle.cb_desk.specs.steps.Replaced.{file_then, files_then, has_mark, places_in};
ghost use Rattle.cb_desk.specs.steps.Replaced.{texts_of};

use crate::places::FileLine;
use crate::plan::{NewVersions, scanned_source};
use crate::present::marked_files::{MarkedFiles, count_in};
use crate::present::replacement::{replaced_len, replaced_text};
use cb_index::{Archive, Shown, ShownFiles, Version};
use cb_scan::{Meter, Source};
use std::alloc::{AllocError, Global};
use std::cmp::Ordering;

/// Where the marks begin whose file names are not below a name, by binary search.
fn start_of(archive: &Archive, marks: &[FileLine], name: &[u8]) -> usize
    requires { AreAscending (places_in archive.now marks.now) }
    ensures within { result ≤ length marks.now }
    ensures parted { IsPartitionPoint
        (λ m. is_lt (slice_cmp nat_cmp (name_of archive.now m.name) name.now) ≡ true)
        (λ m. is_lt (slice_cmp nat_cmp (name_of archive.now m.name) name.now) ≡ false)
        marks.now result }
{
    marks.partition_point(
        |m: &FileLine| -> bool
            ensures { result
                ≡ is_lt (slice_cmp nat_cmp (name_of archive.entry.now m.now.name) name.entry.now) }
        { archive.name(m.name).cmp(name) == Ordering::Less },
    )
}

/// What is put in the place of what on which lines.
#[derive(Clone, Copy)]
pub(crate) struct Replacing<'a> {
    pub(crate) archive: &'a Archive,
    /// The marks, by file and line.
    pub(crate) marks: &'a [FileLine],
    pub(crate) old: &'a [u8],
    pub(crate) new: &'a [u8],
    /// The most bytes of a file.
    pub(crate) most: u32,
    ghost some: { old.now ≢ [] },
    ghost short: { length new.now ≤ MOST_BYTES },
    ghost ascending: { AreAscending
        (places_in archive.now marks.now) } by { IsStrictlySortedBy-prop _
            (places_in archive.now marks.now) },
}

impl<'a> Replacing<'a> {
    /// The marks of the file of that name, which follow one another, by binary search.
    fn marks_of(self, name: &[u8]) -> &'a [FileLine]
        ensures lines { map (λ m. m.line) result.now
            ≡ marked_lines name.now (places_in self.entry.archive.now self.entry.marks.now) }
        ensures ascending { IsStrictlySortedBy nat_cmp (map (λ m. m.line) result.now) }
    {
        let start = start_of(self.archive, self.marks, name);
        let rest = self.marks.split_at(start).1;
        let count = count_in(self.archive, rest, name);
        rest.split_at(count).0
    }

    /// The files that have a mark.
    pub(crate) fn marked_files(
        self,
        alloc: Global,
        shown: ShownFiles<'_>,
    ) -> Result<Vec<Shown>, AllocError>
        requires { shelf.AreAscending self.archive.now (shown_in shown) }
        ensures { IfOk result (λ marked. marked.items
            ≡ filter (has_mark self.entry.archive.now self.entry.marks.now)
            (shown_in shown.entry)) }
    {
        MarkedFiles::new(self.archive, shown, self.marks).collect(alloc)
    }

    /// Whether a file would have too many bytes.
    fn is_large(self, file: Shown) -> bool
        requires { IsThere self.archive.now file }
        ensures { result ≡ is_too_large self.entry.most
            (file_then self.entry.archive.now self.entry.marks.now
            self.entry.old.now self.entry.new.now file) }
    {
        let marks = self.marks_of(self.archive.name(file.name));
        let source = self.archive.source(file.version);
        replaced_len(source, self.old, self.new, marks) > self.most as u64
    }

    /// Whether one of several files would have too many bytes. Only one with a mark can have.
    pub(crate) fn has_large(self, shown: ShownFiles<'_>) -> bool
        requires there { AllByRecursion (IsThere self.archive.now) (shown_in shown) }
        requires ascending { shelf.AreAscending self.archive.now (shown_in shown) }
        requires small { AllByRecursion (λ (f : File). length f.bytes ≤ self.most)
            (files_of self.archive.now (shown_in shown)) }
        ensures { result ≡ list_any (is_too_large self.entry.most)
            (map (replaced_file self.entry.old.now self.entry.new.now
            (places_in self.entry.archive.now self.entry.marks.now))
            (files_of self.entry.archive.now (shown_in shown.entry))) }
    {
        for file in MarkedFiles::new(self.archive, shown, self.marks) {
            if self.is_large(file) {
                return true;
            }
        }
        false
    }

    /// The new contents of a file.
    fn source_then(self, alloc: Global, file: Shown) -> Result<Source, AllocError>
        requires { IsThere self.archive.now file }
        ensures { IfOk result (λ source. source ≡ (file_then self.entry.archive.now
            self.entry.marks.now self.entry.old.now self.entry.new.now file).bytes) }
    {
        let marks = self.marks_of(self.archive.name(file.name));
        let source = self.archive.source(file.version);
        let text = replaced_text(alloc, source, self.old, self.new, marks)?;
        match Source::new(alloc, text) {
            Ok(made) => Ok(made),
            Err(_) => Err(AllocError),
        }
    }

    /// The new version of a file. Its contents are scanned.
    fn version_then(
        self,
        alloc: Global,
        meter: &mut Meter,
        file: Shown,
    ) -> Result<Version, AllocError>
        requires { IsThere self.archive.now file }
        ensures profile { IfOk result
            (λ version. version.profile ≡ self.entry.archive.now.profile) }
        ensures value { IfOk result (λ version. version.bytes ≡ (file_then self.entry.archive.now
            self.entry.marks.now self.entry.old.now self.entry.new.now file).bytes) }
        ensures meter { CountsUpTo (length (file_then self.entry.archive.now self.entry.marks.now
            self.entry.old.now self.entry.new.now file).bytes) meter.old meter.new result }
    {
        let _counted = meter.read();
        let source = self.source_then(alloc, file)?;
        scanned_source(alloc, meter, self.archive.profile(), source)
    }

    /// The new versions of files. Their contents are scanned.
    pub(crate) fn versions_then(
        self,
        alloc: Global,
        meter: &mut Meter,
        files: &[Shown],
    ) -> Result<NewVersions, AllocError>
        requires { AllByRecursion (IsThere self.archive.now) files.now }
        ensures profile { IfOk result (λ made. made.profile ≡ self.entry.archive.now.profile) }
        ensures versions { IfOk result (λ made. made.texts
            ≡ texts_of (files_then self.entry.archive.now self.entry.marks.now self.entry.old.now
            self.entry.new.now files.now)) }
        ensures meter { CountsUpTo (bytes_in (files_then self.entry.archive.now self.entry.marks.now
            self.entry.old.now self.entry.new.now files.now)) meter.old meter.new result }
    {
        let _counted = meter.read();
        let mut made = NewVersions::none(alloc, self.archive.profile());
        let mut rest = files;
        while let Some((file, more)) = rest.split_first() {
            made.push(self.version_then(alloc, meter, *file)?)?;
            rest = more;
        }
        Ok(made)
    }
}
