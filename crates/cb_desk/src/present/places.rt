//! Plans that leave the files as they are: those of marks, of frames and of the wanted text, in the
//! numbers of an archive.
ghost use Rattle.std.specs.Prelude.{◌≡◌, ◌≢◌, ◌<◌, ◌≤◌, ◌++◌, [], ⊤, IfOk, MatchOption};
ghost use Rattle.std.specs.Prelude.{MatchResult, Some, length, map, not, slice_get};
ghost use Rattle.std.specs.Cmp.Lexicographic.{slice_cmp};
ghost use Rattle.std.specs.List.{AllByRecursion, list_any, prefix_len};
ghost use Rattle.std.specs.Option.{option_map};
ghost use Rattle.std.specs.Ordering.{nat_cmp};
ghost use Rattle.cb_scan.specs.Order.{goes_first};
ghost use Rattle.cb_index.specs.Files.{IsThere};
ghost use Rattle.cb_index.specs.steps.ShownIn.{shown_in};
ghost use Rattle.cb_desk.specs.Marks.{all_marked, toggled_at, wanted_places, wanting};
ghost use Rattle.cb_desk.specs.Places.{nth, same_place};
ghost use Rattle.cb_desk.specs.Search.{lines_with};
ghost use Rattle.cb_desk.specs.Stack.{places, popped, pushed};
ghost use Rattle.cb_desk.specs.World.{IsAscending, place_key};
ghost use Rattle.cb_desk.specs.declared.places.FileLine.{FileLine};
ghost use Rattle.cb_desk.specs.steps.Plans.{AreEdits, IsPlan, with_marks, with_places};
ghost use Rattle.cb_desk.specs.steps.Records.{held_by, held_numbers, place_in, toggled_numbers};
ghost use Rattle.cb_desk.specs.steps.Records.{world_in};
ghost use Rattle.cb_desk.specs.steps.Still.{IsStill};
ghost use Rattle.cb_desk.specs.steps.Texts.{bytes_if_other};
ghost use Rattle.cb_desk.specs.steps.Walks.{IsKept};

use crate::answers::{nth_definition, shown_as};
use crate::edits::{PlaceEdits, difference, popped, pushed};
use crate::places::FileLine;
use crate::plan::{NewVersions, Plan, Record};
use crate::present::Present;
use crate::search::TextLines;
use cb_index::{Archive, ShownFiles};
use cb_scan::Source;
use memchr::memmem::Finder;
use std::alloc::{AllocError, Global};
use std::cmp::Ordering;

// ---- places and frames

impl Present {
    /// The plan to make edits of the marks and of the frames, and to want another text if one is
    /// given.
    pub(crate) fn plan_places(
        &self,
        alloc: Global,
        wanted: Option<Option<Vec<u8>>>,
        marks: PlaceEdits,
        frames: PlaceEdits,
    ) -> Result<Plan, AllocError>
        requires kept { IsKept self.now.rooms self.now.archive self.now.now }
        requires marks { AreEdits self.now.now.names marks self.now.now.marks }
        requires frames { AreEdits self.now.now.names frames self.now.now.frames }
        ensures { IfOk result (λ p. IsPlan self.now p (with_places self.now.archive self.now.now
            (bytes_if_other wanted) marks frames)) }
    {
        let _shown = self.shelf.shown();
        Ok(Plan {
            names: Vec::new(alloc),
            versions: NewVersions::none(alloc, self.shelf.archive().profile()),
            record: Record {
                hides: Vec::new(alloc),
                shows: Vec::new(alloc),
                wanted,
                marks,
                frames,
                names: self.names,
                versions: self.versions,
            },
        })
    }

    /// The place of the nth definition of a name, by file and place, counted from 1, if there is
    /// one.
    pub(crate) fn nth_tag(&mut self, name: &[u8], n: u64) -> Option<FileLine>
        requires { IsKept self.old.rooms self.old.archive self.old.now }
        ensures place { option_map (place_in self.old.archive) result
            ≡ nth n (places self.old.archive.profile
            (world_in self.old.archive self.old.now).files name.now) }
        ensures there { MatchOption result ⊤ (λ (p : FileLine). p.name < self.old.now.names) }
        ensures still { IsStill self.old self.new }
    {
        self.settle(false);
        let (file, line) = nth_definition(&self.shelf, name, n)?;
        let found = shown_as(&self.shelf, file)?;
        Some(FileLine {
            name: found.name,
            line,
        })
    }

    /// The plan to put a frame on top of the stack.
    pub(crate) fn plan_push(&self, alloc: Global, place: FileLine) -> Result<Plan, AllocError>
        requires kept { IsKept self.now.rooms self.now.archive self.now.now }
        requires there { place.name < self.now.now.names }
        ensures { IfOk result (λ p. IsPlan self.now p
            (pushed (world_in self.now.archive self.now.now)
            (Some (place_in self.now.archive place)))) }
    {
        let frames = pushed(alloc, self.frames.as_slice(), place)?;
        self.plan_places(alloc, None, PlaceEdits::none(alloc), frames)
    }

    /// The plan to take the top frame away.
    pub(crate) fn plan_pop(&self, alloc: Global) -> Result<Plan, AllocError>
        requires { IsKept self.now.rooms self.now.archive self.now.now }
        ensures { IfOk result
            (λ p. IsPlan self.now p (popped (world_in self.now.archive self.now.now))) }
    {
        let frames = popped(alloc, self.frames.as_slice())?;
        self.plan_places(alloc, None, PlaceEdits::none(alloc), frames)
    }

    /// The plan to have other marks, and to want another text if one is given.
    pub(super) fn plan_marks(
        &self,
        alloc: Global,
        wanted: Option<Option<Vec<u8>>>,
        marks: &[FileLine],
    ) -> Result<Plan, AllocError>
        requires kept { IsKept self.now.rooms self.now.archive self.now.now }
        requires there { AllByRecursion
            (λ (p : FileLine). p.name < self.now.now.names) marks.now }
        ensures { IfOk result (λ p. IsPlan self.now p (with_marks self.now.archive self.now.now
            (bytes_if_other wanted) marks.now)) }
    {
        let edits = difference(alloc, None, self.marks.as_slice(), marks)?;
        self.plan_places(alloc, wanted, edits, PlaceEdits::none(alloc))
    }

    /// The plan to want a text, and to take all marks away.
    pub(crate) fn plan_want(&self, alloc: Global, text: &[u8]) -> Result<Plan, AllocError>
        requires { IsKept self.now.rooms self.now.archive self.now.now }
        ensures { IfOk result
            (λ p. IsPlan self.now p (wanting (world_in self.now.archive self.now.now) text.now)) }
    {
        let text = Vec::from_slice(alloc, text)?;
        self.plan_marks(alloc, Some(Some(text)), &[])
    }
}

// ---- marks

/// Whether two places are one.
fn is_same(archive: &Archive, a: FileLine, b: FileLine) -> bool
    ensures { result ≡ same_place (place_in archive.now a) (place_in archive.now b) }
{
    archive.name(a.name) == archive.name(b.name) && a.line == b.line
}

/// The order of two marks: by the bytes of the files' names, and then by line.
fn compare(archive: &Archive, a: FileLine, b: FileLine) -> Ordering
    ensures { result ≡ slice_cmp nat_cmp (place_key (place_in archive.now a))
        (place_key (place_in archive.now b)) }
{
    match archive.name(a.name).cmp(archive.name(b.name)) {
        Ordering::Equal => a.line.cmp(&b.line),
        unlike => unlike,
    }
}

/// Whether a place is marked.
fn has_mark(archive: &Archive, marks: &[FileLine], place: FileLine) -> bool
    ensures { result ≡ list_any
        (λ m. same_place (place_in archive.now place) (place_in archive.now m)) marks.now }
{
    marks.iter().any(|mark| is_same(archive, place, *mark))
}

/// The index at which a place is put among marks.
fn index_for(archive: &Archive, marks: &[FileLine], place: FileLine) -> usize
    ensures value { result ≡ prefix_len
        (λ m. not (goes_first (λ p. place_key (place_in archive.now p)) place m)) marks.now }
    ensures within { result ≤ length marks.now }
{
    marks
        .iter()
        .take_while(|mark| compare(archive, place, **mark).is_gt())
        .count()
}

/// The marks without a place that is among them, or with it at its place.
fn toggled(
    alloc: Global,
    archive: &Archive,
    marks: &[FileLine],
    place: FileLine,
) -> Result<Vec<FileLine>, AllocError>
    ensures { IfOk result (λ made. made.items ≡ toggled_numbers archive.now place marks.now) }
{
    let mut made = Vec::from_slice(alloc, marks)?;
    if has_mark(archive, marks, place) {
        made.retain(|mark| !is_same(archive, place, *mark));
        return Ok(made);
    }
    made.insert(index_for(archive, marks, place), place)?;
    Ok(made)
}

/// Adds the lines of a file that hold a text.
fn add_held(
    made: &mut Vec<FileLine>,
    name: u32,
    source: &Source,
    finder: &Finder<'_>,
) -> Result<(), AllocError>
    requires { finder.now ≢ [] }
    ensures { IfOk result
        (λ _. made.new.items ≡ made.old.items ++ held_by finder.now name source.now) }
{
    for line in TextLines::new(source, finder) {
        made.push(FileLine { name, line })?;
    }
    Ok(())
}

/// The lines of some files that hold a text, by file and line.
fn held_numbers(
    alloc: Global,
    archive: &Archive,
    shown: ShownFiles<'_>,
    text: &[u8],
) -> Result<Vec<FileLine>, AllocError>
    requires some { text.now ≢ [] }
    requires there { AllByRecursion (IsThere archive.now) (shown_in shown) }
    ensures { IfOk result
        (λ made. made.items ≡ held_numbers archive.now text.now (shown_in shown.entry)) }
{
    let finder = Finder::new(text);
    let mut made = Vec::new(alloc);
    let mut rest = shown;
    while let Some((file, more)) = rest.split_first() {
        add_held(&mut made, file.name, archive.source(file.version), &finder)?;
        rest = more;
    }
    Ok(made)
}

/// The line of a text that is the nth to hold a pattern, counted from 0; else how many there are.
fn nth_line(source: &Source, finder: &Finder<'_>, n: u64) -> Result<u32, u64>
    requires { finder.now ≢ [] }
    ensures { MatchResult result
        (λ line. slice_get (lines_with finder.now source.now) n ≡ Some line)
        (λ count. (count ≡ length (lines_with finder.now source.now)) × (count ≤ n)) }
{
    let mut passed = 0;
    for line in TextLines::new(source, finder) {
        if passed == n {
            return Ok(line);
        }
        passed += 1;
    }
    Err(passed)
}

/// The nth line of some files that holds a text, by file and line, counted from 1.
fn nth_held(archive: &Archive, shown: ShownFiles<'_>, text: &[u8], n: u64) -> Option<FileLine>
    requires some { text.now ≢ [] }
    requires there { AllByRecursion (IsThere archive.now) (shown_in shown) }
    ensures { result ≡ nth n (held_numbers archive.now text.now (shown_in shown.entry)) }
{
    if n == 0 {
        return None;
    }
    let finder = Finder::new(text);
    let mut passed = n - 1;
    let mut rest = shown;
    while let Some((file, more)) = rest.split_first() {
        match nth_line(archive.source(file.version), &finder, passed) {
            Ok(line) => return Some(FileLine {
                name: file.name,
                line,
            }),
            Err(count) => passed -= count,
        }
        rest = more;
    }
    None
}

impl Present {
    /// The lines that hold the wanted text, by file and line.
    fn wanted_numbers(&self, alloc: Global) -> Result<Vec<FileLine>, AllocError>
        requires kept { IsKept self.now.rooms self.now.archive self.now.now }
        requires some { self.now.now.wanted ≢ Some [] }
        requires ascending { IsAscending (world_in self.now.archive self.now.now).files }
        ensures places { IfOk result (λ made. map (place_in self.now.archive) made.items
            ≡ wanted_places (world_in self.now.archive self.now.now)) }
        ensures there { IfOk result (λ made. AllByRecursion
            (λ (p : FileLine). p.name < self.now.now.names) made.items) }
    {
        match &self.wanted {
            Some(text) => held_numbers(
                alloc,
                self.shelf.archive(),
                self.shelf.shown(),
                text.as_slice(),
            ),
            None => Ok(Vec::new(alloc)),
        }
    }

    /// The nth line that holds the wanted text, by file and line, counted from 1, if there is one.
    pub(crate) fn nth_wanted(&self, n: u64) -> Option<FileLine>
        requires kept { IsKept self.now.rooms self.now.archive self.now.now }
        requires some { self.now.now.wanted ≢ Some [] }
        requires ascending { IsAscending (world_in self.now.archive self.now.now).files }
        ensures place { option_map (place_in self.now.archive) result
            ≡ nth n (wanted_places (world_in self.now.archive self.now.now)) }
        ensures there { MatchOption result ⊤ (λ (p : FileLine). p.name < self.now.now.names) }
    {
        let text = self.wanted.as_ref()?;
        nth_held(self.shelf.archive(), self.shelf.shown(), text.as_slice(), n)
    }

    /// The plan to mark all lines that hold the wanted text.
    pub(crate) fn plan_mark_all(&self, alloc: Global) -> Result<Plan, AllocError>
        requires kept { IsKept self.now.rooms self.now.archive self.now.now }
        requires some { self.now.now.wanted ≢ Some [] }
        requires ascending { IsAscending (world_in self.now.archive self.now.now).files }
        ensures { IfOk result
            (λ p. IsPlan self.now p (all_marked (world_in self.now.archive self.now.now))) }
    {
        let marks = self.wanted_numbers(alloc)?;
        self.plan_marks(alloc, None, marks.as_slice())
    }

    /// The plan to mark a place, or to take its mark away.
    pub(crate) fn plan_mark(&self, alloc: Global, place: FileLine) -> Result<Plan, AllocError>
        requires kept { IsKept self.now.rooms self.now.archive self.now.now }
        requires there { place.name < self.now.now.names }
        ensures { IfOk result (λ p. IsPlan self.now p
            (toggled_at (world_in self.now.archive self.now.now)
            (Some (place_in self.now.archive place)))) }
    {
        let archive = self.shelf.archive();
        let marks = toggled(alloc, archive, self.marks.as_slice(), place)?;
        self.plan_marks(alloc, None, marks.as_slice())
    }
}
