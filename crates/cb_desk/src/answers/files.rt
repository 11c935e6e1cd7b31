//! The files that a shelf shows, one after another, and the file of a name.
ghost use Rattle.std.specs.Prelude.{◌≡◌, ⊤, MatchOption};
ghost use Rattle.std.specs.Iterator.{YieldsFirstBy, item_count};
ghost use Rattle.std.specs.List.{AllByRecursion, Contains};
ghost use Rattle.std.specs.Option.{option_copied, option_map};
ghost use Rattle.cb_index.specs.Files.{AreAscending, IsThere, file_of as shown_file, files_of};
ghost use Rattle.cb_index.specs.Shelved.{files};
ghost use Rattle.cb_index.specs.steps.ShownIn.{shown_in};
ghost use Rattle.cb_desk.specs.Models.{file_of, scanned_of};
ghost use Rattle.cb_desk.specs.Scanned.{scanned_named};
ghost use Rattle.cb_desk.specs.World.{IsAscending, text_named};
ghost use Rattle.cb_desk.specs.steps.Named.{IsFirst, IsNotFirst, file_named};

use cb_index::{Archive, Entries, Shelf, Shown, ShownFiles};
use cb_scan::{Facts, Source};
use std::marker::Model;

/// The files that are shown, name and text, ascending by the bytes of their names.
#[derive(Drop)]
pub struct Files<'a> {
    entries: Entries<'a>,
}

impl<'a> Model for Files<'a> {
    ghost use Rattle.std.specs.Prelude.{List, map};
    ghost use Rattle.cb_index.specs.steps.Left.{entries_left};
    ghost use Rattle.cb_desk.specs.World.{File};
    ghost use Rattle.cb_desk.specs.steps.Lent.{without_facts};

    ghost Value = { List File };

    ghost view = { λ f. map without_facts (entries_left f.entries) };
}

impl<'a> Files<'a> {
    pub(crate) fn new(shelf: &'a Shelf) -> Files<'a>
        ensures value { result ≡ files shelf.now }
        ensures ascending { IsAscending (files shelf.now) }
    {
        let _shown = shelf.shown();
        Files {
            entries: shelf.entries(),
        }
    }

    /// The same files once more.
    pub fn again(&self) -> Files<'a>
        ensures { result ≡ self.now }
    {
        Files {
            entries: self.entries,
        }
    }
}

impl<'a> Iterator for Files<'a> {
    type Item = (&'a [u8], &'a Source);

    ghost next_gives = { YieldsFirstBy file_of (λ files. files) };

    ghost remaining = { item_count (λ files. files) };

    fn next(&mut self) -> Option<(&'a [u8], &'a Source)> {
        let (name, source, _) = self.entries.next()?;
        Some((name, source))
    }
}

/// The first of some files, if it has that name, and those after it.
pub(crate) fn split_named<'a>(
    archive: &Archive,
    files: ShownFiles<'a>,
    name: &[u8],
) -> Option<(Shown, ShownFiles<'a>)>
    ensures { MatchOption result (IsNotFirst archive.now name.now (shown_in files.entry))
        (λ r. IsFirst archive.now name.now r.0 (shown_in r.1) (shown_in files.entry)) }
{
    let (file, more) = files.split_first()?;
    if archive.name(file.name) == name {
        Some((file, more))
    } else {
        None
    }
}

/// What is among these versions under a file name, with the number of the name, by binary search.
fn find_shown(archive: &Archive, shown: ShownFiles<'_>, name: &[u8]) -> Option<Shown>
    requires there { AllByRecursion (IsThere archive.now) (shown_in shown) }
    requires ascending { AreAscending archive.now (shown_in shown) }
    ensures value { option_map (shown_file archive.now) result
        ≡ file_named (files_of archive.now (shown_in shown.entry)) name.now }
    ensures there { MatchOption result ⊤ (IsThere archive.now) }
    ensures among { MatchOption result ⊤ (Contains (shown_in shown.entry)) }
{
    let here = shown.from_name(archive, name);
    let (file, _) = split_named(archive, here, name)?;
    Some(file)
}

/// What is shown under a file name, with the number of the name.
pub(crate) fn shown_as(shelf: &Shelf, name: &[u8]) -> Option<Shown>
    ensures value { option_map (shown_file shelf.now.archive) result
        ≡ file_named (files shelf.now) name.now }
    ensures there { MatchOption result ⊤ (IsThere shelf.now.archive) }
    ensures among { MatchOption result ⊤ (Contains shelf.now.shown) }
{
    find_shown(shelf.archive(), shelf.shown(), name)
}

/// The text of the file of that name, if there is one.
pub(crate) fn source<'a>(shelf: &'a Shelf, name: &[u8]) -> Option<&'a Source>
    ensures { option_copied result ≡ text_named (files shelf.now) name.now }
{
    let found = shown_as(shelf, name)?;
    Some(shelf.archive().source(found.version))
}

/// The text of the file of that name with what is found in it, if there is one.
pub(crate) fn scanned<'a>(shelf: &'a Shelf, name: &[u8]) -> Option<(&'a Source, &'a Facts)>
    ensures { option_map scanned_of result
        ≡ scanned_named shelf.now.archive.profile (files shelf.now) name.now }
{
    let found = shown_as(shelf, name)?;
    let archive = shelf.archive();
    Some((archive.source(found.version), archive.facts(found.version)))
}
