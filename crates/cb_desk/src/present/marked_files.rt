//! The files that have a mark.
ghost use Rattle.std.specs.Prelude.{◌≡◌, ◌≤◌, ◌<◌, ◌∷◌, [], ⊤, length, filter, MatchOption};
ghost use Rattle.std.specs.Iterator.{YieldsFirst, item_count};
ghost use Rattle.std.specs.List.{prefix_len};
ghost use Rattle.cb_index.specs.Files.{AreAscending};
ghost use Rattle.cb_index.specs.steps.ShownIn.{shown_in};
ghost use Rattle.cb_desk.specs.Places.{is_in};
ghost use Rattle.cb_desk.specs.World as world;
ghost use Rattle.cb_desk.specs.steps.Records.{place_in};
ghost use Rattle.cb_desk.specs.steps.Replaced.{has_mark, places_in};

use crate::answers::split_named;
use crate::places::FileLine;
use cb_index::{Archive, Shown, ShownFiles};
use std::marker::Model;

/// Whether a place is in the file of that name.
fn is_in(archive: &Archive, place: FileLine, name: &[u8]) -> bool
    ensures { result ≡ is_in name.now (place_in archive.now place) }
{
    archive.name(place.name) == name
}

/// How many marks at the front are in the file of that name.
pub(crate) fn count_in(archive: &Archive, marks: &[FileLine], name: &[u8]) -> usize
    ensures value { result ≡ prefix_len (λ m. is_in name.now (place_in archive.now m)) marks.now }
    ensures within { result ≤ length marks.now }
{
    marks
        .iter()
        .take_while(|mark| is_in(archive, **mark, name))
        .count()
}

/// A file that has a mark, and the files and marks after it.
#[derive(Clone, Copy)]
struct Found<'a> {
    file: Shown,
    files: ShownFiles<'a>,
    marks: &'a [FileLine],
}

/// The first file that has a mark. The file of each mark is found by binary search.
fn first_marked<'a>(
    archive: &Archive,
    files: ShownFiles<'a>,
    marks: &'a [FileLine],
) -> Option<Found<'a>>
    requires files { AreAscending archive.now (shown_in files) }
    requires marks { world.AreAscending (places_in archive.now marks.now) }
    ensures files { MatchOption result
        (filter (has_mark archive.now marks.entry.now) (shown_in files.entry) ≡ [])
        (λ f. filter (has_mark archive.now marks.entry.now) (shown_in files.entry)
        ≡ f.file ∷ filter (has_mark archive.now f.marks.now) (shown_in f.files)) }
    ensures ascending { MatchOption result ⊤ (λ f. AreAscending archive.now (shown_in f.files)
        × world.AreAscending (places_in archive.now f.marks.now)) }
{
    let mut rest = files;
    let mut left = marks;
    while let Some((mark, _)) = left.split_first() {
        let name = archive.name(mark.name);
        let here = rest.from_name(archive, name);
        let later = left.split_at(count_in(archive, left, name)).1;
        if let Some((file, more)) = split_named(archive, here, name) {
            return Some(Found {
                file,
                files: more,
                marks: later,
            });
        }
        rest = here;
        left = later;
    }
    None
}

/// The files that have a mark, by name. They are found by the marks, so that files without a mark
/// cost nothing.
#[derive(Drop)]
pub(crate) struct MarkedFiles<'a> {
    archive: &'a Archive,
    /// The files and the marks that are still to be looked at.
    files: ShownFiles<'a>,
    marks: &'a [FileLine],
}

impl<'a> Model for MarkedFiles<'a> {
    ghost use Rattle.std.specs.Prelude.{List, filter};
    ghost use Rattle.cb_index.specs.Files.{AreAscending};
    ghost use Rattle.cb_index.specs.declared.entry.Shown.{Shown};
    ghost use Rattle.cb_index.specs.steps.ShownIn.{shown_in};
    ghost use Rattle.cb_desk.specs.World as world;
    ghost use Rattle.cb_desk.specs.steps.Replaced.{has_mark, places_in};

    ghost Value = { List Shown };

    ghost view = { λ s. filter (has_mark s.archive.now s.marks.now) (shown_in s.files) };

    ghost invariant = { λ s. AreAscending s.archive.now (shown_in s.files)
        × world.AreAscending (places_in s.archive.now s.marks.now) };
}

impl<'a> MarkedFiles<'a> {
    /// Those of some files that have one of some marks.
    pub(crate) fn new(
        archive: &'a Archive,
        files: ShownFiles<'a>,
        marks: &'a [FileLine],
    ) -> MarkedFiles<'a>
        requires files { AreAscending archive.now (shown_in files) }
        requires marks { world.AreAscending (places_in archive.now marks.now) }
        ensures { result ≡ filter (has_mark archive.now marks.now) (shown_in files.entry) }
    {
        MarkedFiles {
            archive,
            files,
            marks,
        }
    }
}

impl<'a> Iterator for MarkedFiles<'a> {
    type Item = Shown;

    ghost next_gives = { YieldsFirst (λ rest. rest) };

    ghost remaining = { item_count (λ rest. rest) };

    fn next(&mut self) -> Option<Shown> {
        let found = first_marked(self.archive, self.files, self.marks)?;
        self.files = found.files;
        self.marks = found.marks;
        Some(found.file)
    }
}
