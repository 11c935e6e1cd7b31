//! The files that are shown, one after another, and their includes.
ghost use Rattle.std.specs.Prelude.{◌≡◌, ◌++◌, ◌∷◌, [], MatchOption};
ghost use Rattle.std.specs.Iterator.{YieldsFirstBy, item_count};
ghost use Rattle.cb_index.specs.Includes.{all_includes};
ghost use Rattle.cb_index.specs.Shelved.{files};
ghost use Rattle.cb_index.specs.steps.Includes.{begun_left, begun_left_if, include_at, includes_in};
ghost use Rattle.cb_index.specs.steps.Includes.{includes_left};
ghost use Rattle.cb_index.specs.steps.Left.{entries_left, fact_of, shown_file};

use crate::archive::{Archive, bytes_at, place_at};
use crate::files::ShownFiles;
use crate::rows::FactRow;
use crate::shelf::Shelf;
use cb_scan::{Facts, Include, Source};

/// Files with what is found in them. They take no memory.
#[derive(Clone, Copy)]
pub struct Entries<'a> {
    pub(crate) archive: &'a Archive,
    pub(crate) shown: ShownFiles<'a>,
}

impl<'a> Iterator for Entries<'a> {
    type Item = (&'a [u8], &'a Source, &'a Facts);

    ghost next_gives = { YieldsFirstBy shown_file entries_left };

    ghost remaining = { item_count entries_left };

    fn next(&mut self) -> Option<(&'a [u8], &'a Source, &'a Facts)> {
        let (shown, rest) = self.shown.split_first()?;
        let version = self.archive.version(shown.version)?;
        self.shown = rest;
        Some((
            self.archive.name(shown.name),
            version.source(),
            version.facts(),
        ))
    }
}

/// A file, and its includes that are still to come.
#[derive(Clone, Copy)]
pub(crate) struct Begun<'a> {
    file: &'a [u8],
    source: &'a Source,
    rest: &'a [Include],
}

/// Includes; the name of each is its header. They take no memory.
#[derive(Clone, Copy)]
pub struct IncludeRows<'a> {
    begun: Option<Begun<'a>>,
    entries: Entries<'a>,
}

fn include_at<'a>(file: &'a [u8], source: &'a Source, include: Include) -> FactRow<'a>
    ensures { fact_of result ≡ include_at file.now source.now include }
{
    let scope = match include.scope {
        Some(scope) => Some(bytes_at(source.bytes(), Some(scope))),
        None => None,
    };
    FactRow {
        file,
        name: bytes_at(source.bytes(), Some(include.header)),
        place: include.header.start,
        scope,
        scope_place: place_at(include.scope),
        line: include.line,
        text: source.shown_line(include.line),
    }
}

/// The first include of a file that is begun, and what is left after it.
fn next_include<'a>(begun: Option<Begun<'a>>) -> Option<(FactRow<'a>, Begun<'a>)>
    ensures { MatchOption result (begun_left_if begun.entry ≡ [])
        (λ r. begun_left_if begun.entry ≡ fact_of r.0 ∷ begun_left r.1) }
{
    let begun = begun?;
    let (include, rest) = begun.rest.split_first()?;
    Some((
        include_at(begun.file, begun.source, *include),
        Begun {
            file: begun.file,
            source: begun.source,
            rest,
        },
    ))
}

/// An include, what is left of its file, and the files after that.
#[derive(Clone, Copy)]
struct Step<'a> {
    row: FactRow<'a>,
    begun: Begun<'a>,
    entries: Entries<'a>,
}

/// The first include of some files.
fn first_include<'a>(entries: Entries<'a>) -> Option<Step<'a>>
    ensures { MatchOption result (includes_in (entries_left entries.entry) ≡ [])
        (λ r. includes_in (entries_left entries.entry)
        ≡ fact_of r.row ∷ (begun_left r.begun ++ includes_in (entries_left r.entries))) }
{
    let mut left = entries;
    while let Some((file, source, facts)) = left.next() {
        let begun = Begun {
            file,
            source,
            rest: facts.includes(),
        };
        if let Some((row, begun)) = next_include(Some(begun)) {
            return Some(Step {
                row,
                begun,
                entries: left,
            });
        }
    }
    None
}

impl Shelf {
    /// The includes of the files that are shown, by file and place.
    pub fn includes(&self) -> IncludeRows<'_>
        ensures { includes_left result ≡ all_includes self.now.archive.profile (files self.now) }
    {
        IncludeRows {
            begun: None,
            entries: self.entries(),
        }
    }
}

impl<'a> Iterator for IncludeRows<'a> {
    type Item = FactRow<'a>;

    ghost next_gives = { YieldsFirstBy fact_of includes_left };

    ghost remaining = { item_count includes_left };

    fn next(&mut self) -> Option<FactRow<'a>> {
        if let Some((row, begun)) = next_include(self.begun) {
            self.begun = Some(begun);
            return Some(row);
        }
        self.begun = None;
        let found = first_include(self.entries)?;
        self.begun = Some(found.begun);
        self.entries = found.entries;
        Some(found.row)
    }
}
