//! The rows that entries stand for.
ghost use Rattle.std.specs.Prelude.{◌≡◌};
ghost use Rattle.std.specs.Option.{option_copied, option_map};
ghost use Rattle.cb_tags.specs.TagLines.{tag_of, scope_of};
ghost use Rattle.cb_index.specs.steps.Found.{fact_at, fact_of_call, fact_of_use, no_fact, no_tag};
ghost use Rattle.cb_index.specs.steps.Found.{scope_cut, tag_of_def};
ghost use Rattle.cb_index.specs.steps.Left.{fact_of, fact_of_spot, tag_of_spot};

use crate::archive::{Archive, ScannedSource, Version, bytes_at, cut, place_at};
use crate::entry::{FactKind, Posting};
use crate::order::name_in;
use cb_scan::{Call, Def, Kind, Source, Tag, Use};
use cb_tags::{Scope, TagRow};

/// A use or a call. Of a call the name is the called one, and the scope the one that calls.
#[derive(Clone, Copy, Debug)]
pub struct FactRow<'a> {
    pub file: &'a [u8],
    pub name: &'a [u8],
    /// Where its name begins in the text of the file, in bytes.
    pub place: u32,
    /// The name of the function or macro around it.
    pub scope: Option<&'a [u8]>,
    /// Where that name begins.
    pub scope_place: Option<u32>,
    /// From 1.
    pub line: u32,
    /// The whole shown line.
    pub text: &'a [u8],
}

/// A use or a call, and the text that it is in. Its line is looked up only where it is asked for.
#[derive(Clone, Copy)]
pub struct FactSpot<'a> {
    pub file: &'a [u8],
    pub name: &'a [u8],
    /// Where its name begins in the text of the file, in bytes.
    pub place: u32,
    /// The name of the function or macro around it.
    pub scope: Option<&'a [u8]>,
    /// Where that name begins.
    pub scope_place: Option<u32>,
    /// From 1.
    pub line: u32,
    /// The text of the file.
    pub source: &'a Source,
}

fn no_tag(file: &[u8]) -> TagRow<'_>
    ensures { tag_of result ≡ no_tag file.now }
{
    TagRow {
        name: b"",
        file,
        place: 0,
        line: 0,
        text: b"",
        kind: Kind::Function,
        local: false,
        scope: None,
    }
}

/// The body that a definition is in.
fn scope_of(source: &Source, tag: Option<Tag>) -> Option<Scope<'_>>
    ensures { option_map scope_of result ≡ option_map (scope_cut source.now) tag }
{
    let tag = tag?;
    Some(Scope {
        kind: tag.kind,
        name: cut(source.bytes(), tag.name),
    })
}

fn tag_of_def<'a>(file: &'a [u8], source: &'a Source, def: Option<&Def>) -> TagRow<'a>
    ensures { tag_of result ≡ tag_of_def file.now source.now (option_copied def.entry) }
{
    match def {
        Some(def) => TagRow {
            name: bytes_at(source.bytes(), Some(def.name)),
            file,
            place: def.name.start,
            line: def.line,
            text: source.shown_line(def.line),
            kind: def.kind,
            local: def.local,
            scope: scope_of(source, def.tag),
        },
        None => no_tag(file),
    }
}

/// A definition. What stands there is looked up only where it is asked for.
#[derive(Clone, Copy)]
pub struct TagSpot<'a> {
    pub(crate) archive: &'a Archive,
    pub(crate) entry: Posting,
}

impl<'a> TagSpot<'a> {
    /// Its name.
    pub fn name(self) -> &'a [u8]
        ensures { result.now ≡ (tag_of_spot self.entry).name }
    {
        name_in(self.archive, self.entry.version, self.entry.number)
    }

    /// Its tag.
    pub fn row(self) -> TagRow<'a>
        ensures { tag_of result ≡ tag_of_spot self.entry }
    {
        let file = self.archive.name(self.entry.name);
        match self.archive.version(self.entry.version) {
            Some(version) => {
                let def = version.facts().defs().get(self.entry.number as usize);
                tag_of_def(file, version.source(), def)
            }
            None => no_tag(file),
        }
    }
}

fn no_fact<'a>(file: &'a [u8], source: &'a Source) -> FactSpot<'a>
    ensures { fact_of_spot result ≡ no_fact file.now }
{
    FactSpot {
        file,
        name: b"",
        place: 0,
        scope: None,
        scope_place: None,
        line: 0,
        source,
    }
}

fn fact_of_use<'a>(file: &'a [u8], source: &'a Source, found: Option<&Use>) -> FactSpot<'a>
    ensures { fact_of_spot result ≡ fact_of_use file.now source.now (option_copied found.entry) }
{
    match found {
        Some(found) => {
            let scope = match found.scope {
                Some(scope) => Some(bytes_at(source.bytes(), Some(scope))),
                None => None,
            };
            FactSpot {
                file,
                name: bytes_at(source.bytes(), Some(found.name)),
                place: found.name.start,
                scope,
                scope_place: place_at(found.scope),
                line: found.line,
                source,
            }
        }
        None => no_fact(file, source),
    }
}

fn fact_of_call<'a>(file: &'a [u8], source: &'a Source, found: Option<&Call>) -> FactSpot<'a>
    ensures { fact_of_spot result ≡ fact_of_call file.now source.now (option_copied found.entry) }
{
    match found {
        Some(found) => FactSpot {
            file,
            name: bytes_at(source.bytes(), Some(found.callee)),
            place: found.callee.start,
            scope: Some(bytes_at(source.bytes(), Some(found.caller))),
            scope_place: Some(found.caller.start),
            line: found.line,
            source,
        },
        None => no_fact(file, source),
    }
}

impl<'a> FactSpot<'a> {
    /// The row, with the shown line.
    pub fn row(&self) -> FactRow<'a>
        ensures { fact_of result ≡ fact_of_spot self.now }
    {
        FactRow {
            file: self.file,
            name: self.name,
            place: self.place,
            scope: self.scope,
            scope_place: self.scope_place,
            line: self.line,
            text: self.source.shown_line(self.line),
        }
    }
}

/// The fact of an item of a text.
pub(crate) fn fact_in<'a>(
    sort: FactKind,
    file: &'a [u8],
    text: &'a ScannedSource,
    item: u32,
) -> FactSpot<'a>
    ensures { fact_of_spot result ≡ fact_at sort file.now text.now item }
{
    let source = text.source();
    let facts = text.facts();
    match sort {
        FactKind::Uses => fact_of_use(file, source, facts.uses().get(item as usize)),
        FactKind::Callees => fact_of_call(file, source, facts.calls().get(item as usize)),
        FactKind::Callers => fact_of_call(file, source, facts.calls().get(item as usize)),
    }
}

/// The fact of an item.
pub(crate) fn fact_at<'a>(
    sort: FactKind,
    file: &'a [u8],
    version: &'a Version,
    item: u32,
) -> FactSpot<'a>
    ensures { fact_of_spot result ≡ fact_at sort file.now version.now item }
{
    fact_in(sort, file, version.text(), item)
}
