//! Which uses of a name name the same thing.
ghost use Rattle.std.specs.Prelude.{◌≡◌, ◌∷◌, ◌++◌, ◌&&◌, [], IfOk, List, OnOk, filter, if◌then◌else◌, map};
ghost use Rattle.std.specs.Str.{bytes_eq};
ghost use Rattle.std.specs.List.{flat_map, list_any};
ghost use Rattle.cb_index.specs.steps.Left.{fact_of_spot};
ghost use Rattle.cb_lsp.specs.Same.{fits, is_listed, is_same, is_same_at, listed, listed_by, listed_in};
ghost use Rattle.cb_lsp.specs.Same.{listed_names, listed_own, lists_members, same_uses, sort_in};
ghost use Rattle.cb_lsp.specs.Same.{starts_at};
ghost use Rattle.cb_lsp.specs.WordUses.{same_in};
ghost use Rattle.cb_names.specs.SpacedNames.{macro_names, spaced_names};
ghost use Rattle.cb_scan.specs.declared.facts.Use.{Use as Used};
ghost use Rattle.cb_scan.specs.declared.lex.piece.Span.{Span as CodeSpan};
ghost use Rattle.cb_scan.specs.lex.Tokens.{bytes_of};
ghost use Rattle.cb_lsp.specs.steps.References.{references_left};
ghost use Rattle.cb_lsp.specs.steps.Same.{Adds, AreStarts, IsTold, has_start};

use crate::place::bytes_of;
use crate::references::References;
use cb_desk::Desk;
use cb_index::FactSpot;
use cb_names::{Code, Space, SpacedName, macro_names};
use cb_scan::{Def, Facts, Kind, Source, Span, Use};
use std::alloc::{AllocError, Global};
use std::collections::BTreeSet;

/// What is asked about a name.
#[derive(Clone, Copy, Debug, PartialEq, Eq)]
pub(crate) enum Sort {
    /// It may stand in all name spaces: a macro, or what is in none.
    All,
    Members,
    /// Structures, unions and enumerations.
    Tags,
    /// All others.
    Ordinary,
}

/// What is asked by the space of a name.
pub(crate) fn sort_in(space: Space) -> Sort
    ensures { result ≡ sort_in space }
{
    match space {
        Space::Member => Sort::Members,
        Space::Struct | Space::Union | Space::Enum => Sort::Tags,
        Space::Called | Space::Plain => Sort::Ordinary,
        Space::Macro => Sort::All,
    }
}

/// Whether a token is of a sort by its space.
fn fits(sort: Sort, space: Option<Space>) -> bool
    ensures { result ≡ fits sort space }
{
    match space {
        None => false,
        Some(space) => match sort {
            Sort::All => true,
            Sort::Members => matches!(space, Space::Member),
            Sort::Tags => matches!(space, Space::Struct | Space::Union | Space::Enum),
            Sort::Ordinary => matches!(space, Space::Called | Space::Plain | Space::Macro),
        },
    }
}

/// Whether a token is listed: for members, if it is of the sort; else, if it is not.
fn is_listed(sort: Sort, one: SpacedName) -> bool
    ensures { result ≡ is_listed sort one }
{
    match sort {
        Sort::Members => fits(sort, one.space),
        _ => !fits(sort, one.space),
    }
}

fn lists_members(sort: Sort) -> bool
    ensures { result ≡ lists_members sort }
{
    !matches!(sort, Sort::All)
}

/// Where tokens begin.
#[derive(Drop)]
struct Starts {
    places: BTreeSet<u32>,
}

impl Starts {
    fn new(alloc: Global) -> Starts
        ensures { AreStarts [] result }
    {
        Starts {
            places: BTreeSet::new(alloc),
        }
    }

    /// Whether one begins at a place.
    fn has(&self, place: u32) -> bool
        ensures { result ≡ has_start self.now place }
    {
        self.places.contains(&place)
    }

    fn add(&mut self, span: Span) -> Result<(), AllocError>
        ensures { OnOk result (Adds (λ p. starts_at p span) self.old self.new) }
    {
        self.places.insert(span.start)?;
        Ok(())
    }

    fn add_spans(&mut self, spans: &[Span]) -> Result<(), AllocError>
        ensures { OnOk result (Adds (λ p. list_any (starts_at p) spans.now) self.old self.new) }
    {
        for span in spans {
            self.add(*span)?;
        }
        Ok(())
    }

    /// Adds a token, if it is listed.
    fn add_name(&mut self, sort: Sort, one: SpacedName) -> Result<(), AllocError>
        ensures { OnOk result (Adds (λ p. list_any (starts_at p) (listed_names sort (one ∷ [])))
            self.old self.new) }
    {
        if is_listed(sort, one) {
            self.add(one.name)?;
        }
        Ok(())
    }

    /// Adds the tokens that are listed.
    fn add_names(&mut self, sort: Sort, names: &[SpacedName]) -> Result<(), AllocError>
        ensures { OnOk result (Adds (λ p. list_any (starts_at p) (listed_names sort names.now))
            self.old self.new) }
    {
        for one in names {
            self.add_name(sort, *one)?;
        }
        Ok(())
    }

    /// Adds what is listed in the line of a macro.
    fn add_macro(
        &mut self,
        alloc: Global,
        sort: Sort,
        source: &Source,
        name: &[u8],
        start: u32,
    ) -> Result<(), AllocError>
        ensures { OnOk result (Adds (λ p. list_any (starts_at p) (listed_names sort
            (macro_names source.now start name.now))) self.old self.new) }
    {
        match macro_names(alloc, source, start, name) {
            Ok(names) => self.add_names(sort, names.as_slice()),
            Err(_) => Err(AllocError),
        }
    }

    /// Adds what is listed by a definition.
    fn add_by(
        &mut self,
        alloc: Global,
        sort: Sort,
        source: &Source,
        name: &[u8],
        def: &Def,
    ) -> Result<(), AllocError>
        ensures { OnOk result (Adds (λ p. list_any (starts_at p)
            (listed_by sort source.now name.now def.now)) self.old self.new) }
    {
        match def.kind {
            Kind::Macro => self.add_macro(alloc, sort, source, name, def.name.start),
            Kind::Member if lists_members(sort) => self.add(def.name),
            _ => Ok(()),
        }
    }

    /// Adds what is listed by some definitions.
    fn add_defs(
        &mut self,
        alloc: Global,
        sort: Sort,
        source: &Source,
        name: &[u8],
        defs: &[Def],
    ) -> Result<(), AllocError>
        ensures { OnOk result (Adds (λ p. list_any (starts_at p)
            (flat_map (listed_by sort source.now name.now) defs.now)) self.old self.new) }
    {
        for def in defs {
            self.add_by(alloc, sort, source, name, def)?;
        }
        Ok(())
    }

    /// Adds what means something in its function alone.
    fn add_own(
        &mut self,
        alloc: Global,
        sort: Sort,
        code: &Code<'_>,
        name: &[u8],
    ) -> Result<(), AllocError>
        ensures { OnOk result (Adds (λ p. list_any (starts_at p)
            (listed_own sort code.now name.now)) self.old self.new) }
    {
        match sort {
            Sort::Members => Ok(()),
            _ => {
                let names = code.own_names(alloc, name)?;
                self.add_spans(names.as_slice())
            }
        }
    }

    /// Adds what is listed in the code.
    fn add_code(
        &mut self,
        alloc: Global,
        sort: Sort,
        code: &Code<'_>,
        name: &[u8],
    ) -> Result<(), AllocError>
        ensures { OnOk result (Adds (λ p. list_any (starts_at p) (listed_own sort code.now name.now
            ++ listed_names sort (spaced_names code.now name.now))) self.old self.new) }
    {
        self.add_own(alloc, sort, code, name)?;
        let names = code.spaced_names(alloc, name)?;
        self.add_names(sort, names.as_slice())
    }
}

/// Where the tokens begin that are listed in a text with these definitions.
fn starts_in(
    alloc: Global,
    sort: Sort,
    source: &Source,
    name: &[u8],
    defs: &[Def],
) -> Result<Starts, AllocError>
    ensures { IfOk result (AreStarts (listed sort defs.now source.now name.now)) }
{
    let Ok(code) = Code::new(alloc, source) else {
        return Err(AllocError);
    };
    let mut starts = Starts::new(alloc);
    starts.add_code(alloc, sort, &code, name)?;
    starts.add_defs(alloc, sort, source, name, defs)?;
    Ok(starts)
}

/// Whether what begins at a place is of a sort.
fn is_same_at(sort: Sort, starts: &Starts, place: u32) -> bool
    ensures { (ss : List CodeSpan) → AreStarts ss starts.now
        → result ≡ is_same_at sort ss place }
{
    match sort {
        Sort::Members => starts.has(place),
        _ => !starts.has(place),
    }
}

/// What is asked about a name, and what is listed in the file of its last use.
#[derive(Drop)]
struct Judge<'a, 'n> {
    desk: &'a Desk,
    sort: Sort,
    name: &'n [u8],
    file: Option<&'a [u8]>,
    starts: Starts,
}

impl<'a> Judge<'a, '_> {
    /// Goes on to the file of a use.
    fn enter(&mut self, alloc: Global, file: &'a [u8]) -> Result<(), AllocError>
        requires { IsTold self.old }
        ensures desk { self.new.desk.now ≡ self.old.desk.now }
        ensures sort { self.new.sort ≡ self.old.sort }
        ensures name { self.new.name.now ≡ self.old.name.now }
        ensures told { OnOk result (AreStarts (listed_in self.old.desk.now.timeline.present
            self.old.sort self.old.name.now file.entry.now) self.new.starts) }
        ensures known { OnOk result (IsTold self.new) }
    {
        if let Some(last) = self.file {
            if last == file {
                return Ok(());
            }
        }
        let starts = match self.desk.scanned(file) {
            Some((source, facts)) => {
                starts_in(alloc, self.sort, source, self.name, facts.defs())?
            }
            None => Starts::new(alloc),
        };
        self.starts = starts;
        self.file = Some(file);
        Ok(())
    }

    /// Whether a use is of the sort.
    fn is_same(&mut self, alloc: Global, spot: &FactSpot<'a>) -> Result<bool, AllocError>
        requires { IsTold self.old }
        ensures desk { self.new.desk.now ≡ self.old.desk.now }
        ensures sort { self.new.sort ≡ self.old.sort }
        ensures name { self.new.name.now ≡ self.old.name.now }
        ensures known { IfOk result (λ _. IsTold self.new) }
        ensures value { IfOk result (λ is. is ≡ is_same self.old.desk.now.timeline.present
            self.old.sort self.old.name.now (fact_of_spot spot.now)) }
    {
        self.enter(alloc, spot.file)?;
        Ok(is_same_at(self.sort, &self.starts, spot.place))
    }
}

/// Of the uses of a name those that are of a sort. Each of their files is read once.
pub(crate) fn same_uses<'a>(
    alloc: Global,
    desk: &'a Desk,
    sort: Sort,
    name: &[u8],
    uses: References<'a, '_>,
) -> Result<Vec<FactSpot<'a>>, AllocError>
    ensures { IfOk result (λ found. map fact_of_spot found.items
        ≡ same_uses desk.entry.now.timeline.present sort name.now (references_left uses.entry)) }
{
    let mut judge = Judge {
        desk,
        sort,
        name,
        file: None,
        starts: Starts::new(alloc),
    };
    let mut found = Vec::new(alloc);
    let mut left = uses;
    'uses: while let Some(spot) = left.next() {
        if judge.is_same(alloc, &spot)? {
            found.push(spot)?;
        }
    }
    Ok(found)
}

/// Whether a use in a text has a name and is of a sort.
fn is_same_use(source: &Source, name: &[u8], sort: Sort, starts: &Starts, one: &Use) -> bool
    ensures { (ss : List CodeSpan) → AreStarts ss starts.now
        → result ≡ (bytes_eq (bytes_of source.now one.now.name) name.now
        && is_same_at sort ss one.now.name.start) }
{
    bytes_of(source, one.name) == name && is_same_at(sort, starts, one.name.start)
}

/// Appends a use, if it is wanted.
fn push_if(is_wanted: bool, one: Use, found: &mut Vec<Use>) -> Result<(), AllocError>
    ensures { IfOk result
        (λ _. found.new.items ≡ found.old.items ++ (if is_wanted then one ∷ [] else [])) }
{
    if is_wanted {
        found.push(one)?;
    }
    Ok(())
}

/// Of some uses in a text those that have a name and are of a sort.
fn same_among(
    alloc: Global,
    source: &Source,
    name: &[u8],
    sort: Sort,
    starts: &Starts,
    uses: &[Use],
) -> Result<Vec<Use>, AllocError>
    ensures { (ss : List CodeSpan) → AreStarts ss starts.now → IfOk result (λ found. found.items
        ≡ filter (λ (u : Used). bytes_eq (bytes_of source.now u.name) name.now
        && is_same_at sort ss u.name.start) uses.now) }
{
    let mut found = Vec::new(alloc);
    for i in 0..uses.len() {
        let is = is_same_use(source, name, sort, starts, &uses[i]);
        push_if(is, uses[i], &mut found)?;
    }
    Ok(found)
}

/// The uses of a name in a text with these facts that are of a sort.
pub(crate) fn same_in(
    alloc: Global,
    sort: Sort,
    source: &Source,
    facts: &Facts,
    name: &[u8],
) -> Result<Vec<Use>, AllocError>
    ensures { IfOk result
        (λ found. found.items ≡ same_in sort facts.now source.now name.now) }
{
    let starts = starts_in(alloc, sort, source, name, facts.defs())?;
    match same_among(alloc, source, name, sort, &starts, facts.uses()) {
        Ok(found) => Ok(found),
        Err(error) => Err(error),
    }
}
