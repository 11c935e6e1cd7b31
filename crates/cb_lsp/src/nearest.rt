//! The definitions of a name that are shown where it stands, by its name space and by how near
//! their files are.
ghost use Rattle.std.specs.Prelude.{◌≡◌, ◌+◌, ◌<◌, ◌≤◌, ◌^◌, ◌∷◌, [], IfOk, false, filter, length, map};
ghost use Rattle.std.specs.Cmp.Lexicographic.{slice_cmp};
ghost use Rattle.std.specs.List.{list_any, prefix_len};
ghost use Rattle.std.specs.Ordering.{nat_cmp};
ghost use Rattle.cb_scan.specs.Order.{in_order};
ghost use Rattle.cb_tags.specs.TagLines.{tag_of};
ghost use Rattle.cb_lsp.specs.Nearest.{apart, as_near, first_had, has, included_or_near};
ghost use Rattle.cb_lsp.specs.Calls.{callables};
ghost use Rattle.cb_lsp.specs.Nearest.{is_as_near};
ghost use Rattle.cb_lsp.specs.Nearest.{is_function, is_members, is_object, is_own, is_preferred};
ghost use Rattle.cb_lsp.specs.Nearest.{is_private, is_source, kinds_at, narrowed};
ghost use Rattle.cb_lsp.specs.Nearest.{rank, shown, shown_by, slashes, takes};
ghost use Rattle.cb_lsp.specs.steps.Closures.{is_held};
ghost use Rattle.cb_lsp.specs.steps.Nearby.{IsKnown, passes, seen_by};

use crate::calls::is_callable;
use crate::closure::{Closure, closure_of};
use cb_desk::{Definitions, Desk};
use cb_names::Space;
use cb_scan::Kind;
use cb_tags::TagRow;
use std::alloc::{AllocError, Global};
use std::cmp::Ordering;

/// The kinds of definitions that are looked for.
#[derive(Clone, Copy, Debug, PartialEq, Eq)]
pub(crate) enum Kinds {
    All,
    Macros,
    Members,
    Structs,
    Unions,
    Enums,
    /// Structures, unions and enumerations.
    Tags,
    /// Functions, macros and prototypes.
    Callables,
    /// All but members, structures, unions and enumerations.
    Ordinary,
}

/// Whether definitions of a kind are among them.
fn takes(kinds: Kinds, kind: Kind) -> bool
    ensures { result ≡ takes kinds kind }
{
    match kinds {
        Kinds::All => true,
        Kinds::Macros => matches!(kind, Kind::Macro),
        Kinds::Members => matches!(kind, Kind::Member),
        Kinds::Structs => matches!(kind, Kind::Struct),
        Kinds::Unions => matches!(kind, Kind::Union),
        Kinds::Enums => matches!(kind, Kind::Enum),
        Kinds::Tags => matches!(kind, Kind::Struct | Kind::Union | Kind::Enum),
        Kinds::Callables => matches!(kind, Kind::Function | Kind::Macro | Kind::Prototype),
        Kinds::Ordinary => !matches!(kind, Kind::Member | Kind::Struct | Kind::Union | Kind::Enum),
    }
}

fn is_members(kinds: Kinds) -> bool
    ensures { result ≡ is_members kinds }
{
    matches!(kinds, Kinds::Members)
}

/// Whether one of these definitions is of one of the kinds.
fn has(rows: &Definitions<'_, '_>, kinds: Kinds) -> bool
    ensures { result ≡ has kinds rows.now }
{
    let mut left = rows.again();
    'rows: while let Some(row) = left.next() {
        if takes(kinds, row.kind) {
            return true;
        }
    }
    false
}

/// Some kinds, if one of these definitions is of them; else others.
fn first_had(rows: &Definitions<'_, '_>, first: Kinds, others: Kinds) -> Kinds
    ensures { result ≡ first_had first others rows.now }
{
    if has(rows, first) { first } else { others }
}

/// The kinds that a name in a space is looked for in, where it has these definitions.
fn kinds_at(rows: &Definitions<'_, '_>, space: Option<Space>) -> Kinds
    ensures { result ≡ kinds_at space rows.now }
{
    let others = first_had(rows, Kinds::Tags, Kinds::Macros);
    match space {
        None => Kinds::All,
        Some(Space::Member) => first_had(rows, Kinds::Members, Kinds::Macros),
        Some(Space::Struct) => first_had(rows, Kinds::Structs, others),
        Some(Space::Union) => first_had(rows, Kinds::Unions, others),
        Some(Space::Enum) => first_had(rows, Kinds::Enums, others),
        Some(Space::Called) => first_had(rows, Kinds::Callables, Kinds::Ordinary),
        Some(Space::Plain) => Kinds::Ordinary,
        Some(Space::Macro) => Kinds::Macros,
    }
}

/// Whether a file is compiled by itself.
fn is_source(file: &[u8]) -> bool
    ensures { result ≡ is_source file.now }
{
    file.ends_with(b".c")
}

/// Whether a definition is private to its file: that ends in `.c`, and the definition is local, or
/// of a kind that has no linkage.
#[tactic(auto, unfolding(crate::specs::Nearest::is_private))]
pub(crate) fn is_private(row: &TagRow<'_>) -> bool
    ensures { result ≡ is_private (tag_of row.now) }
{
    let linked = matches!(
        row.kind,
        Kind::Function | Kind::Variable | Kind::External | Kind::Prototype
    );
    (row.local || !linked) && is_source(row.file)
}

/// How many folders there are in the name of a file.
fn slashes(name: &[u8]) -> usize
    ensures value { result ≡ slashes name.now }
    ensures small { result < 2 ^ 63 }
{
    name.iter().filter(|byte| **byte == b'/').count()
}

/// How many folders of two files the other one does not share.
#[tactic(auto, unfolding(crate::specs::Nearest::apart))]
pub(crate) fn apart(one: &[u8], other: &[u8]) -> usize
    ensures { result ≡ apart one.now other.now }
{
    let (mut one, mut other) = (one, other);
    'bytes: while let [a, more @ ..] = one {
        match other {
            [b, others @ ..] => {
                if a != b {
                    return slashes(one) + slashes(other);
                }
                one = more;
                other = others;
            }
            [] => return slashes(one),
        }
    }
    slashes(other)
}

/// Whether a kind is preferred: that of a declaration where declarations are asked for, else any
/// other one.
fn is_preferred(declarations: bool, kind: Kind) -> bool
    ensures { result ≡ is_preferred declarations kind }
{
    if declarations {
        kind.is_declaration()
    } else {
        !kind.is_declaration()
    }
}

fn is_object(kind: Kind) -> bool
    ensures { result ≡ is_object kind }
{
    matches!(kind, Kind::Function | Kind::Variable)
}

fn is_function(kind: Kind) -> bool
    ensures { result ≡ is_function kind }
{
    matches!(kind, Kind::Function)
}

/// What definitions are asked for.
#[derive(Clone, Copy)]
enum Test<'p, 'a> {
    /// They are of the file.
    Beside(&'p [u8]),
    /// They are of the file, and are preferred.
    Own(&'p [u8], bool),
    /// They are in view by the closure.
    InView(&'p Closure<'a>),
    /// They are preferred: declarations, or what these declare.
    Preferred(bool),
    /// They are in the closure.
    Included(&'p Closure<'a>),
    /// They are functions in the closure.
    IncludedFunction(&'p Closure<'a>),
    /// They count beside definitions in the closure, among which a function is or not.
    Counts(&'p Closure<'a>, bool),
    /// They are functions or variables.
    Object,
    /// They are functions or macros.
    Callable,
}

impl Test<'_, '_> {
    /// Whether a definition passes.
    fn passes(self, row: &TagRow<'_>) -> bool
        ensures { result ≡ passes self.entry (tag_of row.now) }
    {
        match self {
            Test::Beside(file) => row.file == file,
            Test::Own(file, declarations) => {
                row.file == file && is_preferred(declarations, row.kind)
            }
            Test::InView(closure) => closure.has(row.file) || !is_private(row),
            Test::Preferred(declarations) => is_preferred(declarations, row.kind),
            Test::Included(closure) => closure.has(row.file),
            Test::IncludedFunction(closure) => closure.has(row.file) && is_function(row.kind),
            Test::Counts(closure, function) => {
                closure.has(row.file) || (!function && is_object(row.kind) && is_source(row.file))
            }
            Test::Object => is_object(row.kind),
            Test::Callable => is_callable(row.kind),
        }
    }

    /// Whether a row passes.
    fn passes_row(self, rows: &[TagRow<'_>]) -> bool
        ensures { result ≡ list_any (λ r. passes self.entry (tag_of r)) rows.now }
    {
        rows.iter().any(|row| self.passes(row))
    }

    /// Whether one of some definitions passes.
    fn passes_one(self, rows: &[TagRow<'_>]) -> bool
        ensures { result ≡ list_any (passes self.entry) (map tag_of rows.now) }
    {
        self.passes_row(rows)
    }

    /// Keeps those that pass.
    fn keep(self, rows: &mut Vec<TagRow<'_>>)
        ensures { map tag_of rows.new.items
            ≡ filter (passes self.entry) (map tag_of rows.old.items) }
    {
        rows.retain(|row| self.passes(row));
    }

    /// Keeps those that pass, if some do.
    fn narrow(self, rows: &mut Vec<TagRow<'_>>)
        ensures { map tag_of rows.new.items
            ≡ narrowed (passes self.entry) (map tag_of rows.old.items) }
    {
        if self.passes_one(rows.as_slice()) {
            self.keep(rows);
        }
    }
}

/// The definitions of a name that are of some kinds.
fn rows_of<'a>(
    alloc: Global,
    rows: Definitions<'a, '_>,
    kinds: Kinds,
) -> Result<Vec<TagRow<'a>>, AllocError>
    ensures { IfOk result (λ found. map tag_of found.items
        ≡ filter (λ t. takes kinds t.kind) rows.entry) }
{
    let mut found = Vec::new(alloc);
    let mut left = rows;
    'rows: while let Some(row) = left.next() {
        if takes(kinds, row.kind) {
            found.push(row)?;
        }
    }
    Ok(found)
}

/// Whether a definition is outside of the closure, and how far from a file.
fn rank(from: &[u8], closure: &Closure<'_>, row: &TagRow<'_>) -> (usize, usize)
    ensures { result.0 ∷ result.1 ∷ [] ≡ rank from.now (is_held closure.now) (tag_of row.now) }
{
    let outside = if closure.has(row.file) { 0 } else { 1 };
    (outside, apart(from, row.file))
}

/// Puts definitions in their order: those in the closure first, and then the nearest first.
fn sort_by_rank(
    from: &[u8],
    closure: &Closure<'_>,
    rows: &mut Vec<TagRow<'_>>,
) -> Result<(), AllocError>
    ensures { IfOk result (λ _. map tag_of rows.new.items
        ≡ in_order (rank from.now (is_held closure.now)) (map tag_of rows.old.items)) }
{
    rows.sort_by(
        |a: &TagRow<'_>, b: &TagRow<'_>| -> Ordering
            ensures { result ≡ slice_cmp nat_cmp
                (rank from.entry.now (is_held closure.entry.now) (tag_of a.now))
                (rank from.entry.now (is_held closure.entry.now) (tag_of b.now)) }
        { rank(from, closure, a).cmp(&rank(from, closure, b)) },
    )?;
    Ok(())
}

/// Whether a definition is as far from a file as another one.
fn is_as_near(from: &[u8], first: &TagRow<'_>, row: &TagRow<'_>) -> bool
    ensures { result ≡ is_as_near from.now (tag_of first.now) (tag_of row.now) }
{
    apart(from, row.file) == apart(from, first.file)
}

/// How many definitions at the front are as far from a file as another one.
fn count_as_near(from: &[u8], first: &TagRow<'_>, rows: &[TagRow<'_>]) -> usize
    ensures value { result
        ≡ prefix_len (λ r. is_as_near from.now (tag_of first.now) (tag_of r)) rows.now }
    ensures within { result ≤ length rows.now }
{
    rows.iter()
        .take_while(|row| is_as_near(from, first, *row))
        .count()
}

/// Keeps those at the front that are as near as the first one.
fn keep_as_near(from: &[u8], rows: &mut Vec<TagRow<'_>>)
    ensures { map tag_of rows.new.items ≡ as_near from.now (map tag_of rows.old.items) }
{
    let Some((first, more)) = rows.as_slice().split_first() else {
        return;
    };
    let count = count_as_near(from, first, more) + 1;
    rows.truncate(count);
}

/// Keeps those that count in the closure, or the nearest ones, in their order.
fn keep_included_or_near(
    from: &[u8],
    closure: &Closure<'_>,
    rows: &mut Vec<TagRow<'_>>,
) -> Result<(), AllocError>
    ensures { IfOk result (λ _. map tag_of rows.new.items
        ≡ included_or_near from.now (is_held closure.now) (map tag_of rows.old.items)) }
{
    if Test::Included(closure).passes_one(rows.as_slice()) {
        let function = Test::IncludedFunction(closure).passes_one(rows.as_slice());
        Test::Counts(closure, function).keep(rows);
        return sort_by_rank(from, closure, rows);
    }
    Test::Object.narrow(rows);
    sort_by_rank(from, closure, rows)?;
    keep_as_near(from, rows);
    Ok(())
}

/// Keeps those that are shown, none of which is preferred and of the file itself.
fn keep_by_closure(
    from: &[u8],
    closure: &Closure<'_>,
    declarations: bool,
    rows: &mut Vec<TagRow<'_>>,
) -> Result<(), AllocError>
    requires { list_any (is_own from.now declarations) (map tag_of rows.old.items) ≡ false }
    ensures { IfOk result (λ _. map tag_of rows.new.items
        ≡ shown_by from.now (is_held closure.now) declarations (map tag_of rows.old.items)) }
{
    Test::InView(closure).narrow(rows);
    Test::Preferred(declarations).narrow(rows);
    let beside = Test::Beside(from);
    if beside.passes_one(rows.as_slice()) {
        beside.keep(rows);
        return Ok(());
    }
    keep_included_or_near(from, closure, rows)
}

/// A file in which names are looked at, and its closure once that is wanted.
#[derive(Drop)]
pub(crate) struct Viewer<'a> {
    pub(crate) desk: &'a Desk,
    pub(crate) from: &'a [u8],
    pub(crate) closure: Option<Closure<'a>>,
}

impl<'a> Viewer<'a> {
    pub(crate) fn new(desk: &'a Desk, from: &'a [u8]) -> Viewer<'a>
        ensures desk { result.desk.now ≡ desk.entry.now }
        ensures from { result.from.now ≡ from.entry.now }
        ensures known { IsKnown result }
    {
        Viewer {
            desk,
            from,
            closure: None,
        }
    }

    /// Keeps those that are shown of some definitions, of which none is preferred and of the file.
    fn keep(
        &mut self,
        alloc: Global,
        declarations: bool,
        rows: &mut Vec<TagRow<'_>>,
    ) -> Result<(), AllocError>
        requires known { IsKnown self.old }
        requires others { list_any (is_own self.old.from.now declarations)
            (map tag_of rows.old.items) ≡ false }
        ensures desk { self.new.desk.now ≡ self.old.desk.now }
        ensures from { self.new.from.now ≡ self.old.from.now }
        ensures known { IsKnown self.new }
        ensures rows { IfOk result (λ _. map tag_of rows.new.items
            ≡ shown_by self.old.from.now (seen_by self.old) declarations
            (map tag_of rows.old.items)) }
    {
        if let Some(closure) = &self.closure {
            return keep_by_closure(self.from, closure, declarations, rows);
        }
        let closure = closure_of(alloc, self.desk, self.from)?;
        keep_by_closure(self.from, &closure, declarations, rows)?;
        self.closure = Some(closure);
        Ok(())
    }

    /// Of the definitions of a name those that are shown in the file, where the name has this
    /// space: declarations before others, or others before them.
    pub(crate) fn shown<'r>(
        &mut self,
        alloc: Global,
        rows: Definitions<'r, '_>,
        space: Option<Space>,
        declarations: bool,
    ) -> Result<Vec<TagRow<'r>>, AllocError>
        requires { IsKnown self.old }
        ensures desk { self.new.desk.now ≡ self.old.desk.now }
        ensures from { self.new.from.now ≡ self.old.from.now }
        ensures known { IsKnown self.new }
        ensures rows { IfOk result (λ found. map tag_of found.items
            ≡ shown self.old.from.now (seen_by self.old) (kinds_at space rows.entry) declarations
            rows.entry) }
    {
        let kinds = kinds_at(&rows, space);
        let mut found = rows_of(alloc, rows, kinds)?;
        if is_members(kinds) {
            return Ok(found);
        }
        let own = Test::Own(self.from, declarations);
        if own.passes_one(found.as_slice()) {
            own.keep(&mut found);
            return Ok(found);
        }
        if found.len() > 1 {
            self.keep(alloc, declarations, &mut found)?;
        }
        Ok(found)
    }

    /// The functions and macros among those.
    pub(crate) fn callables<'r>(
        &mut self,
        alloc: Global,
        rows: Definitions<'r, '_>,
        space: Option<Space>,
    ) -> Result<Vec<TagRow<'r>>, AllocError>
        requires { IsKnown self.old }
        ensures desk { self.new.desk.now ≡ self.old.desk.now }
        ensures from { self.new.from.now ≡ self.old.from.now }
        ensures known { IsKnown self.new }
        ensures rows { IfOk result (λ found. map tag_of found.items
            ≡ callables (shown self.old.from.now (seen_by self.old) (kinds_at space rows.entry)
            false rows.entry)) }
    {
        let mut found = self.shown(alloc, rows, space, false)?;
        Test::Callable.keep(&mut found);
        Ok(found)
    }
}
