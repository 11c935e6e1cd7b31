//! What functions and macros call.
ghost use Rattle.std.specs.Prelude.{◌≡◌, ◌≤◌, ◌++◌, ◌∷◌, [], Bool, IfOk, MatchOption, Some, length};
ghost use Rattle.std.specs.Prelude.{fold, map, take};
ghost use Rattle.std.specs.Cmp.Lexicographic.{slice_cmp};
ghost use Rattle.std.specs.List.{flat_map, prefix_len};
ghost use Rattle.std.specs.Ordering.{nat_cmp};
ghost use Rattle.cb_tags.specs.TagLines.{tag_of};
ghost use Rattle.cb_tags.specs.Writing.{Puts};
ghost use Rattle.cb_wire.specs.Calls.{call_item_tree, calls_of, side_name};
ghost use Rattle.cb_wire.specs.Messages.{id_json};
ghost use Rattle.cb_wire.specs.Positions.{place};
ghost use Rattle.cb_wire.specs.Texts.{frame};
ghost use Rattle.cb_wire.specs.Values.{value_text};
ghost use Rattle.cb_lsp.specs.Answers.{list_of, outgoing_named};
ghost use Rattle.cb_lsp.specs.Calls.{cut_by};
ghost use Rattle.cb_lsp.specs.Messages.{result_unless};
ghost use Rattle.cb_lsp.specs.Outgoing.{by_first_call, by_name, called_as, called_calls, callee_of};
ghost use Rattle.cb_lsp.specs.Outgoing.{callees_by, cut_called, first_called, have_one_name};
ghost use Rattle.cb_lsp.specs.Outgoing.{is_call_by, told_by_name};
ghost use Rattle.cb_lsp.specs.Outgoing.{Called};
ghost use Rattle.cb_lsp.specs.Refresh.{files_called_in, with_file};
ghost use Rattle.cb_lsp.specs.steps.Located.{client_in};
ghost use Rattle.cb_lsp.specs.steps.Nearby.{IsKnown};
ghost use Rattle.cb_lsp.specs.steps.Outgoing.{FirstGroup, called_in, called_rows, callee_in};
ghost use Rattle.cb_lsp.specs.steps.Outgoing.{callee_rows, group_in, group_rows, outgoing_left};

use crate::answers::put_list;
use crate::columns::Positions;
use crate::location::{Forms, Located};
use crate::nearest::Viewer;
use crate::place::bytes_of;
use crate::refresh::FileNames;
use crate::written::{put_null, put_refusal};
use cb_desk::Desk;
use cb_names::Space;
use cb_scan::{Call, Source};
use cb_tags::{Sink, TagRow, WriteFault};
use cb_wire::{Calls, Elements, Encoding, Id, Position, Range, Ranged, Side, place_of_position};
use std::alloc::{AllocError, Global};
use std::cmp::Ordering;
use std::io::Write;

/// The name that a call calls, where it stands, and its range.
#[derive(Clone, Copy)]
pub(crate) struct CalleeRow<'a> {
    name: &'a [u8],
    place: u32,
    range: Range,
}

impl Ranged for CalleeRow<'_> {
    ghost range = { λ r. r.range };

    fn range(&self) -> Range {
        self.range
    }
}

impl CalleeRow<'_> {
    /// Whether another call has the same name.
    fn is_beside(&self, other: &CalleeRow<'_>) -> bool
        ensures { result ≡ have_one_name (callee_in self.now) (callee_in other.now) }
    {
        self.name == other.name
    }
}

/// The calls of one name: the first, and all.
#[derive(Clone, Copy)]
struct CalleeGroup<'a, 'p> {
    first: CalleeRow<'a>,
    calls: &'p [CalleeRow<'a>],
}

/// A function or macro that is called, and the calls of its name.
#[derive(Clone, Copy)]
struct CalledRow<'a, 'p> {
    row: TagRow<'a>,
    calls: &'p [CalleeRow<'a>],
}

/// The most functions and macros that are said to be called.
const MOST_CALLED: usize = 1_000;

/// The most calls that are listed with them.
const MOST_RANGES: usize = 100_000;

impl<'a, 'p> CalledRow<'a, 'p> {
    /// The same with at most so many calls.
    fn cut(&self, most: usize) -> CalledRow<'a, 'p>
        ensures called { called_in result ≡ cut_called most (called_in self.now) }
        ensures few { length result.calls.now ≤ most }
    {
        CalledRow {
            row: self.row,
            calls: front(self.calls, most),
        }
    }
}

/// The first calls, at most so many.
fn front<'a, 'p>(calls: &'p [CalleeRow<'a>], most: usize) -> &'p [CalleeRow<'a>]
    ensures front { result.now ≡ take most calls.entry.now }
    ensures few { length result.now ≤ most }
{
    calls.split_at(most.min(calls.len())).0
}

/// Whether a call stands in what has a name that begins at a place.
fn is_call_by(source: &Source, name: &[u8], place: usize, call: &Call) -> bool
    ensures { result ≡ is_call_by source.now name.now place call.now }
{
    call.caller.start as usize == place && bytes_of(source, call.caller) == name
}

/// What a call calls.
fn callee_of<'a>(positions: &mut Positions<'a>, call: &Call) -> CalleeRow<'a>
    ensures callee { callee_in result
        ≡ callee_of positions.old.encoding positions.old.text call.now }
    ensures encoding { positions.new.encoding ≡ positions.old.encoding }
    ensures text { positions.new.text ≡ positions.old.text }
{
    let (start, end) = (call.callee.start, call.callee.end);
    let name = bytes_of(positions.source(), call.callee);
    CalleeRow {
        name,
        place: start,
        range: positions.range(start as usize, end as usize),
    }
}

/// What is called by what has a name that begins at a place.
fn callees_by<'a>(
    alloc: Global,
    encoding: Encoding,
    source: &'a Source,
    calls: &[Call],
    name: &[u8],
    place: usize,
) -> Result<Vec<CalleeRow<'a>>, AllocError>
    ensures { IfOk result (λ rows. callee_rows rows.items
        ≡ callees_by encoding source.entry.now name.now place calls.now) }
{
    let mut positions = Positions::new(encoding, source);
    let mut rows = Vec::new(alloc);
    let mut rest = calls;
    'each: while let Some((call, more)) = rest.split_first() {
        if is_call_by(source, name, place, call) {
            rows.push(callee_of(&mut positions, call))?;
        }
        rest = more;
    }
    Ok(rows)
}

/// Puts calls in the order of the called names.
fn sort_by_name(rows: &mut Vec<CalleeRow<'_>>) -> Result<(), AllocError>
    ensures { IfOk result
        (λ _. callee_rows rows.new.items ≡ by_name (callee_rows rows.old.items)) }
{
    rows.sort_by(
        |a: &CalleeRow<'_>, b: &CalleeRow<'_>| -> Ordering
            ensures { result ≡ slice_cmp nat_cmp a.now.name.now b.now.name.now }
        { a.name.cmp(b.name) },
    )?;
    Ok(())
}

/// How many calls at the front have the name of one.
fn callees_beside(first: &CalleeRow<'_>, rows: &[CalleeRow<'_>]) -> usize
    ensures value { result ≡ prefix_len
        (λ r. have_one_name (callee_in first.now) (callee_in r)) rows.now }
    ensures within { result ≤ length rows.now }
{
    rows.iter().take_while(|row| first.is_beside(row)).count()
}

/// The first call, and those at the front that have its name.
fn first_group<'a, 'p>(rows: &'p [CalleeRow<'a>]) -> Option<CalleeGroup<'a, 'p>>
    ensures { MatchOption result (rows.entry.now ≡ [])
        (λ g. FirstGroup (callee_rows rows.entry.now) (group_in g)) }
{
    let (first, behind) = rows.split_first()?;
    let count = callees_beside(first, behind) + 1;
    Some(CalleeGroup {
        first: *first,
        calls: rows.split_at(count).0,
    })
}

/// Calls that are in the order of the called names, those of each name together.
fn groups_of<'a, 'p>(
    alloc: Global,
    rows: &'p [CalleeRow<'a>],
) -> Result<Vec<CalleeGroup<'a, 'p>>, AllocError>
    ensures { IfOk result (λ groups. group_rows groups.items
        ≡ cut_by have_one_name (callee_rows rows.entry.now)) }
{
    let mut groups = Vec::new(alloc);
    let mut given = 0;
    'names: while let Some(group) = first_group(rows.split_at(given).1) {
        given += group.calls.len();
        groups.push(group)?;
    }
    Ok(groups)
}

/// Puts the name first that is called first.
fn sort_by_first_call(groups: &mut Vec<CalleeGroup<'_, '_>>) -> Result<(), AllocError>
    ensures { IfOk result
        (λ _. group_rows groups.new.items ≡ by_first_call (group_rows groups.old.items)) }
{
    groups.sort_by(
        |a: &CalleeGroup<'_, '_>, b: &CalleeGroup<'_, '_>| -> Ordering
            ensures { result ≡ slice_cmp nat_cmp (a.now.first.place ∷ [])
                (b.now.first.place ∷ []) }
        { a.first.place.cmp(&b.first.place) },
    )?;
    Ok(())
}

/// Appends what some calls call, up to the most.
fn push_rows<'a, 'p>(
    rows: &[TagRow<'a>],
    calls: &'p [CalleeRow<'a>],
    called: &mut Vec<CalledRow<'a, 'p>>,
) -> Result<(), AllocError>
    requires { length called.old.items ≤ 1000 }
    ensures { IfOk result (λ _. called_rows called.new.items ≡ take 1000
        (called_rows called.old.items
        ++ map (λ t. (t, callee_rows calls.entry.now)) (map tag_of rows.now))) }
{
    let mut left = rows;
    'rows: while called.len() < MOST_CALLED {
        match left {
            [row, rest @ ..] => {
                called.push(CalledRow { row: *row, calls })?;
                left = rest;
            }
            [] => return Ok(()),
        }
    }
    Ok(())
}

/// Appends each function and macro that is shown of a called name in a file, up to the most.
fn push_called<'a, 'p>(
    alloc: Global,
    desk: &'a Desk,
    viewer: &mut Viewer<'_>,
    group: &CalleeGroup<'a, 'p>,
    called: &mut Vec<CalledRow<'a, 'p>>,
) -> Result<(), AllocError>
    requires room { length called.old.items ≤ 1000 }
    requires desk { viewer.old.desk.now ≡ desk.now }
    requires known { IsKnown viewer.old }
    ensures called { IfOk result (λ _. called_rows called.new.items ≡ take 1000
        (called_rows called.old.items
        ++ called_as desk.now.timeline.present viewer.old.from.now (group_in group.now))) }
    ensures desk { viewer.new.desk.now ≡ viewer.old.desk.now }
    ensures from { viewer.new.from.now ≡ viewer.old.from.now }
    ensures known { IsKnown viewer.new }
{
    let rows = desk.definitions(group.first.name);
    let found = viewer.callables(alloc, rows, Some(Space::Called))?;
    push_rows(found.as_slice(), group.calls, called)
}

/// What is shown of the called names in a file.
fn called_of<'a, 'p>(
    alloc: Global,
    desk: &'a Desk,
    file: &[u8],
    groups: &[CalleeGroup<'a, 'p>],
) -> Result<Vec<CalledRow<'a, 'p>>, AllocError>
    ensures { IfOk result (λ called. called_rows called.items ≡ take 1000 (flat_map
        (called_as desk.entry.now.timeline.present file.now) (group_rows groups.now))) }
{
    let mut called = Vec::new(alloc);
    let mut viewer = Viewer::new(desk, file);
    'names: for group in groups {
        push_called(alloc, desk, &mut viewer, group, &mut called)?;
    }
    Ok(called)
}

/// What calls of a file call, which are in the order of the called names.
fn called_by<'a, 'p>(
    alloc: Global,
    desk: &'a Desk,
    file: &[u8],
    rows: &'p [CalleeRow<'a>],
) -> Result<Vec<CalledRow<'a, 'p>>, AllocError>
    ensures { IfOk result (λ called. called_rows called.items
        ≡ first_called desk.entry.now.timeline.present file.now (callee_rows rows.entry.now)) }
{
    let mut groups = groups_of(alloc, rows)?;
    sort_by_first_call(&mut groups)?;
    called_of(alloc, desk, file, groups.as_slice())
}

/// A function or macro that is called, and where.
fn calls_to<'a, 'p>(
    places: &mut Located<'a>,
    called: &CalledRow<'a, 'p>,
) -> Calls<'p, CalleeRow<'a>>
    ensures calls { value_text (calls_of (side_name result.side) (call_item_tree result.item)
        (map (λ r. r.range) result.calls.now))
        ≡ value_text (called_calls places.old.client places.old.files (called_in called.now)) }
    ensures same { places.new ≡ places.old }
{
    let row = called.row;
    Calls {
        side: Side::To,
        item: places.item(row.name, row.kind, row.file, row.place),
        calls: called.calls,
    }
}

/// What is called.
#[derive(Drop)]
struct Outgoing<'a, 'p> {
    places: Located<'a>,
    rest: &'p [CalledRow<'a, 'p>],
    /// So many calls may still be listed.
    left: usize,
}

impl<'a, 'p> Elements for Outgoing<'a, 'p> {
    type Item = Calls<'p, CalleeRow<'a>>;

    ghost texts = { outgoing_left };

    fn again(&self) -> Outgoing<'a, 'p> {
        Outgoing {
            places: self.places.again(),
            rest: self.rest,
            left: self.left,
        }
    }

    fn next(&mut self) -> Option<Calls<'p, CalleeRow<'a>>> {
        if self.left == 0 {
            return None;
        }
        match self.rest {
            [called, rest @ ..] => {
                let cut = called.cut(self.left);
                self.left -= cut.calls.len();
                self.rest = rest;
                Some(calls_to(&mut self.places, &cut))
            }
            [] => None,
        }
    }
}

/// What is called by what has a name that begins at a place of a source, in the order of the called
/// names.
fn callees_by_name<'a>(
    alloc: Global,
    encoding: Encoding,
    source: &'a Source,
    calls: &[Call],
    name: &[u8],
    place: usize,
) -> Result<Vec<CalleeRow<'a>>, AllocError>
    ensures { IfOk result (λ rows. callee_rows rows.items
        ≡ by_name (callees_by encoding source.entry.now name.now place calls.now)) }
{
    let mut rows = callees_by(alloc, encoding, source, calls, name, place)?;
    sort_by_name(&mut rows)?;
    Ok(rows)
}

/// Adds the files of what is called by what has a name at a position of a file.
pub(crate) fn add_called(
    alloc: Global,
    forms: Forms<'_>,
    desk: &Desk,
    files: &mut FileNames,
    name: &[u8],
    file: &[u8],
    position: Position,
) -> Result<(), AllocError>
    ensures { IfOk result (λ _. files.new ≡ fold with_file files.old (files_called_in
        (client_in forms.entry) desk.now.timeline.present name.now position (Some file.now))) }
{
    let Some((source, facts)) = desk.scanned(file) else {
        return Ok(());
    };
    let place = place_of_position(forms.encoding, source.bytes(), position);
    let rows = callees_by_name(alloc, forms.encoding, source, facts.calls(), name, place)?;
    let called = called_by(alloc, desk, file, rows.as_slice())?;
    match add_files(alloc, files, called.as_slice()) {
        Ok(()) => Ok(()),
        Err(error) => Err(error),
    }
}

/// Adds the files of what is called.
fn add_files(
    alloc: Global,
    files: &mut FileNames,
    called: &[CalledRow<'_, '_>],
) -> Result<(), AllocError>
    ensures { IfOk result (λ _. files.new ≡ fold with_file files.old
        (map (λ (c : Called). c.0.file) (called_rows called.now))) }
{
    for i in 0..called.len() {
        files.add(alloc, called[i].row.file)?;
    }
    Ok(())
}

/// Writes what calls of a file call, which are in the order of the called names.
fn put_called<W: Write>(
    alloc: Global,
    forms: Forms<'_>,
    desk: &Desk,
    out: &mut Sink<W>,
    id: Id<'_>,
    file: &[u8],
    rows: &[CalleeRow<'_>],
) -> Result<(), WriteFault>
    ensures { (no_memory : Bool) × Puts out.old out.new result (frame (value_text
        (result_unless no_memory (id_json id.entry) (list_of (told_by_name
        (client_in forms.entry) desk.now.timeline.present file.now (callee_rows rows.now)))))) }
{
    match called_by(alloc, desk, file, rows) {
        Ok(called) => put_list(
            out,
            id,
            Outgoing {
                places: Located::new(forms, desk),
                rest: called.as_slice(),
                left: MOST_RANGES,
            },
        ),
        Err(_) => put_refusal(out, id),
    }
}

/// Writes what is called by what has a name at a position of a file.
pub(crate) fn put_outgoing<W: Write>(
    alloc: Global,
    forms: Forms<'_>,
    desk: &Desk,
    out: &mut Sink<W>,
    id: Id<'_>,
    name: &[u8],
    file: &[u8],
    position: Position,
) -> Result<(), WriteFault>
    ensures { (no_memory : Bool) × Puts out.old out.new result (frame (value_text
        (result_unless no_memory (id_json id.entry) (outgoing_named (client_in forms.entry)
        desk.now.timeline.present name.now position (Some file.now))))) }
{
    let Some((source, facts)) = desk.scanned(file) else {
        return put_null(out, id);
    };
    let place = place_of_position(forms.encoding, source.bytes(), position);
    match callees_by_name(alloc, forms.encoding, source, facts.calls(), name, place) {
        Ok(rows) => put_called(alloc, forms, desk, out, id, file, rows.as_slice()),
        Err(_) => put_refusal(out, id),
    }
}
