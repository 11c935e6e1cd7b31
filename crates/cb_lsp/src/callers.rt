//! Calls by their callers.
ghost use Rattle.std.specs.Prelude.{◌≡◌, ◌≤◌, ◌+◌, ◌∷◌, [], Bool, IfOk, MatchOption, Some, drop};
ghost use Rattle.std.specs.Prelude.{length, map, nat_lt};
ghost use Rattle.std.specs.Cmp.Lexicographic.{slice_cmp};
ghost use Rattle.std.specs.List.{prefix_len};
ghost use Rattle.std.specs.Ordering.{nat_cmp};
ghost use Rattle.cb_scan.specs.Order.{AreOrdered, IsDefBefore};
ghost use Rattle.cb_lsp.specs.Calls.{by_caller, called_at, caller_item, caller_name, caller_place};
ghost use Rattle.cb_lsp.specs.Calls.{calls_reached, have_one_caller, kind_at, kind_in};
ghost use Rattle.cb_lsp.specs.steps.Callers.{FirstCalls, called_in, called_rows, incoming_left};
ghost use Rattle.cb_lsp.specs.steps.Callers.{kind_first};
ghost use Rattle.cb_lsp.specs.steps.Located.{client_in};
ghost use Rattle.cb_lsp.specs.Answers.{incoming_named};
ghost use Rattle.cb_lsp.specs.Messages.{result_unless};
ghost use Rattle.cb_tags.specs.Writing.{Puts};
ghost use Rattle.cb_wire.specs.Calls.{call_item_tree};
ghost use Rattle.cb_wire.specs.Messages.{id_json};
ghost use Rattle.cb_wire.specs.Texts.{frame};
ghost use Rattle.cb_wire.specs.Values.{value_text};

use crate::answers::put_list;
use crate::caller::CallerPlaces;
use crate::location::{Forms, Located};
use crate::reach::Reached;
use crate::written::{put_null, put_refusal};
use cb_desk::Desk;
use cb_index::FactSpot;
use cb_scan::{Def, Kind};
use cb_tags::{Sink, WriteFault};
use cb_wire::{CallItem, Calls, Elements, Id, Range, Ranged, Side};
use std::alloc::{AllocError, Global};
use std::cmp::Ordering;
use std::io::Write;

/// A call, and the range of the name that is called.
#[derive(Clone, Copy)]
pub(crate) struct CallRow<'a> {
    spot: FactSpot<'a>,
    range: Range,
}

impl Ranged for CallRow<'_> {
    ghost range = { λ r. r.range };

    fn range(&self) -> Range {
        self.range
    }
}

impl<'a> CallRow<'a> {
    /// The name of the caller.
    fn caller(&self) -> &'a [u8]
        ensures { result.now ≡ caller_name (called_in self.now) }
    {
        match self.spot.scope {
            Some(name) => name,
            None => b"",
        }
    }

    /// Where that name begins.
    fn place(&self) -> u32
        ensures { result ≡ caller_place (called_in self.now) }
    {
        match self.spot.scope_place {
            Some(place) => place,
            None => 0,
        }
    }

    /// Whether another call has the same caller.
    fn is_beside(&self, other: &CallRow<'_>) -> bool
        ensures { result ≡ have_one_caller (called_in self.now) (called_in other.now) }
    {
        self.spot.file == other.spot.file && self.place() == other.place()
    }

    /// The order of two calls by the places of their callers.
    fn compare_places(&self, other: &CallRow<'_>) -> Ordering
        ensures { result ≡ slice_cmp nat_cmp (caller_place (called_in self.now) ∷ [])
            (caller_place (called_in other.now) ∷ []) }
    {
        self.place().cmp(&other.place())
    }
}

/// The calls of a name that its reach from a file has.
fn calls_reached<'a>(
    alloc: Global,
    forms: Forms<'a>,
    desk: &'a Desk,
    name: &[u8],
    from: &'a [u8],
) -> Result<Vec<CallRow<'a>>, AllocError>
    ensures { IfOk result (λ rows. called_rows rows.items
        ≡ map (called_at (client_in forms.entry) desk.entry.now.timeline.present.files)
        (calls_reached desk.entry.now.timeline.present name.now from.now)) }
{
    let _files = desk.files();
    let mut places = Located::new(forms, desk);
    let mut rows = Vec::new(alloc);
    let mut rest = Reached::new(desk.calls_of(name), desk.definitions(name), from);
    'calls: while let Some(spot) = rest.next() {
        let range = places.range(spot.file, spot.name, spot.place, spot.line);
        rows.push(CallRow { spot, range })?;
    }
    Ok(rows)
}

/// Puts calls in the order of their callers.
fn sort_by_caller(rows: &mut Vec<CallRow<'_>>) -> Result<(), AllocError>
    ensures { IfOk result
        (λ _. called_rows rows.new.items ≡ by_caller (called_rows rows.old.items)) }
{
    rows.sort_by(
        |a: &CallRow<'_>, b: &CallRow<'_>| -> Ordering
            ensures { result ≡ slice_cmp nat_cmp (caller_place (called_in a.now) ∷ [])
                (caller_place (called_in b.now) ∷ []) }
        { a.compare_places(b) },
    )?;
    rows.sort_by(
        |a: &CallRow<'_>, b: &CallRow<'_>| -> Ordering
            ensures { result ≡ slice_cmp nat_cmp a.now.spot.file.now b.now.spot.file.now }
        { a.spot.file.cmp(b.spot.file) },
    )?;
    Ok(())
}

/// The calls of a name that its reach from a file has, by their callers.
pub(crate) fn calls_by_caller<'a>(
    alloc: Global,
    forms: Forms<'a>,
    desk: &'a Desk,
    name: &[u8],
    from: &'a [u8],
) -> Result<Vec<CallRow<'a>>, AllocError>
    ensures { IfOk result (λ rows. called_rows rows.items ≡ by_caller
        (map (called_at (client_in forms.entry) desk.entry.now.timeline.present.files)
        (calls_reached desk.entry.now.timeline.present name.now from.now))) }
{
    let mut rows = calls_reached(alloc, forms, desk, name, from)?;
    sort_by_caller(&mut rows)?;
    Ok(rows)
}

/// How many definitions have names that begin before a place, by binary search.
fn defs_before(defs: &[Def], place: u32) -> usize
    requires { AreOrdered IsDefBefore defs.now }
    ensures within { result ≤ length defs.now }
    ensures kind { kind_first (drop result defs.now) place ≡ kind_at defs.now place }
{
    defs.partition_point(
        |def: &Def| -> bool
            ensures { result ≡ nat_lt def.now.name.start place }
        { def.name.start < place },
    )
}

/// The kind of the first definition whose name begins at a place, by binary search.
fn kind_at(defs: &[Def], place: u32) -> Kind
    requires { AreOrdered IsDefBefore defs.now }
    ensures { result ≡ kind_at defs.now place }
{
    match defs.split_at(defs_before(defs, place)).1 {
        [def, ..] if def.name.start == place => def.kind,
        _ => Kind::Function,
    }
}

/// The same in a file.
pub(crate) fn kind_in(desk: &Desk, file: &[u8], place: u32) -> Kind
    ensures { result ≡ kind_in desk.now.timeline.present file.now place }
{
    match desk.scanned(file) {
        Some((_source, facts)) => kind_at(facts.defs(), place),
        None => Kind::Function,
    }
}

/// How many calls at the front have the caller of one.
fn calls_beside(first: &CallRow<'_>, rows: &[CallRow<'_>]) -> usize
    ensures value { result ≡ prefix_len
        (λ r. have_one_caller (called_in first.now) (called_in r)) rows.now }
    ensures within { result ≤ length rows.now }
{
    rows.iter().take_while(|row| first.is_beside(row)).count()
}

/// The first call, and those at the front that have its caller.
fn first_calls<'a, 'p>(rows: &'p [CallRow<'a>]) -> Option<(CallRow<'a>, &'p [CallRow<'a>])>
    ensures { MatchOption result (rows.entry.now ≡ [])
        (λ r. FirstCalls (called_rows rows.entry.now) (called_in r.0) (called_rows r.1.now)) }
{
    let (first, behind) = rows.split_first()?;
    let count = calls_beside(first, behind) + 1;
    Some((*first, rows.split_at(count).0))
}

/// Who calls: calls by their callers, those of each one together.
#[derive(Drop)]
pub(crate) struct Incoming<'a, 'p> {
    callers: CallerPlaces<'a>,
    rows: &'p [CallRow<'a>],
    /// How many of them were given.
    given: usize,
}

impl<'a, 'p> Incoming<'a, 'p> {
    /// The caller of a call.
    fn caller(&mut self, row: &CallRow<'a>) -> CallItem<'a>
        ensures caller { call_item_tree result ≡ caller_item (client_in self.old.callers.forms)
            self.old.callers.desk.now.timeline.present (called_in row.now) }
        ensures forms { self.new.callers.forms ≡ self.old.callers.forms }
        ensures desk { self.new.callers.desk.now ≡ self.old.callers.desk.now }
        ensures rows { self.new.rows ≡ self.old.rows }
        ensures given { self.new.given ≡ self.old.given }
    {
        self.callers.item(row.caller(), row.spot.file, row.place())
    }
}

impl<'a, 'p> Elements for Incoming<'a, 'p> {
    type Item = Calls<'p, CallRow<'a>>;

    ghost texts = { incoming_left };

    fn again(&self) -> Incoming<'a, 'p> {
        Incoming {
            callers: CallerPlaces::new(self.callers.forms, self.callers.desk),
            rows: self.rows,
            given: self.given,
        }
    }

    fn next(&mut self) -> Option<Calls<'p, CallRow<'a>>> {
        if self.given > self.rows.len() {
            return None;
        }
        let (first, calls) = first_calls(self.rows.split_at(self.given).1)?;
        let item = self.caller(&first);
        self.given += calls.len();
        Some(Calls {
            side: Side::From,
            item,
            calls,
        })
    }
}

/// Writes who calls a name that stands in a file.
pub(crate) fn put_incoming<W: Write>(
    alloc: Global,
    forms: Forms<'_>,
    desk: &Desk,
    out: &mut Sink<W>,
    id: Id<'_>,
    name: &[u8],
    file: &[u8],
) -> Result<(), WriteFault>
    ensures { (no_memory : Bool) × Puts out.old out.new result (frame (value_text
        (result_unless no_memory (id_json id.entry) (incoming_named (client_in forms.entry)
        desk.now.timeline.present name.now (Some file.now))))) }
{
    let Some(_) = desk.source(file) else {
        return put_null(out, id);
    };
    match calls_by_caller(alloc, forms, desk, name, file) {
        Ok(rows) => put_list(
            out,
            id,
            Incoming {
                callers: CallerPlaces::new(forms, desk),
                rows: rows.as_slice(),
                given: 0,
            },
        ),
        Err(_) => put_refusal(out, id),
    }
}
