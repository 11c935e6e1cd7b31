//! Facts in the order of their places.
ghost use Rattle.std.specs.Prelude.{◌≡◌, ◌+◌, ◌++◌, ◌<◌, ◌≤◌, ◌^◌, length, IfOk};
ghost use Rattle.std.specs.List.Sorted.{IsPermutation};
ghost use Rattle.cb_scan.specs.Order.{call_key, def_key, in_order, kind_rank, tag_key};
ghost use Rattle.cb_scan.specs.steps.Ascending.{ascend_from};

use crate::facts::{Call, Def, Kind, Tag};
use std::alloc::{AllocError, Global};

fn kind_rank(kind: Kind) -> u32
    ensures { result ≡ kind_rank kind }
{
    match kind {
        Kind::Function => 0,
        Kind::Macro => 1,
        Kind::Typedef => 2,
        Kind::Struct => 3,
        Kind::Union => 4,
        Kind::Enum => 5,
        Kind::Enumerator => 6,
        Kind::Member => 7,
        Kind::Variable => 8,
        Kind::External => 9,
        Kind::Prototype => 10,
    }
}

/// A tag in numbers: whether there is one, and which.
fn tag_key(tag: &Option<Tag>) -> [u32; 4]
    ensures { result ≡ tag_key tag.now }
{
    match tag {
        Some(tag) => [1, kind_rank(tag.kind), tag.name.start, tag.name.end],
        None => [0, 0, 0, 0],
    }
}

/// What definitions are ordered by: place, then kind, then what is left.
fn def_key(def: &Def) -> [u32; 9]
    ensures { result ≡ def_key def.now }
{
    let local = if def.local { 1 } else { 0 };
    let [is_tagged, kind, start, end] = tag_key(&def.tag);
    [
        def.name.start,
        kind_rank(def.kind),
        def.name.end,
        def.line,
        local,
        is_tagged,
        kind,
        start,
        end,
    ]
}

/// What calls are ordered by: place, then what is left.
fn call_key(call: &Call) -> [u32; 5]
    ensures { result ≡ call_key call.now }
{
    [
        call.callee.start,
        call.callee.end,
        call.line,
        call.caller.start,
        call.caller.end,
    ]
}

/// What has a place in a text.
trait Placed: Copy {
    ghost use Rattle.std.specs.Prelude.{ℕ};

    ghost place_of: { Self → ℕ };

    /// Where it begins.
    fn place(&self) -> u32
        ensures { result ≡ place_of self.now };
}

impl Placed for Def {
    ghost use Rattle.cb_scan.specs.declared.facts.Def.{Def};

    ghost place_of = { λ (d : Def). d.name.start };

    fn place(&self) -> u32 {
        self.name.start
    }
}

impl Placed for Call {
    ghost use Rattle.cb_scan.specs.declared.facts.Call.{Call};

    ghost place_of = { λ (c : Call). c.callee.start };

    fn place(&self) -> u32 {
        self.callee.start
    }
}

/// Whether places ascend.
fn ascend<T: Placed>(items: &[T]) -> bool
    ensures { result ≡ ascend_from T.place_of 0 items.now }
{
    let mut place: u64 = 0;
    for item in items {
        let start = u64::from(item.place());
        if start < place {
            return false;
        }
        place = start + 1;
    }
    true
}

/// Puts definitions in the order of their places, and at one place in that of their kinds. Those
/// that are in order are left as they are.
fn order_defs(defs: &mut [Def])
    ensures { defs.new ≡ in_order def_key defs.old }
{
    if ascend(defs) {
        return;
    }
    defs.sort_unstable_by_key(
        |def: &Def| -> [u32; 9]
            ensures { result ≡ def_key def.now }
        { def_key(def) },
    );
}

/// Puts calls in the order of their places. Those that are in order are left as they are.
fn order_calls(calls: &mut [Call])
    ensures { calls.new ≡ in_order call_key calls.old }
{
    if ascend(calls) {
        return;
    }
    calls.sort_unstable_by_key(
        |call: &Call| -> [u32; 5]
            ensures { result ≡ call_key call.now }
        { call_key(call) },
    );
}

/// How many elements come first that begin before a place.
fn count_before<T: Placed>(items: &[T], place: u32) -> usize
    ensures { result ≤ length items.now }
{
    for (i, item) in items.iter().enumerate() {
        if item.place() >= place {
            return i;
        }
    }
    items.len()
}

/// Two lists as one, at its exact size: before each element of the first go those of the second
/// that begin before it. Where each list is in order, so is the one list.
fn merged<T: Placed>(alloc: Global, first: &[T], second: &[T]) -> Result<Vec<T>, AllocError>
    requires { length first.now + length second.now < 2 ^ 64 }
    ensures { IfOk result (λ all. IsPermutation (first.now ++ second.now) all.items) }
{
    let mut all = Vec::with_capacity(alloc, first.len() + second.len())?;
    let mut rest = second;
    for item in first {
        let before = count_before(rest, item.place());
        all.extend_from_slice(&rest[..before])?;
        all.push(*item)?;
        rest = &rest[before..];
    }
    all.extend_from_slice(rest)?;
    Ok(all)
}

/// All definitions. Where each list is in order, they mostly are, too.
fn all_defs(
    alloc: Global,
    functions: &[Def],
    macros: &[Def],
    typedefs: &[Def],
    structures: &[Def],
) -> Result<Vec<Def>, AllocError>
    ensures { IfOk result (λ all. in_order def_key all.items
        ≡ in_order def_key (functions.now ++ macros.now ++ typedefs.now ++ structures.now)) }
{
    let named = merged(alloc, functions, macros)?;
    let declared = merged(alloc, structures, typedefs)?;
    merged(alloc, named.as_slice(), declared.as_slice())
}

/// All calls. Where each list is in order, so are they.
fn all_calls(alloc: Global, functions: &[Call], macros: &[Call]) -> Result<Vec<Call>, AllocError>
    requires { length functions.now + length macros.now < 2 ^ 64 }
    ensures { IfOk result
        (λ all. in_order call_key all.items ≡ in_order call_key (functions.now ++ macros.now)) }
{
    merged(alloc, functions, macros)
}

/// Functions, macros, typedefs and structures in the order of their places, and at one place in
/// that of their kinds.
pub(crate) fn ordered_defs(
    alloc: Global,
    functions: &[Def],
    macros: &[Def],
    typedefs: &[Def],
    structures: &[Def],
) -> Result<Vec<Def>, AllocError>
    ensures { IfOk result (λ defs. defs.items
        ≡ in_order def_key (functions.now ++ macros.now ++ typedefs.now ++ structures.now)) }
{
    let mut defs = all_defs(alloc, functions, macros, typedefs, structures)?;
    order_defs(defs.as_mut_slice());
    Ok(defs)
}

/// Calls of functions and of macros in the order of their places.
pub(crate) fn ordered_calls(
    alloc: Global,
    functions: &[Call],
    macros: &[Call],
) -> Result<Vec<Call>, AllocError>
    ensures { IfOk result (λ calls. calls.items ≡ in_order call_key (functions.now ++ macros.now)) }
{
    let mut calls = all_calls(alloc, functions, macros)?;
    order_calls(calls.as_mut_slice());
    Ok(calls)
}
