//! The tokens with the same bytes that mean something in their function alone.
ghost use Rattle.std.specs.Prelude.{◌≡◌, ◌<◌, ◌≤◌, ◌^◌, ◌++◌, IfOk, length};
ghost use Rattle.std.specs.List.{AllByRecursion, flat_map, list_any, range_with_len};
ghost use Rattle.cb_names.specs.Functions.{IsItemOf, before, body_of};
ghost use Rattle.cb_names.specs.Labels.{is_spelled};
ghost use Rattle.cb_names.specs.OwnNames.{own_in, own_names, own_of};
ghost use Rattle.cb_names.specs.Shapes.{IsShape};

use crate::bindings::push_own;
use crate::code::Code;
use crate::declared::{Told, enums_of};
use crate::function::{before, body_of, extent_between};
use crate::hard::without_hard;
use crate::labels::is_spelled;
use crate::shape::{Shape, shape_of};
use crate::statements::starts_of;
use crate::word::Item;
use cb_scan::{Range, Span};
use std::alloc::{AllocError, Global};

/// Whether one of some tokens has these bytes.
fn has_spelled(text: &[u8], items: &[Item], name: &[u8]) -> bool
    requires few { length items.now < 2 ^ 32 }
    requires within { AllByRecursion (IsItemOf text.now) items.now }
    ensures { result ≡ list_any (λ k. is_spelled text.now items.now k name.now)
        (range_with_len 0 (length items.now)) }
{
    for at in 0..items.len() as u32 {
        if is_spelled(text, items, at, name) {
            return true;
        }
    }
    false
}

/// Appends the tokens of a function that are such names, by what is known of its tokens.
fn push_shaped(
    alloc: Global,
    text: &[u8],
    shape: &Shape,
    start: u32,
    name: &[u8],
    found: &mut Vec<Span>,
) -> Result<(), AllocError>
    requires shape { IsShape shape.now }
    requires within { AllByRecursion (IsItemOf text.now) shape.now.items.items }
    ensures { IfOk result (λ _. found.new.items ≡ found.old.items
        ++ own_in text.now shape.now.items.items start shape.now.body name.now) }
{
    let begun = starts_of(alloc, shape)?;
    let enums = enums_of(alloc, shape.items.as_slice())?;
    let told = Told::new(shape, begun.as_slice(), enums.as_slice(), start);
    push_own(alloc, text, told, name, found)
}

/// Appends those of a function, by its tokens, and by where its name and its body are among them.
fn push_at(
    alloc: Global,
    text: &[u8],
    items: Vec<Item>,
    start: u32,
    body: u32,
    name: &[u8],
    found: &mut Vec<Span>,
) -> Result<(), AllocError>
    requires few { length items.items < 2 ^ 32 }
    requires within { AllByRecursion (IsItemOf text.now) items.items }
    ensures { IfOk result (λ _. found.new.items ≡ found.old.items
        ++ own_in text.now items.items start body name.now) }
{
    if !has_spelled(text, items.as_slice(), name) {
        return Ok(());
    }
    let shape = shape_of(alloc, items, body)?;
    push_shaped(alloc, text, &shape, start, name, found)
}

/// The same, by its range.
fn push_in(
    alloc: Global,
    text: &[u8],
    items: Vec<Item>,
    range: Range,
    name: &[u8],
    found: &mut Vec<Span>,
) -> Result<(), AllocError>
    requires few { length items.items < 2 ^ 32 }
    requires within { AllByRecursion (IsItemOf text.now) items.items }
    ensures { IfOk result (λ _. found.new.items ≡ found.old.items
        ++ own_in text.now items.items (before range.name.start items.items)
        (body_of items.items range) name.now) }
{
    let start = before(range.name.start, items.as_slice()) as u32;
    let body = body_of(items.as_slice(), range) as u32;
    push_at(alloc, text, items, start, body, name, found)
}

/// How many tokens begin before a place, where that is known of another place.
fn before_from(items: &[Item], known: u32, count: usize, place: u32) -> usize
    requires known { count ≡ before known items.now }
    requires within { count ≤ length items.now }
    ensures value { result ≡ before place items.now }
    ensures within { result ≤ length items.now }
{
    if known <= place {
        count + before(place, &items[count..])
    } else {
        before(place, items)
    }
}

/// Appends those of a function, by all tokens, of which so many begin before its name and its end.
fn push_of(
    alloc: Global,
    text: &[u8],
    items: &[Item],
    start: usize,
    end: usize,
    range: Range,
    name: &[u8],
    found: &mut Vec<Span>,
) -> Result<(), AllocError>
    requires few { length items.now < 2 ^ 32 }
    requires within { AllByRecursion (IsItemOf text.now) items.now }
    requires start { start ≡ before range.name.start items.now }
    requires end { end ≡ before range.end items.now }
    requires fits { end ≤ length items.now }
    requires small { start ≤ length items.now }
    ensures { IfOk result (λ _. found.new.items ≡ found.old.items
        ++ own_of text.now items.now name.now range) }
{
    let kept = without_hard(alloc, extent_between(items, start as u32, end))?;
    push_in(alloc, text, kept, range, name, found)
}

/// Those of some functions.
fn own_in(
    alloc: Global,
    text: &[u8],
    items: &[Item],
    ranges: &[Range],
    name: &[u8],
) -> Result<Vec<Span>, AllocError>
    requires few { length items.now < 2 ^ 32 }
    requires within { AllByRecursion (IsItemOf text.now) items.now }
    ensures { IfOk result (λ found. found.items
        ≡ flat_map (own_of text.now items.now name.now) ranges.now) }
{
    let mut found = Vec::new(alloc);
    let mut known = 0;
    let mut count = 0;
    for i in 0..ranges.len() {
        let range = ranges[i];
        let start = before_from(items, known, count, range.name.start);
        count = before_from(items, range.name.start, start, range.end);
        known = range.end;
        push_of(alloc, text, items, start, count, range, name, &mut found)?;
    }
    Ok(found)
}

impl Code<'_> {
    /// The tokens with these bytes that mean something in their function alone: labels, local
    /// variables and parameters. Refused memory is the only error. Time in proportion to the text,
    /// but for lists of parameters inside others, which are read once more for each around them.
    pub fn own_names(&self, alloc: Global, name: &[u8]) -> Result<Vec<Span>, AllocError>
        ensures { IfOk result (λ found. found.items ≡ own_names self.now name.now) }
    {
        let text = self.source.bytes();
        match own_in(
            alloc,
            text,
            self.items.as_slice(),
            self.ranges.as_slice(),
            name,
        ) {
            Ok(found) => Ok(found),
            Err(error) => Err(error),
        }
    }
}
