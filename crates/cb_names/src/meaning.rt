//! What the name at a place means in its function alone.
ghost use Rattle.std.specs.Prelude.{◌≡◌, ◌<◌, ◌^◌, IfOk, length};
ghost use Rattle.std.specs.List.{AllByRecursion};
ghost use Rattle.cb_names.specs.Bindings.{variable_at};
ghost use Rattle.cb_names.specs.Functions.{IsItemOf, before, body_of};
ghost use Rattle.cb_names.specs.Meanings.{local_at, local_in};
ghost use Rattle.cb_names.specs.Shapes.{IsShape};
ghost use Rattle.cb_names.specs.Statements.{starts};
ghost use Rattle.cb_names.specs.Tables.{IsTable};

use crate::bindings::variable_at;
use crate::code::Code;
use crate::declared::{Told, enums_of};
use crate::function::{Function, before, body_of};
use crate::labels::{index_at, label_of};
use crate::local::Local;
use crate::shape::{Shape, shape_of};
use crate::statements::starts_of;
use crate::word::Item;
use cb_scan::Source;
use std::alloc::{AllocError, Global};

/// The local variable or parameter that a token names, if it names one.
fn variable_named(
    alloc: Global,
    text: &[u8],
    shape: &Shape,
    begun: &[bool],
    name: u32,
    index: u32,
) -> Result<Option<Local>, AllocError>
    requires shape { IsShape shape.now }
    requires within { AllByRecursion (IsItemOf text.now) shape.now.items.items }
    requires index { index < length shape.now.items.items }
    requires starts { IsTable (starts shape.now.items.items shape.now.body)
        (length shape.now.items.items) begun.now }
    ensures { IfOk result (λ found. found ≡ variable_at text.now shape.now.items.items name
        shape.now.body index) }
{
    let enums = enums_of(alloc, shape.items.as_slice())?;
    let told = Told::new(shape, begun, enums.as_slice(), name);
    match variable_at(alloc, text, told, index) {
        Ok(found) => Ok(found),
        Err(error) => Err(error),
    }
}

/// What a place of a function names.
fn local_in(
    alloc: Global,
    text: &[u8],
    items: Vec<Item>,
    name: u32,
    body: u32,
    place: u32,
) -> Result<Option<Local>, AllocError>
    requires few { length items.items < 2 ^ 32 }
    requires within { AllByRecursion (IsItemOf text.now) items.items }
    ensures { IfOk result (λ found. found ≡ local_in text.now items.items name body place) }
{
    let index = index_at(place, items.as_slice());
    if index >= items.len() {
        return Ok(None);
    }
    let shape = shape_of(alloc, items, body)?;
    let starts = starts_of(alloc, &shape)?;
    match label_of(alloc, text, &shape, starts.as_slice(), index as u32)? {
        Some(label) => Ok(Some(label)),
        None => match variable_named(alloc, text, &shape, starts.as_slice(), name, index as u32) {
            Ok(found) => Ok(found),
            Err(error) => Err(error),
        },
    }
}

/// The same of a function.
fn local_of(
    alloc: Global,
    source: &Source,
    place: u32,
    function: Function,
) -> Result<Option<Local>, AllocError>
    requires few { length function.items.items < 2 ^ 32 }
    requires within { AllByRecursion (IsItemOf source.now) function.items.items }
    ensures { IfOk result (λ found. found ≡ local_in source.now function.items.items
        (before function.range.name.start function.items.items)
        (body_of function.items.items function.range) place) }
{
    let body = body_of(function.items.as_slice(), function.range) as u32;
    let name = before(function.range.name.start, function.items.as_slice()) as u32;
    local_in(alloc, source.bytes(), function.items, name, body, place)
}

impl Code<'_> {
    /// What the name at a place means in its function alone: the name token that holds the place or
    /// ends at it counts. Refused memory is the only error. Time in proportion to the function, but
    /// for lists of parameters inside others, which are read once more for each around them.
    pub fn local_at(&self, alloc: Global, place: u32) -> Result<Option<Local>, AllocError>
        ensures { IfOk result (λ found. found ≡ local_at self.now place) }
    {
        let Some(function) = self.function_at(alloc, place)? else {
            return Ok(None);
        };
        match local_of(alloc, self.source, place, function) {
            Ok(found) => Ok(found),
            Err(error) => Err(error),
        }
    }
}
