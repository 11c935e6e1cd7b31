//! The names that a function declares and that are visible at a place of it.
ghost use Rattle.std.specs.Prelude.{◌≡◌, ◌<◌, ◌≤◌, ◌^◌, IfOk, length};
ghost use Rattle.cb_names.specs.Functions.{before, body_of};
ghost use Rattle.cb_names.specs.Scoped.{own_list};
ghost use Rattle.cb_names.specs.Shapes.{IsShape};
ghost use Rattle.cb_names.specs.Visible.{visible_in, visible_names};
ghost use Rattle.cb_names.specs.steps.Visible.{IsScoped, is_visible_by};
ghost use Rattle.cb_names.specs.steps.Telling.{IsTold};

use crate::bindings::scope_at;
use crate::code::Code;
use crate::declared::{Told, enums_of};
use crate::function::{Function, before, body_of};
use crate::labels::span_at;
use crate::names::push_span_if;
use crate::scopes::{Scope, flag, scopes_of};
use crate::shape::{Shape, shape_of};
use crate::spaces::is_ordinary;
use crate::statements::starts_of;
use cb_scan::Span;
use std::alloc::{AllocError, Global};

/// A function of which it is known what it declares, and in which scopes.
#[derive(Clone, Copy)]
pub(crate) struct Scoped<'a> {
    shape: &'a Shape,
    /// The index of its name.
    name: u32,
    starts: &'a [bool],
    declares: &'a [bool],
    scopes: &'a [Scope],
}

impl Scoped<'_> {
    /// Whether a token declares a name that is visible at a later index.
    fn is_visible(&self, later: u32, index: u32) -> bool
        requires few { length self.now.shape.now.items.items < 2 ^ 32 }
        requires within { index < length self.now.shape.now.items.items }
        ensures { result ≡ is_visible_by self.now later index }
    {
        is_ordinary(self.shape.items.as_slice(), self.starts, index)
            && flag(self.declares, index)
            && later <= scope_at(self.scopes, index).last
    }

    /// Those of the tokens before an index that declare a name which is visible there.
    fn visible(&self, alloc: Global, later: u32) -> Result<Vec<Span>, AllocError>
        requires scoped { IsScoped self.now }
        requires within { later ≤ length self.now.shape.now.items.items }
        ensures { IfOk result (λ found. found.items ≡ visible_in self.now.shape.now.items.items
            self.now.name self.now.shape.now.body later) }
    {
        let mut found = Vec::new(alloc);
        for index in 0..later {
            push_span_if(
                self.is_visible(later, index),
                span_at(self.shape.items.as_slice(), index),
                &mut found,
            )?;
        }
        Ok(found)
    }
}

/// Those of a function, before its declarations are sought.
fn visible_told(
    alloc: Global,
    told: Told<'_>,
    name: u32,
    later: u32,
) -> Result<Vec<Span>, AllocError>
    requires told { IsTold told }
    requires own { told.own ≡ own_list told.shape.now.items.items name }
    requires within { later ≤ length told.shape.now.items.items }
    ensures { IfOk result (λ found. found.items ≡ visible_in told.entry.shape.now.items.items name
        told.entry.shape.now.body later) }
{
    let declared = told.declared(alloc)?;
    let scopes = scopes_of(alloc, told.shape, declared.lists.as_slice())?;
    let scoped = Scoped {
        shape: told.shape,
        name,
        starts: told.starts,
        declares: declared.names.as_slice(),
        scopes: scopes.as_slice(),
    };
    let found = scoped.visible(alloc, later)?;
    Ok(found)
}

/// Those of a function, by what is known of its tokens.
fn visible_shaped(
    alloc: Global,
    shape: &Shape,
    name: u32,
    later: u32,
) -> Result<Vec<Span>, AllocError>
    requires shape { IsShape shape.now }
    requires within { later ≤ length shape.now.items.items }
    ensures { IfOk result (λ found. found.items ≡ visible_in shape.now.items.items name
        shape.now.body later) }
{
    let begun = starts_of(alloc, shape)?;
    let enums = enums_of(alloc, shape.items.as_slice())?;
    let told = Told::new(shape, begun.as_slice(), enums.as_slice(), name);
    let found = visible_told(alloc, told, name, later)?;
    Ok(found)
}

/// Those that are visible at a place of a function.
fn visible_in(alloc: Global, function: Function, place: u32) -> Result<Vec<Span>, AllocError>
    requires { length function.items.items < 2 ^ 32 }
    ensures { IfOk result (λ found. found.items ≡ visible_in function.items.items
        (before function.range.name.start function.items.items)
        (body_of function.items.items function.range) (before place function.items.items)) }
{
    let name = before(function.range.name.start, function.items.as_slice()) as u32;
    let body = body_of(function.items.as_slice(), function.range) as u32;
    let later = before(place, function.items.as_slice()) as u32;
    let shape = shape_of(alloc, function.items, body)?;
    let found = visible_shaped(alloc, &shape, name, later)?;
    Ok(found)
}

impl Code<'_> {
    /// Where the local variables, parameters and enumerators are declared that are visible at a
    /// place of a function: their declarators begin before it, and their scopes go on there. By
    /// place; one name may be among them more than once, of which the innermost declaration hides
    /// the others. Refused memory is the only error. Time in proportion to the function, but for
    /// lists of parameters inside others, which are read once more for each around them.
    pub fn visible_names(&self, alloc: Global, place: u32) -> Result<Vec<Span>, AllocError>
        ensures { IfOk result (λ found. found.items ≡ visible_names self.now place) }
    {
        let Some(function) = self.function_at(alloc, place)? else {
            return Ok(Vec::new(alloc));
        };
        match visible_in(alloc, function, place) {
            Ok(found) => Ok(found),
            Err(error) => Err(error),
        }
    }
}
