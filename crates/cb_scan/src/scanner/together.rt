//! What is found, as facts: definitions in order, calls in order, uses and includes with their
//! scopes.
ghost use Rattle.std.specs.Prelude.{◌≡◌, ◌++◌, IfOk};
ghost use Rattle.cb_scan.specs.Order.{call_key, in_order};
ghost use Rattle.cb_scan.specs.Profiles.{kept};
ghost use Rattle.cb_scan.specs.steps.Scopes.{include_place, include_with, scoped, token_place};
ghost use Rattle.cb_scan.specs.steps.Scopes.{use_of};

use crate::facts::{Call, Def, Facts, Include};
use crate::gather::LineLists;
use crate::profile::Wanted;
use crate::rules::order::ordered_calls;
use crate::rules::scope::{Around, Range, scoped_includes, scoped_uses};
use std::alloc::{AllocError, Global};

/// The definitions, if they are wanted.
fn wanted_defs(alloc: Global, wanted: bool, defs: Vec<Def>) -> Vec<Def>
    ensures { result.items ≡ kept wanted defs.items }
{
    if wanted { defs } else { Vec::new(alloc) }
}

/// The includes with their scopes, if they are wanted.
fn wanted_includes(
    alloc: Global,
    wanted: bool,
    found: &[Include],
    ranges: Around<'_>,
) -> Result<Vec<Include>, AllocError>
    ensures { IfOk result (λ includes. includes.items ≡ kept wanted
        (scoped include_place include_with ranges.entry.functions.now ranges.entry.macros.now
        found.now)) }
{
    if wanted {
        scoped_includes(alloc, found, ranges)
    } else {
        Ok(Vec::new(alloc))
    }
}

/// The calls in order, if they are wanted.
fn wanted_calls(
    alloc: Global,
    wanted: bool,
    functions: &[Call],
    macros: &[Call],
) -> Result<Vec<Call>, AllocError>
    ensures { IfOk result (λ calls. calls.items
        ≡ kept wanted (in_order call_key (functions.now ++ macros.now))) }
{
    if wanted {
        ordered_calls(alloc, functions, macros)
    } else {
        Ok(Vec::new(alloc))
    }
}

/// The facts with these definitions, where functions have these ranges and calls, and lines these
/// lists: those that are wanted. Each list is at its exact size.
pub(crate) fn facts_with(
    alloc: Global,
    wanted: Wanted,
    defs: Vec<Def>,
    ranges: &[Range],
    calls: &[Call],
    lines: &LineLists,
) -> Result<Facts, AllocError>
    ensures { IfOk result (λ f. f ≡ record {
      defs = kept wanted.defs defs.items;
      uses = scoped token_place use_of ranges.now lines.now.ranges.items lines.now.names.items;
      calls = kept wanted.calls (in_order call_key (calls.now ++ lines.now.calls.items));
      includes = kept wanted.includes
          (scoped include_place include_with ranges.now lines.now.ranges.items
          lines.now.includes.items);
    }) }
{
    let defs = wanted_defs(alloc, wanted.defs, defs);
    let ranges = Around {
        functions: ranges,
        macros: lines.ranges.as_slice(),
    };
    let uses = scoped_uses(alloc, lines.names.as_slice(), ranges)?;
    let includes = wanted_includes(alloc, wanted.includes, lines.includes.as_slice(), ranges)?;
    let calls = wanted_calls(alloc, wanted.calls, calls, lines.calls.as_slice())?;
    // No source is large enough to have more facts than that.
    let most = u32::MAX as usize;
    if defs.len() > most || uses.len() > most || calls.len() > most || includes.len() > most {
        return Err(AllocError);
    }
    Ok(Facts::new(defs, uses, calls, includes))
}
