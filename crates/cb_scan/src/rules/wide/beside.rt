//! What is no parameter of a function, of the definitions in order.
ghost use Rattle.std.specs.Prelude.{◌≡◌, IfOk};
ghost use Rattle.cb_scan.specs.steps.wide.Gathering.{stays_first, staying};

use crate::facts::Def;
use crate::rules::scope::{Range, first_around, reached};
use std::alloc::{AllocError, Global};

/// Whether a definition is of a kind that is asked for, and the first of these ranges does not make
/// it a parameter.
fn stays_first(prototypes: bool, ranges: &[Range], def: &Def) -> bool
    ensures { result ≡ stays_first prototypes ranges.now def.now }
{
    (prototypes || !def.kind.is_declaration())
        && (!def.kind.is_object() || first_around(ranges, def.name.start).is_none())
}

/// Those that stay of definitions in order, at their exact size.
pub(crate) fn staying(
    alloc: Global,
    prototypes: bool,
    ranges: &[Range],
    defs: &[Def],
) -> Result<Vec<Def>, AllocError>
    ensures { IfOk result (λ kept. kept.items ≡ staying prototypes ranges.now defs.now) }
{
    let mut kept = Vec::with_capacity(alloc, defs.len())?;
    let mut left = ranges;
    for def in defs {
        left = reached(left, def.name.start);
        if stays_first(prototypes, left, def) {
            kept.push(*def)?;
        }
    }
    kept.shrink_to_fit();
    Ok(kept)
}
