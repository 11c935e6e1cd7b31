//! The code of a text.
ghost use Rattle.std.specs.Prelude.{◌≡◌, ◌<◌, ◌^◌, IfErr, IfOk, MatchOption, None, Some, length};
ghost use Rattle.std.specs.List.{AllByRecursion};
ghost use Rattle.cb_names.specs.Functions.{IsCodeOf, IsItemOf, function_at, items, own_items};

use crate::function::{Function, function_among, items_of, own_items};
use crate::word::Item;
use cb_scan::{Range, Rules, ScanError, Source, code_tokens, function_ranges};
use std::alloc::{AllocError, Global};
use std::marker::Model;

/// The code of a text, which is read once for all that is asked about its names.
#[derive(Drop)]
pub struct Code<'a> {
    pub(crate) source: &'a Source,
    pub(crate) ranges: Vec<Range>,
    pub(crate) items: Vec<Item>,
}

impl<'a> Model for Code<'a> {
    ghost use Rattle.std.specs.Prelude.{List, ℕ};
    ghost use Rattle.cb_names.specs.Functions.{IsCodeOf};

    ghost Value = { List ℕ };

    ghost view = { λ c. c.source.now };

    ghost invariant = { λ c. IsCodeOf c.source.now c.ranges.items c.items.items };
}

impl<'a> Code<'a> {
    /// That of a text. Refused memory is the only error. Time in proportion to the text.
    pub fn new(alloc: Global, source: &'a Source) -> Result<Code<'a>, ScanError>
        ensures code { IfOk result (λ c. c ≡ source.entry.now) }
        ensures memory { IfErr result (λ e. e ≡ ScanError.OutOfMemory) }
    {
        let ranges = function_ranges(alloc, Rules::Wide, source)?;
        let tokens = code_tokens(alloc, source)?;
        match items_of(alloc, source.bytes(), tokens.as_slice()) {
            Ok(items) => Ok(Code {
                source,
                ranges,
                items,
            }),
            Err(_) => Err(ScanError::OutOfMemory),
        }
    }

    /// The function around a place, or the next one.
    pub(crate) fn function_at(
        &self,
        alloc: Global,
        place: u32,
    ) -> Result<Option<Function>, AllocError>
        ensures value { IfOk result (λ found. MatchOption found
            (function_at self.now place ≡ None)
            (λ f. (function_at self.now place ≡ Some f.range)
            × (f.items.items ≡ own_items (items self.now) f.range))) }
        ensures few { IfOk result (λ found. MatchOption found (Unit {0})
            (λ f. length f.items.items < 2 ^ 32)) }
        ensures within { IfOk result (λ found. MatchOption found (Unit {0})
            (λ f. AllByRecursion (IsItemOf self.now) f.items.items)) }
    {
        let Some(range) = function_among(self.ranges.as_slice(), place) else {
            return Ok(None);
        };
        let items = own_items(alloc, self.items.as_slice(), range)?;
        Ok(Some(Function { range, items }))
    }
}
