//! Functions and macros that call each other.
ghost use Rattle.std.specs.Prelude.{◌≡◌};
ghost use Rattle.cb_lsp.specs.Calls.{is_callable};
ghost use Rattle.cb_lsp.specs.steps.Elements.{items_left};

use crate::location::Located;
use cb_scan::Kind;
use cb_tags::TagRow;
use cb_wire::{CallItem, Elements};

/// Whether what has this kind can call and be called.
pub(crate) fn is_callable(kind: Kind) -> bool
    ensures { result ≡ is_callable kind }
{
    matches!(kind, Kind::Function | Kind::Macro)
}

/// Functions and macros.
#[derive(Drop)]
pub(crate) struct CallItems<'a, 'p> {
    pub(crate) places: Located<'a>,
    pub(crate) rest: &'p [TagRow<'a>],
}

impl<'a, 'p> Elements for CallItems<'a, 'p> {
    type Item = CallItem<'a>;

    ghost texts = { items_left };

    fn again(&self) -> CallItems<'a, 'p> {
        CallItems {
            places: self.places.again(),
            rest: self.rest,
        }
    }

    fn next(&mut self) -> Option<CallItem<'a>> {
        match self.rest {
            [row, rest @ ..] => {
                self.rest = rest;
                Some(self.places.item(row.name, row.kind, row.file, row.place))
            }
            [] => None,
        }
    }
}
