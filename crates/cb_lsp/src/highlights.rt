//! The uses of a word in a file, which an editor marks.
ghost use Rattle.std.specs.Prelude.{◌≡◌};
ghost use Rattle.cb_lsp.specs.steps.Elements.{highlights_left};

use crate::columns::Positions;
use cb_scan::Use;
use cb_wire::{Elements, Highlight};

/// Uses of a name in a file.
#[derive(Drop)]
pub(crate) struct Highlights<'a, 'p> {
    pub(crate) positions: Positions<'a>,
    pub(crate) rest: &'p [Use],
}

impl<'a, 'p> Elements for Highlights<'a, 'p> {
    type Item = Highlight;

    ghost texts = { highlights_left };

    fn again(&self) -> Highlights<'a, 'p> {
        Highlights {
            positions: Positions::new(self.positions.encoding(), self.positions.source()),
            rest: self.rest,
        }
    }

    fn next(&mut self) -> Option<Highlight> {
        let (one, rest) = self.rest.split_first()?;
        self.rest = rest;
        let range = self
            .positions
            .range(one.name.start as usize, one.name.end as usize);
        Some(Highlight { range, kind: None })
    }
}
