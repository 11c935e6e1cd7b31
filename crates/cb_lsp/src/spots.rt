//! Uses that are held in memory, one after another.
ghost use Rattle.std.specs.Prelude.{◌≡◌, map};
ghost use Rattle.std.specs.Iterator.{YieldsFirstBy, item_count};
ghost use Rattle.cb_index.specs.steps.Left.{fact_of_spot};
ghost use Rattle.cb_lsp.specs.steps.Elements.{uses_left};
ghost use Rattle.cb_lsp.specs.steps.Same.{spots_left};

use crate::location::Located;
use cb_index::FactSpot;
use cb_wire::{Elements, Location};

/// Uses by file and place.
#[derive(Clone, Copy)]
pub(crate) struct Spots<'a, 'p> {
    pub(crate) rest: &'p [FactSpot<'a>],
}

impl<'a, 'p> Spots<'a, 'p> {
    /// The same once more.
    pub(crate) fn again(&self) -> Spots<'a, 'p>
        ensures { spots_left result ≡ spots_left self.now }
    {
        *self
    }
}

impl<'a, 'p> Iterator for Spots<'a, 'p> {
    type Item = FactSpot<'a>;

    ghost next_gives = { YieldsFirstBy fact_of_spot spots_left };

    ghost remaining = { item_count spots_left };

    fn next(&mut self) -> Option<FactSpot<'a>> {
        match self.rest {
            [spot, rest @ ..] => {
                self.rest = rest;
                Some(*spot)
            }
            [] => None,
        }
    }
}

/// Where uses are.
#[derive(Drop)]
pub(crate) struct UsePlaces<'a, 'p> {
    pub(crate) places: Located<'a>,
    pub(crate) rest: Spots<'a, 'p>,
}

impl<'a, 'p> Elements for UsePlaces<'a, 'p> {
    type Item = Location<'a>;

    ghost texts = { uses_left };

    fn again(&self) -> UsePlaces<'a, 'p> {
        UsePlaces {
            places: self.places.again(),
            rest: self.rest.again(),
        }
    }

    fn next(&mut self) -> Option<Location<'a>> {
        let spot = self.rest.next()?;
        Some(self.places.use_place(&spot))
    }
}
