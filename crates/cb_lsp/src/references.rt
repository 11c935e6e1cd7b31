//! The uses of a name that a file asks for.
ghost use Rattle.std.specs.Prelude.{◌≡◌, ◌∷◌};
ghost use Rattle.std.specs.Iterator.{YieldsFirstBy, item_count};
ghost use Rattle.cb_index.specs.steps.Left.{fact_of_spot};
ghost use Rattle.cb_lsp.specs.References.{references};
ghost use Rattle.cb_lsp.specs.steps.References.{AreByPlace, UsesAreByPlace, begins_at, first_if};
ghost use Rattle.cb_lsp.specs.steps.References.{reached_left, references_left, wanted_of};

use crate::reach::{Reached, from_place};
use cb_desk::{Definitions, Uses};
use cb_index::FactSpot;

/// Whether the first of some definitions has its name where a use is.
fn begins_at(rows: &Definitions<'_, '_>, spot: &FactSpot<'_>) -> bool
    ensures { result ≡ begins_at (fact_of_spot spot.now) rows.now }
{
    let mut left = rows.again();
    match left.next() {
        Some(row) => row.file == spot.file && row.place == spot.place,
        None => false,
    }
}

/// The uses of a name in its reach, with the names of definitions or without. They take no memory.
#[derive(Drop)]
pub(crate) struct References<'a, 'p> {
    uses: Reached<'a, 'p>,
    /// Those that do not begin before the last use.
    definitions: Definitions<'a, 'p>,
    declarations: bool,
}

impl<'a, 'p> References<'a, 'p> {
    /// Of the uses of a name with these definitions those that a file asks for.
    pub(crate) fn new(
        uses: Uses<'a, 'p>,
        rows: Definitions<'a, 'p>,
        from: &'a [u8],
        declarations: bool,
    ) -> References<'a, 'p>
        requires rows { AreByPlace rows }
        requires uses { UsesAreByPlace uses }
        ensures { references_left result
            ≡ references rows.entry from.entry.now declarations uses.entry }
    {
        References {
            uses: Reached::new(uses, rows.again(), from),
            definitions: rows,
            declarations,
        }
    }

    /// Whether a use is wanted, which is before those that are left.
    #[tactic(auto, unfolding(crate::specs::steps::References::undeclared))]
    fn wants(&mut self, spot: &FactSpot<'a>) -> bool
        ensures wanted { wanted_of self.old (fact_of_spot spot.now ∷ reached_left self.old.uses)
            ≡ first_if result (fact_of_spot spot.now) (references_left self.new) }
        ensures uses { reached_left self.new.uses ≡ reached_left self.old.uses }
    {
        if self.declarations {
            return true;
        }
        self.definitions = from_place(&self.definitions, spot.file, spot.place);
        !begins_at(&self.definitions, spot)
    }
}

impl<'a, 'p> Iterator for References<'a, 'p> {
    type Item = FactSpot<'a>;

    ghost next_gives = { YieldsFirstBy fact_of_spot references_left };

    ghost remaining = { item_count references_left };

    fn next(&mut self) -> Option<FactSpot<'a>> {
        'uses: while let Some(spot) = self.uses.next() {
            if self.wants(&spot) {
                return Some(spot);
            }
        }
        None
    }
}
