//! The uses of a name in its reach.
ghost use Rattle.std.specs.Prelude.{◌≡◌, ◌∷◌};
ghost use Rattle.std.specs.Iterator.{YieldsFirstBy, item_count};
ghost use Rattle.cb_index.specs.steps.Left.{fact_of_spot};
ghost use Rattle.cb_tags.specs.TagLines.{tag_of};
ghost use Rattle.cb_lsp.specs.References.{uses_reached};
ghost use Rattle.cb_lsp.specs.steps.References.{AreByPlace, UsesAreByPlace, first_if, from_file};
ghost use Rattle.cb_lsp.specs.steps.References.{from_place, is_before, is_hidden, reached_left};
ghost use Rattle.cb_lsp.specs.steps.References.{reached_of};

use crate::meaning::{begins_private, has_private};
use cb_desk::{Definitions, Uses};
use cb_index::FactSpot;
use cb_tags::TagRow;
use std::cmp::Ordering;

/// Whether a definition begins before a place of a file.
fn is_before(row: &TagRow<'_>, file: &[u8], place: u32) -> bool
    ensures { result ≡ is_before file.now place (tag_of row.now) }
{
    match row.file.cmp(file) {
        Ordering::Less => true,
        Ordering::Equal => row.place < place,
        Ordering::Greater => false,
    }
}

/// The definitions from a place of a file on.
#[tactic(auto, unfolding(crate::specs::steps::References::from_place))]
pub(crate) fn from_place<'a, 'p>(
    rows: &Definitions<'a, 'p>,
    file: &[u8],
    place: u32,
) -> Definitions<'a, 'p>
    ensures { result ≡ from_place file.now place rows.now }
{
    let mut left = rows.again();
    let mut ahead = rows.again();
    'rows: while let Some(row) = ahead.next() {
        if !is_before(&row, file, place) {
            return left;
        }
        left = ahead.again();
    }
    left
}

/// The uses or the calls of a name in the files that it reaches. They take no memory.
#[derive(Drop)]
pub(crate) struct Reached<'a, 'p> {
    rest: Uses<'a, 'p>,
    from: &'a [u8],
    /// The file that asks has a private definition: no other is reached.
    own: bool,
    /// The definitions of the name, from a file on that is not behind that of the last use.
    definitions: Definitions<'a, 'p>,
    /// The file of the last use, or before that the file that asks.
    last: &'a [u8],
    /// It has a private definition.
    hidden: bool,
}

impl<'a, 'p> Reached<'a, 'p> {
    /// Of the uses of a name with these definitions those that a file reaches.
    pub(crate) fn new(
        uses: Uses<'a, 'p>,
        rows: Definitions<'a, 'p>,
        from: &'a [u8],
    ) -> Reached<'a, 'p>
        requires rows { AreByPlace rows }
        requires uses { UsesAreByPlace uses }
        ensures { reached_left result ≡ uses_reached rows.entry from.entry.now uses.entry }
    {
        let own = has_private(&rows, from);
        Reached {
            rest: uses,
            from,
            own,
            definitions: rows,
            last: from,
            hidden: own,
        }
    }

    /// The same once more.
    pub(crate) fn again(&self) -> Reached<'a, 'p>
        ensures { reached_left result ≡ reached_left self.now }
    {
        Reached {
            rest: self.rest.again(),
            from: self.from,
            own: self.own,
            definitions: self.definitions.again(),
            last: self.last,
            hidden: self.hidden,
        }
    }

    /// Goes on to the file of the next use.
    fn enter(&mut self, file: &'a [u8])
        ensures hidden { self.new.hidden
            ≡ is_hidden self.old.last.now self.old.hidden file.now self.old.definitions }
        ensures definitions { self.new.definitions
            ≡ from_file self.old.last.now file.now self.old.definitions }
        ensures last { self.new.last.now ≡ file.now }
        ensures own { self.new.own ≡ self.old.own }
        ensures rest { self.new.rest ≡ self.old.rest }
    {
        if self.last != file {
            self.definitions = from_place(&self.definitions, file, 0);
            self.hidden = begins_private(&self.definitions, file);
            self.last = file;
        }
    }

    /// Whether a use is in the reach, which is before those that are left.
    #[tactic(auto, unfolding(crate::specs::steps::References::shared_uses))]
    fn reaches(&mut self, spot: &FactSpot<'a>) -> bool
        ensures reached { reached_of self.old (fact_of_spot spot.now ∷ self.old.rest)
            ≡ first_if result (fact_of_spot spot.now) (reached_left self.new) }
        ensures rest { self.new.rest ≡ self.old.rest }
    {
        if self.own {
            return spot.file == self.from;
        }
        self.enter(spot.file);
        !self.hidden
    }
}

impl<'a, 'p> Iterator for Reached<'a, 'p> {
    type Item = FactSpot<'a>;

    ghost next_gives = { YieldsFirstBy fact_of_spot reached_left };

    ghost remaining = { item_count reached_left };

    fn next(&mut self) -> Option<FactSpot<'a>> {
        'uses: while let Some(spot) = self.rest.next() {
            if self.reaches(&spot) {
                return Some(spot);
            }
        }
        None
    }
}
