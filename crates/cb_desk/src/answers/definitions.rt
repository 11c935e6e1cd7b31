//! The definitions of a name, its uses and its calls, with their places.
ghost use Rattle.std.specs.Prelude.{◌≡◌};
ghost use Rattle.std.specs.Iterator.{YieldsFirstBy, item_count};
ghost use Rattle.std.specs.Option.{option_map};
ghost use Rattle.cb_tags.specs.TagLines.{tag_of};
ghost use Rattle.cb_index.specs.Rows.{calls_in, calls_of, tags_named, uses_of};
ghost use Rattle.cb_index.specs.Shelved.{files};
ghost use Rattle.cb_index.specs.steps.Left.{fact_of_spot};
ghost use Rattle.cb_desk.specs.Models.{place_at};
ghost use Rattle.cb_desk.specs.Places.{nth};
ghost use Rattle.cb_desk.specs.Stack.{places};

use cb_index::{FactRows, FactSpot, Shelf, TagRows as IndexedTags};
use cb_tags::TagRow;
use std::marker::Model;

/// The definitions of a name, by file and place, external declarations and prototypes among them.
/// They take no memory.
#[derive(Drop)]
pub struct Definitions<'a, 'p> {
    rest: IndexedTags<'a, 'p>,
}

impl<'a, 'p> Model for Definitions<'a, 'p> {
    ghost use Rattle.std.specs.Prelude.{List};
    ghost use Rattle.cb_index.specs.steps.Left.{tags_left};
    ghost use Rattle.cb_tags.specs.TagLines.{Tag};

    ghost Value = { List Tag };

    ghost view = { λ d. tags_left d.rest };
}

impl<'a, 'p> Definitions<'a, 'p> {
    pub(crate) fn new(shelf: &'a Shelf, name: &'p [u8]) -> Definitions<'a, 'p>
        ensures { result ≡ tags_named shelf.now.archive.profile name.now (files shelf.now) }
    {
        Definitions {
            rest: shelf.defs(name),
        }
    }

    /// The same definitions once more.
    pub fn again(&self) -> Definitions<'a, 'p>
        ensures { result ≡ self.now }
    {
        Definitions { rest: self.rest }
    }
}

impl<'a, 'p> Iterator for Definitions<'a, 'p> {
    type Item = TagRow<'a>;

    ghost next_gives = { YieldsFirstBy tag_of (λ tags. tags) };

    ghost remaining = { item_count (λ tags. tags) };

    fn next(&mut self) -> Option<TagRow<'a>> {
        self.rest.next()
    }
}

/// The place of the nth definition of a name, by file and place, counted from 1: the name of its
/// file and its line.
pub(crate) fn nth_definition<'a>(shelf: &'a Shelf, name: &[u8], n: u64) -> Option<(&'a [u8], u32)>
    ensures { option_map place_at result ≡ nth n (places shelf.now.archive.profile (files shelf.now)
        name.now) }
{
    if n == 0 {
        return None;
    }
    match shelf.defs(name).nth((n - 1) as usize) {
        Some(tag) => Some((tag.file, tag.line)),
        None => None,
    }
}

/// Uses or calls, by file and place, each with the bytes at which its name and the name around it
/// begin. Each is given, also where its row is that of another one. They take no memory.
#[derive(Drop)]
pub struct Uses<'a, 'p> {
    rest: FactRows<'a, 'p>,
}

impl<'a, 'p> Model for Uses<'a, 'p> {
    ghost use Rattle.std.specs.Prelude.{List};
    ghost use Rattle.cb_index.specs.Rows.{Fact};
    ghost use Rattle.cb_index.specs.steps.Left.{facts_left};

    ghost Value = { List Fact };

    ghost view = { λ u. facts_left u.rest };
}

impl<'a, 'p> Uses<'a, 'p> {
    /// The uses of a name.
    pub(crate) fn uses_of(shelf: &'a Shelf, name: &'p [u8]) -> Uses<'a, 'p>
        ensures { result ≡ uses_of shelf.now.archive.profile name.now (files shelf.now) }
    {
        Uses {
            rest: shelf.uses(name),
        }
    }

    /// The calls of a name.
    pub(crate) fn calls_of(shelf: &'a Shelf, name: &'p [u8]) -> Uses<'a, 'p>
        ensures { result ≡ calls_of shelf.now.archive.profile name.now (files shelf.now) }
    {
        Uses {
            rest: shelf.calling(name),
        }
    }

    /// The calls that stand in what has that name.
    pub(crate) fn calls_in(shelf: &'a Shelf, name: &'p [u8]) -> Uses<'a, 'p>
        ensures { result ≡ calls_in shelf.now.archive.profile name.now (files shelf.now) }
    {
        Uses {
            rest: shelf.called_by(name),
        }
    }

    /// The same once more.
    pub fn again(&self) -> Uses<'a, 'p>
        ensures { result ≡ self.now }
    {
        Uses { rest: self.rest }
    }
}

impl<'a, 'p> Iterator for Uses<'a, 'p> {
    type Item = FactSpot<'a>;

    ghost next_gives = { YieldsFirstBy fact_of_spot (λ uses. uses) };

    ghost remaining = { item_count (λ uses. uses) };

    fn next(&mut self) -> Option<FactSpot<'a>> {
        self.rest.next_spot()
    }
}
