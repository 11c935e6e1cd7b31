//! The tags of the files that are shown.
ghost use Rattle.std.specs.Prelude.{◌≡◌, length};
ghost use Rattle.std.specs.Iterator.{YieldsFirstBy, item_count};
ghost use Rattle.std.specs.List.{flat_map};
ghost use Rattle.cb_scan.specs.Order.{in_order};
ghost use Rattle.cb_index.specs.Rows.{tags_from_name};
ghost use Rattle.cb_index.specs.Shelved.{files};
ghost use Rattle.cb_index.specs.steps.Left.{tag_of_spot};
ghost use Rattle.cb_tags.specs.TagLines.{tag_of};
ghost use Rattle.cb_desk.specs.Tags.{file_tags, tag_key};

use crate::rows::Format;
use cb_index::{Shelf, TagRows as IndexedTags, TagSpot};
use cb_tags::TagRow;
use std::marker::Model;

/// Tags, one after another. They take no memory.
#[derive(Drop)]
pub struct TagRows<'a> {
    rest: IndexedTags<'a, 'a>,
}

impl<'a> Model for TagRows<'a> {
    ghost use Rattle.std.specs.Prelude.{List};
    ghost use Rattle.cb_index.specs.steps.Left.{tags_left};
    ghost use Rattle.cb_tags.specs.TagLines.{Tag};

    ghost Value = { List Tag };

    ghost view = { λ t. tags_left t.rest };
}

impl<'a> TagRows<'a> {
    /// The same tags once more.
    pub fn again(&self) -> TagRows<'a>
        ensures { result ≡ self.now }
    {
        TagRows { rest: self.rest }
    }

    /// How many are left.
    pub fn len(&self) -> usize
        ensures { result ≡ length self.now }
    {
        self.rest.len()
    }

    /// Takes the first one, of which nothing is looked up yet.
    pub fn next_spot(&mut self) -> Option<TagSpot<'a>>
        ensures { YieldsFirstBy tag_of_spot (λ tags. tags) self.old result self.new }
    {
        self.rest.next_spot()
    }
}

impl<'a> Iterator for TagRows<'a> {
    type Item = TagRow<'a>;

    ghost next_gives = { YieldsFirstBy tag_of (λ tags. tags) };

    ghost remaining = { item_count (λ tags. tags) };

    fn next(&mut self) -> Option<TagRow<'a>> {
        self.rest.next()
    }
}

/// All definitions as tags, in the order of a format.
pub(crate) fn tag_rows(shelf: &Shelf, format: Format) -> TagRows<'_>
    ensures { result ≡ in_order (tag_key format) (flat_map (file_tags shelf.now.archive.profile)
        (files shelf.now)) }
{
    match format {
        Format::Plain => TagRows { rest: shelf.tags() },
        Format::Extended => TagRows {
            rest: shelf.all_defs(),
        },
    }
}

/// The definitions whose names are not less than a name, by name.
pub(crate) fn tag_rows_from<'a>(shelf: &'a Shelf, name: &'a [u8]) -> TagRows<'a>
    ensures { result ≡ tags_from_name shelf.now.archive.profile name.now (files shelf.now) }
{
    TagRows {
        rest: shelf.defs_from(name),
    }
}
