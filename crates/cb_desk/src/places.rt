//! Places of a world: lines of files, as marks and as frames of the tag stack. In memory they are
//! numbers, with room to write what edits make of them.
ghost use Rattle.std.specs.Prelude.{◌≡◌, ◌≤◌, ◌+◌, [], OnOk, length, map};
ghost use Rattle.std.specs.Iterator.{YieldsFirstBy, YieldsLastBy, item_count};
ghost use Rattle.cb_desk.specs.Models.{place_at};
ghost use Rattle.cb_desk.specs.steps.Edits.{edited};
ghost use Rattle.cb_desk.specs.steps.Records.{place_in};

use crate::edits::PlaceEdits;
use cb_index::Archive;
use std::alloc::{AllocError, Global};
use std::marker::Model;
use std::mem;

// ---- in numbers

/// A line of a file, from 1: a mark, or a frame of the tag stack. The file is told by the number of
/// its name in the archive.
#[derive(Clone, Copy, Debug, PartialEq, Eq)]
pub(crate) struct FileLine {
    pub(crate) name: u32,
    pub(crate) line: u32,
}

/// A list of places, and room for as many again, to which edits are written.
#[derive(Drop)]
pub(crate) struct PlaceList {
    places: Vec<FileLine>,
    spare: Vec<FileLine>,
}

impl Model for PlaceList {
    ghost use Rattle.std.specs.Prelude.{min, vec_capacity};
    ghost use Rattle.cb_desk.specs.steps.Records.{PlacesHeld};

    ghost Value = { PlacesHeld };

    ghost view = { λ p. record {
      places = p.places.items;
      room = min (vec_capacity p.places) (vec_capacity p.spare);
    } };
}

impl PlaceList {
    /// No places. It takes no memory.
    pub(crate) fn new(alloc: Global) -> PlaceList
        ensures { result.places ≡ [] }
    {
        PlaceList {
            places: Vec::new(alloc),
            spare: Vec::new(alloc),
        }
    }

    /// The places.
    pub(crate) fn as_slice(&self) -> &[FileLine]
        ensures { result.now ≡ self.now.places }
    {
        self.places.as_slice()
    }

    /// Makes room for `count` places in all.
    pub(crate) fn reserve(&mut self, count: usize) -> Result<(), AllocError>
        ensures value { OnOk result (count ≤ self.new.room) }
        ensures places { self.new.places ≡ self.old.places }
        ensures room { self.old.room ≤ self.new.room }
    {
        self.places
            .reserve(count.saturating_sub(self.places.len()))?;
        self.spare.reserve(count.saturating_sub(self.spare.len()))?;
        Ok(())
    }

    /// Makes room for `more` places more.
    pub(crate) fn reserve_more(&mut self, more: usize) -> Result<(), AllocError>
        ensures value { OnOk result (length self.old.places + more ≤ self.new.room) }
        ensures places { self.new.places ≡ self.old.places }
        ensures room { self.old.room ≤ self.new.room }
    {
        match self.places.len().checked_add(more) {
            Some(count) => self.reserve(count),
            None => Err(AllocError),
        }
    }

    /// Makes edits, in the room that is there. It takes no memory.
    pub(crate) fn edit(&mut self, edits: &PlaceEdits)
        requires { length (edited edits.now self.old.places) ≤ self.old.room }
        ensures places { self.new.places ≡ edited edits.now self.old.places }
        ensures room { self.old.room ≤ self.new.room }
    {
        edits.write_into(self.places.as_mut_slice(), &mut self.spare);
        mem::swap(&mut self.places, &mut self.spare);
    }
}

// ---- with names of files

/// Places of a world, each a file's name and a line. They take no memory.
#[derive(Drop)]
pub struct Places<'a> {
    archive: &'a Archive,
    rest: &'a [FileLine],
}

impl<'a> Model for Places<'a> {
    ghost use Rattle.std.specs.Prelude.{List, map};
    ghost use Rattle.cb_desk.specs.World.{Place};
    ghost use Rattle.cb_desk.specs.steps.Records.{place_in};

    ghost Value = { List Place };

    ghost view = { λ p. map (place_in p.archive.now) p.rest.now };
}

impl<'a> Places<'a> {
    pub(crate) fn new(archive: &'a Archive, places: &'a [FileLine]) -> Places<'a>
        ensures { result ≡ map (place_in archive.now) places.now }
    {
        Places {
            archive,
            rest: places,
        }
    }

    /// How many there are.
    pub fn len(&self) -> usize
        ensures { result ≡ length self.now }
    {
        self.rest.len()
    }
}

impl<'a> Iterator for Places<'a> {
    type Item = (&'a [u8], u32);

    ghost next_gives = { YieldsFirstBy place_at (λ places. places) };

    ghost remaining = { item_count (λ places. places) };

    fn next(&mut self) -> Option<(&'a [u8], u32)> {
        let (first, rest) = self.rest.split_first()?;
        self.rest = rest;
        Some((self.archive.name(first.name), first.line))
    }
}

impl<'a> DoubleEndedIterator for Places<'a> {
    ghost next_back_gives = { YieldsLastBy place_at (λ places. places) };

    fn next_back(&mut self) -> Option<(&'a [u8], u32)> {
        let (last, rest) = self.rest.split_last()?;
        self.rest = rest;
        Some((self.archive.name(last.name), last.line))
    }
}
