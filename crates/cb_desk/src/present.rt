//! The present world in the numbers of an archive: turned by a record, given room, and read. No
//! reader takes memory.
ghost use Rattle.std.specs.Prelude.{◌≡◌, ◌≤◌, ◌+◌, ◌^◌, ◌++◌, [], MatchOption, OnOk, length, map};
ghost use Rattle.std.specs.Prelude.{take};
ghost use Rattle.std.specs.List.Sorted.{IsStrictlyIncreasing};
ghost use Rattle.std.specs.Option.{option_copied};
ghost use Rattle.cb_scan.specs.Order.{in_order};
ghost use Rattle.cb_index.specs.Files.{shown_name};
ghost use Rattle.cb_index.specs.Names.{names_of};
ghost use Rattle.cb_index.specs.Shelved.{CanShow, KeepsRoom};
ghost use Rattle.cb_desk.specs.Desk.{counted};
ghost use Rattle.cb_desk.specs.steps.Compacted.{IsCompacted};
ghost use Rattle.cb_desk.specs.steps.Edits.{edited, turned_edits};
ghost use Rattle.cb_desk.specs.steps.Plans.{HasRoomFor};
ghost use Rattle.cb_desk.specs.steps.Records.{AreThere, Fits, IsTurn, KeepsRooms, hidden};
ghost use Rattle.cb_desk.specs.steps.Records.{kept_wanted, no_numbers, other, other_wanted};
ghost use Rattle.cb_desk.specs.steps.Records.{place_in, turned, without};
ghost use Rattle.cb_desk.specs.steps.Room.{IsCountable, IsRoomFor};
ghost use Rattle.cb_desk.specs.steps.Texts.{bytes_if, bytes_if_other};
ghost use Rattle.cb_desk.specs.steps.Walks.{IsKept};

mod changes;
mod files;
mod marked_files;
mod places;
pub(crate) mod replace;
mod replaced;
mod replacement;

use crate::Bounds;
use crate::edits::PlaceEdits;
use crate::places::{PlaceList, Places};
use crate::plan::{NewVersions, Plan, Record, with_versions};
use cb_index::{Room, Shelf, Shown};
use cb_scan::Profile;
use std::alloc::{AllocError, Global};
use std::marker::Model;
use std::mem;

/// The bounds, what is shown of an archive, the wanted text, the marks by file and line, the
/// frames, bottom first; and how many names and versions of the archive this world and those before
/// it use.
#[derive(Drop)]
pub(crate) struct Present {
    bounds: Bounds,
    shelf: Shelf,
    wanted: Option<Vec<u8>>,
    marks: PlaceList,
    frames: PlaceList,
    names: u32,
    versions: u32,
}

impl Model for Present {
    ghost use Rattle.cb_desk.specs.steps.Records.{Kept};
    ghost use Rattle.cb_desk.specs.steps.Texts.{bytes_if};

    ghost Value = { Kept };

    ghost view = { λ p. record {
      archive = p.shelf.archive;
      turns = p.shelf.turns;
      now = record {
        bounds = p.bounds;
        shown = p.shelf.shown;
        wanted = bytes_if p.wanted;
        marks = p.marks.places;
        frames = p.frames.places;
        names = p.names;
        versions = p.versions;
      };
      rooms = record {
        files = p.shelf.entry_room;
        defs = p.shelf.def_room;
        uses = p.shelf.use_room;
        calls = p.shelf.call_room;
        marks = p.marks.room;
        frames = p.frames.room;
      };
    } };
}

/// Hides some files and shows others, and swaps the two lists.
fn turn_shown(shelf: &mut Shelf, hides: &mut Vec<Shown>, shows: &mut Vec<Shown>)
    requires hides { IsStrictlyIncreasing (names_of hides.old.items) }
    requires shows { CanShow (hidden shelf.old hides.old.items) shows.old.items }
    ensures shown { shelf.new.shown ≡ in_order (shown_name shelf.old.archive)
        (without hides.old.items shelf.old.shown ++ shows.old.items) }
    ensures archive { shelf.new.archive ≡ shelf.old.archive }
    ensures hides { hides.new.items ≡ shows.old.items }
    ensures shows { shows.new.items ≡ hides.old.items }
    ensures turns { shelf.new.turns
        ≡ counted shelf.old.turns (length hides.old.items + length shows.old.items) }
    ensures rise { shelf.old.turns ≤ shelf.new.turns }
    ensures room { KeepsRoom shelf.old shelf.new }
{
    // The count is a `u64`, so that it does not fall where it stops.
    let _turns = shelf.turns();
    shelf.hide_all(hides.as_slice());
    shelf.show_all(shows.as_slice());
    mem::swap(hides, shows);
}

/// Swaps the wanted text with another one, if there is another.
fn turn_wanted(wanted: &mut Option<Vec<u8>>, other: &mut Option<Option<Vec<u8>>>)
    ensures wanted { bytes_if wanted.new
        ≡ other_wanted (bytes_if_other other.old) (bytes_if wanted.old) }
    ensures other { bytes_if_other other.new
        ≡ kept_wanted (bytes_if_other other.old) (bytes_if wanted.old) }
{
    if let Some(text) = other {
        mem::swap(text, wanted);
    }
}

/// Makes edits, and makes them those that take them back.
fn turn_places(places: &mut PlaceList, edits: &mut PlaceEdits)
    requires { length (edited edits.old places.old.places) ≤ places.old.room }
    ensures places { places.new.places ≡ edited edits.old places.old.places }
    ensures edits { edits.new ≡ turned_edits edits.old }
    ensures room { places.old.room ≤ places.new.room }
{
    places.edit(edits);
    edits.turn();
}

/// Keeps names, in the room that is there.
fn keep_names(shelf: &mut Shelf, names: Vec<Vec<u8>>)
    requires { length shelf.old.archive.names + length names.items ≤ shelf.old.archive.name_room }
    ensures names { shelf.new.archive.names
        ≡ shelf.old.archive.names ++ map (λ n. n.items) names.items }
    ensures profile { shelf.new.archive.profile ≡ shelf.old.archive.profile }
    ensures texts { shelf.new.archive.texts ≡ shelf.old.archive.texts }
    ensures shown { shelf.new.shown ≡ shelf.old.shown }
    ensures turns { shelf.new.turns ≡ shelf.old.turns }
    ensures room { KeepsRoom shelf.old shelf.new }
{
    for name in names {
        let _ = shelf.push_name(name);
    }
}

/// A number and a count together, if they are a number.
fn sum(number: u32, count: usize) -> Option<u32>
    ensures { MatchOption result (2 ^ 32 ≤ number + count) (λ n. n ≡ number + count) }
{
    let count = u32::try_from(count).ok()?;
    number.checked_add(count)
}

impl Present {
    /// The world without a file. It takes no memory.
    pub(crate) fn new(alloc: Global, bounds: Bounds, profile: Profile) -> Present
        ensures profile { result.archive.profile ≡ profile }
        ensures now { result.now ≡ no_numbers bounds }
        ensures names { result.archive.names ≡ [] }
        ensures texts { result.archive.texts ≡ [] }
        ensures turns { result.turns ≡ 0 }
    {
        Present {
            bounds,
            shelf: Shelf::new(alloc, profile),
            wanted: None,
            marks: PlaceList::new(alloc),
            frames: PlaceList::new(alloc),
            names: 0,
            versions: 0,
        }
    }

    /// The profile by which its files are scanned.
    pub(crate) fn profile(&self) -> Profile
        ensures { result ≡ self.now.archive.profile }
    {
        self.shelf.archive().profile()
    }

    /// Its bounds.
    pub(crate) fn bounds(&self) -> Bounds
        ensures { result ≡ self.now.now.bounds }
    {
        self.bounds
    }

    /// Goes to the world that a record leads to. Then the record leads back.
    pub(crate) fn turn(&mut self, way: &mut Record)
        requires turn { IsTurn self.old.archive way.old self.old.now }
        requires there { AreThere self.old.archive (other self.old.archive way.old self.old.now) }
        requires room { Fits self.old.rooms self.old.archive
            (other self.old.archive way.old self.old.now) }
        ensures now { self.new.now ≡ other self.old.archive way.old self.old.now }
        ensures way { way.new ≡ turned way.old self.old.now }
        ensures archive { self.new.archive ≡ self.old.archive }
        ensures turns { self.new.turns
            ≡ counted self.old.turns (length way.old.hides + length way.old.shows) }
        ensures rise { self.old.turns ≤ self.new.turns }
        ensures rooms { KeepsRooms self.old.rooms self.new.rooms }
    {
        turn_shown(&mut self.shelf, &mut way.hides, &mut way.shows);
        turn_wanted(&mut self.wanted, &mut way.wanted);
        turn_places(&mut self.marks, &mut way.marks);
        turn_places(&mut self.frames, &mut way.frames);
        mem::swap(&mut self.names, &mut way.names);
        mem::swap(&mut self.versions, &mut way.versions);
    }

    /// Puts in order the index of definitions, by tag name or by name. It changes no answer, and
    /// takes no memory.
    pub(crate) fn settle(&mut self, by_tag_name: bool)
        ensures { self.new ≡ self.old }
    {
        self.shelf.flush(by_tag_name);
    }

    /// The room for what a plan brings, for all that is shown and for all that it shows, if its
    /// numbers are.
    fn room_for(&self, plan: &Plan) -> Option<Room>
        requires there { AreThere self.now.archive self.now.now }
        requires profile { plan.now.profile ≡ self.now.archive.profile }
        ensures { MatchOption result (IsCountable self.now plan.now → ⊥)
            (IsRoomFor self.now plan.now) }
    {
        let archive = self.shelf.archive();
        let shown = self.shelf.shown();
        let shows = plan.record.shows.as_slice();
        let news = &plan.versions;
        let now = self.shelf.totals();
        let all = with_versions(archive, self.versions, news, shows, now)?;
        Some(Room {
            versions: sum(self.versions, plan.versions.len())?,
            names: sum(self.names, plan.names.len())?,
            entries: sum(u32::try_from(shown.len()).ok()?, shows.len())?,
            defs: all.defs,
            uses: all.uses,
            calls: all.calls,
        })
    }

    /// Makes room for the world that a plan leads to, and for what it brings.
    pub(crate) fn reserve_for(&mut self, plan: &Plan) -> Result<(), AllocError>
        requires there { AreThere self.old.archive self.old.now }
        requires profile { plan.now.profile ≡ self.old.archive.profile }
        ensures names { OnOk result
            (self.old.now.names + length plan.now.names ≤ self.new.archive.name_room) }
        ensures versions { OnOk result
            (self.old.now.versions + length plan.now.texts ≤ self.new.archive.version_room) }
        ensures fits { OnOk result
            (HasRoomFor self.new.rooms self.old.archive self.old.now plan.now) }
        ensures same_profile { self.new.archive.profile ≡ self.old.archive.profile }
        ensures same_names { self.new.archive.names ≡ self.old.archive.names }
        ensures same_texts { self.new.archive.texts ≡ self.old.archive.texts }
        ensures now { self.new.now ≡ self.old.now }
        ensures turns { self.new.turns ≡ self.old.turns }
        ensures rooms { KeepsRooms self.old.rooms self.new.rooms }
    {
        let room = self.room_for(plan).ok_or(AllocError)?;
        match self.shelf.reserve(&room) {
            Ok(()) => {}
            Err(_) => return Err(AllocError),
        }
        self.marks.reserve_more(plan.record.marks.more())?;
        self.frames.reserve_more(plan.record.frames.more())
    }

    /// Drops from the archive what only later worlds use, and keeps new names and versions, in the
    /// room that is there.
    pub(crate) fn keep(&mut self, names: Vec<Vec<u8>>, versions: NewVersions)
        requires profile { versions.profile ≡ self.old.archive.profile }
        requires there { AreThere self.old.archive self.old.now }
        requires names { self.old.now.names + length names.items ≤ self.old.archive.name_room }
        requires versions { self.old.now.versions + length versions.texts
            ≤ self.old.archive.version_room }
        ensures profile { self.new.archive.profile ≡ self.old.archive.profile }
        ensures names { self.new.archive.names
            ≡ take self.old.now.names self.old.archive.names ++ map (λ n. n.items) names.items }
        ensures texts { self.new.archive.texts
            ≡ take self.old.now.versions self.old.archive.texts ++ versions.texts }
        ensures now { self.new.now ≡ self.old.now }
        ensures turns { self.new.turns ≡ self.old.turns }
        ensures rooms { KeepsRooms self.old.rooms self.new.rooms }
    {
        self.shelf.truncate(self.versions, self.names);
        keep_names(&mut self.shelf, names);
        versions.keep_in(&mut self.shelf);
    }

    /// Drops from the archive each version that this world does not show, and each name that only
    /// later worlds use. Versions get other numbers, without gaps. It takes no memory.
    pub(crate) fn compact(&mut self)
        requires { IsKept self.old.rooms self.old.archive self.old.now }
        ensures { IsCompacted self.old self.new }
    {
        let shelf = &mut self.shelf;
        shelf.truncate(self.versions, self.names);
        shelf.compact();
        let _shown = shelf.shown();
        self.versions = shelf.archive().version_count() as u32;
    }
}

// ---- readers

impl Present {
    /// The shelf that shows its files.
    pub(crate) fn shelf(&self) -> &Shelf
        ensures archive { result.now.archive ≡ self.now.archive }
        ensures shown { result.now.shown ≡ self.now.now.shown }
        ensures turns { result.now.turns ≡ self.now.turns }
    {
        &self.shelf
    }

    /// The wanted text.
    pub(crate) fn wanted(&self) -> Option<&[u8]>
        ensures { option_copied result ≡ self.now.now.wanted }
    {
        match &self.wanted {
            Some(text) => Some(text.as_slice()),
            None => None,
        }
    }

    /// The marks, by file and line.
    pub(crate) fn marks(&self) -> Places<'_>
        ensures { result ≡ map (place_in self.now.archive) self.now.now.marks }
    {
        Places::new(self.shelf.archive(), self.marks.as_slice())
    }

    /// The frames, bottom first.
    pub(crate) fn frames(&self) -> Places<'_>
        ensures { result ≡ map (place_in self.now.archive) self.now.now.frames }
    {
        Places::new(self.shelf.archive(), self.frames.as_slice())
    }
}
