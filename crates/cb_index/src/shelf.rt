//! Versions that are shown under file names, and what is found in them.
ghost use Rattle.std.specs.Prelude.{◌≡◌, ◌<◌, ◌≤◌, ◌+◌, ◌-◌, ◌^◌, ◌++◌, ◌∷◌, [], ℕ, MatchOption};
ghost use Rattle.std.specs.Prelude.{OnOk, false, filter, length, map, min, nat_eq, not, take, true};
ghost use Rattle.std.specs.List.{AllByRecursion, swap_remove};
ghost use Rattle.std.specs.List.Sorted.{IsStrictlyIncreasing};
ghost use Rattle.cb_scan.specs.Order.{in_order, put};
ghost use Rattle.cb_index.specs.Archived.{AreBytes};
ghost use Rattle.cb_index.specs.Compact.{ShowsAll, ShowsSame, shows_version};
ghost use Rattle.cb_index.specs.Counts.{rows_in_files, unlike_in_files};
ghost use Rattle.cb_index.specs.Files.{AreAscending, IsThere, shown_name};
ghost use Rattle.cb_index.specs.Kinds.{def_kind};
ghost use Rattle.cb_index.specs.Names.{is_among, names_of};
ghost use Rattle.cb_index.specs.Rows.{calls_in, calls_of, facts_named, file_facts, tags_by_name};
ghost use Rattle.cb_index.specs.Rows.{tags_by_tag_name, tags_from_name, tags_named, uses_of};
ghost use Rattle.cb_index.specs.Shelved.{AreTotals, CanShow, IsIndex, KeepsRoom, def_place, files};
ghost use Rattle.cb_index.specs.Shelved.{larger_room, with_facts};
ghost use Rattle.cb_index.specs.declared.entry.Shown.{Shown};
ghost use Rattle.cb_index.specs.steps.Compact.{IsAmong, renumbered};
ghost use Rattle.cb_index.specs.steps.Left.{entries_left, facts_counted, facts_left, facts_new};
ghost use Rattle.cb_index.specs.steps.Left.{tags_left};
ghost use Rattle.cb_index.specs.steps.ShownIn.{shown_in};
ghost use Rattle.cb_index.specs.steps.ToCome.{asked_tags};

use crate::archive::{Archive, OutOfMemory, Version, read_bytes};
use crate::blocks::BlockList;
use crate::entry::{Asked, FactKind, IndexKind, Shown};
use crate::facts::FactRows;
use crate::files::ShownFiles;
use crate::includes::Entries;
use crate::index::{Index, put_in_each, reserve_each, take_from_each, take_names_from_each};
use crate::shown::{are_there, ascend, has_any_name};
use crate::tags::{DefSearch, Defs, TagRows};
use crate::totals::{Totals, totals_of};
use cb_scan::Profile;
use std::alloc::Global;
use std::marker::Model;

/// So many of each in all.
#[derive(Clone, Copy, Debug, PartialEq, Eq)]
pub struct Room {
    pub versions: u32,
    pub names: u32,
    /// Versions that are shown at once.
    pub entries: u32,
    /// The definitions, uses and calls of those.
    pub defs: u64,
    pub uses: u64,
    pub calls: u64,
}

/// Files are hidden one after another where they are at most this part of what is shown.
const FEW: usize = 8;

/// An archive, the versions that are shown of it, each under a file name, and two indexes of the
/// definitions in these. No two versions are shown under one file name. Only `reserve` takes memory.
///
/// The definitions of a version that is shown are pending at first, so that those of many are put in
/// order together by `flush`. Before that a question walks over the files: it answers the same, in
/// more time. Uses and calls are found file by file.
#[derive(Drop)]
pub struct Shelf {
    archive: Archive,
    shown: BlockList<Shown>,
    indexes: [Index; 2],
    totals: Totals,
    room: Room,
    index_updates: u64,
}

impl Model for Shelf {
    ghost use Rattle.cb_index.specs.Shelved.{AreKept, AreTotals, AreWithin, Shelved};

    ghost Value = { Shelved };

    ghost view = { λ s. record {
      archive = s.archive;
      shown = s.shown.items;
      turns = s.index_updates;
      entry_room = s.room.entries;
      def_room = s.room.defs;
      use_room = s.room.uses;
      call_room = s.room.calls;
    } };

    ghost invariant = { λ s. AreKept s.archive s.shown.items s.indexes
        × AreTotals s.archive s.shown.items s.totals
        × AreWithin s.shown.items s.shown.room s.totals s.room s.indexes };
}

/// The place of an index of definitions: by tag name, or by name.
fn place_of(by_tag_name: bool) -> usize
    ensures { result ≡ def_place by_tag_name }
{
    if by_tag_name { 1 } else { 0 }
}

/// The greater room of each.
fn larger(a: &Room, b: &Room) -> Room
    ensures { result ≡ larger_room a.now b.now }
{
    Room {
        versions: a.versions.max(b.versions),
        names: a.names.max(b.names),
        entries: a.entries.max(b.entries),
        defs: a.defs.max(b.defs),
        uses: a.uses.max(b.uses),
        calls: a.calls.max(b.calls),
    }
}

/// Says that what there is room for can be counted. It does nothing.
fn read_room(room: Room)
    ensures defs { room.defs < 2 ^ 64 }
    ensures uses { room.uses < 2 ^ 64 }
    ensures calls { room.calls < 2 ^ 64 }
{
    let _facts = (room.defs, room.uses, room.calls);
}

impl Shelf {
    /// A shelf that keeps and shows nothing. It takes no memory.
    pub fn new(alloc: Global, profile: Profile) -> Shelf
        ensures profile { result.archive.profile ≡ profile }
        ensures names { result.archive.names ≡ [] }
        ensures texts { result.archive.texts ≡ [] }
        ensures shown { result.shown ≡ [] }
        ensures turns { result.turns ≡ 0 }
    {
        Shelf {
            archive: Archive::new(alloc, profile),
            shown: BlockList::new(alloc),
            indexes: [
                Index::new(alloc, IndexKind::DefsByName),
                Index::new(alloc, IndexKind::DefsByTagName),
            ],
            totals: Totals {
                defs: 0,
                uses: 0,
                calls: 0,
            },
            room: Room {
                versions: 0,
                names: 0,
                entries: 0,
                defs: 0,
                uses: 0,
                calls: 0,
            },
            index_updates: 0,
        }
    }

    /// What is kept.
    pub fn archive(&self) -> &Archive
        ensures { result.now ≡ self.now.archive }
    {
        &self.archive
    }

    /// What is shown, by file name.
    pub fn shown(&self) -> ShownFiles<'_>
        ensures value { shown_in result ≡ self.now.shown }
        ensures there { AllByRecursion (IsThere self.now.archive) (shown_in result) }
        ensures ascending { AreAscending self.now.archive (shown_in result) }
    {
        self.shown.files()
    }

    /// How often something was shown or hidden, up to the greatest number.
    pub fn turns(&self) -> u64
        ensures { result ≡ self.now.turns }
    {
        self.index_updates
    }

    /// How many facts of each kind all that is shown has.
    pub fn totals(&self) -> Totals
        ensures { AreTotals self.now.archive self.now.shown result }
    {
        self.totals
    }

    /// Makes that much room in all. What is kept and shown stays, also where memory is refused.
    pub fn reserve(&mut self, room: &Room) -> Result<(), OutOfMemory>
        ensures names { OnOk result (room.now.names ≤ self.new.archive.name_room) }
        ensures versions { OnOk result (room.now.versions ≤ self.new.archive.version_room) }
        ensures entries { OnOk result (room.now.entries ≤ self.new.entry_room) }
        ensures defs { OnOk result (room.now.defs ≤ self.new.def_room) }
        ensures uses { OnOk result (room.now.uses ≤ self.new.use_room) }
        ensures calls { OnOk result (room.now.calls ≤ self.new.call_room) }
        ensures same_profile { self.new.archive.profile ≡ self.old.archive.profile }
        ensures same_names { self.new.archive.names ≡ self.old.archive.names }
        ensures same_texts { self.new.archive.texts ≡ self.old.archive.texts }
        ensures same_shown { self.new.shown ≡ self.old.shown }
        ensures same_turns { self.new.turns ≡ self.old.turns }
        ensures room { KeepsRoom self.old self.new }
    {
        let room = larger(&self.room, room);
        match self.archive.reserve(room.names, room.versions) {
            Ok(()) => {}
            Err(_) => return Err(OutOfMemory),
        }
        self.shown.reserve(room.entries as u64)?;
        reserve_each(&mut self.indexes, &room)?;
        self.room = room;
        Ok(())
    }

    /// Keeps a name under the number that is answered: the count of names before.
    pub fn push_name(&mut self, name: Vec<u8>) -> u32
        requires { length self.old.archive.names < self.old.archive.name_room }
        ensures value { result ≡ length self.old.archive.names }
        ensures profile { self.new.archive.profile ≡ self.old.archive.profile }
        ensures names { self.new.archive.names ≡ self.old.archive.names ++ name.items ∷ [] }
        ensures texts { self.new.archive.texts ≡ self.old.archive.texts }
        ensures shown { self.new.shown ≡ self.old.shown }
        ensures turns { self.new.turns ≡ self.old.turns }
        ensures room { KeepsRoom self.old self.new }
    {
        self.archive.push_name(name)
    }

    /// Keeps a version under the number that is answered: the count of versions before.
    pub fn push_version(&mut self, version: Version) -> u32
        requires profile { version.profile ≡ self.old.archive.profile }
        requires room { length self.old.archive.texts < self.old.archive.version_room }
        ensures value { result ≡ length self.old.archive.texts }
        ensures profile { self.new.archive.profile ≡ self.old.archive.profile }
        ensures texts { self.new.archive.texts ≡ self.old.archive.texts ++ version.bytes ∷ [] }
        ensures names { self.new.archive.names ≡ self.old.archive.names }
        ensures shown { self.new.shown ≡ self.old.shown }
        ensures turns { self.new.turns ≡ self.old.turns }
        ensures room { KeepsRoom self.old self.new }
    {
        self.archive.push_version(version)
    }

    /// Keeps only the first `versions` versions and the first `names` names.
    pub fn truncate(&mut self, versions: u32, names: u32)
        requires { AllByRecursion (λ (s : Shown). (s.version < versions) × (s.name < names))
            self.old.shown }
        ensures profile { self.new.archive.profile ≡ self.old.archive.profile }
        ensures texts { self.new.archive.texts ≡ take versions self.old.archive.texts }
        ensures names { self.new.archive.names ≡ take names self.old.archive.names }
        ensures shown { self.new.shown ≡ self.old.shown }
        ensures turns { self.new.turns ≡ self.old.turns }
        ensures room { KeepsRoom self.old self.new }
    {
        self.archive.truncate(versions, names);
    }

    /// Whether versions, whose file names ascend, can be shown together: they are there, no file of
    /// one of their names is shown, and there is room for all.
    pub fn can_show(&self, news: &[Shown]) -> bool
        ensures can { result ≡ true → CanShow self.now news.now }
        ensures cannot { AreAscending self.now.archive news.now → CanShow self.now news.now
            → result ≡ true }
    {
        if !are_there(&self.archive, news) || !ascend(&self.archive, news) {
            return false;
        }
        if has_any_name(&self.archive, news, self.shown()) {
            return false;
        }
        read_room(self.room);
        let Some(more) = totals_of(&self.archive, news) else {
            return false;
        };
        news.len() <= self.room.entries as usize - self.shown().len()
            && more.defs <= self.room.defs - self.totals.defs
            && more.uses <= self.room.uses - self.totals.uses
            && more.calls <= self.room.calls - self.totals.calls
    }

    /// Shows a version under a name, in the room that is there. It takes no memory.
    pub fn show(&mut self, name: u32, version: u32)
        requires { CanShow self.old (record { name = name; version = version } ∷ []) }
        ensures shown { self.new.shown ≡ put (shown_name self.old.archive)
            (record { name = name; version = version }) self.old.shown }
        ensures archive { self.new.archive ≡ self.old.archive }
        ensures turns { self.new.turns ≡ min (self.old.turns + 1) (2 ^ 64 - 1) }
        ensures room { KeepsRoom self.old self.new }
    {
        // No two of the versions that are shown have one file name.
        let _shown = self.shown().len();
        self.show_all(&[Shown { name, version }]);
    }

    /// Shows versions together, each under its name, in the room that is there. It takes no memory.
    pub fn show_all(&mut self, news: &[Shown])
        requires { CanShow self.old news.now }
        ensures shown { self.new.shown
            ≡ in_order (shown_name self.old.archive) (self.old.shown ++ news.now) }
        ensures archive { self.new.archive ≡ self.old.archive }
        ensures turns { self.new.turns ≡ min (self.old.turns + length news.now) (2 ^ 64 - 1) }
        ensures room { KeepsRoom self.old self.new }
    {
        self.totals = self.totals.with(&self.archive, news);
        self.shown.put_all(&self.archive, news);
        put_in_each(&mut self.indexes, news);
        self.index_updates = self.index_updates.saturating_add(news.len() as u64);
    }

    /// Hides what is shown under a name. It takes no memory.
    pub fn hide(&mut self, name: u32)
        ensures shown { self.new.shown
            ≡ filter (λ (s : Shown). not (nat_eq s.name name)) self.old.shown }
        ensures archive { self.new.archive ≡ self.old.archive }
        ensures turns { self.new.turns ≡ min (self.old.turns + 1) (2 ^ 64 - 1) }
        ensures room { KeepsRoom self.old self.new }
    {
        self.index_updates = self.index_updates.saturating_add(1);
        let one = match self.shown.take_under(&self.archive, name) {
            Some(one) => one,
            None => return,
        };
        self.totals = self.totals.without(&self.archive, one.version);
        take_from_each(&mut self.indexes, &self.archive, one);
    }

    /// Hides what is shown under the names of many files, the number of each name below that of the
    /// next: one after another where they are few, else in one pass of each index. It takes no
    /// memory.
    pub fn hide_all(&mut self, files: &[Shown])
        requires { IsStrictlyIncreasing (names_of files.now) }
        ensures shown { self.new.shown
            ≡ filter (λ (s : Shown). not (is_among (names_of files.now) s.name)) self.old.shown }
        ensures archive { self.new.archive ≡ self.old.archive }
        ensures turns { self.new.turns ≡ min (self.old.turns + length files.now) (2 ^ 64 - 1) }
        ensures room { KeepsRoom self.old self.new }
    {
        if files.len() <= self.shown.files().len() / FEW {
            for file in files {
                self.hide(file.name);
            }
        } else {
            self.pass_over(files);
        }
    }

    /// Hides what is shown under the names of many files in one pass of each index.
    fn pass_over(&mut self, files: &[Shown])
        requires { IsStrictlyIncreasing (names_of files.now) }
        ensures shown { self.new.shown
            ≡ filter (λ (s : Shown). not (is_among (names_of files.now) s.name)) self.old.shown }
        ensures archive { self.new.archive ≡ self.old.archive }
        ensures turns { self.new.turns ≡ min (self.old.turns + length files.now) (2 ^ 64 - 1) }
        ensures room { KeepsRoom self.old self.new }
    {
        self.shown.take_names(files);
        self.totals = self.totals.of_fewer(&self.archive, self.shown.files());
        take_names_from_each(&mut self.indexes, files);
        self.index_updates = self.index_updates.saturating_add(files.len() as u64);
    }

    /// A file that shows a version, if one does.
    fn with_version(&self, version: usize) -> Option<Shown>
        ensures found { MatchOption result (shows_version version self.now.shown ≡ false)
            (λ s. (s.version ≡ version) × IsAmong self.now.shown s) }
        ensures there { AllByRecursion (IsThere self.now.archive) self.now.shown }
        ensures ascending { AreAscending self.now.archive self.now.shown }
    {
        let likely = self.archive.likely_place(version);
        self.shown.with_version(version, likely)
    }

    /// Lets a version go that is not shown. The last one, if that is another, gets its number: it
    /// is hidden, and shown again under it, once for each name.
    fn remove(&mut self, version: usize)
        requires there { version < length self.old.archive.texts }
        requires hidden { shows_version version self.old.shown ≡ false }
        ensures profile { self.new.archive.profile ≡ self.old.archive.profile }
        ensures names { self.new.archive.names ≡ self.old.archive.names }
        ensures texts { self.new.archive.texts ≡ swap_remove self.old.archive.texts version [] }
        ensures shown { self.new.shown
            ≡ map (renumbered (length self.old.archive.texts - 1) version) self.old.shown }
        ensures turns { self.new.turns ≡ self.old.turns }
        ensures room { KeepsRoom self.old self.new }
    {
        let last = self.archive.version_count() - 1;
        let one = match self.with_version(last) {
            Some(one) => one,
            None => {
                self.archive.remove(version);
                return;
            }
        };
        let index_updates = self.index_updates;
        self.hide(one.name);
        self.remove(version);
        self.show(one.name, version as u32);
        self.index_updates = index_updates;
    }

    /// Gives the number of a version to the last one, if that is shown and this one is not.
    fn fill(&mut self, version: usize)
        requires there { version < length self.old.archive.texts }
        requires last { shows_version (length self.old.archive.texts - 1) self.old.shown ≡ true }
        ensures same { ShowsSame self.old self.new }
        ensures shown { shows_version version self.new.shown ≡ true }
        ensures below { (u : ℕ) → u < version → shows_version u self.old.shown ≡ true
            → shows_version u self.new.shown ≡ true }
        ensures fewer { length self.new.archive.texts ≤ length self.old.archive.texts }
        ensures turns { self.new.turns ≡ self.old.turns }
        ensures room { KeepsRoom self.old self.new }
    {
        if self.with_version(version).is_none() {
            self.remove(version);
            self.note_places();
        }
    }

    /// Notes where each version stands that is shown, so that it is found at once.
    fn note_places(&mut self)
        ensures { self.new ≡ self.old }
    {
        self.shown.note_places(&mut self.archive);
    }

    /// Lets all versions go that are not shown. What is shown stays, and versions of it get the
    /// numbers that are free then. It takes no memory.
    pub fn compact(&mut self)
        ensures same { ShowsSame self.old self.new }
        ensures all { ShowsAll self.new }
        ensures fewer { length self.new.archive.texts ≤ length self.old.archive.texts }
        ensures turns { self.new.turns ≡ self.old.turns }
        ensures room { KeepsRoom self.old self.new }
    {
        self.note_places();
        let mut version = 0;
        while version < self.archive.version_count() {
            let last = self.archive.version_count() - 1;
            if self.with_version(last).is_none() {
                self.remove(last);
            } else {
                self.fill(version);
                version += 1;
            }
        }
    }

    /// The files that are shown, by name, each with what is found in it.
    pub fn entries(&self) -> Entries<'_>
        ensures { entries_left result ≡ map (with_facts self.now.archive.profile) (files self.now) }
    {
        Entries {
            archive: &self.archive,
            shown: self.shown.files(),
        }
    }

    /// Puts what is pending in order in an index of definitions, by tag name or by name, in the room
    /// that is there, so that it answers at once. It changes no answer, and takes no memory.
    pub fn flush(&mut self, by_tag_name: bool)
        ensures { self.new ≡ self.old }
    {
        self.indexes[place_of(by_tag_name)].flush(&self.archive);
    }

    /// The index of definitions by tag name, or by name.
    fn index(&self, by_tag_name: bool) -> &Index
        ensures kind { result.now.kind ≡ def_kind by_tag_name }
        ensures index { IsIndex self.now.archive self.now.shown result.now }
    {
        &self.indexes[place_of(by_tag_name)]
    }

    /// Definitions by tag name, or by name: those that are asked for. They are looked up in the
    /// index, or searched in the files where some are pending.
    fn in_order<'a, 'p>(&'a self, by_tag_name: bool, asked: Asked<'p>) -> TagRows<'a, 'p>
        ensures tags { tags_left result ≡ asked_tags (def_kind by_tag_name) self.now.archive
            asked.entry self.now.shown }
        ensures there { AllByRecursion (IsThere self.now.archive) self.now.shown }
        ensures ascending { AreAscending self.now.archive self.now.shown }
        ensures bytes { AllByRecursion AreBytes self.now.archive.texts }
    {
        self.archive.read_texts();
        read_room(self.room);
        let index = self.index(by_tag_name);
        if !index.is_flushed() {
            let shown = self.shown.files();
            return TagRows {
                archive: &self.archive,
                defs: Defs::Searched(DefSearch::new(by_tag_name, &self.archive, shown, asked)),
            };
        }
        TagRows {
            archive: &self.archive,
            defs: Defs::Indexed(index.asked(&self.archive, asked)),
        }
    }

    /// The definitions of a name, by file and place.
    pub fn defs<'a, 'p>(&'a self, name: &'p [u8]) -> TagRows<'a, 'p>
        ensures { tags_left result ≡ tags_named self.now.archive.profile name.now (files self.now) }
    {
        self.in_order(false, Asked::OfKey(name))
    }

    /// The definitions whose names are not less than a name in the order of their bytes, by name.
    pub fn defs_from<'a, 'p>(&'a self, name: &'p [u8]) -> TagRows<'a, 'p>
        ensures { tags_left result
            ≡ tags_from_name self.now.archive.profile name.now (files self.now) }
    {
        read_bytes(name);
        self.in_order(false, Asked::FromKey(name))
    }

    /// All definitions, by name.
    pub fn all_defs(&self) -> TagRows<'_, '_>
        ensures { tags_left result ≡ tags_by_name self.now.archive.profile (files self.now) }
    {
        self.in_order(false, Asked::Every)
    }

    /// All definitions, by the names that a plain tags file has for them.
    pub fn tags(&self) -> TagRows<'_, '_>
        ensures { tags_left result ≡ tags_by_tag_name self.now.archive.profile (files self.now) }
    {
        self.in_order(true, Asked::Every)
    }

    /// The uses or calls of a kind that have a key, by file and place. They are searched for in the
    /// files.
    pub fn facts<'a, 'p>(&'a self, kind: FactKind, key: &'p [u8]) -> FactRows<'a, 'p>
        ensures rows { facts_left result
            ≡ facts_named self.now.archive.profile kind key.now (files self.now) }
        ensures new { facts_new result ≡ unlike_in_files kind
            (file_facts self.now.archive.profile kind key.now) (files self.now) }
        ensures counted { facts_counted result ≡ rows_in_files kind
            (file_facts self.now.archive.profile kind key.now) (files self.now) }
    {
        FactRows::searched(kind, &self.archive, key, self.shown.files())
    }

    /// The uses of a name, by file and place.
    pub fn uses<'a, 'p>(&'a self, name: &'p [u8]) -> FactRows<'a, 'p>
        ensures { facts_left result ≡ uses_of self.now.archive.profile name.now (files self.now) }
    {
        self.facts(FactKind::Uses, name)
    }

    /// The calls of a name, by file and place.
    pub fn calling<'a, 'p>(&'a self, name: &'p [u8]) -> FactRows<'a, 'p>
        ensures { facts_left result ≡ calls_of self.now.archive.profile name.now (files self.now) }
    {
        self.facts(FactKind::Callees, name)
    }

    /// The calls that stand in what has that name, by file and place.
    pub fn called_by<'a, 'p>(&'a self, name: &'p [u8]) -> FactRows<'a, 'p>
        ensures { facts_left result ≡ calls_in self.now.archive.profile name.now (files self.now) }
    {
        self.facts(FactKind::Callers, name)
    }
}
