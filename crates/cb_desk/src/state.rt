//! The state of a session.
ghost use Rattle.std.specs.Prelude.{◌≡◌, ◌≢◌, [], IfErr, IfOk, OnOk, length};
ghost use Rattle.std.specs.Option.{option_copied, option_map};
ghost use Rattle.cb_scan.specs.Profiles.{facts_in};
ghost use Rattle.cb_index.specs.Rows.{calls_in, calls_of, tags_from_name, tags_named, uses_of};
ghost use Rattle.cb_desk.specs.Answer.{answer};
ghost use Rattle.cb_desk.specs.Desk.{Counts, CountsUpTo, bytes_in, counted, definitions_in};
ghost use Rattle.cb_desk.specs.Desk.{scanned};
ghost use Rattle.cb_desk.specs.Models.{scanned_of, step_of};
ghost use Rattle.cb_desk.specs.Scanned.{scanned_named};
ghost use Rattle.cb_desk.specs.Tags.{tags};
ghost use Rattle.cb_desk.specs.Timeline.{Changes, IsValidTimeline, Moves, forgotten, new_timeline};
ghost use Rattle.cb_desk.specs.Timeline.{redone, undone};
ghost use Rattle.cb_desk.specs.Turns.{LoadTurns, Turns};
ghost use Rattle.cb_desk.specs.World.{IsValidWorld, text_named};

use crate::history::History;
use crate::{
    Bounds, Change, Definitions, Field, Files, Format, Places, Refusal, Rows, TagRows, Uses,
    answers,
};
use cb_scan::{Facts, Meter, Profile, Source, scan};
use std::alloc::{AllocError, Global};
use std::marker::Model;

/// The files with their past and future. A text is scanned as it comes in, and not once more: undo
/// and redo go along records, and answers are read from indexes. None of these takes memory.
#[derive(Drop)]
pub struct Desk {
    history: History,
    meter: Meter,
}

impl Model for Desk {
    ghost use Rattle.cb_desk.specs.Desk.{DeskState};
    ghost use Rattle.cb_desk.specs.Timeline.{IsValidTimeline};
    ghost use Rattle.cb_desk.specs.steps.Walks.{timeline_in};

    ghost Value = { DeskState };

    ghost view = { λ d. record {
      timeline = timeline_in d.history;
      meter = d.meter;
      turns = d.history.kept.turns;
    } };

    ghost invariant = { λ d. IsValidTimeline (timeline_in d.history) };
}

/// Scans a file, and drops what is found: how many definitions that is.
fn scan_file(
    alloc: Global,
    meter: &mut Meter,
    profile: Profile,
    source: &Source,
) -> Result<u64, AllocError>
    ensures counted { meter.new ≡ counted meter.old (length source.now) }
    ensures found { IfOk result (λ found. found ≡ length (facts_in profile source.now).defs) }
{
    match scan(alloc, meter, profile, source) {
        Ok(facts) => Ok(facts.defs().len() as u64),
        Err(_) => Err(AllocError),
    }
}

/// Scans files, and drops what is found: how many definitions that is, up to the greatest number.
fn scan_files(
    alloc: Global,
    meter: &mut Meter,
    profile: Profile,
    files: Files<'_>,
) -> Result<u64, AllocError>
    ensures meter { CountsUpTo (bytes_in files.entry) meter.old meter.new result }
    ensures found { IfOk result (λ found. found ≡ counted 0 (definitions_in profile files.entry)) }
{
    let _counted = meter.read();
    let mut found = 0u64;
    for (_, source) in files {
        let more = scan_file(alloc, meter, profile, source)?;
        found = found.saturating_add(more);
    }
    Ok(found)
}

impl Desk {
    /// The empty world within these bounds, with no past and no future. All its files are scanned
    /// by the profile. It takes no memory.
    pub fn new(alloc: Global, bounds: Bounds, profile: Profile) -> Desk
        ensures timeline { result.timeline ≡ new_timeline profile bounds }
        ensures meter { result.meter ≡ 0 }
        ensures turns { result.turns ≡ 0 }
    {
        Desk {
            history: History::new(alloc, bounds, profile),
            meter: Meter::new(),
        }
    }

    /// Makes a change. After a refusal the files, their past and their future are as before, and
    /// the bytes of the change are dropped.
    pub fn change(&mut self, alloc: Global, change: Change<'_>) -> Result<(), Refusal>
        ensures timeline { Changes (step_of change.entry) self.old.timeline
            self.new.timeline result }
        ensures meter { Counts (scanned self.old.timeline.present (step_of change.entry))
            self.old.meter self.new.meter result }
        ensures turns { Turns self.old.timeline.present self.new.timeline.present self.old.turns
            self.new.turns result }
        ensures load { OnOk result
            (LoadTurns (step_of change.entry) self.old.turns self.new.turns) }
    {
        // A growth can fail only after all is judged. All growths come before the first move.
        let _counted = self.meter.read();
        let place = self.history.place_of(&change);
        let present = self.history.present();
        if let Some(refusal) = present.refusal_of(&change, place) {
            return Err(refusal);
        }
        if self.history.is_full() {
            return Err(Refusal::HistoryFull);
        }
        let plan = present.plan(alloc, &mut self.meter, change, place)?;
        self.history.go(plan)?;
        Ok(())
    }

    /// Takes the last change back.
    pub fn undo(&mut self) -> Result<(), Refusal>
        ensures timeline { Moves (undone self.old.timeline) self.old.timeline
            self.new.timeline result }
        ensures meter { self.new.meter ≡ self.old.meter }
        ensures turns { Turns self.old.timeline.present self.new.timeline.present self.old.turns
            self.new.turns result }
    {
        self.history.undo()
    }

    /// Makes the last change that was taken back again.
    pub fn redo(&mut self) -> Result<(), Refusal>
        ensures timeline { Moves (redone self.old.timeline) self.old.timeline
            self.new.timeline result }
        ensures meter { self.new.meter ≡ self.old.meter }
        ensures turns { Turns self.old.timeline.present self.new.timeline.present self.old.turns
            self.new.turns result }
    {
        self.history.redo()
    }

    /// Forgets the past and the future: nothing can be undone then, and nothing done again. The
    /// present world stays, and each text goes that it does not show. It takes no memory.
    pub fn forget(&mut self)
        ensures timeline { self.new.timeline ≡ forgotten self.old.timeline }
        ensures meter { self.new.meter ≡ self.old.meter }
        ensures turns { self.new.turns ≡ self.old.turns }
    {
        self.history.forget();
    }

    /// Scans every present file again. The files, their past and their future stay.
    pub fn rebuild(&mut self, alloc: Global) -> Result<(), Refusal>
        ensures timeline { self.new.timeline ≡ self.old.timeline }
        ensures meter { Counts (bytes_in self.old.timeline.present.files) self.old.meter
            self.new.meter result }
        ensures turns { self.new.turns ≡ self.old.turns }
        ensures memory { IfErr result (λ r. r ≡ Refusal.OutOfMemory) }
    {
        let profile = self.profile();
        let files = Files::new(self.history.present().shelf());
        scan_files(alloc, &mut self.meter, profile, files)?;
        Ok(())
    }

    /// How many bytes were scanned, up to the greatest number.
    pub fn meter(&self) -> u64
        ensures { result ≡ self.now.meter }
    {
        self.meter.read()
    }

    /// How often a file was shown or hidden, up to the greatest number.
    pub fn turns(&self) -> u64
        ensures { result ≡ self.now.turns }
    {
        self.history.present().shelf().turns()
    }

    /// The profile by which all its files are scanned.
    pub fn profile(&self) -> Profile
        ensures { result ≡ self.now.timeline.present.profile }
    {
        self.history.present().profile()
    }

    /// The bounds of all its worlds.
    pub fn bounds(&self) -> Bounds
        ensures { result ≡ self.now.timeline.present.bounds }
    {
        self.history.present().bounds()
    }

    /// The present files, name and text, by name.
    pub fn files(&self) -> Files<'_>
        ensures value { result ≡ self.now.timeline.present.files }
        ensures valid { IsValidWorld self.now.timeline.present }
        ensures timeline { IsValidTimeline self.now.timeline }
    {
        Files::new(self.history.present().shelf())
    }

    /// The text of the file of that name, if there is one.
    pub fn source(&self, name: &[u8]) -> Option<&Source>
        ensures { option_copied result ≡ text_named self.now.timeline.present.files name.now }
    {
        answers::source(self.history.present().shelf(), name)
    }

    /// The text of the file of that name with what its profile finds in it, if there is one. No
    /// text is scanned for that: it was as it came in.
    pub fn scanned(&self, name: &[u8]) -> Option<(&Source, &Facts)>
        ensures { option_map scanned_of result ≡ scanned_named self.now.timeline.present.profile
            self.now.timeline.present.files name.now }
    {
        answers::scanned(self.history.present().shelf(), name)
    }

    /// The text that is wanted, if one is.
    pub fn wanted(&self) -> Option<&[u8]>
        ensures { option_copied result ≡ self.now.timeline.present.wanted }
    {
        self.history.present().wanted()
    }

    /// The present marks, each a file's name and a line, by file and line.
    pub fn marks(&self) -> Places<'_>
        ensures { result ≡ self.now.timeline.present.marks }
    {
        self.history.present().marks()
    }

    /// The present frames, each a file's name and a line, bottom first.
    pub fn frames(&self) -> Places<'_>
        ensures { result ≡ self.now.timeline.present.frames }
    {
        self.history.present().frames()
    }

    /// Puts in order what questions of a field read, where files came in since the last one, so
    /// that they are answered at once. It changes no answer, and takes no memory.
    pub fn settle(&mut self, field: Field)
        ensures { self.new ≡ self.old }
    {
        if field == Field::Definition {
            self.history.settle(false);
        }
    }

    /// Puts in order what tags of a format read, where files came in since the last ones, so that
    /// they are given at once. It changes no answer, and takes no memory.
    pub fn settle_tags(&mut self, format: Format)
        ensures { self.new ≡ self.old }
    {
        match format {
            Format::Plain => self.history.settle(true),
            Format::Extended => self.history.settle(false),
        }
    }

    /// The rows that answer a question, by file and place; equal ones once.
    pub fn rows<'a, 'p>(&'a self, field: Field, pattern: &'p [u8]) -> Rows<'a, 'p>
        requires { pattern.now ≢ [] }
        ensures { result ≡ answer self.now.timeline.present field pattern.now }
    {
        Rows::new(self.history.present().shelf(), field, pattern)
    }

    /// The definitions of a name in the present world as tags, by file and place: all that the
    /// profile finds, so that external declarations and prototypes are among them.
    pub fn definitions<'a, 'p>(&'a self, name: &'p [u8]) -> Definitions<'a, 'p>
        ensures { result ≡ tags_named self.now.timeline.present.profile name.now
            self.now.timeline.present.files }
    {
        Definitions::new(self.history.present().shelf(), name)
    }

    /// The uses of a name in the present world, by file and place, two on one line as two.
    pub fn uses<'a, 'p>(&'a self, name: &'p [u8]) -> Uses<'a, 'p>
        ensures { result ≡ uses_of self.now.timeline.present.profile name.now
            self.now.timeline.present.files }
    {
        Uses::uses_of(self.history.present().shelf(), name)
    }

    /// The calls of a function or macro in the present world, by file and place: the name of each
    /// is the called one, and the name around it the one that calls.
    pub fn calls_of<'a, 'p>(&'a self, name: &'p [u8]) -> Uses<'a, 'p>
        ensures { result ≡ calls_of self.now.timeline.present.profile name.now
            self.now.timeline.present.files }
    {
        Uses::calls_of(self.history.present().shelf(), name)
    }

    /// The calls that stand in the functions and macros of a name, by file and place, named in the
    /// same way.
    pub fn calls_in<'a, 'p>(&'a self, name: &'p [u8]) -> Uses<'a, 'p>
        ensures { result ≡ calls_in self.now.timeline.present.profile name.now
            self.now.timeline.present.files }
    {
        Uses::calls_in(self.history.present().shelf(), name)
    }

    /// All definitions of the present world as tags, in the order of a format.
    #[tactic(auto, unfolding(crate::specs::Tags::tags))]
    pub fn tag_rows(&self, format: Format) -> TagRows<'_>
        ensures { result ≡ tags format self.now.timeline.present }
    {
        answers::tag_rows(self.history.present().shelf(), format)
    }

    /// The definitions of the present world whose names are not less than a name in the order of
    /// their bytes, as tags, by name and then by file and place. After `settle_tags` of the format
    /// `Extended` the first of them is found in an index.
    pub fn tag_rows_from<'a>(&'a self, name: &'a [u8]) -> TagRows<'a>
        ensures { result ≡ tags_from_name self.now.timeline.present.profile name.now
            self.now.timeline.present.files }
    {
        answers::tag_rows_from(self.history.present().shelf(), name)
    }
}
