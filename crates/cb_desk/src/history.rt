//! The present world, and the records that lead back and on from it.
ghost use Rattle.std.specs.Prelude.{◌≡◌, ◌<◌, [], ◌∷◌, ⊤, length, nat_le, MatchOption, MatchResult};
ghost use Rattle.std.specs.Prelude.{OnOk};
ghost use Rattle.std.specs.Option.{option_map};
ghost use Rattle.cb_desk.specs.Desk.{counted};
ghost use Rattle.cb_desk.specs.Models.{step_of};
ghost use Rattle.cb_desk.specs.Step.{place_of};
ghost use Rattle.cb_desk.specs.declared.places.FileLine.{FileLine};
ghost use Rattle.cb_desk.specs.steps.Records.{moves, place_in, world_in};
ghost use Rattle.cb_desk.specs.steps.Still.{AreStill};
ghost use Rattle.cb_desk.specs.World.{World, IsValidWorld};
ghost use Rattle.cb_desk.specs.steps.Plans.{IsPlan};
ghost use Rattle.cb_desk.specs.Timeline.{IsValidTimeline, Moves, forgotten, moved_on, new_timeline};
ghost use Rattle.cb_desk.specs.Timeline.{redone, undone};
ghost use Rattle.cb_desk.specs.Turns.{Turns};
ghost use Rattle.cb_desk.specs.steps.Walks.{IsKept, next_moves, timeline_in, turns_on};

use crate::places::FileLine;
use crate::plan::{Plan, Record};
use crate::present::Present;
use crate::{Bounds, Change, Refusal};
use cb_scan::Profile;
use std::alloc::{AllocError, Global};
use std::marker::Model;

/// The present world and the records of the other ones. Undo and redo turn the present by a record,
/// which then leads the other way. They take no memory.
#[derive(Drop)]
pub(crate) struct History {
    present: Present,
    /// The records that lead back, the nearest last, then those that lead on, the nearest first.
    records: Vec<Record>,
    /// How many of them lead back.
    done: usize,
}

impl Model for History {
    ghost use Rattle.cb_desk.specs.steps.Walks.{IsRecorded, Recorded};

    ghost Value = { Recorded };

    ghost view = { λ h. record { kept = h.present; records = h.records.items; done = h.done } };

    ghost invariant = { λ h. IsRecorded
        (record { kept = h.present; records = h.records.items; done = h.done }) };
}

impl History {
    /// The world without a file, with no past and no future. It takes no memory.
    pub(crate) fn new(alloc: Global, bounds: Bounds, profile: Profile) -> History
        ensures timeline { timeline_in result ≡ new_timeline profile bounds }
        ensures turns { result.kept.turns ≡ 0 }
    {
        let _files = bounds.files();
        History {
            present: Present::new(alloc, bounds, profile),
            records: Vec::new(alloc),
            done: 0,
        }
    }

    /// The present world.
    pub(crate) fn present(&self) -> &Present
        ensures value { result.now ≡ self.now.kept }
        ensures kept { IsKept self.now.kept.rooms self.now.kept.archive self.now.kept.now }
        ensures valid { IsValidTimeline (timeline_in self.now) }
    {
        &self.present
    }

    /// Puts in order the index of definitions, by tag name or by name. It changes no answer, and
    /// takes no memory.
    pub(crate) fn settle(&mut self, by_tag_name: bool)
        ensures { self.new ≡ self.old }
    {
        self.present.settle(by_tag_name);
    }

    /// The place that a change asks for, if it asks for one and that is there.
    pub(crate) fn place_of(&mut self, change: &Change<'_>) -> Option<FileLine>
        ensures place { option_map (place_in self.new.kept.archive) result
            ≡ place_of (world_in self.new.kept.archive self.new.kept.now) (step_of change.now) }
        ensures there { MatchOption result ⊤
            (λ (p : FileLine). p.name < self.new.kept.now.names) }
        ensures still { AreStill self.old self.new }
    {
        self.present.place_of(change)
    }

    /// Whether the past is as long as it may be.
    pub(crate) fn is_full(&self) -> bool
        ensures { result
            ≡ nat_le self.now.kept.now.bounds.history (length (timeline_in self.now).past) }
    {
        self.done >= self.present.bounds().history() as usize
    }

    /// Takes the last change back.
    pub(crate) fn undo(&mut self) -> Result<(), Refusal>
        ensures timeline { Moves (undone (timeline_in self.old)) (timeline_in self.old)
            (timeline_in self.new) result }
        ensures turns { Turns (timeline_in self.old).present (timeline_in self.new).present
            self.old.kept.turns self.new.kept.turns result }
    {
        if self.done == 0 {
            return Err(Refusal::NothingToUndo);
        }
        self.done -= 1;
        self.present.turn(&mut self.records[self.done]);
        Ok(())
    }

    /// Makes the last change that was taken back again.
    pub(crate) fn redo(&mut self) -> Result<(), Refusal>
        ensures timeline { Moves (redone (timeline_in self.old)) (timeline_in self.old)
            (timeline_in self.new) result }
        ensures turns { Turns (timeline_in self.old).present (timeline_in self.new).present
            self.old.kept.turns self.new.kept.turns result }
        ensures moved { OnOk result (self.new.kept.turns
            ≡ counted self.old.kept.turns (next_moves (turns_on self.old))) }
    {
        if self.done == self.records.len() {
            return Err(Refusal::NothingToRedo);
        }
        self.present.turn(&mut self.records[self.done]);
        self.done += 1;
        Ok(())
    }

    /// Makes the world that a plan leads to the only one to come.
    fn set_next(&mut self, plan: Plan) -> Result<(), AllocError>
        requires { (v : World) × IsPlan self.old.kept plan v × IsValidWorld v
            × (length (timeline_in self.old).past < self.old.kept.now.bounds.history) }
        ensures timeline { (v : World) → IsPlan self.old.kept plan v → MatchResult result
            (λ _. timeline_in self.new ≡ record (timeline_in self.old) { future = v ∷ [] })
            (λ _. timeline_in self.new ≡ timeline_in self.old) }
        ensures turns { self.new.kept.turns ≡ self.old.kept.turns }
        ensures next { OnOk result (turns_on self.new ≡ plan.turn ∷ []) }
    {
        self.records.reserve(1)?;
        self.present.reserve_for(&plan)?;
        self.records.truncate(self.done);
        self.present.keep(plan.names, plan.versions);
        if self.records.push(plan.record).is_err() {
            unreachable!()
        }
        Ok(())
    }

    /// Goes to the world that a plan leads to. The future is gone.
    pub(crate) fn go(&mut self, plan: Plan) -> Result<(), AllocError>
        requires { (v : World) × IsPlan self.old.kept plan v × IsValidWorld v
            × (length (timeline_in self.old).past < self.old.kept.now.bounds.history) }
        ensures timeline { (v : World) → IsPlan self.old.kept plan v
            → MatchResult result (λ _. timeline_in self.new ≡ moved_on (timeline_in self.old) v)
            (λ _. timeline_in self.new ≡ timeline_in self.old) }
        ensures turns { Turns (timeline_in self.old).present (timeline_in self.new).present
            self.old.kept.turns self.new.kept.turns result }
        ensures moved { OnOk result
            (self.new.kept.turns ≡ counted self.old.kept.turns (moves plan.turn)) }
    {
        self.set_next(plan)?;
        if self.redo().is_err() {
            unreachable!()
        }
        Ok(())
    }

    /// Drops the records of all other worlds, and what only these use. It takes no memory.
    pub(crate) fn forget(&mut self)
        ensures timeline { timeline_in self.new ≡ forgotten (timeline_in self.old) }
        ensures turns { self.new.kept.turns ≡ self.old.kept.turns }
    {
        self.records.clear();
        self.done = 0;
        self.present.compact();
    }
}
