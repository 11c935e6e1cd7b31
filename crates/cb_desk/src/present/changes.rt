//! How the present world judges a change: why it is refused, kind by kind, and the plan to make it.
ghost use Rattle.std.specs.Prelude.{◌≡◌, ◌<◌, ⊤, IfOk, MatchOption, None, length, nat_lt};
ghost use Rattle.std.specs.Option.{option_map};
ghost use Rattle.cb_index.specs.Files.{files_of};
ghost use Rattle.cb_desk.specs.Desk.{CountsUpTo, scanned};
ghost use Rattle.cb_desk.specs.Files.{load_refusal, loaded, reload_refusal, reloaded};
ghost use Rattle.cb_desk.specs.Files.{rename_refusal, renamed, unload_refusal, unloaded};
ghost use Rattle.cb_desk.specs.Marks.{mark_all_refusal, mark_refusal, toggled_at, want_refusal};
ghost use Rattle.cb_desk.specs.Models.{step_of};
ghost use Rattle.cb_desk.specs.Stack.{pop_refusal, push_refusal, pushed};
ghost use Rattle.cb_desk.specs.Step.{after, place_of, refusal_of};
ghost use Rattle.cb_desk.specs.World.{IsValidWorld, has_file, is_short};
ghost use Rattle.cb_desk.specs.declared.places.FileLine.{FileLine};
ghost use Rattle.cb_desk.specs.steps.Plans.{IsPlan, MovesOne};
ghost use Rattle.cb_desk.specs.steps.Records.{moves, place_in, world_in};
ghost use Rattle.cb_desk.specs.steps.Still.{IsStill};
ghost use Rattle.cb_desk.specs.steps.Walks.{IsKept};

use crate::answers::shown_as;
use crate::bounds::MOST_TEXT;
use crate::places::FileLine;
use crate::plan::{Plan, scanned};
use crate::present::Present;
use crate::{Bounds, Change, Refusal};
use cb_scan::Meter;
use cb_tags::is_file_name;
use std::alloc::{AllocError, Global};

// ---- refusals

/// Whether a text keeps the limit and lies in one line.
pub(super) fn is_short(text: &[u8]) -> bool
    ensures { result ≡ is_short text.now }
{
    text.len() <= MOST_TEXT && !text.contains(&b'\n')
}

/// Whether a text has more bytes than a file may have.
fn is_large(bounds: Bounds, bytes: &[u8]) -> bool
    ensures { result ≡ nat_lt bounds.file_bytes (length bytes.now) }
{
    bytes.len() > bounds.file_bytes() as usize
}

/// Why a text can't be wanted, if it can't: the lowest refusal that applies.
fn want_refusal(text: &[u8]) -> Option<Refusal>
    ensures { result ≡ want_refusal text.now }
{
    if text.is_empty() {
        Some(Refusal::NoPattern)
    } else if is_short(text) {
        None
    } else {
        Some(Refusal::BadText)
    }
}

impl Present {
    /// Whether there is a file of that name.
    fn has_file(&self, name: &[u8]) -> bool
        ensures { result ≡ has_file (files_of self.now.archive self.now.now.shown) name.now }
    {
        shown_as(&self.shelf, name).is_some()
    }

    /// Why the file can't be loaded, if it can't: the lowest refusal that applies.
    pub(crate) fn load_refusal(&self, name: &[u8], bytes: &[u8]) -> Option<Refusal>
        ensures { result
            ≡ load_refusal (world_in self.now.archive self.now.now) name.now bytes.now }
    {
        let count = self.shelf.shown().len();
        if !is_file_name(name) {
            Some(Refusal::BadName)
        } else if self.has_file(name) {
            Some(Refusal::FileExists)
        } else if is_large(self.bounds, bytes) {
            Some(Refusal::TooLarge)
        } else if count >= self.bounds.files() as usize {
            Some(Refusal::TooManyFiles)
        } else {
            None
        }
    }

    /// Why the file can't have these bytes, if it can't: the lowest refusal that applies.
    pub(crate) fn reload_refusal(&self, name: &[u8], bytes: &[u8]) -> Option<Refusal>
        ensures { result
            ≡ reload_refusal (world_in self.now.archive self.now.now) name.now bytes.now }
    {
        if !self.has_file(name) {
            Some(Refusal::NoSuchFile)
        } else if is_large(self.bounds, bytes) {
            Some(Refusal::TooLarge)
        } else {
            None
        }
    }

    /// Why the file can't be taken away, if it can't.
    pub(crate) fn unload_refusal(&self, name: &[u8]) -> Option<Refusal>
        ensures { result ≡ unload_refusal (world_in self.now.archive self.now.now) name.now }
    {
        if self.has_file(name) {
            None
        } else {
            Some(Refusal::NoSuchFile)
        }
    }

    /// Why the file can't have another name, if it can't: the lowest refusal that applies.
    pub(crate) fn rename_refusal(&self, old: &[u8], new: &[u8]) -> Option<Refusal>
        ensures { result ≡ rename_refusal (world_in self.now.archive self.now.now) old.now new.now }
    {
        if !is_file_name(new) {
            Some(Refusal::BadName)
        } else if !self.has_file(old) {
            Some(Refusal::NoSuchFile)
        } else if self.has_file(new) {
            Some(Refusal::FileExists)
        } else {
            None
        }
    }

    /// Why a place can't be marked, if it can't.
    pub(crate) fn mark_refusal(&self, place: Option<FileLine>) -> Option<Refusal>
        ensures { result
            ≡ mark_refusal self.now.now.wanted (option_map (place_in self.now.archive) place) }
    {
        if self.wanted.is_none() {
            return Some(Refusal::NothingWanted);
        }
        match place {
            Some(_) => None,
            None => Some(Refusal::NoSuchLine),
        }
    }

    /// Why nothing can be marked, if nothing can.
    pub(crate) fn mark_all_refusal(&self) -> Option<Refusal>
        ensures { result ≡ mark_all_refusal self.now.now.wanted }
    {
        match self.wanted {
            Some(_) => None,
            None => Some(Refusal::NothingWanted),
        }
    }

    /// Why no frame can be put on the stack, if none can: there is no such place.
    pub(crate) fn push_refusal(&self, place: Option<FileLine>) -> Option<Refusal>
        ensures { result ≡ push_refusal (option_map (place_in self.now.archive) place) }
    {
        match place {
            Some(_) => None,
            None => Some(Refusal::NoSuchDefinition),
        }
    }

    /// Why no frame can be taken away, if none can.
    pub(crate) fn pop_refusal(&self) -> Option<Refusal>
        ensures { result ≡ pop_refusal (world_in self.now.archive self.now.now).frames }
    {
        if self.frames.as_slice().is_empty() {
            Some(Refusal::StackEmpty)
        } else {
            None
        }
    }
}

// ---- changes

impl Present {
    /// The place that a change asks for, if it asks for one and that is there.
    pub(crate) fn place_of(&mut self, change: &Change<'_>) -> Option<FileLine>
        requires kept { IsKept self.old.rooms self.old.archive self.old.now }
        requires valid { IsValidWorld (world_in self.old.archive self.old.now) }
        ensures place { option_map (place_in self.old.archive) result
            ≡ place_of (world_in self.old.archive self.old.now) (step_of change.now) }
        ensures there { MatchOption result ⊤ (λ (p : FileLine). p.name < self.old.now.names) }
        ensures still { IsStill self.old self.new }
    {
        match change {
            Change::Mark(n) => self.nth_wanted(*n),
            Change::Tag(name, n) => self.nth_tag(name, *n),
            _ => None,
        }
    }

    /// Why a change is refused, if it is. `place` is the place that it asks for.
    pub(crate) fn refusal_of(&self, change: &Change<'_>, place: Option<FileLine>) -> Option<Refusal>
        requires kept { IsKept self.now.rooms self.now.archive self.now.now }
        requires valid { IsValidWorld (world_in self.now.archive self.now.now) }
        requires place { option_map (place_in self.now.archive) place
            ≡ place_of (world_in self.now.archive self.now.now) (step_of change.now) }
        ensures { result
            ≡ refusal_of (world_in self.now.archive self.now.now) (step_of change.now) }
    {
        match change {
            Change::Load(name, bytes) => self.load_refusal(name, bytes.as_slice()),
            Change::Reload(name, bytes) => self.reload_refusal(name, bytes.as_slice()),
            Change::Unload(name) => self.unload_refusal(name),
            Change::Rename(old, new) => self.rename_refusal(old, new),
            Change::Want(text) => want_refusal(text),
            Change::Mark(_) => self.mark_refusal(place),
            Change::MarkAll => self.mark_all_refusal(),
            Change::Replace(text) => self.replace_refusal(text),
            Change::Tag(_, _) => self.push_refusal(place),
            Change::Pop => self.pop_refusal(),
        }
    }

    /// The plan to load a file. Its text is scanned.
    fn plan_to_load(
        &self,
        alloc: Global,
        meter: &mut Meter,
        name: &[u8],
        bytes: Vec<u8>,
    ) -> Result<Plan, AllocError>
        requires kept { IsKept self.now.rooms self.now.archive self.now.now }
        requires valid { IsValidWorld (world_in self.now.archive self.now.now) }
        requires accepted { load_refusal (world_in self.now.archive self.now.now)
            name.now bytes.items ≡ None }
        ensures plan { IfOk result (λ p. IsPlan self.now p
            (loaded (world_in self.now.archive self.now.now) name.now bytes.items)) }
        ensures one { IfOk result (λ p. moves p.turn ≡ 1) }
        ensures meter { CountsUpTo (length bytes.items) meter.old meter.new result }
    {
        let _counted = meter.read();
        let version = scanned(alloc, meter, self.profile(), bytes)?;
        self.plan_load(alloc, name, version)
    }

    /// The plan to give the file of that name other bytes, without its marks and frames. They are
    /// scanned.
    fn plan_to_reload(
        &self,
        alloc: Global,
        meter: &mut Meter,
        name: &[u8],
        bytes: Vec<u8>,
    ) -> Result<Plan, AllocError>
        requires kept { IsKept self.now.rooms self.now.archive self.now.now }
        requires valid { IsValidWorld (world_in self.now.archive self.now.now) }
        requires accepted { reload_refusal (world_in self.now.archive self.now.now)
            name.now bytes.items ≡ None }
        ensures plan { IfOk result (λ p. IsPlan self.now p
            (reloaded (world_in self.now.archive self.now.now) name.now bytes.items)) }
        ensures meter { CountsUpTo (length bytes.items) meter.old meter.new result }
    {
        let _counted = meter.read();
        let Some(shown) = shown_as(&self.shelf, name) else {
            unreachable!()
        };
        let version = scanned(alloc, meter, self.profile(), bytes)?;
        self.plan_reload(alloc, shown, version)
    }

    /// The plan to take the file of that name away, with its marks and frames.
    fn plan_to_unload(&self, alloc: Global, name: &[u8]) -> Result<Plan, AllocError>
        requires kept { IsKept self.now.rooms self.now.archive self.now.now }
        requires accepted { unload_refusal (world_in self.now.archive self.now.now) name.now
            ≡ None }
        ensures { IfOk result
            (λ p. IsPlan self.now p (unloaded (world_in self.now.archive self.now.now) name.now)) }
    {
        let Some(hides) = shown_as(&self.shelf, name) else {
            unreachable!()
        };
        self.plan_unload(alloc, hides)
    }

    /// The plan to give the file of the first name the second one, with its marks and frames.
    fn plan_to_rename(&self, alloc: Global, old: &[u8], new: &[u8]) -> Result<Plan, AllocError>
        requires kept { IsKept self.now.rooms self.now.archive self.now.now }
        requires accepted { rename_refusal (world_in self.now.archive self.now.now) old.now new.now
            ≡ None }
        ensures { IfOk result (λ p. IsPlan self.now p
            (renamed (world_in self.now.archive self.now.now) old.now new.now)) }
    {
        let Some(shown) = shown_as(&self.shelf, old) else {
            unreachable!()
        };
        self.plan_rename(alloc, shown, new)
    }

    /// The plan to mark a place that is there, or to take its mark away.
    fn plan_to_mark(&self, alloc: Global, place: Option<FileLine>) -> Result<Plan, AllocError>
        requires kept { IsKept self.now.rooms self.now.archive self.now.now }
        requires there { MatchOption place ⊤ (λ (p : FileLine). p.name < self.now.now.names) }
        requires accepted { mark_refusal self.now.now.wanted
            (option_map (place_in self.now.archive) place) ≡ None }
        ensures { IfOk result
            (λ p. IsPlan self.now p (toggled_at (world_in self.now.archive self.now.now)
            (option_map (place_in self.now.archive) place))) }
    {
        let Some(place) = place else { unreachable!() };
        self.plan_mark(alloc, place)
    }

    /// The plan to put a frame of a place that is there on top of the stack.
    fn plan_to_push(&self, alloc: Global, place: Option<FileLine>) -> Result<Plan, AllocError>
        requires kept { IsKept self.now.rooms self.now.archive self.now.now }
        requires there { MatchOption place ⊤ (λ (p : FileLine). p.name < self.now.now.names) }
        requires accepted { push_refusal (option_map (place_in self.now.archive) place) ≡ None }
        ensures { IfOk result
            (λ p. IsPlan self.now p (pushed (world_in self.now.archive self.now.now)
            (option_map (place_in self.now.archive) place))) }
    {
        let Some(place) = place else { unreachable!() };
        self.plan_push(alloc, place)
    }

    /// The plan to make a change that is not refused. `place` is the place that it asks for.
    pub(crate) fn plan(
        &self,
        alloc: Global,
        meter: &mut Meter,
        change: Change<'_>,
        place: Option<FileLine>,
    ) -> Result<Plan, AllocError>
        requires kept { IsKept self.now.rooms self.now.archive self.now.now }
        requires valid { IsValidWorld (world_in self.now.archive self.now.now) }
        requires place { option_map (place_in self.now.archive) place
            ≡ place_of (world_in self.now.archive self.now.now) (step_of change) }
        requires there { MatchOption place ⊤ (λ (p : FileLine). p.name < self.now.now.names) }
        requires accepted { refusal_of (world_in self.now.archive self.now.now) (step_of change)
            ≡ None }
        ensures plan { IfOk result (λ p. IsPlan self.now p
            (after (world_in self.now.archive self.now.now) (step_of change.entry))) }
        ensures one { IfOk result (λ p. MovesOne (step_of change.entry) p.turn) }
        ensures meter { CountsUpTo (scanned (world_in self.now.archive self.now.now)
            (step_of change.entry)) meter.old meter.new result }
    {
        let _counted = meter.read();
        match change {
            Change::Load(name, bytes) => self.plan_to_load(alloc, meter, name, bytes),
            Change::Reload(name, bytes) => self.plan_to_reload(alloc, meter, name, bytes),
            Change::Unload(name) => self.plan_to_unload(alloc, name),
            Change::Rename(old, new) => self.plan_to_rename(alloc, old, new),
            Change::Want(text) => self.plan_want(alloc, text),
            Change::Mark(_) => self.plan_to_mark(alloc, place),
            Change::MarkAll => self.plan_mark_all(alloc),
            Change::Replace(text) => self.plan_replace(alloc, meter, text),
            Change::Tag(_, _) => self.plan_to_push(alloc, place),
            Change::Pop => self.plan_pop(alloc),
        }
    }
}
