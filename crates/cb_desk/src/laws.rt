//! What follows from the definitions alone: no code runs here.
ghost use Rattle.cb_desk.specs.Laws.{AreLimits, UndoTakesBack, RedoTakesBack, StepKeepsValid};
ghost use Rattle.cb_desk.specs.Laws.{TimelineStaysValid};
ghost use Rattle.cb_desk.specs.Replacement.{HasOneCut};
ghost use Rattle.cb_desk.specs.Survivors.{TimelineIsReplayed};

/// The limits as numbers.
pub fn limits_are_numbers()
    ensures { AreLimits }
{}

/// An accepted change followed by undo gives back the past and the present; the new world is then
/// the future.
pub fn undo_takes_back()
    ensures { UndoTakesBack }
{}

/// Undo and redo take each other back.
pub fn redo_takes_back()
    ensures { RedoTakesBack }
{}

/// A change of a valid world gives a valid world.
pub fn step_keeps_valid()
    ensures { StepKeepsValid }
{}

/// A valid timeline stays valid by change, undo and redo, and without its past and future.
pub fn timeline_stays_valid()
    ensures { TimelineStaysValid }
{}

/// After any changes, undos and redos of a new timeline, the present is the replay of the changes
/// that survive, and the past and the future are the replays of fewer and of more of them.
pub fn timeline_is_replayed()
    ensures { TimelineIsReplayed }
{}

/// A text is cut at the matches of a pattern that is not empty, and in no other way.
pub fn text_has_one_cut()
    ensures { HasOneCut }
{}
