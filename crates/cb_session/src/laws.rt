//! What follows from the definitions alone: no code runs here.
ghost use Rattle.std.specs.Prelude.{◌≡◌};
ghost use Rattle.cb_session.specs.declared.input.TheConstants.{MOST_DIGITS, MOST_LINE};
ghost use Rattle.cb_session.specs.Replay.{OperandsAreReplayed, OutputIsReplayed};

/// The output of a run is told by the changes that survive: each reply is that of the world which
/// their replay gives.
pub fn output_is_replayed()
    ensures { OutputIsReplayed }
{}

/// A run begins where the loads of its operands lead, which are changes like all others.
pub fn operands_are_replayed()
    ensures { OperandsAreReplayed }
{}

/// The bounds of a command by number: the bytes of its line, and the digits of a number in it.
pub fn limits_are()
    ensures line { MOST_LINE ≡ 4096 }
    ensures digits { MOST_DIGITS ≡ 9 }
{}
