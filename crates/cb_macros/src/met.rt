//! The macros that are met.
ghost use Rattle.std.specs.Prelude.{◌≡◌, map};
ghost use Rattle.cb_macros.specs.Meeting.{has_met};
ghost use Rattle.cb_macros.specs.steps.Meetings.{met_of};

/// A macro that was met, and the name through which it was met first.
#[derive(Clone, Copy)]
pub(crate) struct Met<'a> {
    pub name: &'a [u8],
    pub through: &'a [u8],
}

/// The macros that were met, and those of them that were met in this round.
#[derive(Drop)]
pub(crate) struct Seen<'a> {
    pub all: Vec<Met<'a>>,
    pub fresh: Vec<Met<'a>>,
}

/// Whether a macro of that name was met.
pub(crate) fn has_met(all: &[Met<'_>], name: &[u8]) -> bool
    ensures { result ≡ has_met (map met_of all.now) name.now }
{
    for i in 0..all.len() {
        if all[i].name == name {
            return true;
        }
    }
    false
}
