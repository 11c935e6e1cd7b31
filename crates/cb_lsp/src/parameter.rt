//! The parameter of a macro that stands at a place of a file.
ghost use Rattle.std.specs.Prelude.{◌≡◌, IfOk, if◌then◌else◌, None, Some};
ghost use Rattle.std.specs.Option.{option_or};
ghost use Rattle.cb_lsp.specs.Parameters.{is_macro_by, macro_by, parameter_there};

use crate::answers::FileAsked;
use cb_names::{Parameter, parameter_at};
use cb_scan::{Def, Kind, ScanError};

/// Whether a definition is a macro whose name begins by a place.
fn is_macro_by(place: u32, def: &Def) -> bool
    ensures { result ≡ is_macro_by place def.now }
{
    matches!(def.kind, Kind::Macro) && def.name.start <= place
}

/// Where the name of the last such macro begins, or of one that was found before.
fn macro_behind(place: u32, def: &Def, before: Option<u32>) -> Option<u32>
    ensures { result ≡ option_or (if is_macro_by place def.now then Some def.now.name.start
        else None) before }
{
    if is_macro_by(place, def) {
        Some(def.name.start)
    } else {
        before
    }
}

/// Where the name of the last macro begins whose name begins by a place.
#[tactic(auto, unfolding(crate::specs::Parameters::macro_by))]
fn macro_by(place: u32, defs: &[Def]) -> Option<u32>
    ensures { result ≡ macro_by place defs.now }
{
    let mut found = None;
    let mut rest = defs;
    'defs: while let Some((def, more)) = rest.split_first() {
        found = macro_behind(place, def, found);
        rest = more;
    }
    found
}

impl FileAsked<'_> {
    /// The parameter of a macro that the name at a place is, if it is one.
    pub(crate) fn parameter_there(&self, place: u32) -> Result<Option<Parameter>, ScanError>
        ensures { IfOk result (λ found. found ≡ parameter_there self.now.facts.now.defs
            self.now.source.now place) }
    {
        match macro_by(place, self.facts.defs()) {
            Some(from) => parameter_at(self.alloc, self.source, from, place),
            None => Ok(None),
        }
    }
}
