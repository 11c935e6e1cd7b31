//! By which rules a text is scanned, and which of the facts are wanted.
ghost use Rattle.std.specs.Prelude.{◌≡◌};

/// The rules, by what they find.
#[derive(Clone, Copy, Debug, PartialEq, Eq)]
pub enum Rules {
    /// Functions, macros, typedefs, structures, unions and enumerations.
    Standard,
    /// These, enumerators, members and variables; and functions and types that macros hide from the
    /// standard ones.
    Wide,
    /// All that the wide ones find, external declarations and prototypes.
    Prototypes,
}

/// Which lists of facts are wanted. One that is not wanted is empty.
#[derive(Clone, Copy, Debug, PartialEq, Eq)]
pub struct Wanted {
    pub defs: bool,
    pub uses: bool,
    pub calls: bool,
    pub includes: bool,
}

/// The rules, and the facts that are wanted.
#[derive(Clone, Copy, Debug, PartialEq, Eq)]
pub struct Profile {
    pub rules: Rules,
    pub wanted: Wanted,
}

impl Wanted {
    ghost use Rattle.cb_scan.specs.Profiles.{all_wanted, is_any};

    /// All lists.
    pub fn all() -> Wanted
        ensures { result ≡ all_wanted }
    {
        Wanted {
            defs: true,
            uses: true,
            calls: true,
            includes: true,
        }
    }

    /// Whether one of the lists is wanted.
    pub(crate) fn is_any(self) -> bool
        ensures { result ≡ is_any self }
    {
        self.defs || self.uses || self.calls || self.includes
    }
}

impl Profile {
    ghost use Rattle.cb_scan.specs.Profiles.{all_by};

    /// All facts by these rules.
    pub fn all_by(rules: Rules) -> Profile
        ensures { result ≡ all_by rules }
    {
        Profile {
            rules,
            wanted: Wanted::all(),
        }
    }
}
