//! What is found in a text: definitions, uses of names, calls and includes.
ghost use Rattle.std.specs.Prelude.{◌≡◌, ◌<◌, ◌^◌, length};

use crate::lex::piece::Span;
use std::alloc::Global;
use std::marker::Model;

/// The kinds of definitions.
#[derive(Clone, Copy, Debug, PartialEq, Eq)]
pub enum Kind {
    Function,
    Macro,
    Typedef,
    Struct,
    Union,
    Enum,
    Enumerator,
    Member,
    Variable,
    /// A variable that is declared by `extern`, and has no value there.
    External,
    Prototype,
}

impl Kind {
    ghost use Rattle.cb_scan.specs.Profiles.{is_declaration, is_object};

    /// An external declaration or a prototype: what it names is defined elsewhere.
    pub fn is_declaration(self) -> bool
        ensures { result ≡ is_declaration self }
    {
        matches!(self, Kind::External | Kind::Prototype)
    }

    /// A variable, an external declaration or a prototype.
    pub(crate) fn is_object(self) -> bool
        ensures { result ≡ is_object self }
    {
        matches!(self, Kind::Variable | Kind::External | Kind::Prototype)
    }
}

/// The tag of a structure, union or enumeration, and which of them it is.
#[derive(Clone, Copy, Debug, PartialEq, Eq)]
pub struct Tag {
    pub kind: Kind,
    pub name: Span,
}

/// A definition: the bytes of its name, its kind, the line of its name (from 1), whether it is
/// `static`, and of an enumerator or member the tag around it.
#[derive(Clone, Copy, Debug, PartialEq, Eq)]
pub struct Def {
    pub name: Span,
    pub kind: Kind,
    pub line: u32,
    pub local: bool,
    pub tag: Option<Tag>,
}

/// A use of a name: its bytes, its line (from 1), and the name of the macro or function around it.
#[derive(Clone, Copy, Debug, PartialEq, Eq)]
pub struct Use {
    pub name: Span,
    pub line: u32,
    pub scope: Option<Span>,
}

/// A call: the called name, its line (from 1), and the name of the function or macro that calls it.
#[derive(Clone, Copy, Debug, PartialEq, Eq)]
pub struct Call {
    pub callee: Span,
    pub line: u32,
    pub caller: Span,
}

/// An include: the header's bytes without its quotes or angle brackets, the line where they begin
/// (from 1), and the name of the function around it.
#[derive(Clone, Copy, Debug, PartialEq, Eq)]
pub struct Include {
    pub header: Span,
    pub line: u32,
    pub scope: Option<Span>,
}

/// The facts of a text: four lists of fewer than 2^32 facts, each in the order of its places.
#[derive(Debug, Drop)]
pub struct Facts {
    defs: Vec<Def>,
    uses: Vec<Use>,
    calls: Vec<Call>,
    includes: Vec<Include>,
}

impl Model for Facts {
    ghost use Rattle.std.specs.Prelude.{◌<◌, ◌^◌, length};
    ghost use Rattle.cb_scan.specs.TextFacts.{TextFacts};

    ghost Value = { TextFacts };

    ghost view = { λ f. record {
      defs = f.defs.items;
      uses = f.uses.items;
      calls = f.calls.items;
      includes = f.includes.items;
    } };

    ghost invariant = { λ f. (length f.defs.items < 2 ^ 32)
        × (length f.uses.items < 2 ^ 32)
        × (length f.calls.items < 2 ^ 32)
        × (length f.includes.items < 2 ^ 32) };
}

impl Facts {
    ghost use Rattle.cb_scan.specs.Profiles.{no_facts};

    /// Four empty lists. They take no memory.
    pub(crate) fn none(alloc: Global) -> Facts
        ensures { result ≡ no_facts }
    {
        Facts::new(
            Vec::new(alloc),
            Vec::new(alloc),
            Vec::new(alloc),
            Vec::new(alloc),
        )
    }

    pub(crate) fn new(
        defs: Vec<Def>,
        uses: Vec<Use>,
        calls: Vec<Call>,
        includes: Vec<Include>,
    ) -> Facts
        requires defs { length defs.items < 2 ^ 32 }
        requires uses { length uses.items < 2 ^ 32 }
        requires calls { length calls.items < 2 ^ 32 }
        requires includes { length includes.items < 2 ^ 32 }
        ensures { result ≡ record {
          defs = defs.items;
          uses = uses.items;
          calls = calls.items;
          includes = includes.items;
        } }
    {
        Facts {
            defs,
            uses,
            calls,
            includes,
        }
    }

    /// The definitions.
    pub fn defs(&self) -> &[Def]
        ensures value { result.now ≡ self.now.defs }
        ensures few { length result.now < 2 ^ 32 }
    {
        self.defs.as_slice()
    }

    /// The uses of names.
    pub fn uses(&self) -> &[Use]
        ensures value { result.now ≡ self.now.uses }
        ensures few { length result.now < 2 ^ 32 }
    {
        self.uses.as_slice()
    }

    /// The calls.
    pub fn calls(&self) -> &[Call]
        ensures value { result.now ≡ self.now.calls }
        ensures few { length result.now < 2 ^ 32 }
    {
        self.calls.as_slice()
    }

    /// The includes.
    pub fn includes(&self) -> &[Include]
        ensures value { result.now ≡ self.now.includes }
        ensures few { length result.now < 2 ^ 32 }
    {
        self.includes.as_slice()
    }
}
