//! The names that mean something in their function alone.
ghost use Rattle.std.specs.Prelude.{◌≡◌, ◌++◌, ◌∷◌, [], IfOk, if◌then◌else◌};

use cb_scan::Span;
use std::alloc::AllocError;
use std::marker::Model;

/// What is done with a name where it stands.
#[derive(Clone, Copy, Debug, PartialEq, Eq)]
pub enum Access {
    /// It is only named: it is declared without a value, or is a label.
    Named,
    /// It is read.
    Read,
    /// It is written: by a declaration with a value, by `=`, `++` and the like.
    Written,
    /// Its address is taken.
    Address,
}

/// A token that names a local.
#[derive(Clone, Copy, Debug, PartialEq, Eq)]
pub struct LocalUse {
    pub name: Span,
    pub access: Access,
    /// Whether it declares the local.
    pub declares: bool,
}

/// A name that means something in its function alone: a label.
#[derive(Drop)]
pub struct Local {
    pub(crate) definition: Option<Span>,
    pub(crate) uses: Vec<LocalUse>,
    pub(crate) is_label: bool,
}

impl Model for Local {
    ghost use Rattle.cb_names.specs.Locals.{LocalName};

    ghost Value = { LocalName };

    ghost view = { λ l. record {
      definition = l.definition;
      uses = l.uses.items;
      is_label = l.is_label;
    } };
}

impl Local {
    /// Its definition, as seen from the token that was asked about. None where its function has only
    /// `goto` with this name.
    pub fn definition(&self) -> Option<Span>
        ensures { result ≡ self.now.definition }
    {
        self.definition
    }

    /// All tokens that name it, by place, its definition among them.
    pub fn uses(&self) -> &[LocalUse]
        ensures { result.now ≡ self.now.uses }
    {
        self.uses.as_slice()
    }

    /// Whether it is a label.
    pub fn is_label(&self) -> bool
        ensures { result ≡ self.now.is_label }
    {
        self.is_label
    }
}

/// Appends a use, if it is wanted.
pub(crate) fn push_if(
    is_wanted: bool,
    one: LocalUse,
    uses: &mut Vec<LocalUse>,
) -> Result<(), AllocError>
    ensures { IfOk result
        (λ _. uses.new.items ≡ uses.old.items ++ (if is_wanted then one ∷ [] else [])) }
{
    if is_wanted {
        uses.push(one)?;
    }
    Ok(())
}
