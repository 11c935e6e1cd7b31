//! The names of structures, unions and enumerations: a small state that every token of the code
//! moves.
ghost use Rattle.std.specs.Prelude.{◌≡◌};
ghost use Rattle.cb_scan.specs.rules.Structures.{keyword_kind};
ghost use Rattle.cb_scan.specs.steps.Structures.{begun, next_naming, structure_found};

use crate::facts::{Def, Kind};
use crate::lex::token::{Role, Token, WordKind};

/// How far one of the keywords, a name and `{` have come.
#[derive(Clone, Copy)]
pub(crate) enum Naming {
    Nothing,
    /// `struct`, `union` or `enum`.
    Keyword(Kind),
    /// The keyword and a name, as the definition that a `{` would make of them.
    Named(Def),
}

/// What `struct`, `union` and `enum` define.
fn keyword_kind(role: Role) -> Option<Kind>
    ensures { result ≡ keyword_kind role }
{
    match role {
        Role::Word(WordKind::Struct) => Some(Kind::Struct),
        Role::Word(WordKind::Union) => Some(Kind::Union),
        Role::Word(WordKind::Enum) => Some(Kind::Enum),
        _ => None,
    }
}

/// After a token that goes on with nothing.
fn begun(token: &Token) -> Naming
    ensures { result ≡ begun token.now }
{
    match keyword_kind(token.role) {
        Some(kind) => Naming::Keyword(kind),
        None => Naming::Nothing,
    }
}

impl Naming {
    /// After a token of the code. Mostly nothing has begun, and nothing does.
    #[inline(always)]
    pub(crate) fn next(&mut self, token: &Token)
        ensures { self.new ≡ next_naming self.old token.now }
    {
        match *self {
            Naming::Nothing => {
                if let Some(kind) = keyword_kind(token.role) {
                    *self = Naming::Keyword(kind);
                }
            }
            Naming::Keyword(kind) if token.is_name() => {
                *self = Naming::Named(Def {
                    name: token.span,
                    kind,
                    line: token.line,
                    local: false,
                    tag: None,
                });
            }
            _ => *self = begun(token),
        }
    }

    /// The structure, union or enumeration whose `{` is the token, if one is.
    pub(crate) fn found(&self, token: &Token) -> Option<Def>
        ensures { result ≡ structure_found self.now token.now }
    {
        match *self {
            Naming::Named(def) if token.is_mark(b'{') => Some(def),
            _ => None,
        }
    }
}
