//! Definitions of the wide profile.
ghost use Rattle.std.specs.Prelude.{◌≡◌};
ghost use Rattle.cb_scan.specs.rules.wide.Kinds.{def_in, def_of, kind_of_tag};

use crate::facts::{Def, Kind, Tag};
use crate::lex::token::Token;

/// The definition of a name, without the tag around it.
pub(crate) fn def_of(kind: Kind, local: bool, name: &Token) -> Def
    ensures { result ≡ def_of kind local name.now }
{
    Def {
        name: name.span,
        kind,
        line: name.line,
        local,
        tag: None,
    }
}

/// The same with a tag.
pub(crate) fn def_in(kind: Kind, tag: Option<Tag>, name: &Token) -> Def
    ensures { result ≡ def_in kind tag name.now }
{
    Def {
        name: name.span,
        kind,
        line: name.line,
        local: false,
        tag,
    }
}

/// The kind of a tag.
pub(crate) fn kind_of_tag(kind: Kind) -> Kind
    ensures { result ≡ kind_of_tag kind }
{
    match kind {
        Kind::Union => Kind::Union,
        Kind::Enum => Kind::Enum,
        _ => Kind::Struct,
    }
}
