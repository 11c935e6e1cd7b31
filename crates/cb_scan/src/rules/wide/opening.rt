//! What a `{` opens: the body of a structure, union or enumeration, or a block.
ghost use Rattle.std.specs.Prelude.{◌≡◌};
ghost use Rattle.std.specs.Option.{option_to_list};
ghost use Rattle.cb_scan.specs.steps.wide.Openings.{begun, next_opening, opening_tag, tag_of};

use crate::facts::{Def, Kind, Tag};
use crate::rules::wide::def::{def_of, kind_of_tag};
use crate::rules::wide::role::WideRole;
use crate::rules::wide::token::WideToken;

/// After `struct`, `union` or `enum` and any number of names: which of them, and the last name.
#[derive(Clone, Copy)]
pub(crate) struct Opening {
    pub kind: Kind,
    pub tag: Option<WideToken>,
}

fn begun(kind: Kind) -> Option<Opening>
    ensures { result ≡ begun kind }
{
    Some(Opening { kind, tag: None })
}

/// What a `{` after this token would open.
#[inline(always)]
pub(crate) fn next_opening(before: Option<Opening>, item: &WideToken) -> Option<Opening>
    ensures { result ≡ next_opening before item.now }
{
    match (item.role, before) {
        (WideRole::Struct, _) => begun(Kind::Struct),
        (WideRole::Union, _) => begun(Kind::Union),
        (WideRole::Enum, _) => begun(Kind::Enum),
        (WideRole::Name | WideRole::Underscored, Some(opening)) => Some(Opening {
            kind: opening.kind,
            tag: Some(*item),
        }),
        _ => None,
    }
}

impl Opening {
    /// The tag of the body.
    pub(crate) fn tag_of(&self) -> Option<Tag>
        ensures { result ≡ tag_of self.now }
    {
        match &self.tag {
            Some(name) => Some(Tag {
                kind: self.kind,
                name: name.token.span,
            }),
            None => None,
        }
    }
}

/// The tag of an opening, as a definition.
pub(crate) fn opening_tag(opening: &Option<Opening>) -> Option<Def>
    ensures { option_to_list result ≡ opening_tag opening.now }
{
    match opening {
        Some(opening) => match &opening.tag {
            Some(name) => Some(def_of(kind_of_tag(opening.kind), false, &name.token)),
            None => None,
        },
        None => None,
    }
}
