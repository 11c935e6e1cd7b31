//! The name space of the name at a place.
ghost use Rattle.std.specs.Prelude.{◌≡◌, ◌<◌, ◌^◌, IfOk, length};
ghost use Rattle.cb_names.specs.Pairs.{at};
ghost use Rattle.cb_names.specs.SpaceAt.{space_at, space_in, space_of, tag_space_at, tag_space};

use crate::braces::is_keyword_at;
use crate::code::Code;
use crate::hard::without_hard;
use crate::labels::index_at;
use crate::pairs::sign;
use crate::spaces::{follows_accessor, is_tag};
use crate::word::Item;
use cb_scan::WideRole;
use std::alloc::{AllocError, Global};

/// The name space of a name of the code, as far as the tokens around it tell (ISO C 2011, 6.2.3).
#[derive(Clone, Copy, Debug, PartialEq, Eq)]
pub enum Space {
    /// A member: directly behind `.` or `->`, also in a designator.
    Member,
    /// The tag of a structure.
    Struct,
    /// The tag of a union.
    Union,
    /// The tag of an enumeration.
    Enum,
    /// Any other name directly before a `(`.
    Called,
    /// Any other name: also a member where it is declared, and a label.
    Plain,
    /// A macro: in a condition, `#undef` or where it is defined.
    Macro,
}

/// The space of a tag, by `struct`, `union` or `enum` before it.
fn tag_space(items: &[Item], index: u32) -> Space
    ensures { result ≡ tag_space (at items.now index).token.role }
{
    match items.get(index as usize) {
        Some(item) => match item.token.role {
            WideRole::Struct => Space::Struct,
            WideRole::Union => Space::Union,
            WideRole::Enum => Space::Enum,
            _ => Space::Plain,
        },
        None => Space::Plain,
    }
}

/// The space of a tag, by the nearest of the three words before it.
#[tactic(auto, unfolding(crate::specs::SpaceAt::tag_space_at))]
fn tag_space_at(items: &[Item], index: u32) -> Space
    ensures { result ≡ tag_space_at items.now index }
{
    let mut left = index;
    'tokens: while left > 0 {
        if is_keyword_at(items, left - 1) {
            return tag_space(items, left - 1);
        }
        left -= 1;
    }
    Space::Plain
}

/// The space of a name.
pub(crate) fn space_of(items: &[Item], index: u32) -> Space
    requires few { length items.now < 2 ^ 32 }
    requires within { index < length items.now }
    ensures { result ≡ space_of items.now index }
{
    if follows_accessor(items, index) {
        Space::Member
    } else if is_tag(items, index) {
        tag_space_at(items, index)
    } else if sign(items, index + 1) == b'(' {
        Space::Called
    } else {
        Space::Plain
    }
}

/// The space of the first name that holds a place or ends at it, if there is one.
fn space_in(items: &[Item], place: u32) -> Option<Space>
    requires { length items.now < 2 ^ 32 }
    ensures { result ≡ space_in items.now place }
{
    let index = index_at(place, items);
    if index < items.len() {
        Some(space_of(items, index as u32))
    } else {
        None
    }
}

impl Code<'_> {
    /// The name space of the name at a place: the name token of the code that holds the place or
    /// ends at it counts, unless it is of an attribute that is left out everywhere. Labels are not
    /// told from other names: ask `local_at` first. Refused memory is the only error. Time in
    /// proportion to the text.
    pub fn space_at(&self, alloc: Global, place: u32) -> Result<Option<Space>, AllocError>
        ensures { IfOk result (λ found. found ≡ space_at self.now place) }
    {
        let kept = without_hard(alloc, self.items.as_slice())?;
        Ok(space_in(kept.as_slice(), place))
    }
}
