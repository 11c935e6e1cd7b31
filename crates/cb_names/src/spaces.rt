//! Which names of a function are ordinary.
ghost use Rattle.std.specs.Prelude.{◌≡◌, ◌<◌, ◌^◌, length};
ghost use Rattle.cb_names.specs.Braces.{follows_keyword};
ghost use Rattle.cb_names.specs.Shapes.{IsShape};
ghost use Rattle.cb_names.specs.Spaces.{after_keyword, follows_accessor, is_arrow, is_dot, is_ordinary};
ghost use Rattle.cb_names.specs.Spaces.{is_tag, names_at, touches};
ghost use Rattle.cb_names.specs.Statements.{starts};
ghost use Rattle.cb_names.specs.Tables.{IsTable};
ghost use Rattle.cb_names.specs.Pairs.{at, is_at};
ghost use Rattle.cb_names.specs.steps.Naming.{is_ordinary_by};
ghost use Rattle.std.specs.Prelude.{◌+◌, ◌≤◌};
ghost use Rattle.cb_scan.specs.Bytes.{open_brace};
ghost use Rattle.std.specs.Prelude.{◌-◌};
ghost use Rattle.cb_names.specs.Spaces.{begins_accessor};

use crate::braces::{is_keyword_at, is_name_at};
use crate::declaration::{from, is_name_item};
use crate::labels::{begins, names_label};
use crate::pairs::{byte_at, sign};
use crate::shape::Shape;
use crate::word::Item;

fn end_at(items: &[Item], index: usize) -> u32
    ensures { result ≡ (at items.now index).token.token.span.end }
{
    match items.get(index) {
        Some(item) => item.token.token.span.end,
        None => 0,
    }
}

pub(crate) fn start_at(items: &[Item], index: usize) -> u32
    ensures { result ≡ (at items.now index).token.token.span.start }
{
    match items.get(index) {
        Some(item) => item.token.token.span.start,
        None => 0,
    }
}

/// Whether no byte stands between a token and the next one.
pub(crate) fn touches(items: &[Item], index: usize) -> bool
    requires { index + 1 < 2 ^ 64 }
    ensures { result ≡ touches items.now index }
{
    end_at(items, index) == start_at(items, index + 1)
}

/// Whether a token is a `.` that touches no `.` before it.
#[tactic(auto, unfolding(crate::specs::Spaces::is_dot))]
fn is_dot(items: &[Item], index: u32) -> bool
    ensures { result ≡ is_dot items.now index }
{
    if index == 0 {
        return sign(items, 0) == b'.';
    }
    sign(items, index) == b'.'
        && !(sign(items, index - 1) == b'.' && touches(items, index as usize - 1))
}

/// Whether a token ends a `->`.
#[tactic(auto, unfolding(crate::specs::Spaces::is_arrow))]
fn is_arrow(items: &[Item], index: u32) -> bool
    ensures { result ≡ is_arrow items.now index }
{
    index > 0
        && sign(items, index) == b'>'
        && sign(items, index - 1) == b'-'
        && touches(items, index as usize - 1)
}

/// Whether `.` or `->` begins with a token.
pub(crate) fn begins_accessor(items: &[Item], index: usize) -> bool
    requires { index + 1 < 2 ^ 64 }
    ensures { result ≡ begins_accessor items.now index }
{
    (byte_at(items, index) == b'.' && !(byte_at(items, index + 1) == b'.' && touches(items, index)))
        || (byte_at(items, index) == b'-'
            && byte_at(items, index + 1) == b'>'
            && touches(items, index))
}

/// Whether a `.` or `->` is directly before a token.
#[tactic(auto, unfolding(crate::specs::Spaces::follows_accessor))]
pub(crate) fn follows_accessor(items: &[Item], index: u32) -> bool
    ensures { result ≡ follows_accessor items.now index }
{
    index > 0 && (is_dot(items, index - 1) || is_arrow(items, index - 1))
}

/// Whether `struct`, `union` or `enum` is directly before a token.
#[tactic(auto, unfolding(crate::specs::Spaces::after_keyword))]
fn after_keyword(items: &[Item], index: u32) -> bool
    ensures { result ≡ after_keyword items.now index }
{
    index > 0 && is_keyword_at(items, index - 1)
}

/// Whether one of the three words is directly before a token, or directly before the names there.
#[tactic(auto, unfolding(crate::specs::Braces::follows_keyword))]
pub(crate) fn follows_keyword(items: &[Item], index: u32) -> bool
    ensures { result ≡ follows_keyword items.now index }
{
    let mut left = index;
    'names: while left > 0 {
        if is_keyword_at(items, left - 1) {
            return true;
        }
        if !is_name_at(items, left - 1) {
            return false;
        }
        left -= 1;
    }
    false
}

/// How many names there are from a token on.
fn names_at(items: &[Item], index: u32) -> usize
    ensures value { result ≡ names_at items.now index }
    ensures within { result ≤ length items.now - index }
{
    from(items, index)
        .iter()
        .take_while(|item| is_name_item(*item))
        .count()
}

/// Whether a `{` stands behind the names from a token on.
fn opens_body(items: &[Item], index: u32) -> bool
    requires few { length items.now < 2 ^ 32 }
    requires within { index ≤ length items.now }
    ensures { result ≡ is_at open_brace items.now (index + names_at items.now index) }
{
    sign(items, index + names_at(items, index) as u32) == b'{'
}

/// Whether a name is a tag.
pub(crate) fn is_tag(items: &[Item], index: u32) -> bool
    requires few { length items.now < 2 ^ 32 }
    requires within { index < length items.now }
    ensures { result ≡ is_tag items.now index }
{
    if sign(items, index + 1) == b'{' {
        return follows_keyword(items, index);
    }
    after_keyword(items, index) && !opens_body(items, index + 1)
}

/// Whether a token is an ordinary name, where it is known with which tokens a statement begins.
pub(crate) fn is_ordinary(items: &[Item], starts: &[bool], index: u32) -> bool
    requires few { length items.now < 2 ^ 32 }
    requires within { index < length items.now }
    ensures { result ≡ is_ordinary_by items.now starts.now index }
{
    is_name_at(items, index)
        && !(follows_accessor(items, index)
            || is_tag(items, index)
            || names_label(items, begins(starts, index), index))
}
