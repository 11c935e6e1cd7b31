//! What is done with a name: whether it is read or written, or its address is taken.
ghost use Rattle.cb_names.specs.Shapes.{IsShape};
ghost use Rattle.std.specs.Prelude.{◌+◌, ◌<◌, ◌≡◌};
ghost use Rattle.cb_names.specs.Accesses.{access, behind_indices, done_before, done_with};
ghost use Rattle.cb_names.specs.Accesses.{ends_operand, follows_address, follows_star};
ghost use Rattle.cb_names.specs.Accesses.{follows_step, is_assigned, is_double, is_operator};
ghost use Rattle.cb_names.specs.Accesses.{is_shift, is_step, precedes_equals, takes_address};
ghost use Rattle.std.specs.Prelude.{if◌then◌else◌, length, nat_lt, ◌^◌};
ghost use Rattle.std.specs.Prelude.{◌&&◌};
ghost use Rattle.cb_names.specs.Accesses.{is_character};
ghost use Rattle.cb_names.specs.Pairs.{at};
ghost use Rattle.cb_names.specs.Accesses.{index_end};
ghost use Rattle.std.specs.Prelude.{IfSome};

use crate::braces::is_name_at;
use crate::local::Access;
use crate::pairs::{byte_at, sign};
use crate::shape::Shape;
use crate::spaces::{begins_accessor, touches};
use crate::word::Item;
use cb_scan::WideRole;

/// Where `[..]` ends that begins with a token.
fn index_end(shape: &Shape, index: u32) -> Option<u32>
    requires { IsShape shape.now }
    ensures value { result ≡ index_end shape.now.items.items index }
    ensures within { IfSome result (λ p. p < length shape.now.items.items) }
{
    if sign(shape.items.as_slice(), index) == b'[' {
        shape.partner(index)
    } else {
        None
    }
}

/// The index behind pairs `[..]` that follow each other from a token on.
fn behind_indices(shape: &Shape, index: u32) -> u32
    requires { IsShape shape.now }
    ensures { result ≡ behind_indices shape.now.items.items index }
{
    let mut left = index;
    'pairs: for step in 0..shape.items.len() {
        let _step = step;
        match index_end(shape, left) {
            Some(end) => left = end + 1,
            None => return left,
        }
    }
    left
}

/// Whether a token and the next one touch and are the same byte.
fn is_double(items: &[Item], index: usize) -> bool
    requires { index + 1 < 2 ^ 64 }
    ensures { result ≡ is_double items.now index }
{
    byte_at(items, index + 1) == byte_at(items, index) && touches(items, index)
}

/// Whether `++` or `--` begins with a token.
fn is_step(items: &[Item], index: usize) -> bool
    requires { index + 1 < 2 ^ 64 }
    ensures { result ≡ is_step items.now index }
{
    matches!(byte_at(items, index), b'+' | b'-') && is_double(items, index)
}

/// Whether a byte and `=` are an assignment.
fn is_operator(byte: u8) -> bool
    ensures { result ≡ is_operator byte }
{
    matches!(byte, b'+' | b'-' | b'*' | b'/' | b'%' | b'&' | b'^' | b'|')
}

/// Whether a token and `=` touch.
fn precedes_equals(items: &[Item], index: usize) -> bool
    requires { index + 1 < 2 ^ 64 }
    ensures { result ≡ precedes_equals items.now index }
{
    byte_at(items, index + 1) == b'=' && touches(items, index)
}

/// Whether `<<=` or `>>=` begins with a token.
fn is_shift(items: &[Item], index: usize) -> bool
    requires { index + 2 < 2 ^ 64 }
    ensures { result ≡ is_shift items.now index }
{
    matches!(byte_at(items, index), b'<' | b'>')
        && is_double(items, index)
        && precedes_equals(items, index + 1)
}

/// Whether an assignment begins with a token.
fn is_assigned(items: &[Item], index: usize) -> bool
    requires { index + 2 < 2 ^ 64 }
    ensures { result ≡ is_assigned items.now index }
{
    let next = precedes_equals(items, index);
    (byte_at(items, index) == b'=' && !next)
        || (is_operator(byte_at(items, index)) && next)
        || is_shift(items, index)
}

/// Whether `++` or `--` is directly before a token.
#[tactic(auto, unfolding(crate::specs::Accesses::follows_step))]
fn follows_step(items: &[Item], index: u32) -> bool
    ensures { result ≡ follows_step items.now index }
{
    index > 1 && is_step(items, index as usize - 2)
}

/// Whether a token is a number or a literal.
fn is_literal(items: &[Item], index: u32) -> bool
    ensures { result ≡ (nat_lt index (length items.now)
        && is_character (at items.now index).token.role) }
{
    match items.get(index as usize) {
        Some(item) => matches!(
            item.token.role,
            WideRole::Number | WideRole::Str | WideRole::Character
        ),
        None => false,
    }
}

/// Whether an operand ends with a token.
pub(crate) fn ends_operand(items: &[Item], index: u32) -> bool
    ensures { result ≡ ends_operand items.now index }
{
    is_name_at(items, index)
        || is_literal(items, index)
        || matches!(sign(items, index), b')' | b']')
}

/// Whether a token is the `&` that takes an address.
#[tactic(auto, unfolding(crate::specs::Accesses::takes_address))]
fn takes_address(items: &[Item], index: u32) -> bool
    ensures { result ≡ takes_address items.now index }
{
    if index == 0 {
        return sign(items, 0) == b'&';
    }
    sign(items, index) == b'&'
        && !(sign(items, index - 1) == b'&' && touches(items, index as usize - 1))
        && !ends_operand(items, index - 1)
}

/// Whether such a `&` is directly before a token.
#[tactic(auto, unfolding(crate::specs::Accesses::follows_address))]
fn follows_address(items: &[Item], index: u32) -> bool
    ensures { result ≡ follows_address items.now index }
{
    index > 0 && takes_address(items, index - 1)
}

/// Whether `*` is directly before a token.
#[tactic(auto, unfolding(crate::specs::Accesses::follows_star))]
fn follows_star(items: &[Item], index: u32) -> bool
    ensures { result ≡ follows_star items.now index }
{
    index > 0 && sign(items, index - 1) == b'*'
}

/// What is done by what stands before a name, which is not assigned.
fn done_before(items: &[Item], end: usize, index: u32) -> Access
    requires { end + 1 < 2 ^ 64 }
    ensures { result ≡ done_before items.now end index }
{
    if begins_accessor(items, end) {
        return Access::Read;
    }
    if follows_step(items, index) {
        Access::Written
    } else if follows_address(items, index) {
        Access::Address
    } else {
        Access::Read
    }
}

/// What is done with a name that is not declared, which ends before a token.
fn done_with(items: &[Item], end: usize, index: u32) -> Access
    requires { end + 2 < 2 ^ 64 }
    ensures { result ≡ done_with items.now end index }
{
    if follows_star(items, index) && !is_step(items, end) {
        return Access::Read;
    }
    if is_assigned(items, end) || is_step(items, end) {
        return Access::Written;
    }
    done_before(items, end, index)
}

/// What is done with a name that is declared, which ends before a token.
fn declared_with(items: &[Item], end: usize) -> Access
    requires { end + 2 < 2 ^ 64 }
    ensures { result ≡ (if is_assigned items.now end then Access.Written else Access.Named) }
{
    if is_assigned(items, end) {
        Access::Written
    } else {
        Access::Named
    }
}

/// What is done with a name, which is declared or not.
pub(crate) fn access(shape: &Shape, is_declared: bool, index: u32) -> Access
    requires shape { IsShape shape.now }
    requires within { index < length shape.now.items.items }
    ensures { result ≡ access shape.now.items.items is_declared index }
{
    let end = behind_indices(shape, index + 1) as usize;
    if is_declared {
        declared_with(shape.items.as_slice(), end)
    } else {
        done_with(shape.items.as_slice(), end, index)
    }
}
