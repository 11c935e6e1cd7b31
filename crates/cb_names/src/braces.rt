//! What each `{` in the body of a function opens.
ghost use Rattle.std.specs.Prelude.{◌≡◌, ◌<◌, ◌^◌, IfOk, length};
ghost use Rattle.cb_names.specs.Braces.{begins_value, follows_head, follows_keyword};
ghost use Rattle.cb_names.specs.Braces.{follows_separator, is_keyword_at, is_name_at, is_value};
ghost use Rattle.cb_names.specs.Braces.{kind_at, kind_by, takes_parentheses};
ghost use Rattle.cb_names.specs.Pairs.{at, innermost, is_at, partner};
ghost use Rattle.cb_names.specs.Tables.{IsTable};
ghost use Rattle.cb_names.specs.steps.Opening.{is_in_value, keyword_after};

use crate::pairs::{Pairs, answer, sign};
use crate::word::{Item, Word};
use std::alloc::{AllocError, Global};

/// What a token opens.
#[derive(Clone, Copy, Debug, PartialEq, Eq)]
pub(crate) enum Brace {
    /// It is no `{`.
    Other,
    /// The body of a structure, union or enumeration.
    Body,
    /// A value in braces.
    Value,
    /// A block of statements.
    Block,
}

pub(crate) fn is_name_at(items: &[Item], at: u32) -> bool
    ensures { result ≡ is_name_at items.now at }
{
    match items.get(at as usize) {
        Some(item) => item.token.role.is_name(),
        None => false,
    }
}

pub(crate) fn is_keyword_at(items: &[Item], at: u32) -> bool
    ensures { result ≡ is_keyword_at items.now at }
{
    match items.get(at as usize) {
        Some(item) => item.token.role.is_keyword(),
        None => false,
    }
}

fn takes_parentheses(items: &[Item], index: u32) -> bool
    ensures { result ≡ takes_parentheses (at items.now index).word }
{
    match items.get(index as usize) {
        Some(item) => matches!(item.word, Word::For | Word::Control),
        None => false,
    }
}

/// Whether a name, or a word whose parentheses hold no type, is directly before a token.
#[tactic(auto, unfolding(crate::specs::Braces::follows_head))]
fn follows_head(items: &[Item], at: u32) -> bool
    ensures { result ≡ follows_head items.now at }
{
    at > 0 && (is_name_at(items, at - 1) || takes_parentheses(items, at - 1))
}

/// Whether a value begins with a token by what is directly before it.
#[tactic(auto, unfolding(crate::specs::Braces::begins_value))]
fn begins_value(items: &[Item], partners: &[Option<u32>], at: u32) -> bool
    requires within { at < length items.now }
    requires table { IsTable (partner items.now) (length items.now) partners.now }
    ensures { result ≡ begins_value items.now at }
{
    if at == 0 {
        return false;
    }
    match sign(items, at - 1) {
        b'=' | b']' => true,
        b')' => match answer(partners, at - 1) {
            Some(open) => !follows_head(items, open),
            None => false,
        },
        _ => false,
    }
}

#[tactic(auto, unfolding(crate::specs::Braces::follows_separator))]
pub(crate) fn follows_separator(items: &[Item], at: u32) -> bool
    ensures { result ≡ follows_separator items.now at }
{
    at > 0 && matches!(sign(items, at - 1), b',' | b'{')
}

/// What a `{` opens, which may be directly inside a value: by whether `struct`, `union` or `enum` is
/// before it, or before the names there.
fn kind_by(
    items: &[Item],
    partners: &[Option<u32>],
    body: u32,
    at: u32,
    keyword: bool,
    inside: bool,
) -> Brace
    requires within { at < length items.now }
    requires table { IsTable (partner items.now) (length items.now) partners.now }
    requires keyword { keyword ≡ follows_keyword items.now at }
    ensures { result ≡ kind_by items.now body at inside }
{
    if at == body {
        Brace::Block
    } else if keyword {
        Brace::Body
    } else if begins_value(items, partners, at) || (inside && follows_separator(items, at)) {
        Brace::Value
    } else {
        Brace::Block
    }
}

/// Whether the bracket that is open around a token is the `{` of a value.
fn is_in_value(kinds: &[Brace], around: Option<u32>) -> bool
    ensures { result ≡ is_in_value kinds.now around }
{
    match around {
        Some(open) => match kinds.get(open as usize) {
            Some(kind) => matches!(kind, Brace::Value),
            None => false,
        },
        None => false,
    }
}

/// Whether one of the three words is directly before the token behind this one, or before the names
/// there.
fn keyword_after(items: &[Item], at: u32, keyword: bool) -> bool
    ensures { result ≡ keyword_after items.now at keyword }
{
    is_keyword_at(items, at) || (is_name_at(items, at) && keyword)
}

/// What a token opens.
fn kind_at(
    items: &[Item],
    pairs: &Pairs,
    body: u32,
    at: u32,
    keyword: bool,
    kinds: &[Brace],
) -> Brace
    requires within { at < length items.now }
    requires around { IsTable (innermost items.now) (length items.now) pairs.now.around.items }
    requires partner { IsTable (partner items.now) (length items.now) pairs.now.partner.items }
    requires keyword { keyword ≡ follows_keyword items.now at }
    requires kinds { IsTable (kind_at items.now body) at kinds.now }
    ensures { result ≡ kind_at items.now body at }
{
    if sign(items, at) == b'{' {
        let inside = is_in_value(kinds, answer(pairs.around.as_slice(), at));
        kind_by(items, pairs.partner.as_slice(), body, at, keyword, inside)
    } else {
        Brace::Other
    }
}

/// What each token opens.
pub(crate) fn kinds_of(
    alloc: Global,
    items: &[Item],
    pairs: &Pairs,
    body: u32,
) -> Result<Vec<Brace>, AllocError>
    requires few { length items.now < 2 ^ 32 }
    requires around { IsTable (innermost items.now) (length items.now) pairs.now.around.items }
    requires partner { IsTable (partner items.now) (length items.now) pairs.now.partner.items }
    ensures { IfOk result (λ kinds. IsTable (kind_at items.now body) (length items.now) kinds.items) }
{
    let mut kinds = Vec::new(alloc);
    let mut keyword = false;
    for at in 0..items.len() as u32 {
        kinds.push(kind_at(items, pairs, body, at, keyword, kinds.as_slice()))?;
        keyword = keyword_after(items, at, keyword);
    }
    Ok(kinds)
}
