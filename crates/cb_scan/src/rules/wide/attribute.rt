//! Attributes, which all other rules of the wide profile leave out.
ghost use Rattle.std.specs.Prelude.{◌≡◌, ◌+◌, ◌<◌, ◌≤◌, ◌^◌, length};
ghost use Rattle.cb_scan.specs.CodeTokens.{first_attribute};
ghost use Rattle.cb_scan.specs.rules.wide.Attributes.{begins_attribute, begins_with_literal};
ghost use Rattle.cb_scan.specs.rules.wide.Attributes.{closing_len, ends_attribute};
ghost use Rattle.cb_scan.specs.steps.wide.Attributes.{inside_after, leaves_out, next_attribute};
ghost use Rattle.cb_scan.specs.steps.wide.Attributes.{open_count};

use crate::rules::wide::role::WideRole;
use crate::rules::wide::token::WideToken;

/// Whether the next token is of an attribute.
#[derive(Clone, Copy)]
pub(crate) enum Attribute {
    Outside,
    /// The token is the first `(` of one.
    Begun,
    /// So many parentheses are open besides the first.
    Inside(u32),
}

#[inline(always)]
fn begins_with_literal(ahead: &[WideToken]) -> bool
    ensures { result ≡ begins_with_literal ahead.now }
{
    match ahead {
        [first, ..] => first.role.is_literal(),
        [] => false,
    }
}

/// An attribute begins: a word and `(`, where the word is one for attributes, or a number or a
/// string follows.
#[inline(always)]
fn begins_attribute(ahead: &[WideToken]) -> bool
    ensures { result ≡ begins_attribute ahead.now }
{
    match ahead {
        [word, paren, after @ ..] => {
            word.role.is_word()
                && paren.role.is_sign(b'(')
                && (word.role.begins_attribute() || begins_with_literal(after))
        }
        _ => false,
    }
}

/// A `;` or a brace, which no attribute holds.
#[inline(always)]
pub(crate) fn ends_attribute(role: WideRole) -> bool
    ensures { result ≡ ends_attribute role }
{
    matches!(role, WideRole::Mark(b';' | b'{' | b'}'))
}

/// After a token in the parentheses of an attribute, so many of them open besides the first.
fn inside_after(more: u32, role: WideRole) -> Attribute
    requires { more + 1 < 2 ^ 32 }
    ensures { result ≡ inside_after more role }
{
    if role.is_sign(b'(') {
        Attribute::Inside(more + 1)
    } else if !role.is_sign(b')') {
        Attribute::Inside(more)
    } else if more == 0 {
        Attribute::Outside
    } else {
        Attribute::Inside(more - 1)
    }
}

impl Attribute {
    /// The state after the first of these tokens, and whether that one is left out.
    #[inline(always)]
    pub(crate) fn step(self, ahead: &[WideToken]) -> (Attribute, bool)
        requires { open_count self + 1 < 2 ^ 32 }
        ensures next { result.0 ≡ next_attribute self ahead.now }
        ensures left_out { result.1 ≡ leaves_out self ahead.now }
        ensures small { open_count result.0 ≤ open_count self + 1 }
    {
        match (self, ahead) {
            (_, []) => (self, false),
            (Attribute::Outside, _) => {
                if begins_attribute(ahead) {
                    (Attribute::Begun, true)
                } else {
                    (Attribute::Outside, false)
                }
            }
            (_, [first, ..]) if ends_attribute(first.role) => (Attribute::Outside, false),
            (Attribute::Begun, _) => (Attribute::Inside(0), true),
            (Attribute::Inside(more), [first, ..]) => (inside_after(more, first.role), true),
        }
    }
}

/// How many tokens there are up to and with the `)` that closes a parenthesis, or up to a `;` or a
/// brace.
#[tactic(auto, unfolding(crate::specs::rules::wide::Attributes::closing_len))]
fn closing_len(tokens: &[WideToken]) -> usize
    ensures value { result ≡ closing_len 0 tokens.now }
    ensures within { result ≤ length tokens.now }
{
    let mut more: usize = 0;
    for (i, item) in tokens.iter().enumerate() {
        if ends_attribute(item.role) {
            return i;
        }
        if item.role.is_sign(b'(') {
            more += 1;
        } else if item.role.is_sign(b')') {
            if more == 0 {
                return i + 1;
            }
            more -= 1;
        }
    }
    tokens.len()
}

/// How many of the first tokens are of an attribute that begins with them: all up to and with its
/// `)`, or up to a `;` or a brace. 0 where none begins.
pub fn attribute_len(tokens: &[WideToken]) -> usize
    ensures value { result ≡ first_attribute tokens.now }
    ensures within { result ≤ length tokens.now }
{
    if begins_attribute(tokens) {
        2 + closing_len(&tokens[2..])
    } else {
        0
    }
}
