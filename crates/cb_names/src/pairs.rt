//! Which brackets are open before each token, and which of them pair: one pass, in which each
//! bracket is taken away once.
ghost use Rattle.std.specs.Prelude.{◌≡◌, ◌<◌, ◌+◌, ◌^◌, IfOk, List, None, Some, false, length};
ghost use Rattle.std.specs.Prelude.{true};
ghost use Rattle.cb_names.specs.Pairs.{closed_at, ends_all, innermost, is_at, lowest_brace};
ghost use Rattle.cb_names.specs.Pairs.{nearest_brace, opened, opens, partner, sign};
ghost use Rattle.cb_names.specs.Tables.{IsTable};
ghost use Rattle.cb_names.specs.steps.Pairing.{HoldsPairs, answer, kept_after, lowest_after};
ghost use Rattle.cb_names.specs.steps.Pairing.{nearest_by, other_by};

use crate::word::Item;
use cb_scan::WideRole;
use std::alloc::{AllocError, Global};

/// The brackets of some tokens: for each token the innermost one that is open before it, and the one
/// with which it pairs.
#[derive(Drop)]
pub(crate) struct Pairs {
    pub around: Vec<Option<u32>>,
    pub partner: Vec<Option<u32>>,
}

/// What is known after some tokens: of each the innermost bracket before it and its partner so far;
/// of each bracket that opens the nearest one around it that is of another kind; and the innermost
/// bracket that is open.
#[derive(Drop)]
pub(crate) struct Pairing {
    around: Vec<Option<u32>>,
    partner: Vec<Option<u32>>,
    others: Vec<Option<u32>>,
    top: Option<u32>,
}

/// The lone byte of a token, or 0.
pub(crate) fn sign(items: &[Item], at: u32) -> u8
    ensures { result ≡ sign items.now at }
{
    match items.get(at as usize) {
        Some(item) => match item.token.role {
            WideRole::Mark(byte) => byte,
            _ => 0,
        },
        None => 0,
    }
}

/// The same at an index that may be behind the last token.
pub(crate) fn byte_at(items: &[Item], at: usize) -> u8
    ensures { result ≡ sign items.now at }
{
    match items.get(at) {
        Some(item) => match item.token.role {
            WideRole::Mark(byte) => byte,
            _ => 0,
        },
        None => 0,
    }
}

pub(crate) fn opens(items: &[Item], at: u32) -> bool
    ensures { result ≡ opens items.now at }
{
    matches!(sign(items, at), b'(' | b'[' | b'{')
}

/// A `}` that begins its line.
pub(crate) fn ends_all(items: &[Item], at: u32) -> bool
    ensures { result ≡ ends_all items.now at }
{
    match items.get(at as usize) {
        Some(item) => sign(items, at) == b'}' && item.token.token.starts_line,
        None => false,
    }
}

/// The answer for a token; none where there is no such token.
pub(crate) fn answer(table: &[Option<u32>], at: u32) -> Option<u32>
    ensures { result ≡ answer table.now at }
{
    match table.get(at as usize) {
        Some(found) => *found,
        None => None,
    }
}

/// The nearest open bracket of this kind, unless a `{` is nearer.
fn nearest_by(items: &[Item], others: &[Option<u32>], top: Option<u32>, byte: u8) -> Option<u32>
    ensures { result ≡ nearest_by byte items.now others.now top }
{
    match top {
        None => None,
        Some(open) if sign(items, open) == byte => top,
        Some(open) if sign(items, open) == b'{' => None,
        Some(open) => match answer(others, open) {
            Some(other) if sign(items, other) == byte => Some(other),
            _ => None,
        },
    }
}

/// The nearest open bracket around a token that is of another kind.
fn other_by(items: &[Item], others: &[Option<u32>], top: Option<u32>, at: u32) -> Option<u32>
    ensures { result ≡ other_by items.now others.now top at }
{
    match top {
        None => None,
        Some(open) if sign(items, open) == sign(items, at) => answer(others, open),
        Some(_) => top,
    }
}

/// What stays open of a bracket after a token: nothing, if the token ends all.
fn kept_after(items: &[Item], at: u32, left: Option<u32>) -> Option<u32>
    ensures { result ≡ kept_after items.now at left }
{
    if ends_all(items, at) { None } else { left }
}

/// The outermost `{` so far, after one more bracket outwards.
fn lowest_after(items: &[Item], i: u32, lowest: Option<u32>) -> Option<u32>
    ensures { result ≡ lowest_after items.now i lowest }
{
    if sign(items, i) == b'{' {
        Some(i)
    } else {
        lowest
    }
}

impl Pairing {
    fn new(alloc: Global) -> Pairing
        ensures { (xs : List Item) → HoldsPairs xs 0 result }
    {
        Pairing {
            around: Vec::new(alloc),
            partner: Vec::new(alloc),
            others: Vec::new(alloc),
            top: None,
        }
    }

    /// The innermost open `{`.
    fn nearest_brace(&self, items: &[Item], at: u32) -> Option<u32>
        requires { HoldsPairs items.now at self.now }
        ensures { result ≡ nearest_brace items.now (opened items.now at) }
    {
        let mut left = self.top;
        'brackets: while let Some(open) = left {
            if sign(items, open) == b'{' {
                return left;
            }
            left = answer(self.around.as_slice(), open);
        }
        None
    }

    /// The outermost open `{`.
    fn lowest_brace(&self, items: &[Item], at: u32) -> Option<u32>
        requires { HoldsPairs items.now at self.now }
        ensures { result ≡ lowest_brace items.now (opened items.now at) }
    {
        let mut lowest = None;
        let mut left = self.top;
        'brackets: while let Some(open) = left {
            lowest = lowest_after(items, open, lowest);
            left = answer(self.around.as_slice(), open);
        }
        lowest
    }

    /// The open bracket that a token closes, if it closes one.
    fn closed(&self, items: &[Item], at: u32) -> Option<u32>
        requires { HoldsPairs items.now at self.now }
        ensures { result ≡ closed_at items.now at }
    {
        match sign(items, at) {
            b')' => nearest_by(items, self.others.as_slice(), self.top, b'('),
            b']' => nearest_by(items, self.others.as_slice(), self.top, b'['),
            b'}' if ends_all(items, at) => self.lowest_brace(items, at),
            b'}' => self.nearest_brace(items, at),
            _ => None,
        }
    }

    /// After a token that opens and closes nothing.
    fn pass(&mut self, items: &[Item], at: u32) -> Result<(), AllocError>
        requires holds { HoldsPairs items.now at self.old }
        requires opening { opens items.now at ≡ false }
        requires closing { closed_at items.now at ≡ None }
        ensures { IfOk result (λ _. HoldsPairs items.now (at + 1) self.new) }
    {
        let top = kept_after(items, at, self.top);
        self.around.push(self.top)?;
        self.others.push(None)?;
        self.partner.push(None)?;
        self.top = top;
        Ok(())
    }

    /// After a token that closes an open bracket.
    fn close(&mut self, items: &[Item], at: u32, closed: u32) -> Result<(), AllocError>
        requires holds { HoldsPairs items.now at self.old }
        requires opening { opens items.now at ≡ false }
        requires closing { closed_at items.now at ≡ Some closed }
        ensures { IfOk result (λ _. HoldsPairs items.now (at + 1) self.new) }
    {
        let top = kept_after(items, at, answer(self.around.as_slice(), closed));
        self.around.push(self.top)?;
        self.others.push(None)?;
        self.partner.push(Some(closed))?;
        self.partner[closed as usize] = Some(at);
        self.top = top;
        Ok(())
    }

    /// After a bracket that opens.
    fn open(&mut self, items: &[Item], at: u32) -> Result<(), AllocError>
        requires holds { HoldsPairs items.now at self.old }
        requires opening { opens items.now at ≡ true }
        ensures { IfOk result (λ _. HoldsPairs items.now (at + 1) self.new) }
    {
        let other = other_by(items, self.others.as_slice(), self.top, at);
        self.around.push(self.top)?;
        self.others.push(other)?;
        self.partner.push(None)?;
        self.top = Some(at);
        Ok(())
    }

    /// After one more token.
    fn add(&mut self, items: &[Item], at: u32) -> Result<(), AllocError>
        requires { HoldsPairs items.now at self.old }
        ensures { IfOk result (λ _. HoldsPairs items.now (at + 1) self.new) }
    {
        if opens(items, at) {
            return self.open(items, at);
        }
        match self.closed(items, at) {
            Some(closed) => self.close(items, at, closed),
            None => self.pass(items, at),
        }
    }
}

/// The brackets of some tokens.
pub(crate) fn pairs_of(alloc: Global, items: &[Item]) -> Result<Pairs, AllocError>
    requires { length items.now < 2 ^ 32 }
    ensures around { IfOk result
        (λ p. IsTable (innermost items.now) (length items.now) p.around.items) }
    ensures partner { IfOk result
        (λ p. IsTable (partner items.now) (length items.now) p.partner.items) }
{
    let mut pairing = Pairing::new(alloc);
    for at in 0..items.len() as u32 {
        pairing.add(items, at)?;
    }
    Ok(Pairs {
        around: pairing.around,
        partner: pairing.partner,
    })
}
