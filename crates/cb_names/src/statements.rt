//! Where the statements of a block begin: one pass.
ghost use Rattle.std.specs.Prelude.{◌≡◌, ◌<◌, ◌≤◌, ◌+◌, ◌^◌, IfOk, List, length, ℕ};
ghost use Rattle.cb_names.specs.Shapes.{IsShape};
ghost use Rattle.cb_names.specs.Statements.{is_case_at, is_default_at, is_lone_colon, starts};
ghost use Rattle.cb_names.specs.Tables.{IsTable};
ghost use Rattle.cb_names.specs.steps.Starting.{HoldsStarts, after_plain, case_after, closed_by};
ghost use Rattle.cb_names.specs.steps.Starting.{ends_by};
ghost use Rattle.cb_names.specs.steps.Starting.{follows_label, in_block_by, most, one_less};
ghost use Rattle.cb_names.specs.steps.Starting.{one_more, starts_by};

use crate::braces::{Brace, is_name_at};
use crate::pairs::{answer, ends_all, opens, sign};
use crate::shape::Shape;
use crate::word::{Item, Word};
use std::alloc::{AllocError, Global};

/// What is known after some tokens: at which a statement begins; before each, and before the next,
/// how many `?` are open since the nearest `case`; and whether a statement begins behind the last
/// one.
#[derive(Drop)]
pub(crate) struct Starting {
    starts: Vec<bool>,
    counts: Vec<Option<u32>>,
    count: Option<u32>,
    ends: bool,
}

fn is_case_at(items: &[Item], index: u32) -> bool
    ensures { result ≡ is_case_at items.now index }
{
    match items.get(index as usize) {
        Some(item) => sign(items, index) == 0 && matches!(item.word, Word::Case),
        None => false,
    }
}

/// A colon that no colon touches from behind.
#[tactic(auto, using(crate::proofs::SignLemmas::colon_within))]
pub(crate) fn is_lone_colon(items: &[Item], index: u32) -> bool
    requires { length items.now < 2 ^ 32 }
    ensures { result ≡ is_lone_colon items.now index }
{
    match sign(items, index) {
        b':' => {
            if sign(items, index + 1) != b':' {
                return true;
            }
            match (items.get(index as usize), items.get(index as usize + 1)) {
                (Some(first), Some(second)) => {
                    first.token.token.span.end != second.token.token.span.start
                }
                _ => true,
            }
        }
        _ => false,
    }
}

/// `default` and a colon behind it.
fn is_default_at(items: &[Item], index: u32) -> bool
    requires { index + 1 < 2 ^ 32 }
    ensures { result ≡ is_default_at items.now index }
{
    match items.get(index as usize) {
        Some(item) => matches!(item.word, Word::Default) && sign(items, index + 1) == b':',
        None => false,
    }
}

fn one_less(count: Option<u32>) -> Option<u32>
    ensures value { result ≡ one_less count }
    ensures few { most result ≤ most count }
{
    match count {
        Some(0) => None,
        Some(more) => Some(more - 1),
        None => None,
    }
}

fn one_more(count: Option<u32>) -> Option<u32>
    requires { most count + 1 < 2 ^ 32 }
    ensures value { result ≡ one_more count }
    ensures few { most result ≤ most count + 1 }
{
    match count {
        Some(more) => Some(more + 1),
        None => None,
    }
}

/// How many `?` are open since the nearest `case`, after a token that is no bracket of a pair.
fn after_plain(items: &[Item], at: u32, count: Option<u32>) -> Option<u32>
    requires { most count + 1 < 2 ^ 32 }
    ensures value { result ≡ after_plain items.now at count }
    ensures few { most result ≤ most count + 1 }
{
    match sign(items, at) {
        b':' => one_less(count),
        b'?' => one_more(count),
        _ => {
            if is_case_at(items, at) {
                Some(0)
            } else {
                count
            }
        }
    }
}

/// The same after any token, which closes this bracket.
fn case_after(
    items: &[Item],
    counts: &[Option<u32>],
    at: u32,
    closed: Option<u32>,
    count: Option<u32>,
) -> Option<u32>
    requires { most count + 1 < 2 ^ 32 }
    ensures { result ≡ case_after items.now counts.now at closed count }
{
    if ends_all(items, at) || opens(items, at) {
        return None;
    }
    match closed {
        Some(bracket) => answer(counts, bracket),
        None => after_plain(items, at, count),
    }
}

/// Whether a bracket is the `{` of a block.
pub(crate) fn in_block_by(kinds: &[Brace], bracket: Option<u32>) -> bool
    ensures { result ≡ in_block_by kinds.now bracket }
{
    match bracket {
        Some(at) => match kinds.get(at as usize) {
            Some(kind) => matches!(kind, Brace::Block),
            None => false,
        },
        None => false,
    }
}

/// Whether a statement begins behind a token, which pairs with this one.
fn ends_by(items: &[Item], kinds: &[Brace], pair: Option<u32>, count: Option<u32>, at: u32) -> bool
    ensures { result ≡ ends_by items.now kinds.now pair count at }
{
    match sign(items, at) {
        b';' => true,
        b'{' => in_block_by(kinds, Some(at)),
        b'}' => in_block_by(kinds, Some(at)) || in_block_by(kinds, pair),
        b':' => in_block_by(kinds, Some(at)) || count == Some(0),
        _ => in_block_by(kinds, Some(at)),
    }
}

/// Whether `default` and its colon, or a label, is directly before a token.
#[tactic(auto, unfolding(crate::specs::steps::Starting::follows_label))]
fn follows_label(items: &[Item], starts: &[bool], at: u32) -> bool
    requires { length items.now < 2 ^ 32 }
    ensures { result ≡ follows_label items.now starts.now at }
{
    if at < 2 {
        return false;
    }
    is_default_at(items, at - 2)
        || (is_name_at(items, at - 2)
            && is_lone_colon(items, at - 1)
            && match starts.get(at as usize - 2) {
                Some(begins) => *begins,
                None => false,
            })
}

/// Whether a statement of a block begins with a token, where these begin before it.
fn starts_by(
    items: &[Item],
    kinds: &[Brace],
    starts: &[bool],
    around: Option<u32>,
    ends: bool,
    at: u32,
) -> bool
    requires { length items.now < 2 ^ 32 }
    ensures { result ≡ starts_by items.now kinds.now starts.now around ends at }
{
    in_block_by(kinds, around) && (ends || follows_label(items, starts, at))
}

/// The bracket that a token closes, where it pairs with this one.
pub(crate) fn closed_by(items: &[Item], at: u32, pair: Option<u32>) -> Option<u32>
    ensures { result ≡ closed_by items.now at pair }
{
    if opens(items, at) { None } else { pair }
}

impl Starting {
    fn new(alloc: Global) -> Starting
        ensures { (xs : List Item) (b : ℕ) → HoldsStarts xs b 0 result }
    {
        Starting {
            starts: Vec::new(alloc),
            counts: Vec::new(alloc),
            count: None,
            ends: false,
        }
    }

    /// After one more token.
    fn add(&mut self, shape: &Shape, at: u32) -> Result<(), AllocError>
        requires shape { IsShape shape.now }
        requires within { at < length shape.now.items.items }
        requires holds { HoldsStarts shape.now.items.items shape.now.body at self.old }
        ensures { IfOk result
            (λ _. HoldsStarts shape.now.items.items shape.now.body (at + 1) self.new) }
    {
        let items = shape.items.as_slice();
        let kinds = shape.kinds.as_slice();
        let around = answer(shape.pairs.around.as_slice(), at);
        let pair = answer(shape.pairs.partner.as_slice(), at);
        let starts = starts_by(items, kinds, self.starts.as_slice(), around, self.ends, at);
        let ends = ends_by(items, kinds, pair, self.count, at);
        let closed = closed_by(items, at, pair);
        let count = case_after(items, self.counts.as_slice(), at, closed, self.count);
        self.starts.push(starts)?;
        self.counts.push(self.count)?;
        self.count = count;
        self.ends = ends;
        Ok(())
    }
}

/// With which tokens of a function a statement of a block begins.
pub(crate) fn starts_of(alloc: Global, shape: &Shape) -> Result<Vec<bool>, AllocError>
    requires { IsShape shape.now }
    ensures { IfOk result (λ found. IsTable (starts shape.now.items.items shape.now.body)
        (length shape.now.items.items) found.items) }
{
    let mut starting = Starting::new(alloc);
    for at in 0..shape.items.len() as u32 {
        starting.add(shape, at)?;
    }
    Ok(starting.starts)
}
