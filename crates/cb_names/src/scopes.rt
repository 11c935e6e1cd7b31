//! The scopes of a function: the innermost one around each token.
ghost use Rattle.std.specs.Prelude.{◌≡◌, ◌<◌, ◌+◌, ◌^◌, IfOk, List, None, ℕ, length};
ghost use Rattle.cb_names.specs.Pairs.{at, innermost};
ghost use Rattle.cb_names.specs.Scopes.{begins_for, end_around, ends_for, first_end, for_of};
ghost use Rattle.cb_names.specs.Scopes.{for_before, for_end, level_of, or_last, scope_at};
ghost use Rattle.cb_names.specs.Scopes.{scope_of_bracket, scope_of_for, whole};
ghost use Rattle.cb_names.specs.Shapes.{IsShape};
ghost use Rattle.cb_names.specs.Tables.{IsTable};
ghost use Rattle.cb_names.specs.steps.Scoping.{end_by, put, scope_by};
ghost use Rattle.cb_names.specs.Braces.{is_block};
ghost use Rattle.cb_names.specs.Scopes.{is_else};
ghost use Rattle.cb_names.specs.steps.Pairing.{answer};
ghost use Rattle.cb_names.specs.steps.Scoping.{around_answer, bracket_scope, for_scope};
ghost use Rattle.std.specs.Option.{option_or};
ghost use Rattle.std.specs.Prelude.{Bool, Option, slice_index_or};
ghost use Rattle.std.specs.Prelude.{false};
ghost use Rattle.cb_names.specs.Statements.{closes_block};
ghost use Rattle.cb_names.specs.steps.Scoping.{level_by, put_if};
ghost use Rattle.std.specs.Prelude.{replicate};

use crate::braces::Brace;
use crate::pairs::{answer, opens, sign};
use crate::shape::Shape;
use crate::statements::{closed_by, in_block_by};
use crate::word::{Item, Word};
use std::alloc::{AllocError, Global};

/// A scope: the indices of its first and its last token.
#[derive(Clone, Copy, Debug, PartialEq, Eq)]
pub(crate) struct Scope {
    pub first: u32,
    pub last: u32,
}

/// Whether a word at an index is of a kind.
fn is_else(items: &[Item], index: u32) -> bool
    ensures { result ≡ is_else (at items.now index).word }
{
    match items.get(index as usize) {
        Some(item) => matches!(item.word, Word::Else),
        None => false,
    }
}

/// Whether a `for` begins with a token.
pub(crate) fn begins_for(items: &[Item], index: u32) -> bool
    requires { index + 1 < 2 ^ 32 }
    ensures { result ≡ begins_for items.now index }
{
    match items.get(index as usize) {
        Some(item) => matches!(item.word, Word::For) && sign(items, index + 1) == b'(',
        None => false,
    }
}

/// The `for` that is directly before a token.
#[tactic(auto, unfolding(crate::specs::Scopes::for_of))]
pub(crate) fn for_of(items: &[Item], index: u32) -> Option<u32>
    ensures { result ≡ for_of items.now index }
{
    if index > 0 && begins_for(items, index - 1) {
        Some(index - 1)
    } else {
        None
    }
}

/// The bracket around which a token stands, where it pairs with this one.
fn level_by(items: &[Item], around: &[Option<u32>], pair: Option<u32>, index: u32) -> Option<u32>
    ensures { result ≡ level_by items.now around.now pair index }
{
    match closed_by(items, index, pair) {
        Some(bracket) => answer(around, bracket),
        None => answer(around, index),
    }
}

/// The bracket around which a token stands.
fn level_of(shape: &Shape, index: u32) -> Option<u32>
    requires shape { IsShape shape.now }
    requires within { index < length shape.now.items.items }
    ensures { result ≡ level_of shape.now.items.items index }
{
    let around = shape.pairs.around.as_slice();
    let pair = answer(shape.pairs.partner.as_slice(), index);
    level_by(shape.items.as_slice(), around, pair, index)
}

/// Whether a token is the `}` of a block.
fn closes_block(shape: &Shape, index: u32) -> bool
    requires shape { IsShape shape.now }
    requires within { index < length shape.now.items.items }
    ensures { result ≡ closes_block shape.now.items.items shape.now.body index }
{
    let pair = answer(shape.pairs.partner.as_slice(), index);
    sign(shape.items.as_slice(), index) == b'}' && in_block_by(shape.kinds.as_slice(), pair)
}

/// Whether a statement ends with a token, and no `else` goes on with it.
fn ends_for(shape: &Shape, index: u32) -> bool
    requires shape { IsShape shape.now }
    requires within { index < length shape.now.items.items }
    ensures { result ≡ ends_for shape.now.items.items shape.now.body index }
{
    let items = shape.items.as_slice();
    (sign(items, index) == b';' || closes_block(shape, index)) && !is_else(items, index + 1)
}

/// So many times none.
fn nones(alloc: Global, count: usize) -> Result<Vec<Option<u32>>, AllocError>
    ensures { IfOk result (λ made. made.items ≡ replicate count None) }
{
    let mut made = Vec::with_capacity(alloc, count)?;
    for _i in 0..count {
        made.push(None)?;
    }
    Ok(made)
}

/// Puts an answer in the place of another, if there is such a place.
fn put(table: &mut Vec<Option<u32>>, index: Option<u32>, answer: Option<u32>)
    ensures { table.new.items ≡ put table.old.items index answer }
{
    if let Some(index) = index {
        if (index as usize) < table.len() {
            table[index as usize] = answer;
        }
    }
}

/// The same, if it is so.
fn put_if(table: &mut Vec<Option<u32>>, is: bool, index: Option<u32>, answer: Option<u32>)
    ensures { table.new.items ≡ put_if table.old.items is index answer }
{
    if is {
        put(table, index, answer);
    }
}

/// Where the innermost of some brackets ends, by where those around each end.
fn end_by(partners: &[Option<u32>], ends: &[Option<u32>], bracket: Option<u32>) -> Option<u32>
    ensures { result ≡ end_by partners.now ends.now bracket }
{
    match bracket {
        Some(bracket) => match answer(partners, bracket) {
            Some(end) => Some(end),
            None => answer(ends, bracket),
        },
        None => None,
    }
}

/// Where the innermost bracket around each token ends.
fn ends_of(alloc: Global, shape: &Shape) -> Result<Vec<Option<u32>>, AllocError>
    requires { IsShape shape.now }
    ensures { IfOk result (λ ends. IsTable (end_around shape.now.items.items)
        (length shape.now.items.items) ends.items) }
{
    let mut ends = Vec::new(alloc);
    for at in 0..shape.items.len() as u32 {
        let around = answer(shape.pairs.around.as_slice(), at);
        ends.push(end_by(shape.pairs.partner.as_slice(), ends.as_slice(), around))?;
    }
    Ok(ends)
}

/// The first ends of statements from a token on, by the brackets that are around them, after this
/// one.
fn note_end(shape: &Shape, index: u32, firsts: &mut Vec<Option<u32>>)
    requires shape { IsShape shape.now }
    requires within { index < length shape.now.items.items }
    requires firsts { IsTable (λ j. first_end shape.now.items.items shape.now.body j (index + 1))
        (length shape.now.items.items) firsts.old.items }
    ensures { IsTable (λ j. first_end shape.now.items.items shape.now.body j index)
        (length shape.now.items.items) firsts.new.items }
{
    put_if(
        firsts,
        ends_for(shape, index),
        level_of(shape, index),
        Some(index),
    );
}

/// The answer for the bracket around a token.
fn around_answer(shape: &Shape, table: &[Option<u32>], index: u32) -> Option<u32>
    requires shape { IsShape shape.now }
    requires within { index < length shape.now.items.items }
    ensures { result ≡ around_answer shape.now.items.items table.now index }
{
    match answer(shape.pairs.around.as_slice(), index) {
        Some(bracket) => answer(table, bracket),
        None => None,
    }
}

/// Where the statement of each `for` ends; the answers for other tokens mean nothing.
fn for_ends_of(alloc: Global, shape: &Shape) -> Result<Vec<Option<u32>>, AllocError>
    requires { IsShape shape.now }
    ensures { IfOk result (λ ends. IsTable (for_end shape.now.items.items shape.now.body)
        (length shape.now.items.items) ends.items) }
{
    let mut firsts = nones(alloc, shape.items.len())?;
    let mut ends = nones(alloc, shape.items.len())?;
    let mut left = shape.items.len() as u32;
    'tokens: while left > 0 {
        left -= 1;
        note_end(shape, left, &mut firsts);
        let end = around_answer(shape, firsts.as_slice(), left);
        put(&mut ends, Some(left), end);
    }
    Ok(ends)
}

/// The `for` statements that go on behind a token, by the brackets that are around them, where these
/// go on before it.
fn note_for(shape: &Shape, index: u32, fors: &mut Vec<Option<u32>>)
    requires shape { IsShape shape.now }
    requires within { index < length shape.now.items.items }
    requires fors { IsTable (λ j. for_before shape.now.items.items shape.now.body j index)
        (length shape.now.items.items) fors.old.items }
    ensures { IsTable (λ j. for_before shape.now.items.items shape.now.body j (index + 1))
        (length shape.now.items.items) fors.new.items }
{
    put_if(fors, ends_for(shape, index), level_of(shape, index), None);
    let around = answer(shape.pairs.around.as_slice(), index);
    let begins = begins_for(shape.items.as_slice(), index);
    put_if(fors, begins, around, Some(index));
}

/// An end, or the last token.
fn or_last(items: &[Item], end: Option<u32>) -> u32
    requires { length items.now < 2 ^ 32 }
    ensures { result ≡ or_last items.now end }
{
    match end {
        Some(end) => end,
        None => (items.len() as u32).saturating_sub(1),
    }
}

/// What the ends of scopes are told by.
#[derive(Clone, Copy)]
struct Ends<'a> {
    partners: &'a [Option<u32>],
    ends: &'a [Option<u32>],
    for_ends: &'a [Option<u32>],
}

/// The first of two answers.
fn first_of(first: Option<u32>, second: Option<u32>) -> Option<u32>
    ensures { result ≡ option_or first second }
{
    match first {
        Some(_) => first,
        None => second,
    }
}

impl Ends<'_> {
    /// The scope of a bracket.
    fn of_bracket(&self, items: &[Item], bracket: u32) -> Scope
        requires { length items.now < 2 ^ 32 }
        ensures { result ≡ bracket_scope items.now self.now.partners.now self.now.ends.now bracket }
    {
        let end = first_of(answer(self.partners, bracket), answer(self.ends, bracket));
        Scope {
            first: bracket,
            last: or_last(items, end),
        }
    }

    /// The scope of a `for`.
    fn of_for(&self, items: &[Item], index: u32) -> Scope
        requires { length items.now < 2 ^ 32 }
        ensures { result ≡ for_scope items.now self.now.for_ends.now self.now.ends.now index }
    {
        let end = first_of(answer(self.for_ends, index), answer(self.ends, index));
        Scope {
            first: index,
            last: or_last(items, end),
        }
    }
}

/// All of a function.
fn whole(items: &[Item]) -> Scope
    requires { length items.now < 2 ^ 32 }
    ensures { result ≡ whole items.now }
{
    Scope {
        first: 0,
        last: or_last(items, None),
    }
}

fn is_block(kinds: &[Brace], bracket: u32) -> bool
    ensures { result ≡ is_block (slice_index_or kinds.now bracket Brace.Other) }
{
    in_block_by(kinds, Some(bracket))
}

/// Whether a list begins with a token.
pub(crate) fn flag(flags: &[bool], index: u32) -> bool
    ensures { result ≡ slice_index_or flags.now index false }
{
    match flags.get(index as usize) {
        Some(set) => *set,
        None => false,
    }
}

/// The scope around a token that precedes this one.
fn scope_before(items: &[Item], scopes: &[Scope], index: u32) -> Scope
    requires { length items.now < 2 ^ 32 }
    ensures { result ≡ slice_index_or scopes.now index (whole items.now) }
{
    match scopes.get(index as usize) {
        Some(scope) => *scope,
        None => whole(items),
    }
}

/// The innermost scope around a token, which is in this bracket.
fn scope_by(
    shape: &Shape,
    ends: Ends<'_>,
    lists: &[bool],
    fors: &[Option<u32>],
    scopes: &[Scope],
    bracket: Option<u32>,
) -> Scope
    requires { length shape.now.items.items < 2 ^ 32 }
    ensures { result ≡ scope_by shape.now.items.items ends.entry.partners.now
        shape.now.kinds.items ends.entry.ends.now ends.entry.for_ends.now lists.now fors.now scopes.now bracket }
{
    let items = shape.items.as_slice();
    let Some(bracket) = bracket else {
        return whole(items);
    };
    if is_block(shape.kinds.as_slice(), bracket) {
        return match answer(fors, bracket) {
            Some(index) => ends.of_for(items, index),
            None => ends.of_bracket(items, bracket),
        };
    }
    match for_of(items, bracket) {
        Some(index) => ends.of_for(items, index),
        None if flag(lists, bracket) => ends.of_bracket(items, bracket),
        None => scope_before(items, scopes, bracket),
    }
}

/// The innermost scope around each token.
pub(crate) fn scopes_of(
    alloc: Global,
    shape: &Shape,
    lists: &[bool],
) -> Result<Vec<Scope>, AllocError>
    requires { IsShape shape.now }
    ensures { IfOk result (λ scopes. (is_list : ℕ → Bool)
        → IsTable is_list (length shape.now.items.items) lists.now
        → IsTable (scope_at is_list shape.now.items.items shape.now.body)
        (length shape.now.items.items) scopes.items) }
{
    let brackets = ends_of(alloc, shape)?;
    let statements = for_ends_of(alloc, shape)?;
    let ends = Ends {
        partners: shape.pairs.partner.as_slice(),
        ends: brackets.as_slice(),
        for_ends: statements.as_slice(),
    };
    let mut fors = nones(alloc, shape.items.len())?;
    let mut scopes = Vec::with_capacity(alloc, shape.items.len())?;
    for at in 0..shape.items.len() as u32 {
        let bracket = answer(shape.pairs.around.as_slice(), at);
        let scope = scope_by(
            shape,
            ends,
            lists,
            fors.as_slice(),
            scopes.as_slice(),
            bracket,
        );
        scopes.push(scope)?;
        note_for(shape, at, &mut fors);
    }
    Ok(scopes)
}
