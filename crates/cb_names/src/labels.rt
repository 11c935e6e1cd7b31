//! The labels of a function.
ghost use Rattle.std.specs.Prelude.{◌≡◌, ◌<◌, ◌≤◌, ◌+◌, ◌^◌, ◌&&◌, IfErr, IfOk, length};
ghost use Rattle.std.specs.Prelude.{◌++◌, ◌∷◌, [], false, if◌then◌else◌, slice_index_or};
ghost use Rattle.std.specs.List.{AllByRecursion, prefix_len, range_with_len};
ghost use Rattle.std.specs.Str.{bytes_eq};
ghost use Rattle.cb_scan.specs.lex.Tokens.{bytes_of};
ghost use Rattle.cb_names.specs.Functions.{IsItemOf};
ghost use Rattle.cb_names.specs.Labels.{follows_goto, index_at, is_goto, is_same, is_spelled};
ghost use Rattle.cb_names.specs.Labels.{is_touched, label_named, label_use, names_label, span};
ghost use Rattle.cb_names.specs.Pairs.{at};
ghost use Rattle.cb_names.specs.Shapes.{IsShape};
ghost use Rattle.cb_names.specs.Statements.{is_label, is_lone_colon, starts};
ghost use Rattle.cb_names.specs.Tables.{IsTable};
ghost use Rattle.cb_names.specs.steps.Labelling.{defines, definition_by, is_label_by};
ghost use Rattle.cb_names.specs.steps.Labelling.{names_label_by, use_by, uses, uses_by};

use crate::braces::is_name_at;
use crate::local::{Access, Local, LocalUse, push_if};
use crate::shape::Shape;
use crate::statements::is_lone_colon;
use crate::word::{Item, Word};
use cb_scan::Span;
use std::alloc::{AllocError, Global};

fn is_touched(place: u32, item: &Item) -> bool
    ensures { result ≡ is_touched place item.now }
{
    let span = item.token.token.span;
    item.token.role.is_name() && span.start <= place && place <= span.end
}

/// The index of the first name token that holds a place or ends at it; the number of tokens where
/// none does.
pub(crate) fn index_at(place: u32, items: &[Item]) -> usize
    ensures value { result ≡ index_at place items.now }
    ensures within { result ≤ length items.now }
{
    items
        .iter()
        .take_while(|item| !is_touched(place, *item))
        .count()
}

/// Whether `goto` is directly before a token.
#[tactic(auto, unfolding(crate::specs::Labels::follows_goto))]
fn follows_goto(items: &[Item], at: u32) -> bool
    ensures { result ≡ follows_goto items.now at }
{
    if at == 0 {
        return false;
    }
    match items.get(at as usize - 1) {
        Some(item) => matches!(item.word, Word::Goto),
        None => false,
    }
}

/// The answer for a token; false where there is no such token.
pub(crate) fn begins(starts: &[bool], at: u32) -> bool
    ensures { result ≡ slice_index_or starts.now at false }
{
    match starts.get(at as usize) {
        Some(begins) => *begins,
        None => false,
    }
}

/// The span of a token.
pub(crate) fn span_at(items: &[Item], index: u32) -> Span
    requires { index < length items.now }
    ensures { result ≡ span (at items.now index) }
{
    items[index as usize].token.token.span
}

/// The bytes of a token.
pub(crate) fn bytes_at<'a>(text: &'a [u8], items: &[Item], index: u32) -> &'a [u8]
    requires within { AllByRecursion (IsItemOf text.now) items.now }
    requires index { index < length items.now }
    ensures { result.now ≡ bytes_of text.now (span (at items.now index)) }
{
    let span = span_at(items, index);
    &text[span.start as usize..span.end as usize]
}

/// Whether a token has these bytes.
pub(crate) fn is_spelled(text: &[u8], items: &[Item], index: u32, name: &[u8]) -> bool
    requires within { AllByRecursion (IsItemOf text.now) items.now }
    requires index { index < length items.now }
    ensures { result ≡ is_spelled text.now items.now index name.now }
{
    bytes_at(text, items, index) == name
}

/// Whether two tokens have the same bytes.
pub(crate) fn is_same(text: &[u8], items: &[Item], j: u32, k: u32) -> bool
    requires within { AllByRecursion (IsItemOf text.now) items.now }
    requires first { j < length items.now }
    requires second { k < length items.now }
    ensures { result ≡ is_same text.now items.now j k }
{
    bytes_at(text, items, j) == bytes_at(text, items, k)
}

/// Whether a name is a label, where a statement begins with it or not.
fn is_label(items: &[Item], begins: bool, at: u32) -> bool
    requires few { length items.now < 2 ^ 32 }
    requires within { at < length items.now }
    ensures { result ≡ is_label_by items.now begins at }
{
    is_name_at(items, at) && is_lone_colon(items, at + 1) && begins
}

/// Whether a name token names a label, where a statement begins with it or not.
pub(crate) fn names_label(items: &[Item], begins: bool, at: u32) -> bool
    requires few { length items.now < 2 ^ 32 }
    requires within { at < length items.now }
    ensures { result ≡ names_label_by items.now begins at }
{
    is_name_at(items, at) && (follows_goto(items, at) || is_label(items, begins, at))
}

/// Whether a token is a label with the name of another one.
fn defines(text: &[u8], items: &[Item], starts: &[bool], k: u32, j: u32) -> bool
    requires few { length items.now < 2 ^ 32 }
    requires within { AllByRecursion (IsItemOf text.now) items.now }
    requires first { j < length items.now }
    requires second { k < length items.now }
    ensures { result ≡ defines text.now items.now starts.now k j }
{
    is_label(items, begins(starts, j), j) && is_same(text, items, j, k)
}

/// Whether a token names a label with the name of another one.
fn uses(text: &[u8], items: &[Item], starts: &[bool], k: u32, j: u32) -> bool
    requires few { length items.now < 2 ^ 32 }
    requires within { AllByRecursion (IsItemOf text.now) items.now }
    requires first { j < length items.now }
    requires second { k < length items.now }
    ensures { result ≡ uses text.now items.now starts.now k j }
{
    names_label(items, begins(starts, j), j) && is_same(text, items, j, k)
}

/// The first label with the name of a token.
fn definition_of(text: &[u8], items: &[Item], starts: &[bool], k: u32) -> Option<Span>
    requires few { length items.now < 2 ^ 32 }
    requires within { AllByRecursion (IsItemOf text.now) items.now }
    requires index { k < length items.now }
    ensures { result ≡ definition_by text.now items.now starts.now k }
{
    for j in 0..items.len() as u32 {
        if defines(text, items, starts, k, j) {
            return Some(span_at(items, j));
        }
    }
    None
}

/// A token that names a label, which is a label or not.
fn label_use(items: &[Item], is_label: bool, j: u32) -> LocalUse
    requires { j < length items.now }
    ensures { result ≡ label_use items.now is_label j }
{
    LocalUse {
        name: span_at(items, j),
        access: Access::Named,
        declares: is_label,
    }
}

/// The same, where it is known with which tokens a statement begins.
fn use_by(items: &[Item], starts: &[bool], j: u32) -> LocalUse
    requires few { length items.now < 2 ^ 32 }
    requires within { j < length items.now }
    ensures { result ≡ use_by items.now starts.now j }
{
    label_use(items, is_label(items, begins(starts, j), j), j)
}

/// All tokens that name the label with the name of a token.
fn uses_of(
    alloc: Global,
    text: &[u8],
    items: &[Item],
    starts: &[bool],
    k: u32,
) -> Result<Vec<LocalUse>, AllocError>
    requires few { length items.now < 2 ^ 32 }
    requires within { AllByRecursion (IsItemOf text.now) items.now }
    requires index { k < length items.now }
    ensures { IfOk result (λ uses. uses.items ≡ uses_by text.now items.now starts.now k) }
{
    let mut found = Vec::new(alloc);
    for j in 0..items.len() as u32 {
        let is_wanted = uses(text, items, starts, k, j);
        push_if(is_wanted, use_by(items, starts, j), &mut found)?;
    }
    Ok(found)
}

/// The label that the token at an index names, if it names one.
pub(crate) fn label_of(
    alloc: Global,
    text: &[u8],
    shape: &Shape,
    begun: &[bool],
    k: u32,
) -> Result<Option<Local>, AllocError>
    requires shape { IsShape shape.now }
    requires within { AllByRecursion (IsItemOf text.now) shape.now.items.items }
    requires index { k < length shape.now.items.items }
    requires starts { IsTable (starts shape.now.items.items shape.now.body)
        (length shape.now.items.items) begun.now }
    ensures { IfOk result (λ found. found
        ≡ label_named text.now shape.now.items.items shape.now.body k) }
{
    let items = shape.items.as_slice();
    if names_label(items, begins(begun, k), k) {
        let uses = uses_of(alloc, text, items, begun, k)?;
        Ok(Some(Local {
            definition: definition_of(text, items, begun, k),
            uses,
            is_label: true,
        }))
    } else {
        Ok(None)
    }
}
