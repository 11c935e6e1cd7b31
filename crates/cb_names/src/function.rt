//! The function around a place.
ghost use Rattle.std.specs.Prelude.{◌≡◌, ◌<◌, ◌≤◌, ◌^◌, IfOk, None, Some, drop, find};
ghost use Rattle.std.specs.Prelude.{length, map, nat_le, take};
ghost use Rattle.std.specs.List.{AllByRecursion};
ghost use Rattle.cb_scan.specs.CodeTokens.{IsTokenOf};
ghost use Rattle.cb_scan.specs.declared.rules.scope.Range.{Range};
ghost use Rattle.cb_names.specs.Functions.{before, body_of, ends_head, extent};
ghost use Rattle.cb_names.specs.Functions.{head_before, is_before, items, opens_behind, own_items};
ghost use Rattle.cb_names.specs.Words.{item_of};

use crate::hard::without_hard;
use crate::pairs::sign;
use crate::word::{Item, item_of};
use cb_scan::{Range, WideToken};
use std::alloc::{AllocError, Global};

/// The tokens of the code, and what the word of each is.
pub(crate) fn items_of(
    alloc: Global,
    text: &[u8],
    tokens: &[WideToken],
) -> Result<Vec<Item>, AllocError>
    requires { AllByRecursion (IsTokenOf text.now) tokens.now }
    ensures { IfOk result (λ found. found.items ≡ map (item_of text.now) tokens.now) }
{
    let mut found = Vec::with_capacity(alloc, tokens.len())?;
    for i in 0..tokens.len() {
        found.push(item_of(text, &tokens[i]))?;
    }
    Ok(found)
}

fn is_before(place: u32, item: &Item) -> bool
    ensures { result ≡ is_before place item.now }
{
    item.token.token.span.start < place
}

/// How many tokens begin before a place.
pub(crate) fn before(place: u32, items: &[Item]) -> usize
    ensures value { result ≡ before place items.now }
    ensures within { result ≤ length items.now }
{
    items
        .iter()
        .take_while(|item| is_before(place, *item))
        .count()
}

/// A `;` or a brace, behind which a head begins.
fn ends_head(items: &[Item], at: u32) -> bool
    ensures { result ≡ ends_head items.now at }
{
    matches!(sign(items, at), b';' | b'{' | b'}')
}

/// The index behind the last of these before an index, or 0.
#[tactic(auto, unfolding(crate::specs::Functions::head_before))]
fn head_before(items: &[Item], at: u32) -> u32
    ensures value { result ≡ head_before items.now at }
    ensures within { result ≤ at }
{
    let mut head = at;
    'tokens: while head > 0 && !ends_head(items, head - 1) {
        head -= 1;
    }
    head
}

fn opens_behind(place: u32, item: &Item) -> bool
    ensures { result ≡ opens_behind place item.now }
{
    item.token.counted && place < item.token.token.span.start
}

/// The index of the `{` of the body of a function.
pub(crate) fn body_of(items: &[Item], range: Range) -> usize
    ensures value { result ≡ body_of items.now range }
    ensures within { result ≤ length items.now }
{
    let place = range.name.start;
    items
        .iter()
        .take_while(|item| !opens_behind(place, *item))
        .count()
}

/// The tokens of a function: from the first of its head to the end of its body. So many begin before
/// its name, and so many before its end.
pub(crate) fn extent_between(items: &[Item], name: u32, end: usize) -> &[Item]
    requires { end ≤ length items.now }
    ensures value { result.now ≡ drop (head_before items.now name) (take end items.now) }
    ensures few { length result.now ≤ length items.now }
{
    let head = head_before(items, name) as usize;
    let until = &items[..end];
    &until[until.len().min(head)..]
}

/// The same by its range.
pub(crate) fn extent(items: &[Item], range: Range) -> &[Item]
    requires { length items.now < 2 ^ 32 }
    ensures value { result.now ≡ extent items.now range }
    ensures few { length result.now ≤ length items.now }
{
    extent_between(
        items,
        before(range.name.start, items) as u32,
        before(range.end, items),
    )
}

/// The same without the attributes that are left out everywhere.
pub(crate) fn own_items(
    alloc: Global,
    items: &[Item],
    range: Range,
) -> Result<Vec<Item>, AllocError>
    requires { length items.now < 2 ^ 32 }
    ensures value { IfOk result (λ found. found.items ≡ own_items items.now range) }
    ensures few { IfOk result (λ found. length found.items ≤ length items.now) }
{
    without_hard(alloc, extent(items, range))
}

/// Whether a function ends at a place or behind it.
fn reaches(place: u32, range: &Range) -> bool
    ensures { result ≡ nat_le place range.now.end }
{
    place <= range.end
}

/// The function that ends first at a place or behind it.
pub(crate) fn function_among(ranges: &[Range], place: u32) -> Option<Range>
    ensures { result ≡ find (λ (r : Range). nat_le place r.end) ranges.now }
{
    for (i, range) in ranges.iter().enumerate() {
        if reaches(place, range) {
            return Some(ranges[i]);
        }
    }
    None
}

/// A function: its range, and its tokens without the attributes that are left out everywhere.
#[derive(Drop)]
pub(crate) struct Function {
    pub range: Range,
    pub items: Vec<Item>,
}
