//! Attributes that are left out wherever they stand.
ghost use Rattle.std.specs.Prelude.{◌≡◌, ◌<◌, ◌≤◌, ◌+◌, ◌^◌, ◌++◌, ◌∷◌, [], IfOk, length};
ghost use Rattle.std.specs.Prelude.{if◌then◌else◌};
ghost use Rattle.cb_names.specs.HardAttributes.{hard_end, is_hard, without_hard};
ghost use Rattle.cb_names.specs.Pairs.{partner};
ghost use Rattle.cb_names.specs.Tables.{IsTable};
ghost use Rattle.cb_names.specs.steps.Hiding.{farther, reaches};

use crate::pairs::{answer, pairs_of, sign};
use crate::word::{Item, Word, item_at};
use std::alloc::{AllocError, Global};

fn is_hard(word: Word) -> bool
    ensures { result ≡ is_hard word }
{
    matches!(word, Word::Hard)
}

/// The last token of the attribute that begins with a token, if one does.
fn hard_end(items: &[Item], partners: &[Option<u32>], at: u32) -> Option<u32>
    requires within { at < length items.now }
    requires small { length items.now < 2 ^ 32 }
    requires table { IsTable (partner items.now) (length items.now) partners.now }
    ensures { result ≡ hard_end items.now at }
{
    if is_hard(items[at as usize].word) && sign(items, at + 1) == b'(' {
        answer(partners, at + 1)
    } else {
        None
    }
}

/// The last token that is of an attribute, after one more that ends there.
fn farther(end: Option<u32>, last: Option<u32>) -> Option<u32>
    ensures { result ≡ farther end last }
{
    match (end, last) {
        (None, _) => last,
        (Some(_), None) => end,
        (Some(e), Some(l)) => { if l <= e { end } else { last } }
    }
}

/// Whether an attribute reaches a token.
fn reaches(last: Option<u32>, at: u32) -> bool
    ensures { result ≡ reaches last at }
{
    match last {
        Some(last) => at <= last,
        None => false,
    }
}

/// Appends a token, unless it is left out.
fn push_unless(is_left_out: bool, item: Item, kept: &mut Vec<Item>) -> Result<(), AllocError>
    ensures value { IfOk result
        (λ _. kept.new.items ≡ kept.old.items ++ (if is_left_out then [] else item ∷ [])) }
    ensures few { IfOk result (λ _. length kept.new.items ≤ length kept.old.items + 1) }
{
    if !is_left_out {
        kept.push(item)?;
    }
    Ok(())
}

/// The tokens that are of no such attribute.
pub(crate) fn without_hard(alloc: Global, items: &[Item]) -> Result<Vec<Item>, AllocError>
    requires { length items.now < 2 ^ 32 }
    ensures value { IfOk result (λ kept. kept.items ≡ without_hard items.now) }
    ensures few { IfOk result (λ kept. length kept.items ≤ length items.now) }
{
    let pairs = pairs_of(alloc, items)?;
    let mut kept = Vec::new(alloc);
    let mut last = None;
    for at in 0..items.len() as u32 {
        last = farther(hard_end(items, pairs.partner.as_slice(), at), last);
        push_unless(reaches(last, at), item_at(items, at), &mut kept)?;
    }
    Ok(kept)
}
