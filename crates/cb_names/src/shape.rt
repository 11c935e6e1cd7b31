//! The tokens of a function, and what is known of their brackets.
ghost use Rattle.std.specs.Prelude.{◌≡◌, ◌<◌, ◌^◌, IfOk, IfSome, length};
ghost use Rattle.cb_names.specs.Pairs.{innermost, partner};
ghost use Rattle.cb_names.specs.Shapes.{IsShape};

use crate::braces::{Brace, kinds_of};
use crate::pairs::{Pairs, answer, pairs_of};
use crate::word::Item;
use std::alloc::{AllocError, Global};

/// The tokens of a function without the attributes that are left out everywhere, the place among
/// them of the `{` of its body, their brackets, and what each `{` opens.
#[derive(Drop)]
pub(crate) struct Shape {
    pub items: Vec<Item>,
    pub body: u32,
    pub pairs: Pairs,
    pub kinds: Vec<Brace>,
}

impl Shape {
    /// The bracket with which one pairs, if there is one.
    pub(crate) fn partner(&self, index: u32) -> Option<u32>
        requires { IsShape self.now }
        ensures value { result ≡ partner self.now.items.items index }
        ensures within { IfSome result (λ p. p < length self.now.items.items) }
    {
        answer(self.pairs.partner.as_slice(), index)
    }

    /// The innermost bracket around a token.
    pub(crate) fn around(&self, index: u32) -> Option<u32>
        requires shape { IsShape self.now }
        requires within { index < length self.now.items.items }
        ensures { result ≡ innermost self.now.items.items index }
    {
        answer(self.pairs.around.as_slice(), index)
    }
}

/// What is known of some tokens.
pub(crate) fn shape_of(alloc: Global, items: Vec<Item>, body: u32) -> Result<Shape, AllocError>
    requires { length items.items < 2 ^ 32 }
    ensures is { IfOk result (λ s. IsShape s) }
    ensures items { IfOk result (λ s. s.items.items ≡ items.items) }
    ensures body { IfOk result (λ s. s.body ≡ body) }
{
    let pairs = pairs_of(alloc, items.as_slice())?;
    let kinds = kinds_of(alloc, items.as_slice(), &pairs, body)?;
    Ok(Shape {
        items,
        body,
        pairs,
        kinds,
    })
}
