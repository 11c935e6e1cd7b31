//! Replies whose result is a list.
ghost use Rattle.std.specs.Prelude.{◌≡◌, ◌∷◌, ◌++◌, ◌+◌, ◌<◌, ◌≤◌, ◌^◌, ℕ, IfOk, List, []};
ghost use Rattle.std.specs.Prelude.{MatchOption, length, map, take};
ghost use Rattle.cb_tags.specs.Writing.{Puts};
ghost use Rattle.cb_wire.specs.Lists.{joined, list_text, with_separators};
ghost use Rattle.cb_wire.specs.Replies.{result_body};
ghost use Rattle.cb_wire.specs.Texts.{frame, parts_text};

use crate::reply::put_result_front;
use crate::{Id, Part, parts_length, put_parts, put_result_end};
use cb_tags::{Sink, WriteFault, put_text};
use std::alloc::Global;
use std::io::Write;

/// The most elements that a list may have.
pub const MOST_ELEMENTS: usize = 1 << 48;

/// An element of a list: it tells how many bytes it takes before it is written.
pub trait Element: Copy {
    ghost text: { Self → List ℕ };

    /// Writes the element.
    fn put<W: Write>(&self, out: &mut Sink<W>) -> Result<(), WriteFault>
        ensures { Puts out.old out.new result (text self.now) };

    /// How many bytes the element takes.
    fn length(&self) -> u128
        ensures value { result ≡ length (text self.now) }
        ensures few { result < 2 ^ 76 };
}

/// What gives the elements of a list, one after another.
pub trait Elements: Drop {
    type Item: Element;

    ghost texts: { Self → List (List ℕ) };

    /// The elements that are left, a second time.
    fn again(&self) -> Self
        ensures { texts result ≡ texts self.now };

    /// The next element.
    fn next(&mut self) -> Option<Self::Item>
        ensures { MatchOption result (texts self.old ≡ [])
            (λ element. texts self.old ≡ Self.Item.text element ∷ texts self.new) };
}

/// The first of some elements, at most so many.
#[derive(Debug, Drop)]
struct First<I> {
    elements: I,
    most: usize,
}

impl<I: Elements> Elements for First<I> {
    type Item = I::Item;

    ghost texts = { λ first. take first.most (I.texts first.elements) };

    fn again(&self) -> First<I> {
        First {
            elements: self.elements.again(),
            most: self.most,
        }
    }

    fn next(&mut self) -> Option<I::Item> {
        if self.most == 0 {
            return None;
        }
        self.most -= 1;
        self.elements.next()
    }
}

impl<'a, E: Element> Elements for &'a [E] {
    type Item = E;

    ghost texts = { λ elements. map E.text elements.now };

    fn again(&self) -> &'a [E] {
        *self
    }

    fn next(&mut self) -> Option<E> {
        match *self {
            [first, rest @ ..] => {
                *self = rest;
                Some(*first)
            }
            [] => None,
        }
    }
}

/// Writes an element behind a separator.
fn put_behind<W: Write, E: Element>(
    out: &mut Sink<W>,
    between: &[u8],
    element: E,
) -> Result<(), WriteFault>
    ensures { Puts out.old out.new result (between.now ++ E.text element) }
{
    put_text(out, between)?;
    element.put(out)
}

/// Writes elements, each behind a separator.
fn put_rest<W: Write, I: Elements>(
    out: &mut Sink<W>,
    between: &[u8],
    elements: I,
) -> Result<(), WriteFault>
    ensures { Puts out.old out.new result
        (with_separators between.now (I.texts elements)) }
{
    let mut left = elements;
    'elements: while let Some(element) = left.next() {
        put_behind(out, between, element)?;
    }
    Ok(())
}

/// Writes elements, with a separator between two.
fn put_elements<W: Write, I: Elements>(
    out: &mut Sink<W>,
    between: &[u8],
    elements: I,
) -> Result<(), WriteFault>
    ensures { Puts out.old out.new result (joined between.now (I.texts elements)) }
{
    let mut left = elements;
    match left.next() {
        Some(first) => {
            first.put(out)?;
            put_rest(out, between, left)
        }
        None => Ok(()),
    }
}

/// Writes a text, elements with a separator between two, and parts.
pub(crate) fn put_list<W: Write, I: Elements>(
    out: &mut Sink<W>,
    head: &[u8],
    between: &[u8],
    tail: &[Part<'_>],
    elements: I,
) -> Result<(), WriteFault>
    ensures { Puts out.old out.new result
        (list_text head.now between.now (parts_text tail.now) (I.texts elements)) }
{
    put_text(out, head)?;
    put_elements(out, between, elements)?;
    put_parts(out, tail)
}

/// How many bytes elements take, each behind a separator.
fn rest_length<I: Elements>(between: &[u8], elements: I) -> u128
    requires { length (I.texts elements) ≤ 2 ^ 48 }
    ensures value { result ≡ length (with_separators between.now (I.texts elements)) }
    ensures few { result ≤ 2 ^ 126 }
{
    let mut left = elements;
    let mut total = 0u128;
    'elements: while let Some(element) = left.next() {
        total += between.len() as u128 + element.length();
    }
    total
}

/// How many bytes elements take, with a separator between two.
fn elements_length<I: Elements>(between: &[u8], elements: I) -> u128
    requires { length (I.texts elements) ≤ 2 ^ 48 }
    ensures value { result ≡ length (joined between.now (I.texts elements)) }
    ensures few { result ≤ 2 ^ 126 + 2 ^ 76 }
{
    let mut left = elements;
    match left.next() {
        Some(first) => first.length() + rest_length(between, left),
        None => 0,
    }
}

/// How many bytes a list takes.
fn list_length<I: Elements>(head: &[u8], between: &[u8], tail: &[Part<'_>], elements: I) -> u128
    requires short { length tail.now ≤ 64 }
    requires few { length (I.texts elements) ≤ 2 ^ 48 }
    ensures value { result
        ≡ length (list_text head.now between.now (parts_text tail.now) (I.texts elements)) }
    ensures small { result < 2 ^ 127 }
{
    head.len() as u128 + elements_length(between, elements) + parts_length(tail)
}

/// The text of a list: a text, the first of some elements with a separator between two, and parts.
/// It is an error where a growth of memory was refused.
pub fn list_in_memory<I: Elements>(
    alloc: Global,
    head: &[u8],
    between: &[u8],
    tail: &[Part<'_>],
    most: usize,
    elements: I,
) -> Result<Vec<u8>, WriteFault>
    ensures { IfOk result (λ text. text.items
        ≡ list_text head.now between.now (parts_text tail.now) (take most (I.texts elements))) }
{
    let mut out = Sink::new(Vec::new(alloc));
    put_list(&mut out, head, between, tail, First { elements, most })?;
    Ok(out.into_inner())
}

/// Writes a reply whose result is a list: a text, the first of some elements with a separator
/// between two, and parts. They are counted first, and then written.
pub fn put_list_result<W: Write, I: Elements>(
    out: &mut Sink<W>,
    id: Id<'_>,
    head: &[u8],
    between: &[u8],
    tail: &[Part<'_>],
    most: usize,
    elements: I,
) -> Result<(), WriteFault>
    requires short { length tail.now ≤ 64 }
    requires few { most ≤ MOST_ELEMENTS }
    ensures { Puts out.old out.new result (frame (result_body id.entry
        (list_text head.now between.now (parts_text tail.now) (take most (I.texts elements))))) }
{
    let first = First { elements, most };
    let length = list_length(head, between, tail, first.again());
    put_result_front(out, id, length)?;
    put_list(out, head, between, tail, first)?;
    put_result_end(out)
}
