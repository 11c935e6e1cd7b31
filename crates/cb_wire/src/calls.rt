//! Functions and macros that call or are called, as the protocol names them.
ghost use Rattle.std.specs.Prelude.{◌≡◌, ◌≤◌, ◌*◌, ◌^◌, length, map};
ghost use Rattle.cb_wire.specs.Calls.{call_item_text, call_item_tree, calls_of, range_text};
ghost use Rattle.cb_wire.specs.Calls.{ranges_text, side_front, side_name};
ghost use Rattle.cb_wire.specs.Texts.{parts_text};
ghost use Rattle.cb_wire.specs.Values.{value_text};

use crate::list::put_list;
use crate::range::{put_range, range_length};
use crate::{Element, Elements, Location, Part, Range, parts_length, put_parts};
use cb_tags::{Sink, WriteFault, put_text};
use std::io::Write;

/// A function or macro of a call hierarchy (`CallHierarchyItem`): its name, the number of its kind
/// (`SymbolKind`), its line, and where its name is.
#[derive(Clone, Copy, Debug)]
pub struct CallItem<'a> {
    pub name: &'a [u8],
    pub kind: usize,
    pub line: Range,
    pub location: Location<'a>,
}

impl<'a> CallItem<'a> {
    /// The parts of its text.
    fn parts(&self) -> [Part<'a>; 11]
        ensures { parts_text result ≡ call_item_text self.now }
    {
        [
            Part::Raw(b"{\"name\":\""),
            Part::Source(self.name),
            Part::Raw(b"\",\"kind\":"),
            Part::Number(self.kind),
            Part::Raw(b",\"uri\":\""),
            Part::Uri(self.location.root, self.location.name),
            Part::Raw(b"\",\"range\":"),
            Part::Range(self.line),
            Part::Raw(b",\"selectionRange\":"),
            Part::Range(self.location.range),
            Part::Raw(b"}"),
        ]
    }
}

/// How many bytes an item takes.
fn item_length(item: &CallItem<'_>) -> u128
    ensures value { result ≡ length (call_item_text item.now) }
    ensures few { result ≤ 2 ^ 73 }
{
    parts_length(&item.parts())
}

impl Element for CallItem<'_> {
    ghost text = { call_item_text };

    fn put<W: Write>(&self, out: &mut Sink<W>) -> Result<(), WriteFault> {
        put_parts(out, &self.parts())
    }

    fn length(&self) -> u128 {
        item_length(self)
    }
}

/// Which end of some calls is told.
#[derive(Clone, Copy, Debug, PartialEq, Eq)]
pub enum Side {
    /// What calls.
    From,
    /// What is called.
    To,
}

/// What stands before the item of a side.
fn side_front(side: Side) -> &'static [u8]
    ensures value { result.now ≡ side_front side }
    ensures few { length result.now ≤ 8 }
{
    match side {
        Side::From => b"{\"from\":",
        Side::To => b"{\"to\":",
    }
}

/// What has a range.
pub trait Ranged: Copy {
    ghost use Rattle.cb_wire.specs.declared.position.Range.{Range};

    ghost range: { Self → Range };

    /// Its range.
    fn range(&self) -> Range
        ensures { result ≡ range self.now };
}

impl Element for Range {
    ghost text = { range_text };

    fn put<W: Write>(&self, out: &mut Sink<W>) -> Result<(), WriteFault> {
        put_range(out, *self)
    }

    fn length(&self) -> u128 {
        range_length(*self)
    }
}

/// The ranges of what is left.
#[derive(Clone, Copy)]
struct RangesOf<'a, R> {
    rest: &'a [R],
}

impl<'a, R: Ranged> Elements for RangesOf<'a, R> {
    type Item = Range;

    ghost texts = { λ r. map range_text (map R.range r.rest.now) };

    fn again(&self) -> RangesOf<'a, R> {
        *self
    }

    fn next(&mut self) -> Option<Range> {
        match self.rest {
            [first, rest @ ..] => {
                self.rest = rest;
                Some(first.range())
            }
            [] => None,
        }
    }
}

/// How many bytes ranges take, with a comma between two.
fn ranges_length<R: Ranged>(calls: &[R]) -> u128
    ensures value { result ≡ length (ranges_text (map R.range calls.now)) }
    ensures few { result ≤ 2 ^ 8 * length calls.now }
{
    let mut total = 0u128;
    for call in calls {
        total += range_length(call.range()) + 1;
    }
    total.saturating_sub(1)
}

/// Calls that have one end in common (`CallHierarchyIncomingCall`, `CallHierarchyOutgoingCall`):
/// the other end, and the ranges of the names that are called.
#[derive(Clone, Copy)]
pub struct Calls<'a, R> {
    pub side: Side,
    pub item: CallItem<'a>,
    pub calls: &'a [R],
}

impl<'a, R: Ranged> Element for Calls<'a, R> {
    ghost text = { λ c. value_text
        (calls_of (side_name c.side) (call_item_tree c.item) (map R.range c.calls.now)) };

    fn put<W: Write>(&self, out: &mut Sink<W>) -> Result<(), WriteFault> {
        put_text(out, side_front(self.side))?;
        self.item.put(out)?;
        let ranges = RangesOf { rest: self.calls };
        put_list(out, b",\"fromRanges\":[", b",", &[Part::Raw(b"]}")], ranges)
    }

    fn length(&self) -> u128 {
        let front = side_front(self.side).len() as u128;
        front + item_length(&self.item) + ranges_length(self.calls) + 17
    }
}
