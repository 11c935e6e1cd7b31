//! The functions and macros around places.
ghost use Rattle.std.specs.Prelude.{◌≡◌, IfOk};
ghost use Rattle.cb_scan.specs.steps.Scopes.{around, first_around, include_place, include_with};
ghost use Rattle.cb_scan.specs.steps.Scopes.{reached, scoped, token_place, use_of, Stays};

use crate::facts::{Include, Use};
use crate::lex::piece::Span;
use crate::lex::token::Token;
use std::alloc::{AllocError, Global};
use std::marker::Model;

/// A function or macro: its name, and where its range ends, which begins with the name. A place is
/// a number of bytes from the beginning of the text.
#[derive(Clone, Copy, Debug, PartialEq, Eq)]
pub struct Range {
    pub name: Span,
    pub end: u32,
}

/// The ranges of functions and of macros that may hold a place, for places that come in order.
#[derive(Clone, Copy)]
pub(crate) struct Around<'a> {
    pub functions: &'a [Range],
    pub macros: &'a [Range],
}

/// The ranges without those at the beginning that end by a place.
pub(crate) fn reached(ranges: &[Range], place: u32) -> &[Range]
    ensures { result.now ≡ reached place ranges.now }
{
    for (i, range) in ranges.iter().enumerate() {
        if place < range.end {
            return &ranges[i..];
        }
    }
    &ranges[ranges.len()..]
}

/// The name of the first range, if it has begun by a place.
pub(crate) fn first_around(ranges: &[Range], place: u32) -> Option<Span>
    ensures { result ≡ first_around place ranges.now }
{
    match ranges {
        [first, ..] if first.name.start <= place => Some(first.name),
        _ => None,
    }
}

/// Up to where ranges give what they give at a place: the next place where the first of them begins
/// or ends.
fn boundary(ranges: &[Range], place: u32) -> u32
    ensures { Stays place result ranges.now }
{
    match ranges {
        [first, ..] if place < first.name.start => first.name.start.min(first.end),
        [first, ..] => first.end,
        [] => u32::MAX,
    }
}

impl<'a> Around<'a> {
    /// The ranges that may hold a place or one after it.
    pub(crate) fn reached(self, place: u32) -> Around<'a>
        ensures functions { result.functions.now ≡ reached place self.entry.functions.now }
        ensures macros { result.macros.now ≡ reached place self.entry.macros.now }
    {
        Around {
            functions: reached(self.functions, place),
            macros: reached(self.macros, place),
        }
    }

    /// The macro around a place that was reached, else the function.
    pub(crate) fn scope(self, place: u32) -> Option<Span>
        ensures { result ≡ around self.entry.functions.now self.entry.macros.now place }
    {
        match first_around(self.macros, place) {
            Some(name) => Some(name),
            None => first_around(self.functions, place),
        }
    }
}

/// The scopes of places that come in order. The last one found is kept, and the places that have
/// it: few ranges begin or end between the names of a text.
#[derive(Drop)]
struct Scopes<'a> {
    around: Around<'a>,
    from: u32,
    until: u32,
    scope: Option<Span>,
}

impl<'a> Model for Scopes<'a> {
    ghost use Rattle.cb_scan.specs.steps.Scopes.{Keeps, Ranges};

    ghost Value = { Ranges };

    ghost view = { λ s. record {
      functions = s.around.functions.now;
      macros = s.around.macros.now;
    } };

    ghost invariant = { λ s. Keeps s.around.functions.now s.around.macros.now s.from s.until
        s.scope };
}

impl<'a> Scopes<'a> {
    /// The scopes that ranges give.
    fn new(around: Around<'a>) -> Scopes<'a>
        ensures functions { result.functions ≡ around.entry.functions.now }
        ensures macros { result.macros ≡ around.entry.macros.now }
    {
        Scopes {
            around,
            from: 0,
            until: 0,
            scope: None,
        }
    }

    /// The scope of the next place.
    #[inline]
    fn at(&mut self, place: u32) -> Option<Span>
        ensures value { result
            ≡ around (reached place self.old.functions) (reached place self.old.macros) place }
        ensures functions { self.new.functions ≡ reached place self.old.functions }
        ensures macros { self.new.macros ≡ reached place self.old.macros }
    {
        if place < self.from || self.until <= place {
            self.around = self.around.reached(place);
            self.from = place;
            let in_functions = boundary(self.around.functions, place);
            let in_macros = boundary(self.around.macros, place);
            self.until = in_functions.min(in_macros);
            self.scope = self.around.scope(place);
        }
        self.scope
    }
}

/// The used names with their scopes.
pub(crate) fn scoped_uses(
    alloc: Global,
    names: &[Token],
    ranges: Around<'_>,
) -> Result<Vec<Use>, AllocError>
    ensures { IfOk result (λ uses. uses.items
        ≡ scoped token_place use_of ranges.entry.functions.now ranges.entry.macros.now names.now) }
{
    let mut uses = Vec::with_capacity(alloc, names.len())?;
    let mut scopes = Scopes::new(ranges);
    for token in names {
        let scope = scopes.at(token.span.start);
        uses.push(Use {
            name: token.span,
            line: token.line,
            scope,
        })?;
    }
    Ok(uses)
}

/// The includes with their scopes.
pub(crate) fn scoped_includes(
    alloc: Global,
    found: &[Include],
    ranges: Around<'_>,
) -> Result<Vec<Include>, AllocError>
    ensures { IfOk result (λ includes. includes.items
        ≡ scoped include_place include_with ranges.entry.functions.now ranges.entry.macros.now
        found.now) }
{
    let mut includes = Vec::with_capacity(alloc, found.len())?;
    let mut scopes = Scopes::new(ranges);
    for include in found {
        let scope = scopes.at(include.header.start);
        includes.push(Include {
            header: include.header,
            line: include.line,
            scope,
        })?;
    }
    Ok(includes)
}
