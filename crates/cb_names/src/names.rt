//! The names of the function around a place, and which of them have arguments.
ghost use Rattle.std.specs.Prelude.{◌≡◌, ◌<◌, ◌≤◌, ◌-◌, ◌^◌, ◌++◌, ◌∷◌, [], IfOk, find, length};
ghost use Rattle.std.specs.Prelude.{◌&&◌, if◌then◌else◌, nat_lt, not};
ghost use Rattle.std.specs.List.{list_any, range_with_len};
ghost use Rattle.cb_scan.specs.declared.rules.scope.Range.{Range as FunctionRange};
ghost use Rattle.cb_names.specs.Declarations.{is_name_item};
ghost use Rattle.cb_names.specs.FunctionNames.{arguments_at, arguments_of, ends_itself, first_start};
ghost use Rattle.cb_names.specs.FunctionNames.{follows_label_sign, function_names, goes_on};
ghost use Rattle.cb_names.specs.FunctionNames.{has_arguments, has_hard, is_in_structure};
ghost use Rattle.cb_names.specs.FunctionNames.{is_lone_end, is_old_designator};
ghost use Rattle.cb_names.specs.FunctionNames.{is_unsure, is_whole, names_by, names_in, names_of};
ghost use Rattle.cb_names.specs.FunctionNames.{names_over, next_name};
ghost use Rattle.cb_names.specs.FunctionNames.{is_lone, lone_of, unsure_of};
ghost use Rattle.cb_names.specs.HardAttributes.{without_hard};
ghost use Rattle.cb_names.specs.Pairs.{innermost, partner};
ghost use Rattle.cb_names.specs.Braces.{is_block, kind_at};
ghost use Rattle.cb_names.specs.Scoped.{follows_enum, is_body};
ghost use Rattle.cb_names.specs.Shapes.{IsShape};
ghost use Rattle.cb_names.specs.Statements.{in_block};
ghost use Rattle.cb_names.specs.Tables.{IsTable};

use crate::accesses::ends_operand;
use crate::braces::{Brace, follows_separator, is_name_at};
use crate::code::Code;
use crate::declared::enums_of;
use crate::function::{before, body_of, extent, function_among};
use crate::hard::without_hard;
use crate::labels::span_at;
use crate::pairs::{answer, pairs_of, sign};
use crate::scopes::flag;
use crate::shape::{Shape, shape_of};
use crate::spaces::{start_at, touches};
use crate::statements::is_lone_colon;
use crate::word::{Item, Word};
use cb_scan::{Range, Span};
use std::alloc::{AllocError, Global};
use std::marker::Model;

/// A name that is directly before parentheses.
#[derive(Clone, Copy, Debug, PartialEq, Eq)]
pub struct Arguments {
    pub name: Span,
    /// Where the `)` begins.
    pub end: u32,
}

/// What is known of the names of a function.
#[derive(Drop)]
pub struct FunctionNames {
    extent: Span,
    names: Vec<Span>,
    own: Vec<Span>,
    arguments: Vec<Arguments>,
    lone: Vec<Span>,
    unsure: Vec<Span>,
    whole: bool,
}

impl Model for FunctionNames {
    ghost use Rattle.cb_names.specs.FunctionNames.{FunctionNames as Known};

    ghost Value = { Known };

    ghost view = { λ f. record {
      extent = f.extent;
      names = f.names.items;
      own = f.own.items;
      arguments = f.arguments.items;
      lone = f.lone.items;
      unsure = f.unsure.items;
      whole = f.whole;
    } };
}

impl FunctionNames {
    /// From the first token of its head to the end of its body.
    pub fn extent(&self) -> Span
        ensures { result ≡ self.now.extent }
    {
        self.extent
    }

    /// All names of its code, by place.
    pub fn names(&self) -> &[Span]
        ensures { result.now ≡ self.now.names }
    {
        self.names.as_slice()
    }

    /// Those that are not of attributes which are left out everywhere.
    pub fn own(&self) -> &[Span]
        ensures { result.now ≡ self.now.own }
    {
        self.own.as_slice()
    }

    /// Those of them that have arguments, by place.
    pub fn arguments(&self) -> &[Arguments]
        ensures { result.now ≡ self.now.arguments }
    {
        self.arguments.as_slice()
    }

    /// Those of them that are not directly before a `(`, by place.
    pub fn lone(&self) -> &[Span]
        ensures { result.now ≡ self.now.lone }
    {
        self.lone.as_slice()
    }

    /// Those of which the rules cannot tell what they mean: they stand in the body of a structure,
    /// are the label whose address is taken, or name what a value is given to in the old way.
    pub fn unsure(&self) -> &[Span]
        ensures { result.now ≡ self.now.unsure }
    {
        self.unsure.as_slice()
    }

    /// Whether all of the function is there: its end closes its body alone, no brace that is closed
    /// behind it is open there, and no part of its code is hidden in `asm`.
    pub fn is_whole(&self) -> bool
        ensures { result ≡ self.now.whole }
    {
        self.whole
    }
}

fn is_name_item(item: &Item) -> bool
    ensures { result ≡ is_name_item item.now }
{
    item.token.role.is_name()
}

/// The names of some tokens.
fn names_of(alloc: Global, items: &[Item]) -> Result<Vec<Span>, AllocError>
    ensures { IfOk result (λ found. found.items ≡ names_of items.now) }
{
    let mut found = Vec::new(alloc);
    for i in 0..items.len() {
        if is_name_item(&items[i]) {
            found.push(items[i].token.token.span)?;
        }
    }
    Ok(found)
}

/// Whether a token is a name with arguments.
fn has_arguments(items: &[Item], partners: &[Option<u32>], at: u32) -> bool
    requires few { length items.now < 2 ^ 32 }
    requires within { at < length items.now }
    requires partners { IsTable (partner items.now) (length items.now) partners.now }
    ensures { result ≡ has_arguments items.now at }
{
    is_name_at(items, at)
        && sign(items, at + 1) == b'('
        && match answer(partners, at + 1) {
            Some(_) => true,
            None => false,
        }
}

/// Its arguments.
fn arguments_at(items: &[Item], partners: &[Option<u32>], at: u32) -> Arguments
    requires few { length items.now < 2 ^ 32 }
    requires within { at < length items.now }
    requires partners { IsTable (partner items.now) (length items.now) partners.now }
    ensures { result ≡ arguments_at items.now at }
{
    let end = answer(partners, at + 1).unwrap_or(0);
    Arguments {
        name: span_at(items, at),
        end: start_at(items, end as usize),
    }
}

/// Appends arguments, if they are wanted.
fn push_if(is_wanted: bool, one: Arguments, found: &mut Vec<Arguments>) -> Result<(), AllocError>
    ensures { IfOk result
        (λ _. found.new.items ≡ found.old.items ++ (if is_wanted then one ∷ [] else [])) }
{
    if is_wanted {
        found.push(one)?;
    }
    Ok(())
}

/// All names with arguments.
pub(crate) fn arguments_of(alloc: Global, items: &[Item]) -> Result<Vec<Arguments>, AllocError>
    requires { length items.now < 2 ^ 32 }
    ensures { IfOk result (λ found. found.items ≡ arguments_of items.now) }
{
    let pairs = pairs_of(alloc, items)?;
    let partners = pairs.partner.as_slice();
    let mut found = Vec::new(alloc);
    for at in 0..items.len() as u32 {
        push_if(
            has_arguments(items, partners, at),
            arguments_at(items, partners, at),
            &mut found,
        )?;
    }
    Ok(found)
}

/// Whether `&&` is directly before a token, and behind no operand.
#[tactic(auto, unfolding(crate::specs::FunctionNames::follows_label_sign, crate::specs::FunctionNames::follows_operand))]
fn follows_label_sign(items: &[Item], at: u32) -> bool
    ensures { result ≡ follows_label_sign items.now at }
{
    at > 1
        && sign(items, at - 1) == b'&'
        && sign(items, at - 2) == b'&'
        && touches(items, at as usize - 2)
        && !(at > 2 && ends_operand(items, at - 3))
}

/// Whether a bracket is the `{` of a block.
fn opens_block(shape: &Shape, bracket: u32) -> bool
    requires shape { IsShape shape.now }
    requires within { bracket < length shape.now.items.items }
    ensures { result ≡ is_block (kind_at shape.now.items.items shape.now.body bracket) }
{
    matches!(shape.kinds.as_slice()[bracket as usize], Brace::Block)
}

/// Whether the innermost bracket around a token is.
fn is_in_block(shape: &Shape, at: u32) -> bool
    requires shape { IsShape shape.now }
    requires within { at < length shape.now.items.items }
    ensures { result ≡ in_block shape.now.items.items shape.now.body at }
{
    match shape.around(at) {
        Some(bracket) => opens_block(shape, bracket),
        None => false,
    }
}

/// Whether a bracket is the `{` of a structure or union.
fn opens_structure(shape: &Shape, enums: &[bool], bracket: u32) -> bool
    requires shape { IsShape shape.now }
    requires enums { IsTable (follows_enum shape.now.items.items) (length shape.now.items.items)
        enums.now }
    requires within { bracket < length shape.now.items.items }
    ensures { result ≡ (is_body (kind_at shape.now.items.items shape.now.body bracket)
        && not (follows_enum shape.now.items.items bracket)) }
{
    matches!(shape.kinds.as_slice()[bracket as usize], Brace::Body) && !flag(enums, bracket)
}

/// Whether the innermost bracket around a token is.
fn is_in_structure(shape: &Shape, enums: &[bool], at: u32) -> bool
    requires shape { IsShape shape.now }
    requires enums { IsTable (follows_enum shape.now.items.items) (length shape.now.items.items)
        enums.now }
    requires within { at < length shape.now.items.items }
    ensures { result ≡ is_in_structure shape.now.items.items shape.now.body at }
{
    match shape.around(at) {
        Some(bracket) => opens_structure(shape, enums, bracket),
        None => false,
    }
}

/// Whether a token names what a value is given to, in the old way.
fn is_old_designator(shape: &Shape, at: u32) -> bool
    requires shape { IsShape shape.now }
    requires within { at < length shape.now.items.items }
    ensures { result ≡ is_old_designator shape.now.items.items shape.now.body at }
{
    let items = shape.items.as_slice();
    follows_separator(items, at) && is_lone_colon(items, at + 1) && !is_in_block(shape, at)
}

/// Whether a token is a name of which the rules cannot tell what it means.
fn is_unsure(shape: &Shape, enums: &[bool], at: u32) -> bool
    requires shape { IsShape shape.now }
    requires enums { IsTable (follows_enum shape.now.items.items) (length shape.now.items.items)
        enums.now }
    requires within { at < length shape.now.items.items }
    ensures { result ≡ is_unsure shape.now.items.items shape.now.body at }
{
    is_name_at(shape.items.as_slice(), at)
        && (follows_label_sign(shape.items.as_slice(), at)
            || is_old_designator(shape, at)
            || is_in_structure(shape, enums, at))
}

/// Appends a span, if it is wanted.
pub(crate) fn push_span_if(
    is_wanted: bool,
    one: Span,
    found: &mut Vec<Span>,
) -> Result<(), AllocError>
    ensures { IfOk result
        (λ _. found.new.items ≡ found.old.items ++ (if is_wanted then one ∷ [] else [])) }
{
    if is_wanted {
        found.push(one)?;
    }
    Ok(())
}

/// Whether a token is a name that is not directly before a `(`.
fn is_lone(items: &[Item], at: u32) -> bool
    requires few { length items.now < 2 ^ 32 }
    requires within { at < length items.now }
    ensures { result ≡ is_lone items.now at }
{
    is_name_at(items, at) && sign(items, at + 1) != b'('
}

/// All such names.
fn lone_of(alloc: Global, items: &[Item]) -> Result<Vec<Span>, AllocError>
    requires { length items.now < 2 ^ 32 }
    ensures { IfOk result (λ found. found.items ≡ lone_of items.now) }
{
    let mut found = Vec::new(alloc);
    for at in 0..items.len() as u32 {
        push_span_if(is_lone(items, at), span_at(items, at), &mut found)?;
    }
    Ok(found)
}

/// All names of which the rules cannot tell what they mean.
fn unsure_of(alloc: Global, shape: &Shape) -> Result<Vec<Span>, AllocError>
    requires { IsShape shape.now }
    ensures { IfOk result
        (λ found. found.items ≡ unsure_of shape.now.items.items shape.now.body) }
{
    let items = shape.items.as_slice();
    let enums = enums_of(alloc, items)?;
    let mut found = Vec::new(alloc);
    for at in 0..items.len() as u32 {
        push_span_if(
            is_unsure(shape, enums.as_slice(), at),
            span_at(items, at),
            &mut found,
        )?;
    }
    Ok(found)
}

/// Whether the last token closes the body, and no other bracket with it.
fn ends_itself(items: &[Item], around: &[Option<u32>], body: u32) -> bool
    requires few { length items.now < 2 ^ 32 }
    requires around { IsTable (innermost items.now) (length items.now) around.now }
    ensures { result ≡ ends_itself items.now body }
{
    if items.is_empty() {
        return false;
    }
    let last = items.len() as u32 - 1;
    sign(items, last) == b'}'
        && match answer(around, last) {
            Some(bracket) => bracket == body,
            None => false,
        }
}

/// Whether a word of an attribute is left.
fn has_hard(items: &[Item]) -> bool
    ensures { result ≡ has_hard items.now }
{
    for i in 0..items.len() {
        if matches!(items[i].word, Word::Hard) {
            return true;
        }
    }
    false
}

/// The first function whose name begins behind a place.
fn function_behind(ranges: &[Range], place: u32) -> Option<Range>
    ensures { result ≡ find (λ (q : FunctionRange). nat_lt place q.name.start) ranges.now }
{
    for i in 0..ranges.len() {
        if place < ranges[i].name.start {
            return Some(ranges[i]);
        }
    }
    None
}

/// The index where the name of the next function is, among all tokens.
fn next_name(items: &[Item], ranges: &[Range], range: Range) -> usize
    ensures value { result ≡ next_name items.now ranges.now range }
    ensures within { result ≤ length items.now }
{
    match function_behind(ranges, range.end) {
        Some(next) => before(next.name.start, items),
        None => items.len(),
    }
}

/// Whether a token is a `}` with no partner.
fn is_lone_end(items: &[Item], partners: &[Option<u32>], at: u32) -> bool
    requires within { at < length items.now }
    requires partners { IsTable (partner items.now) (length items.now) partners.now }
    ensures { result ≡ is_lone_end items.now at }
{
    sign(items, at) == b'}' && answer(partners, at).is_none()
}

/// Whether one is among some tokens.
fn has_lone_end(items: &[Item], partners: &[Option<u32>], from: u32, to: u32) -> bool
    requires within { to ≤ length items.now }
    requires partners { IsTable (partner items.now) (length items.now) partners.now }
    ensures { result ≡ list_any (is_lone_end items.now) (range_with_len from (to - from)) }
{
    for at in from..to {
        if is_lone_end(items, partners, at) {
            return true;
        }
    }
    false
}

/// Whether parts of a function may be behind its end.
fn goes_on(
    alloc: Global,
    items: &[Item],
    ranges: &[Range],
    range: Range,
) -> Result<bool, AllocError>
    requires { length items.now < 2 ^ 32 }
    ensures { IfOk result (λ on. on ≡ goes_on items.now ranges.now range) }
{
    let pairs = pairs_of(alloc, items)?;
    let from = before(range.end, items) as u32;
    let to = next_name(items, ranges, range) as u32;
    Ok(has_lone_end(items, pairs.partner.as_slice(), from, to))
}

fn first_start(items: &[Item]) -> u32
    ensures { result ≡ first_start items.now }
{
    match items {
        [first, ..] => first.token.token.span.start,
        [] => 0,
    }
}

/// Whether all of a function is there.
fn is_whole(shape: &Shape, goes_on: bool) -> bool
    requires { IsShape shape.now }
    ensures { result ≡ is_whole shape.now.items.items shape.now.body goes_on }
{
    let items = shape.items.as_slice();
    ends_itself(items, shape.pairs.around.as_slice(), shape.body) && !has_hard(items) && !goes_on
}

/// What is known of a function, by its extent, all its names, the tokens that are left in, and
/// whether it goes on.
fn names_over(
    alloc: Global,
    extent: Span,
    names: Vec<Span>,
    shape: &Shape,
    goes_on: bool,
) -> Result<FunctionNames, AllocError>
    requires { IsShape shape.now }
    ensures { IfOk result (λ f. f ≡ names_over extent names.items shape.now.items.items
        shape.now.body goes_on) }
{
    let own = names_of(alloc, shape.items.as_slice())?;
    let arguments = arguments_of(alloc, shape.items.as_slice())?;
    let lone = lone_of(alloc, shape.items.as_slice())?;
    let unsure = unsure_of(alloc, shape)?;
    Ok(FunctionNames {
        extent,
        names,
        own,
        arguments,
        lone,
        unsure,
        whole: is_whole(shape, goes_on),
    })
}

/// What is known of a function, by its tokens, its range, and whether it goes on.
fn names_by(
    alloc: Global,
    items: &[Item],
    range: Range,
    goes_on: bool,
) -> Result<FunctionNames, AllocError>
    requires { length items.now < 2 ^ 32 }
    ensures { IfOk result (λ f. f ≡ names_by items.now (without_hard items.now) range goes_on) }
{
    let extent = Span {
        start: first_start(items),
        end: range.end,
    };
    let names = names_of(alloc, items)?;
    let kept = without_hard(alloc, items)?;
    let body = body_of(kept.as_slice(), range) as u32;
    let shape = shape_of(alloc, kept, body)?;
    match names_over(alloc, extent, names, &shape, goes_on) {
        Ok(names) => Ok(names),
        Err(error) => Err(error),
    }
}

/// The same by all tokens and all functions.
fn names_in(
    alloc: Global,
    items: &[Item],
    ranges: &[Range],
    range: Range,
) -> Result<FunctionNames, AllocError>
    requires { length items.now < 2 ^ 32 }
    ensures { IfOk result (λ f. f ≡ names_in items.now ranges.now range) }
{
    let goes_on = goes_on(alloc, items, ranges, range)?;
    match names_by(alloc, extent(items, range), range, goes_on) {
        Ok(names) => Ok(names),
        Err(error) => Err(error),
    }
}

impl Code<'_> {
    /// The names of the function around a place, or of the next one. Refused memory is the only
    /// error. Time in proportion to the text.
    pub fn function_names(
        &self,
        alloc: Global,
        place: u32,
    ) -> Result<Option<FunctionNames>, AllocError>
        ensures { IfOk result (λ found. found ≡ function_names self.now place) }
    {
        let Some(range) = function_among(self.ranges.as_slice(), place) else {
            return Ok(None);
        };
        let names = names_in(alloc, self.items.as_slice(), self.ranges.as_slice(), range)?;
        Ok(Some(names))
    }
}
