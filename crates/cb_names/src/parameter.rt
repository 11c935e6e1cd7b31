//! The parameters of macros.
ghost use Rattle.std.specs.Prelude.{◌≡◌, ◌<◌, ◌^◌, IfErr, IfOk, IfSome, length, map};
ghost use Rattle.std.specs.List.{AllByRecursion};
ghost use Rattle.cb_names.specs.Functions.{IsItemOf};
ghost use Rattle.cb_names.specs.Locals.{uses_where};
ghost use Rattle.cb_names.specs.Parameters.{IsMovable, declared_at, declares_same, is_close};
ghost use Rattle.cb_names.specs.Parameters.{line_extent, line_item, line_items, list_end, names_same};
ghost use Rattle.cb_names.specs.Parameters.{parameter_at, parameter_by, parameter_named, parameter_of};
ghost use Rattle.cb_names.specs.Parameters.{parameter_use, role_in_line, takes_arguments};
ghost use Rattle.cb_names.specs.Shapes.{IsShape};

use crate::accesses::access;
use crate::braces::is_name_at;
use crate::labels::{index_at, is_same, span_at};
use crate::local::{Local, LocalUse, push_if};
use crate::names::{Arguments, arguments_of};
use crate::pairs::sign;
use crate::shape::{Shape, shape_of};
use crate::spaces::touches;
use crate::word::{Item, Word};
use cb_scan::{Role, ScanError, Source, Span, Token, WideRole, WideToken, WordKind, line_tokens};
use std::alloc::{AllocError, Global};
use std::marker::Model;

/// A parameter of a macro.
#[derive(Drop)]
pub struct Parameter {
    local: Local,
    extent: Span,
    arguments: Vec<Arguments>,
}

impl Model for Parameter {
    ghost use Rattle.cb_names.specs.Parameters.{ParameterName};

    ghost Value = { ParameterName };

    ghost view = { λ p. record {
      name = p.local;
      extent = p.extent;
      arguments = p.arguments.items;
    } };
}

impl Parameter {
    /// Its definition and its uses, in the line of the macro alone.
    pub fn local(&self) -> &Local
        ensures { result.now ≡ self.now.name }
    {
        &self.local
    }

    /// The line of the macro, from its name on.
    pub fn extent(&self) -> Span
        ensures { result ≡ self.now.extent }
    {
        self.extent
    }

    /// The names with arguments behind it, by place.
    pub fn arguments(&self) -> &[Arguments]
        ensures { result.now ≡ self.now.arguments }
    {
        self.arguments.as_slice()
    }
}

/// What a token of the line of a macro is.
fn role_in_line(role: Role) -> WideRole
    ensures { result ≡ role_in_line role }
{
    match role {
        Role::Word(WordKind::Name | WordKind::Define | WordKind::Include) => WideRole::Name,
        Role::Word(_) => WideRole::Reserved,
        Role::Mark(byte) => WideRole::Mark(byte),
        Role::Str => WideRole::Str,
        Role::Other => WideRole::Number,
    }
}

/// A token of a line that begins at a place.
fn line_item(from: u32, token: &Token) -> Item
    requires { IsMovable from token.now }
    ensures { result ≡ line_item from token.now }
{
    let span = Span {
        start: from + token.span.start,
        end: from + token.span.end,
    };
    Item {
        token: WideToken {
            token: Token {
                role: token.role,
                starts_line: token.starts_line,
                span,
                line: token.line,
            },
            role: role_in_line(token.role),
            counted: false,
        },
        word: Word::Other,
    }
}

fn moved_items(alloc: Global, from: u32, tokens: &[Token]) -> Result<Vec<Item>, AllocError>
    requires { AllByRecursion (IsMovable from) tokens.now }
    ensures { IfOk result (λ items. items.items ≡ map (line_item from) tokens.now) }
{
    let mut items = Vec::with_capacity(alloc, tokens.len())?;
    for i in 0..tokens.len() {
        items.push(line_item(from, &tokens[i]))?;
    }
    Ok(items)
}

/// The tokens of a line, from a place on.
pub(crate) fn line_items(alloc: Global, source: &Source, from: u32) -> Result<Vec<Item>, ScanError>
    ensures value { IfOk result (λ items. items.items ≡ line_items source.now from) }
    ensures within { IfOk result (λ items. AllByRecursion (IsItemOf source.now) items.items) }
    ensures few { IfOk result (λ items. length items.items < 2 ^ 32) }
    ensures memory { IfErr result (λ e. e ≡ ScanError.OutOfMemory) }
{
    let _text = source.bytes();
    let tokens = line_tokens(alloc, source, from)?;
    match moved_items(alloc, from, tokens.as_slice()) {
        Ok(items) => Ok(items),
        Err(_) => Err(ScanError::OutOfMemory),
    }
}

/// Whether a `(` directly follows the first token.
pub(crate) fn takes_arguments(items: &[Item]) -> bool
    ensures { result ≡ takes_arguments items.now }
{
    sign(items, 1) == b'(' && touches(items, 0)
}

fn is_close(item: &Item) -> bool
    ensures { result ≡ is_close item.now }
{
    matches!(item.token.role, WideRole::Mark(b')'))
}

/// How many tokens there are before the first `)`.
pub(crate) fn list_end(items: &[Item]) -> usize
    ensures { result ≡ list_end items.now }
{
    items.iter().take_while(|item| !is_close(*item)).count()
}

/// Whether a token behind the first one names what another one names.
fn names_same(text: &[u8], items: &[Item], k: u32, j: u32) -> bool
    requires within { AllByRecursion (IsItemOf text.now) items.now }
    requires first { j < length items.now }
    requires second { k < length items.now }
    ensures { result ≡ names_same text.now items.now k j }
{
    j > 0 && is_name_at(items, j) && is_same(text, items, j, k)
}

/// The same where it is before the end of the list.
fn declares_same(text: &[u8], items: &[Item], end: usize, k: u32, j: u32) -> bool
    requires within { AllByRecursion (IsItemOf text.now) items.now }
    requires first { j < length items.now }
    requires second { k < length items.now }
    requires end { end ≡ list_end items.now }
    ensures { result ≡ declares_same text.now items.now k j }
{
    names_same(text, items, k, j) && (j as usize) < end
}

/// The first token that declares what another one names.
fn declared_at(text: &[u8], items: &[Item], end: usize, k: u32) -> Option<u32>
    requires few { length items.now < 2 ^ 32 }
    requires within { AllByRecursion (IsItemOf text.now) items.now }
    requires index { k < length items.now }
    requires end { end ≡ list_end items.now }
    ensures value { result ≡ declared_at text.now items.now k }
    ensures within { IfSome result (λ j. j < length items.now) }
{
    for j in 0..items.len() as u32 {
        if declares_same(text, items, end, k, j) {
            return Some(j);
        }
    }
    None
}

/// A token that names what another one names.
fn parameter_use(text: &[u8], shape: &Shape, end: usize, k: u32, j: u32) -> LocalUse
    requires shape { IsShape shape.now }
    requires within { AllByRecursion (IsItemOf text.now) shape.now.items.items }
    requires first { j < length shape.now.items.items }
    requires second { k < length shape.now.items.items }
    requires end { end ≡ list_end shape.now.items.items }
    ensures { result ≡ parameter_use text.now shape.now.items.items k j }
{
    let items = shape.items.as_slice();
    let is_declared = declares_same(text, items, end, k, j);
    LocalUse {
        name: span_at(items, j),
        access: access(shape, is_declared, j),
        declares: is_declared,
    }
}

/// All tokens that name what one names.
fn uses_of(
    alloc: Global,
    text: &[u8],
    shape: &Shape,
    end: usize,
    k: u32,
) -> Result<Vec<LocalUse>, AllocError>
    requires shape { IsShape shape.now }
    requires within { AllByRecursion (IsItemOf text.now) shape.now.items.items }
    requires index { k < length shape.now.items.items }
    requires end { end ≡ list_end shape.now.items.items }
    ensures { IfOk result (λ uses. uses.items ≡ uses_where
        (parameter_use text.now shape.now.items.items k)
        (names_same text.now shape.now.items.items k) (length shape.now.items.items)) }
{
    let mut uses = Vec::new(alloc);
    for j in 0..shape.items.len() as u32 {
        push_if(
            names_same(text, shape.items.as_slice(), k, j),
            parameter_use(text, shape, end, k, j),
            &mut uses,
        )?;
    }
    Ok(uses)
}

/// The parameter that a token names, which another one declares.
fn parameter_of(
    alloc: Global,
    text: &[u8],
    shape: &Shape,
    k: u32,
    declared: u32,
) -> Result<Local, AllocError>
    requires shape { IsShape shape.now }
    requires within { AllByRecursion (IsItemOf text.now) shape.now.items.items }
    requires index { k < length shape.now.items.items }
    requires declared { declared < length shape.now.items.items }
    ensures { IfOk result
        (λ found. found ≡ parameter_of text.now shape.now.items.items k declared) }
{
    let items = shape.items.as_slice();
    let uses = uses_of(alloc, text, shape, list_end(items), k)?;
    Ok(Local {
        definition: Some(span_at(items, declared)),
        uses,
        is_label: false,
    })
}

/// From the first token to the end of the last one.
fn line_extent(items: &[Item]) -> Span
    requires { 0 < length items.now }
    ensures { result ≡ line_extent items.now }
{
    Span {
        start: items[0].token.token.span.start,
        end: items[items.len() - 1].token.token.span.end,
    }
}

/// The same with what is known of the line.
fn parameter_by(
    alloc: Global,
    text: &[u8],
    items: Vec<Item>,
    k: u32,
    declared: u32,
) -> Result<Parameter, AllocError>
    requires few { length items.items < 2 ^ 32 }
    requires within { AllByRecursion (IsItemOf text.now) items.items }
    requires index { k < length items.items }
    requires declared { declared < length items.items }
    ensures { IfOk result (λ found. found ≡ parameter_by text.now items.items k declared) }
{
    let extent = line_extent(items.as_slice());
    let arguments = arguments_of(alloc, &items.as_slice()[1..])?;
    let len = items.len() as u32;
    let shape = shape_of(alloc, items, len)?;
    let local = parameter_of(alloc, text, &shape, k, declared)?;
    Ok(Parameter {
        local,
        extent,
        arguments,
    })
}

/// The parameter that a token names, if it names one.
fn parameter_named(
    alloc: Global,
    text: &[u8],
    items: Vec<Item>,
    k: u32,
) -> Result<Option<Parameter>, AllocError>
    requires few { length items.items < 2 ^ 32 }
    requires within { AllByRecursion (IsItemOf text.now) items.items }
    requires index { k < length items.items }
    ensures { IfOk result (λ found. found ≡ parameter_named text.now items.items k) }
{
    if k == 0 || !takes_arguments(items.as_slice()) {
        return Ok(None);
    }
    let end = list_end(items.as_slice());
    match declared_at(text, items.as_slice(), end, k) {
        Some(declared) => {
            let found = parameter_by(alloc, text, items, k, declared)?;
            Ok(Some(found))
        }
        None => Ok(None),
    }
}

/// The parameter that the name at a place is, of the macro whose name begins at another place: the
/// name token of its line that holds the place or ends at it counts. Refused memory is the only
/// error. Time in proportion to that line.
pub fn parameter_at(
    alloc: Global,
    source: &Source,
    from: u32,
    place: u32,
) -> Result<Option<Parameter>, ScanError>
    ensures value { IfOk result (λ found. found ≡ parameter_at source.now from place) }
    ensures memory { IfErr result (λ e. e ≡ ScanError.OutOfMemory) }
{
    let items = line_items(alloc, source, from)?;
    let index = index_at(place, items.as_slice());
    if index >= items.len() {
        return Ok(None);
    }
    match parameter_named(alloc, source.bytes(), items, index as u32) {
        Ok(found) => Ok(found),
        Err(_) => Err(ScanError::OutOfMemory),
    }
}
