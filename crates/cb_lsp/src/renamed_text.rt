//! What a rename of a local looks at in its text: other names, the arguments of macros, and the bytes
//! beside a name.
ghost use Rattle.std.specs.Prelude.{◌≡◌, ◌+◌, ◌<◌, ◌≤◌, ◌^◌, ℕ, IfOk, None, Some};
ghost use Rattle.std.specs.Prelude.{count_by, false, filter, find, length, map, nat_lt};
ghost use Rattle.std.specs.Option.{option_copied, option_map, option_map_or};
ghost use Rattle.std.specs.List.{list_any};
ghost use Rattle.cb_scan.specs.declared.lex.piece.Span.{Span as CodeSpan};
ghost use Rattle.cb_names.specs.Macros.{takes_member};
ghost use Rattle.cb_names.specs.declared.local.LocalUse.{LocalUse as OwnUse};
ghost use Rattle.cb_scan.specs.declared.facts.Include.{Include as Header};
ghost use Rattle.cb_scan.specs.lex.Tokens.{bytes_of};
ghost use Rattle.cb_lsp.specs.LocalRenames.{byte_at, byte_before, callers, first_from};
ghost use Rattle.cb_lsp.specs.LocalRenames.{is_bad, is_beside_odd, is_handed, is_hidden, is_joined_at};
ghost use Rattle.cb_lsp.specs.LocalRenames.{is_joined_before, is_macro_or_type, is_named, is_odd};
ghost use Rattle.cb_lsp.specs.LocalRenames.{is_special, is_taken, is_use_in, is_used_in, is_within};
ghost use Rattle.cb_lsp.specs.LocalRenames.{touched};
ghost use Rattle.cb_lsp.specs.steps.LocalRenames.{first_of};

use crate::place::bytes_of;
use cb_desk::Desk;
use cb_macros::has_parameters;
use cb_names::{Arguments, FunctionNames, Local, LocalUse, takes_member};
use cb_scan::{Include, Kind, Source, Span, Use, is_name};
use std::alloc::{AllocError, Global};

/// Whether no name is renamed from or to a word: it begins with `__`, or compilers give it a
/// meaning.
fn is_special(word: &[u8]) -> bool
    ensures { result ≡ is_special word.now }
{
    word.starts_with(b"__") || word == b"typeof".as_slice() || word == b"offsetof".as_slice()
}

pub(crate) fn is_bad(old: &[u8], new: &[u8]) -> bool
    ensures { result ≡ is_bad old.now new.now }
{
    !is_name(new) || is_special(old) || is_special(new)
}

fn is_macro_or_type(kind: Kind) -> bool
    ensures { result ≡ is_macro_or_type kind }
{
    matches!(kind, Kind::Macro | Kind::Typedef)
}

/// Whether a macro or a typedef has a name.
pub(crate) fn is_taken(desk: &Desk, name: &[u8]) -> bool
    ensures { result ≡ is_taken desk.now.timeline.present name.now }
{
    let mut left = desk.definitions(name);
    'rows: while let Some(row) = left.next() {
        if is_macro_or_type(row.kind) {
            return true;
        }
    }
    false
}

fn is_within(extent: Span, at: u32) -> bool
    ensures { result ≡ is_within extent at }
{
    extent.start <= at && at < extent.end
}

/// Whether a use in an extent has a name.
fn is_use_in(source: &Source, extent: Span, name: &[u8], one: &Use) -> bool
    ensures { result ≡ is_use_in source.now extent name.now one.now }
{
    is_within(extent, one.name.start) && bytes_of(source, one.name) == name
}

pub(crate) fn is_used_in(source: &Source, extent: Span, uses: &[Use], name: &[u8]) -> bool
    ensures { result ≡ is_used_in source.now extent uses.now name.now }
{
    for i in 0..uses.len() {
        if is_use_in(source, extent, name, &uses[i]) {
            return true;
        }
    }
    false
}

/// How many uses in an extent have a name.
fn uses_in(source: &Source, extent: Span, uses: &[Use], name: &[u8]) -> usize
    ensures value { result ≡ count_by (is_use_in source.now extent name.now) uses.now }
    ensures within { result ≤ length uses.now }
{
    let mut count = 0;
    for i in 0..uses.len() {
        if is_use_in(source, extent, name, &uses[i]) {
            count += 1;
        }
    }
    count
}

/// How many spans have a name.
fn named_among(source: &Source, spans: &[Span], name: &[u8]) -> usize
    ensures value { result ≡ count_by (is_named source.now name.now) spans.now }
    ensures within { result ≤ length spans.now }
{
    let mut count = 0;
    for i in 0..spans.len() {
        if bytes_of(source, spans[i]) == name {
            count += 1;
        }
    }
    count
}

/// Whether a name stands in a directive of a function, or in an attribute that is left out.
pub(crate) fn is_hidden(
    source: &Source,
    function: &FunctionNames,
    uses: &[Use],
    name: &[u8],
) -> bool
    ensures { result ≡ is_hidden source.now function.now uses.now name.now }
{
    named_among(source, function.own(), name) < uses_in(source, function.extent(), uses, name)
}

/// Whether one of some spans has a name.
pub(crate) fn has_named(source: &Source, spans: &[Span], name: &[u8]) -> bool
    ensures { result ≡ list_any (is_named source.now name.now) spans.now }
{
    for i in 0..spans.len() {
        if bytes_of(source, spans[i]) == name {
            return true;
        }
    }
    false
}

/// The spans that have a name.
fn all_named(
    alloc: Global,
    source: &Source,
    spans: &[Span],
    name: &[u8],
) -> Result<Vec<Span>, AllocError>
    ensures { IfOk result (λ found. found.items ≡ filter (is_named source.now name.now) spans.now) }
{
    let mut found = Vec::new(alloc);
    for i in 0..spans.len() {
        if bytes_of(source, spans[i]) == name {
            found.push(spans[i])?;
        }
    }
    Ok(found)
}

/// The spans of some uses.
pub(crate) fn spans_of(alloc: Global, uses: &[LocalUse]) -> Result<Vec<Span>, AllocError>
    ensures { IfOk result (λ found. found.items ≡ map (λ (u : OwnUse). u.name) uses.now) }
{
    let mut found = Vec::with_capacity(alloc, uses.len())?;
    for i in 0..uses.len() {
        found.push(uses[i].name)?;
    }
    Ok(found)
}

/// What a macro must not touch: the uses of a local; of a label all names of the function with its
/// name.
pub(crate) fn touched(
    alloc: Global,
    source: &Source,
    function: &FunctionNames,
    own: &Local,
    name: &[u8],
) -> Result<Vec<Span>, AllocError>
    ensures { IfOk result
        (λ found. found.items ≡ touched source.now function.now own.now name.now) }
{
    if own.is_label() {
        all_named(alloc, source, function.own(), name)
    } else {
        spans_of(alloc, own.uses())
    }
}

/// Some spans by place from a place on, where they follow each other.
fn skip_before(spans: &[Span], at: u32) -> &[Span]
    ensures later { (place : ℕ) → at ≤ place
        → first_from result.now place ≡ first_from spans.now place }
    ensures here { first_of result.now ≡ first_from spans.now at }
{
    let mut rest = spans;
    'spans: while let Some((one, more)) = rest.split_first() {
        if at <= one.start {
            return rest;
        }
        rest = more;
    }
    rest
}

/// The same, behind some of them where it is known from where on they have all.
fn rest_from<'s>(spans: &'s [Span], rest: &'s [Span], from: u32, at: u32) -> &'s [Span]
    requires { (place : ℕ) → from ≤ place
        → first_from rest.now place ≡ first_from spans.now place }
    ensures later { (place : ℕ) → at ≤ place
        → first_from result.now place ≡ first_from spans.entry.now place }
    ensures here { first_of result.now ≡ first_from spans.entry.now at }
{
    if at < from {
        skip_before(spans, at)
    } else {
        skip_before(rest, at)
    }
}

/// Whether the first of some spans is before a place.
fn begins_before(spans: &[Span], end: u32) -> bool
    ensures { result ≡ option_map_or (λ (s : CodeSpan). nat_lt s.start end) (first_of spans.now)
        false }
{
    match spans {
        [first, ..] => first.start < end,
        [] => false,
    }
}

/// The names whose arguments hold one of some spans.
pub(crate) fn callers(
    alloc: Global,
    spans: &[Span],
    arguments: &[Arguments],
) -> Result<Vec<Span>, AllocError>
    ensures { IfOk result (λ found. found.items ≡ callers spans.now arguments.now) }
{
    let mut found = Vec::new(alloc);
    let mut rest = spans;
    let mut from = 0;
    for i in 0..arguments.len() {
        let one = arguments[i];
        rest = rest_from(spans, rest, from, one.name.end);
        from = one.name.end;
        if begins_before(rest, one.end) {
            found.push(one.name)?;
        }
    }
    Ok(found)
}

/// The names of macros with parameters among some spans.
pub(crate) fn handed(
    alloc: Global,
    desk: &Desk,
    source: &Source,
    spans: &[Span],
) -> Result<Vec<Span>, AllocError>
    ensures { IfOk result (λ found. found.items
        ≡ filter (is_handed desk.now.timeline.present source.now) spans.now) }
{
    let mut found = Vec::new(alloc);
    for i in 0..spans.len() {
        if has_parameters(alloc, desk, bytes_of(source, spans[i]))? {
            found.push(spans[i])?;
        }
    }
    Ok(found)
}

/// The first of some names that takes a member as an argument.
pub(crate) fn member_taker<'a>(source: &'a Source, names: &[Span]) -> Option<&'a [u8]>
    ensures { option_copied result ≡ find takes_member (map (bytes_of source.entry.now) names.now) }
{
    for i in 0..names.len() {
        let name = bytes_of(source, names[i]);
        if takes_member(name) {
            return Some(name);
        }
    }
    None
}

/// The byte at a place, or 0.
fn byte_at(text: &[u8], at: usize) -> u8
    ensures { result ≡ byte_at text.now at }
{
    match text.get(at) {
        Some(byte) => *byte,
        None => 0,
    }
}

/// The byte so many bytes before a place, or 0.
fn byte_before(text: &[u8], at: usize, count: usize) -> u8
    ensures { result ≡ byte_before text.now at count }
{
    if count <= at {
        byte_at(text, at - count)
    } else {
        0
    }
}

/// Whether a line is joined to the next one directly before a place.
fn is_joined_before(text: &[u8], at: usize) -> bool
    ensures { result ≡ is_joined_before text.now at }
{
    byte_before(text, at, 1) == b'\n'
        && (byte_before(text, at, 2) == b'\\'
            || (byte_before(text, at, 2) == b'\r' && byte_before(text, at, 3) == b'\\'))
}

/// Whether one is joined there.
fn is_joined_at(text: &[u8], at: usize) -> bool
    requires { at < 2 ^ 63 + 2 ^ 32 }
    ensures { result ≡ is_joined_at text.now at }
{
    byte_at(text, at) == b'\\'
        && (byte_at(text, at + 1) == b'\n'
            || (byte_at(text, at + 1) == b'\r' && byte_at(text, at + 2) == b'\n'))
}

/// Whether a byte may go on a name for some compiler, or is a quote.
fn is_odd(byte: u8) -> bool
    ensures { result ≡ is_odd byte }
{
    byte == b'$' || byte == b'@' || byte == b'"' || byte == b'\'' || 128 <= byte
}

/// Whether such a byte, or a join of lines, is directly before a place or at another one.
pub(crate) fn is_beside_odd(text: &[u8], start: usize, end: usize) -> bool
    requires { end < 2 ^ 63 + 2 ^ 32 }
    ensures { result ≡ is_beside_odd text.now (record { start = start; end = end }) }
{
    is_odd(byte_before(text, start, 1))
        || is_joined_before(text, start)
        || is_odd(byte_at(text, end))
        || is_joined_at(text, end)
}

fn is_odd_use(text: &[u8], one: &LocalUse) -> bool
    ensures { result ≡ is_beside_odd text.now one.now.name }
{
    is_beside_odd(text, one.name.start as usize, one.name.end as usize)
}

/// The first use beside such a byte.
pub(crate) fn first_odd(text: &[u8], uses: &[LocalUse]) -> Option<LocalUse>
    ensures { result ≡ find (λ (u : OwnUse). is_beside_odd text.now u.name) uses.now }
{
    for i in 0..uses.len() {
        if is_odd_use(text, &uses[i]) {
            return Some(uses[i]);
        }
    }
    None
}

/// The first header that is included in an extent.
pub(crate) fn first_included(includes: &[Include], extent: Span) -> Option<Span>
    ensures { result ≡ option_map (λ (h : Header). h.header)
        (find (λ (h : Header). is_within extent h.header.start) includes.now) }
{
    for i in 0..includes.len() {
        if is_within(extent, includes[i].header.start) {
            return Some(includes[i].header);
        }
    }
    None
}
