//! The name space of the name at a place of a directive.
ghost use Rattle.std.specs.Prelude.{◌≡◌, ◌<◌, ◌^◌, IfErr, IfOk, length};
ghost use Rattle.std.specs.List.{AllByRecursion};
ghost use Rattle.cb_names.specs.Directives.{directive_space, ends_line};
ghost use Rattle.cb_names.specs.Directives.{line_start, names_macros, space_in_line};
ghost use Rattle.cb_names.specs.Directives.{space_named, space_of_macro, space_of_text};
ghost use Rattle.cb_names.specs.Functions.{IsItemOf};

use crate::braces::is_name_at;
use crate::labels::{index_at, is_spelled};
use crate::pairs::sign;
use crate::parameter::line_items;
use crate::space::Space;
use crate::spaces::follows_accessor;
use crate::word::Item;
use cb_scan::{Class, Piece, ScanError, Source, pieces};
use std::alloc::Global;

/// Whether a piece ends a line, at a place or before it.
fn ends_line(place: u32, piece: Piece) -> bool
    ensures { result ≡ ends_line place piece }
{
    matches!(piece.class, Class::Newline) && piece.span.end <= place
}

/// Where the logical line of a place begins.
#[tactic(auto, unfolding(crate::specs::Directives::line_begin))]
fn line_start(source: &Source, place: u32) -> u32
    ensures { result ≡ line_start source.now place }
{
    let mut start = 0;
    'pieces: for piece in pieces(source) {
        if ends_line(place, piece) {
            start = piece.span.end;
        }
    }
    start
}

/// Whether a directive names macros alone.
fn names_macros(text: &[u8], items: &[Item]) -> bool
    requires within { AllByRecursion (IsItemOf text.now) items.now }
    requires some { 1 < length items.now }
    ensures { result ≡ names_macros text.now items.now }
{
    is_spelled(text, items, 1, b"if")
        || is_spelled(text, items, 1, b"ifdef")
        || is_spelled(text, items, 1, b"ifndef")
        || is_spelled(text, items, 1, b"elif")
        || is_spelled(text, items, 1, b"elifdef")
        || is_spelled(text, items, 1, b"elifndef")
        || is_spelled(text, items, 1, b"undef")
}

/// The space of a name in the text of a macro, which is no member.
pub(crate) fn space_of_text(text: &[u8], items: &[Item], index: u32) -> Space
    requires within { AllByRecursion (IsItemOf text.now) items.now }
    requires behind { 0 < index }
    requires index { index < length items.now }
    requires few { length items.now < 2 ^ 32 }
    ensures { result ≡ space_of_text text.now items.now index }
{
    if is_spelled(text, items, index - 1, b"struct") {
        Space::Struct
    } else if is_spelled(text, items, index - 1, b"union") {
        Space::Union
    } else if is_spelled(text, items, index - 1, b"enum") {
        Space::Enum
    } else if sign(items, index + 1) == b'(' {
        Space::Called
    } else {
        Space::Plain
    }
}

/// The space of a name in the line of a macro.
fn space_of_macro(text: &[u8], items: &[Item], index: u32) -> Space
    requires within { AllByRecursion (IsItemOf text.now) items.now }
    requires behind { 1 < index }
    requires index { index < length items.now }
    requires few { length items.now < 2 ^ 32 }
    ensures { result ≡ space_of_macro text.now items.now index }
{
    if index == 2 {
        Space::Macro
    } else if follows_accessor(items, index) {
        Space::Member
    } else {
        space_of_text(text, items, index)
    }
}

/// The space of a name of a directive, behind its own word.
fn space_named(text: &[u8], items: &[Item], index: u32) -> Option<Space>
    requires within { AllByRecursion (IsItemOf text.now) items.now }
    requires behind { 1 < index }
    requires index { index < length items.now }
    requires few { length items.now < 2 ^ 32 }
    ensures { result ≡ space_named text.now items.now index }
{
    if names_macros(text, items) {
        Some(Space::Macro)
    } else if is_spelled(text, items, 1, b"define") && is_name_at(items, 2) {
        Some(space_of_macro(text, items, index))
    } else {
        None
    }
}

/// The space of a name of a line, if that is a directive.
fn space_in_line(text: &[u8], items: &[Item], index: usize) -> Option<Space>
    requires within { AllByRecursion (IsItemOf text.now) items.now }
    requires few { length items.now < 2 ^ 32 }
    ensures { result ≡ space_in_line text.now items.now index }
{
    if sign(items, 0) == b'#' && 1 < index && index < items.len() {
        space_named(text, items, index as u32)
    } else {
        None
    }
}

/// The name space of the name at a place of a directive: the first name token there that holds the
/// place or ends at it counts, behind the own word of the directive. None is found elsewhere, or
/// in a directive that neither is a condition nor defines or undefines a macro. Refused memory is
/// the only error. Time in proportion to the text.
pub fn directive_space(
    alloc: Global,
    source: &Source,
    place: u32,
) -> Result<Option<Space>, ScanError>
    ensures space { IfOk result (λ found. found ≡ directive_space source.now place) }
    ensures memory { IfErr result (λ e. e ≡ ScanError.OutOfMemory) }
{
    let items = line_items(alloc, source, line_start(source, place))?;
    let index = index_at(place, items.as_slice());
    Ok(space_in_line(source.bytes(), items.as_slice(), index))
}
