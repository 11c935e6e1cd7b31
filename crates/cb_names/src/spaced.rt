//! In which name spaces the tokens with the same bytes are.
ghost use Rattle.std.specs.Prelude.{◌≡◌, ◌<◌, ◌^◌, ◌++◌, ◌∷◌, [], IfErr, IfOk, length};
ghost use Rattle.std.specs.Prelude.{◌&&◌, if◌then◌else◌, nat_lt};
ghost use Rattle.std.specs.List.{AllByRecursion, list_any, range_with_len};
ghost use Rattle.cb_names.specs.Functions.{IsItemOf};
ghost use Rattle.cb_names.specs.Parameters.{list_end};
ghost use Rattle.cb_names.specs.SpacedNames.{behind_at, has_parameter, is_behind_name};
ghost use Rattle.cb_names.specs.SpacedNames.{is_name_spelled, macro_names, space_behind, spaced_at};
ghost use Rattle.cb_names.specs.SpacedNames.{spaced_in, spaced_names};
ghost use Rattle.cb_names.specs.Tables.{those_where};

use crate::braces::is_name_at;
use crate::code::Code;
use crate::directive::space_of_text;
use crate::hard::without_hard;
use crate::labels::{is_spelled, span_at};
use crate::parameter::{line_items, list_end, takes_arguments};
use crate::space::{Space, space_of};
use crate::spaces::follows_accessor;
use crate::word::Item;
use cb_scan::{ScanError, Source, Span};
use std::alloc::{AllocError, Global};

/// A token and its name space.
#[derive(Clone, Copy, Debug, PartialEq, Eq)]
pub struct SpacedName {
    pub name: Span,
    /// None where it names a parameter of a macro.
    pub space: Option<Space>,
}

/// Whether a token is a name with these bytes.
fn is_name_spelled(text: &[u8], items: &[Item], name: &[u8], index: u32) -> bool
    requires within { AllByRecursion (IsItemOf text.now) items.now }
    requires index { index < length items.now }
    ensures { result ≡ is_name_spelled text.now items.now name.now index }
{
    is_name_at(items, index) && is_spelled(text, items, index, name)
}

fn spaced_at(items: &[Item], index: u32) -> SpacedName
    requires few { length items.now < 2 ^ 32 }
    requires index { index < length items.now }
    ensures { result ≡ spaced_at items.now index }
{
    SpacedName {
        name: span_at(items, index),
        space: Some(space_of(items, index)),
    }
}

/// Appends a token, if it is wanted.
fn push_if(is_wanted: bool, one: SpacedName, found: &mut Vec<SpacedName>) -> Result<(), AllocError>
    ensures { IfOk result
        (λ _. found.new.items ≡ found.old.items ++ (if is_wanted then one ∷ [] else [])) }
{
    if is_wanted {
        found.push(one)?;
    }
    Ok(())
}

/// The names of the code with these bytes, by its tokens.
fn spaced_in(
    alloc: Global,
    text: &[u8],
    items: &[Item],
    name: &[u8],
) -> Result<Vec<SpacedName>, AllocError>
    requires few { length items.now < 2 ^ 32 }
    requires within { AllByRecursion (IsItemOf text.now) items.now }
    ensures { IfOk result (λ found. found.items ≡ spaced_in text.now items.now name.now) }
{
    let mut found = Vec::new(alloc);
    for at in 0..items.len() as u32 {
        push_if(
            is_name_spelled(text, items, name, at),
            spaced_at(items, at),
            &mut found,
        )?;
    }
    Ok(found)
}

impl Code<'_> {
    /// The names of the code with these bytes, by place, and the name space of each. Labels are not
    /// told from other names, nor members where they are declared. Attributes that are left out
    /// everywhere have no names. Refused memory is the only error. Time in proportion to the text.
    pub fn spaced_names(&self, alloc: Global, name: &[u8]) -> Result<Vec<SpacedName>, AllocError>
        ensures { IfOk result (λ found. found.items ≡ spaced_names self.now name.now) }
    {
        let kept = without_hard(alloc, self.items.as_slice())?;
        match spaced_in(alloc, self.source.bytes(), kept.as_slice(), name) {
            Ok(found) => Ok(found),
            Err(error) => Err(error),
        }
    }
}

// ---- in the line of a macro

/// Whether a token behind the name of a macro is a name with these bytes.
fn is_behind_name(text: &[u8], items: &[Item], name: &[u8], index: u32) -> bool
    requires within { AllByRecursion (IsItemOf text.now) items.now }
    requires index { index < length items.now }
    ensures { result ≡ is_behind_name text.now items.now name.now index }
{
    0 < index && is_name_spelled(text, items, name, index)
}

/// Whether one of the first tokens of its list is.
fn is_listed(text: &[u8], items: &[Item], end: usize, name: &[u8], index: u32) -> bool
    requires within { AllByRecursion (IsItemOf text.now) items.now }
    requires index { index < length items.now }
    requires end { end ≡ list_end items.now }
    ensures { result ≡ (is_behind_name text.now items.now name.now index
        && nat_lt index (list_end items.now)) }
{
    is_behind_name(text, items, name, index) && (index as usize) < end
}

/// Whether a macro has a parameter with these bytes.
fn has_parameter(text: &[u8], items: &[Item], name: &[u8]) -> bool
    requires few { length items.now < 2 ^ 32 }
    requires within { AllByRecursion (IsItemOf text.now) items.now }
    ensures { result ≡ has_parameter text.now items.now name.now }
{
    takes_arguments(items) && is_one_listed(text, items, name)
}

/// Whether a token of its list is.
fn is_one_listed(text: &[u8], items: &[Item], name: &[u8]) -> bool
    requires few { length items.now < 2 ^ 32 }
    requires within { AllByRecursion (IsItemOf text.now) items.now }
    ensures { result ≡ list_any (λ j. is_behind_name text.now items.now name.now j
        && nat_lt j (list_end items.now)) (range_with_len 0 (length items.now)) }
{
    let end = list_end(items);
    for at in 0..items.len() as u32 {
        if is_listed(text, items, end, name, at) {
            return true;
        }
    }
    false
}

/// The space of a name behind that of its macro; none, if it is a parameter.
fn space_behind(text: &[u8], items: &[Item], parameter: bool, index: u32) -> Option<Space>
    requires few { length items.now < 2 ^ 32 }
    requires within { AllByRecursion (IsItemOf text.now) items.now }
    requires behind { 0 < index }
    requires index { index < length items.now }
    ensures { result ≡ space_behind text.now items.now parameter index }
{
    if parameter {
        None
    } else if follows_accessor(items, index) {
        Some(Space::Member)
    } else {
        Some(space_of_text(text, items, index))
    }
}

/// Appends a token behind the name of a macro, if it is a name with these bytes.
fn push_behind(
    text: &[u8],
    items: &[Item],
    parameter: bool,
    name: &[u8],
    index: u32,
    found: &mut Vec<SpacedName>,
) -> Result<(), AllocError>
    requires few { length items.now < 2 ^ 32 }
    requires within { AllByRecursion (IsItemOf text.now) items.now }
    requires index { index < length items.now }
    ensures { IfOk result (λ _. found.new.items ≡ found.old.items
        ++ (if is_behind_name text.now items.now name.now index
        then behind_at text.now items.now parameter index ∷ [] else [])) }
{
    if is_behind_name(text, items, name, index) {
        found.push(SpacedName {
            name: span_at(items, index),
            space: space_behind(text, items, parameter, index),
        })?;
    }
    Ok(())
}

/// All such tokens.
fn behind_in(
    alloc: Global,
    text: &[u8],
    items: &[Item],
    parameter: bool,
    name: &[u8],
) -> Result<Vec<SpacedName>, AllocError>
    requires few { length items.now < 2 ^ 32 }
    requires within { AllByRecursion (IsItemOf text.now) items.now }
    ensures { IfOk result (λ found. found.items
        ≡ those_where (behind_at text.now items.now parameter)
        (is_behind_name text.now items.now name.now) (length items.now)) }
{
    let mut found = Vec::new(alloc);
    for at in 0..items.len() as u32 {
        push_behind(text, items, parameter, name, at, &mut found)?;
    }
    Ok(found)
}

/// The names with these bytes behind that of a macro, whose name begins at a place, by place, and
/// the name space of each. Refused memory is the only error. Time in proportion to the line.
pub fn macro_names(
    alloc: Global,
    source: &Source,
    start: u32,
    name: &[u8],
) -> Result<Vec<SpacedName>, ScanError>
    ensures names { IfOk result (λ found. found.items ≡ macro_names source.now start name.now) }
    ensures memory { IfErr result (λ e. e ≡ ScanError.OutOfMemory) }
{
    let items = line_items(alloc, source, start)?;
    let parameter = has_parameter(source.bytes(), items.as_slice(), name);
    match behind_in(alloc, source.bytes(), items.as_slice(), parameter, name) {
        Ok(found) => Ok(found),
        Err(_) => Err(ScanError::OutOfMemory),
    }
}
