//! The scanner: one pass over the pieces of a text, and then its facts in order and with their
//! scopes.
ghost use Rattle.std.specs.Prelude.{◌≡◌, ◌+◌, ◌^◌, ◌-◌, ◌<◌, ◌≤◌, min, List, length, drop, IfOk, IfErr};
ghost use Rattle.cb_scan.specs.declared.lex.piece.Piece.{Piece};
ghost use Rattle.cb_scan.specs.declared.source.TheConstants.{MOST_BYTES};
ghost use Rattle.std.specs.List.{AllByRecursion};
ghost use Rattle.cb_scan.specs.CodeTokens.{IsSpanOf, IsTokenOf, code_by, code_of, first_line};
ghost use Rattle.cb_scan.specs.Definitions.{AreWithin};
ghost use Rattle.cb_scan.specs.lex.Pieces.{IsPieces};
ghost use Rattle.cb_scan.specs.lex.Tokens.{is_significant};
ghost use Rattle.cb_scan.specs.Profiles.{facts_by, facts_in, ranges_by, ranges_in};
ghost use Rattle.cb_scan.specs.rules.Code.{is_newline};

mod code;
mod standard;
mod together;
mod wide;

use crate::facts::Facts;
use crate::lex::piece::Class;
use crate::lex::token::Token;
use crate::meter::Meter;
use crate::profile::{Profile, Rules};
use crate::rules::scope::Range;
use crate::rules::wide::token::WideToken;
use crate::source::{ScanError, Source};
use std::alloc::{AllocError, Global};

fn is_significant(class: Class) -> bool
    ensures { result ≡ is_significant class }
{
    matches!(
        class,
        Class::Name | Class::Number | Class::Str | Class::Chr | Class::Byte
    )
}

fn is_newline(class: Class) -> bool
    ensures { result ≡ is_newline class }
{
    matches!(class, Class::Newline)
}

/// What a profile finds in a text.
fn facts_in(alloc: Global, profile: Profile, text: &[u8]) -> Result<Facts, AllocError>
    requires { length text.now ≤ MOST_BYTES }
    ensures { IfOk result (λ f. f ≡ facts_in profile text.now) }
{
    let wanted = profile.wanted;
    if !wanted.is_any() {
        return Ok(Facts::none(alloc));
    }
    match profile.rules {
        Rules::Standard => standard::facts_in(alloc, wanted, text),
        Rules::Wide => wide::facts_in(alloc, wanted, false, text),
        Rules::Prototypes => wide::facts_in(alloc, wanted, true, text),
    }
}

/// What a profile finds in the text: the facts that follow from its pieces (`exact`), which lie in
/// it (`within`) and are in order ([`crate::laws::facts_in_order`]). The meter counts the bytes of
/// the source, also where memory was refused, which is the only error. One pass, and time in
/// proportion to the text (ordering what is out of order aside); none where nothing is wanted.
pub fn scan(
    alloc: Global,
    meter: &mut Meter,
    profile: Profile,
    source: &Source,
) -> Result<Facts, ScanError>
    ensures facts { IfOk result (λ f. f ≡ facts_in profile source.now) }
    ensures exact { IfOk result
        (λ f. (ps : List Piece) → IsPieces source.now ps → f ≡ facts_by profile source.now ps) }
    ensures within { IfOk result (λ f. AreWithin source.now f) }
    ensures memory { IfErr result (λ e. e ≡ ScanError.OutOfMemory) }
    ensures counted { meter.new ≡ min (meter.old + length source.now) (2 ^ 64 - 1) }
{
    let text = source.bytes();
    meter.add(text.len() as u64);
    match facts_in(alloc, profile, text) {
        Ok(found) => Ok(found),
        Err(_) => Err(ScanError::OutOfMemory),
    }
}

/// The ranges of the functions that rules find in a text.
fn ranges_in(alloc: Global, rules: Rules, text: &[u8]) -> Result<Vec<Range>, AllocError>
    requires { length text.now ≤ MOST_BYTES }
    ensures { IfOk result (λ rs. rs.items ≡ ranges_in rules text.now) }
{
    match rules {
        Rules::Standard => standard::ranges_in(alloc, text),
        Rules::Wide => wide::ranges_in(alloc, text),
        Rules::Prototypes => wide::ranges_in(alloc, text),
    }
}

/// The functions that rules find in the text, which [`scan`] tells as scopes and callers beside
/// macros: for each its name, and where its body ends, after the `}` or at the end of the text.
/// Refused memory is the only error. One pass, and time in proportion to the text.
pub fn function_ranges(
    alloc: Global,
    rules: Rules,
    source: &Source,
) -> Result<Vec<Range>, ScanError>
    ensures ranges { IfOk result (λ rs. rs.items ≡ ranges_in rules source.now) }
    ensures exact { IfOk result
        (λ rs. (ps : List Piece) → IsPieces source.now ps
        → rs.items ≡ ranges_by rules source.now ps) }
    ensures memory { IfErr result (λ e. e ≡ ScanError.OutOfMemory) }
{
    match ranges_in(alloc, rules, source.bytes()) {
        Ok(ranges) => Ok(ranges),
        Err(_) => Err(ScanError::OutOfMemory),
    }
}

/// The tokens of the code of a text, by place: those of all lines that are no directives, each with
/// what it is for the rules. They lie in the text (`within`). Refused memory is the only error. One
/// pass, and time in proportion to the text.
pub fn code_tokens(alloc: Global, source: &Source) -> Result<Vec<WideToken>, ScanError>
    ensures tokens { IfOk result (λ ts. ts.items ≡ code_of source.now) }
    ensures exact { IfOk result
        (λ ts. (ps : List Piece) → IsPieces source.now ps → ts.items ≡ code_by source.now ps) }
    ensures within { IfOk result (λ ts. AllByRecursion (IsTokenOf source.now) ts.items) }
    ensures few { IfOk result (λ ts. length ts.items < 2 ^ 32) }
    ensures memory { IfErr result (λ e. e ≡ ScanError.OutOfMemory) }
{
    match code::code_in(alloc, source.bytes()) {
        Ok(tokens) => Ok(tokens),
        Err(_) => Err(ScanError::OutOfMemory),
    }
}

/// The tokens of a logical line from a place on, which are those of the first line of the bytes from
/// there on: their places count from it. They lie in these bytes (`within`). Refused memory is the
/// only error. Time in proportion to the line.
pub fn line_tokens(alloc: Global, source: &Source, place: u32) -> Result<Vec<Token>, ScanError>
    ensures tokens { IfOk result (λ ts. ts.items ≡ first_line (drop place source.now)) }
    ensures within { IfOk result
        (λ ts. AllByRecursion (IsSpanOf (drop place source.now)) ts.items) }
    ensures few { IfOk result (λ ts. length ts.items < 2 ^ 32) }
    ensures memory { IfErr result (λ e. e ≡ ScanError.OutOfMemory) }
{
    let text = source.bytes();
    match code::first_line(alloc, &text[text.len().min(place as usize)..]) {
        Ok(tokens) => Ok(tokens),
        Err(_) => Err(ScanError::OutOfMemory),
    }
}
