//! The tokens of the code of a text: one pass over its pieces.
ghost use Rattle.std.specs.Prelude.{◌≡◌, ◌≤◌, length, IfOk};
ghost use Rattle.std.specs.List.{AllByRecursion};
ghost use Rattle.cb_scan.specs.CodeTokens.{IsSpanOf, IsTokenOf, code_of, first_line};
ghost use Rattle.cb_scan.specs.declared.source.TheConstants.{MOST_BYTES};

use crate::lex::lined::lined_pieces;
use crate::lex::token::{Token, token_of};
use crate::rules::directives::Stage;
use crate::rules::functions::{Before, before_after};
use crate::rules::wide::role::wide_role;
use crate::rules::wide::token::{WideToken, token_as};
use crate::scanner::{is_newline, is_significant};
use std::alloc::{AllocError, Global};

/// The tokens of the code, by place.
pub(crate) fn code_in(alloc: Global, text: &[u8]) -> Result<Vec<WideToken>, AllocError>
    requires { length text.now ≤ MOST_BYTES }
    ensures value { IfOk result (λ ts. ts.items ≡ code_of text.now) }
    ensures within { IfOk result (λ ts. AllByRecursion (IsTokenOf text.now) ts.items) }
    ensures few { IfOk result (λ ts. length ts.items ≤ MOST_BYTES) }
{
    let mut tokens = Vec::new(alloc);
    let mut before = Before::Anything;
    let mut line = Stage::Start;
    for lined in lined_pieces(text) {
        if is_significant(lined.piece.class) {
            let token = token_of(text, &lined);
            line.next(&token);
            if line.is_code() {
                tokens.push(token_as(wide_role(text, &token), before, &token))?;
                before = before_after(before, &token);
            }
        } else if is_newline(lined.piece.class) {
            line = Stage::Start;
        }
    }
    Ok(tokens)
}

/// The tokens of the first logical line of a text.
pub(crate) fn first_line(alloc: Global, text: &[u8]) -> Result<Vec<Token>, AllocError>
    requires { length text.now ≤ MOST_BYTES }
    ensures value { IfOk result (λ ts. ts.items ≡ first_line text.now) }
    ensures within { IfOk result (λ ts. AllByRecursion (IsSpanOf text.now) ts.items) }
    ensures few { IfOk result (λ ts. length ts.items ≤ MOST_BYTES) }
{
    let mut tokens = Vec::new(alloc);
    for lined in lined_pieces(text) {
        if is_newline(lined.piece.class) {
            return Ok(tokens);
        }
        if is_significant(lined.piece.class) {
            tokens.push(token_of(text, &lined))?;
        }
    }
    Ok(tokens)
}
