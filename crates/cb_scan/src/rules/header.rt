//! The header that an include names.
ghost use Rattle.std.specs.Prelude.{◌≡◌, ◌≤◌, ◌+◌, ◌<◌, [], length};
ghost use Rattle.cb_scan.specs.declared.source.TheConstants.{MOST_BYTES};
ghost use Rattle.std.specs.Option.{option_to_list};
ghost use Rattle.cb_scan.specs.rules.Uses.{header_between, header_of};
ghost use Rattle.cb_scan.specs.steps.Quote.{closes_from, is_closed};
ghost use Rattle.cb_scan.specs.declared.lex.lexeme.Escape.TheVariants.{Plain};

use crate::facts::Include;
use crate::lex::lexeme::{Escape, ends_literal, literal_escape};
use crate::lex::piece::Span;
use crate::lex::token::{Role, Token};

/// Whether the bytes after the first quote of a string end with the quote that closes it.
fn closes(bytes: &[u8]) -> bool
    ensures { result ≡ closes_from Plain bytes.now }
{
    let mut escape = Escape::Plain;
    for (i, byte) in bytes.iter().enumerate() {
        if ends_literal(b'"', escape, *byte) {
            return *byte == b'"' && i + 1 == bytes.len();
        }
        escape = literal_escape(escape, *byte);
    }
    false
}

/// Whether the bytes are a closed string.
#[tactic(auto, unfolding(crate::specs::steps::Quote::is_closed))]
fn is_closed(bytes: &[u8]) -> bool
    ensures { result ≡ is_closed bytes.now }
{
    match bytes {
        [b'"', rest @ ..] => closes(rest),
        _ => false,
    }
}

/// The header between two places, if it is not empty; its scope is still to be found.
fn header_between(start: u32, end: u32, line: u32) -> Option<Include>
    ensures { option_to_list result ≡ header_between start end line }
{
    if start < end {
        Some(Include {
            header: Span { start, end },
            line,
            scope: None,
        })
    } else {
        None
    }
}

/// The header that a closed string is.
pub(crate) fn string_header(text: &[u8], token: Token) -> Option<Include>
    requires some { token.span.start < token.span.end }
    requires within { token.span.end ≤ length text.now }
    requires small { length text.now ≤ MOST_BYTES }
    requires string { token.role ≡ Role.Str }
    ensures { option_to_list result ≡ header_of text.now token [] }
{
    let start = token.span.start + 1;
    if is_closed(&text[token.span.start as usize..token.span.end as usize]) {
        header_between(start, token.span.end - 1, token.line)
    } else {
        None
    }
}

/// The header between `<` and `>`.
pub(crate) fn angle_header(angle: Token, close: Token) -> Option<Include>
    ensures { option_to_list result ≡ header_between angle.span.end close.span.start angle.line }
{
    header_between(angle.span.end, close.span.start, angle.line)
}
