//! Bytes of a source.
ghost use Rattle.std.specs.Prelude.{◌≡◌};
ghost use Rattle.cb_scan.specs.lex.Tokens.{bytes_of};

use cb_scan::{Source, Span};

/// The bytes of a span.
pub(crate) fn bytes_of(source: &Source, span: Span) -> &[u8]
    ensures { result.now ≡ bytes_of source.now span }
{
    let text = source.bytes();
    let (start, end) = (span.start as usize, span.end as usize);
    let rest = text.split_at(start.min(text.len())).1;
    rest.split_at(end.saturating_sub(start).min(rest.len())).0
}
