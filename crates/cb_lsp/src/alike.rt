//! Texts of files in which all editors count the same columns.
ghost use Rattle.std.specs.Prelude.{◌≡◌};
ghost use Rattle.std.specs.Str.{is_utf8};
ghost use Rattle.cb_lsp.specs.Alike.{begins_with_feed, has_lone_return, has_mark, is_counted_alike};

/// Whether a text is UTF-8.
fn is_utf8(text: &[u8]) -> bool
    ensures { result ≡ is_utf8 text.now }
{
    match str::from_utf8(text) {
        Ok(_) => true,
        Err(_) => false,
    }
}

/// Whether a byte order mark stands at the front of a text.
fn has_mark(text: &[u8]) -> bool
    ensures { result ≡ has_mark text.now }
{
    text.starts_with(b"\xEF\xBB\xBF")
}

/// Whether a text begins with a line feed.
fn begins_with_feed(text: &[u8]) -> bool
    ensures { result ≡ begins_with_feed text.now }
{
    matches!(text, [b'\n', ..])
}

/// Whether a text has a carriage return without a line feed after it.
fn has_lone_return(text: &[u8]) -> bool
    ensures { result ≡ has_lone_return text.now }
{
    let mut rest = text;
    'bytes: while let Some((byte, more)) = rest.split_first() {
        if *byte == b'\r' && !begins_with_feed(more) {
            return true;
        }
        rest = more;
    }
    false
}

/// Whether all editors count the same columns in a text: it is UTF-8, with no byte order mark and no
/// carriage return alone.
pub(crate) fn is_counted_alike(text: &[u8]) -> bool
    ensures { result ≡ is_counted_alike text.now }
{
    is_utf8(text) && !(has_mark(text) || has_lone_return(text))
}
