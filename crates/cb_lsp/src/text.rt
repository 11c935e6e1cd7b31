//! A text in another.
ghost use Rattle.std.specs.Prelude.{◌≡◌, ◌==◌, length};
ghost use Rattle.std.specs.Char.{to_ascii_lowercase};
ghost use Rattle.std.specs.Str.{str_eq_ignore_ascii_case};
ghost use Rattle.cb_lsp.specs.Likes.{begins_like, holds_like};

/// Whether two bytes are the same, without regard to the case of ASCII letters.
fn is_alike(one: u8, other: u8) -> bool
    ensures { result ≡ (to_ascii_lowercase one == to_ascii_lowercase other) }
{
    one.to_ascii_lowercase() == other.to_ascii_lowercase()
}

/// Whether two texts of one length are the same, without regard to the case of ASCII letters. All
/// bytes are compared, many at once.
fn all_alike(part: &[u8], text: &[u8]) -> bool
    requires { length part.now ≡ length text.now }
    ensures { result ≡ str_eq_ignore_ascii_case text.now part.now }
{
    let mut alike = true;
    'bytes: for i in 0..part.len() {
        alike = alike & is_alike(text[i], part[i]);
    }
    alike
}

/// The same. Most differ in their first byte, and that is seen at once.
fn are_alike(part: &[u8], text: &[u8]) -> bool
    requires { length part.now ≡ length text.now }
    ensures { result ≡ str_eq_ignore_ascii_case text.now part.now }
{
    match (part, text) {
        ([sought, part @ ..], [here, text @ ..]) => {
            is_alike(*here, *sought) && all_alike(part, text)
        }
        _ => true,
    }
}

/// Whether a text begins with another, without regard to the case of ASCII letters.
fn begins_like(part: &[u8], text: &[u8]) -> bool
    ensures { result ≡ begins_like part.now text.now }
{
    part.len() <= text.len() && are_alike(part, text.split_at(part.len()).0)
}

/// Whether a text holds another, without regard to the case of ASCII letters.
pub(crate) fn holds_like(part: &[u8], text: &[u8]) -> bool
    ensures { result ≡ holds_like part.now text.now }
{
    let mut rest = text;
    'places: while !begins_like(part, rest) {
        match rest {
            [_, more @ ..] => rest = more,
            [] => return false,
        }
    }
    true
}
