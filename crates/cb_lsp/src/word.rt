//! The word at a place of a text.
ghost use Rattle.std.specs.Prelude.{◌≡◌, ◌≤◌, length};
ghost use Rattle.std.specs.List.{prefix_len, suffix_len};
ghost use Rattle.cb_scan.specs.lex.Lexeme.{is_word};
ghost use Rattle.cb_lsp.specs.Completions.{word_before, word_start};
ghost use Rattle.cb_lsp.specs.Words.{word_at};

use cb_scan::{Source, Span, is_name};

/// Whether a byte is a letter, a digit or `_`.
fn is_word(byte: u8) -> bool
    ensures { result ≡ is_word byte }
{
    byte.is_ascii_alphanumeric() || byte == b'_'
}

/// How many such bytes a text begins with.
fn first_word(text: &[u8]) -> usize
    ensures value { result ≡ prefix_len is_word text.now }
    ensures within { result ≤ length text.now }
{
    text.iter().take_while(|byte| is_word(**byte)).count()
}

/// How many such bytes a text ends with.
fn last_word(text: &[u8]) -> usize
    ensures value { result ≡ suffix_len is_word text.now }
    ensures within { result ≤ length text.now }
{
    let mut end = text.len();
    'bytes: while end > 0 && is_word(text[end - 1]) {
        end -= 1;
    }
    text.len() - end
}

/// The word at a place: the longest run of letters, digits and `_` that holds the place or ends at
/// it, if it is a name.
pub(crate) fn word_at(source: &Source, place: usize) -> Option<Span>
    requires { place ≤ length source.now }
    ensures { result ≡ word_at source.now place }
{
    let text = source.bytes();
    let (before, after) = text.split_at(place);
    let start = place - last_word(before);
    let end = place + first_word(after);
    if is_name(&text[start..end]) {
        Some(Span {
            start: start as u32,
            end: end as u32,
        })
    } else {
        None
    }
}

/// Where the word before a place begins.
pub(crate) fn word_start(source: &Source, place: usize) -> u32
    requires { place ≤ length source.now }
    ensures value { result ≡ word_start source.now place }
    ensures within { result ≤ place }
{
    (place - last_word(source.bytes().split_at(place).0)) as u32
}

/// The word before a place: the longest run of letters, digits and `_` that ends at it.
pub(crate) fn word_before(source: &Source, place: usize) -> &[u8]
    requires { place ≤ length source.now }
    ensures { result.now ≡ word_before source.now place }
{
    let before = source.bytes().split_at(place).0;
    before.split_at(word_start(source, place) as usize).1
}
