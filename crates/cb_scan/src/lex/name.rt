//! Identifiers and reserved words.
ghost use Rattle.std.specs.Prelude.{◌≡◌};
ghost use Rattle.std.specs.List.{list_all, list_any};
ghost use Rattle.std.specs.Str.{bytes_eq};
ghost use Rattle.cb_scan.specs.lex.Lexeme.{is_identifier, is_word};
ghost use Rattle.cb_scan.specs.lex.Reserved.{is_name, is_reserved};

use crate::lex::lexeme::{is_letter, is_word};

// The words of each length, those that stand most often in real code first.

const TWO: [&[u8]; 2] = [b"if", b"do"];

const THREE: [&[u8]; 3] = [b"int", b"for", b"asm"];

const FOUR: [&[u8]; 8] = [
    b"char", b"void", b"else", b"case", b"long", b"enum", b"goto", b"auto",
];

const FIVE: [&[u8]; 7] = [
    b"const", b"break", b"while", b"short", b"float", b"union", b"_Bool",
];

const SIX: [&[u8]; 9] = [
    b"struct", b"return", b"static", b"sizeof", b"extern", b"switch", b"double", b"signed",
    b"inline",
];

const SEVEN: [&[u8]; 5] = [b"defined", b"default", b"typedef", b"_Atomic", b"__asm__"];

const EIGHT: [&[u8]; 9] = [
    b"unsigned",
    b"continue",
    b"volatile",
    b"register",
    b"restrict",
    b"_Alignas",
    b"_Alignof",
    b"_Complex",
    b"_Generic",
];

const LONGER: [&[u8]; 7] = [
    b"__attribute__",
    b"__extension__",
    b"__declspec",
    b"_Noreturn",
    b"_Imaginary",
    b"_Thread_local",
    b"_Static_assert",
];

/// Whether two words are the same, byte by byte: the words are short, and most differ in their
/// lengths or first bytes.
#[inline]
pub(crate) fn is_same(word: &[u8], other: &[u8]) -> bool
    ensures { result ≡ bytes_eq word.now other.now }
{
    if word.len() != other.len() {
        return false;
    }
    for (i, byte) in word.iter().enumerate() {
        if *byte != other[i] {
            return false;
        }
    }
    true
}

pub(crate) fn is_among(words: &[&[u8]], word: &[u8]) -> bool
    ensures { result ≡ list_any (λ w. bytes_eq w.now word.now) words.now }
{
    words.iter().any(|w| is_same(w, word))
}

/// Whether the word is reserved. The words of one length are few, so few bytes are compared.
pub(crate) fn is_reserved(word: &[u8]) -> bool
    ensures { result ≡ is_reserved word.now }
{
    match word.len() {
        0 => false,
        1 => false,
        2 => is_among(&TWO, word),
        3 => is_among(&THREE, word),
        4 => is_among(&FOUR, word),
        5 => is_among(&FIVE, word),
        6 => is_among(&SIX, word),
        7 => is_among(&SEVEN, word),
        8 => is_among(&EIGHT, word),
        _ => is_among(&LONGER, word),
    }
}

fn is_identifier(bytes: &[u8]) -> bool
    ensures { result ≡ is_identifier bytes.now }
{
    match bytes {
        [first, others @ ..] => is_letter(*first) && all_word_bytes(others),
        [] => false,
    }
}

fn all_word_bytes(bytes: &[u8]) -> bool
    ensures { result ≡ list_all is_word bytes.now }
{
    bytes.iter().all(|byte| is_word(*byte))
}

/// Whether the bytes are an identifier that is not reserved (ISO C 2011, 6.4.2.1 and 6.4.1; six
/// words more are reserved).
pub fn is_name(bytes: &[u8]) -> bool
    ensures { result ≡ is_name bytes.now }
{
    is_identifier(bytes) && !is_reserved(bytes)
}
