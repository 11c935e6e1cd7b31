//! What a word is for the rules on names.
ghost use Rattle.std.specs.Prelude.{◌≡◌, ◌<◌, length};
ghost use Rattle.std.specs.List.{list_any};
ghost use Rattle.std.specs.Str.{bytes_eq};
ghost use Rattle.cb_scan.specs.CodeTokens.{IsTokenOf};
ghost use Rattle.cb_names.specs.Pairs.{at};
ghost use Rattle.cb_names.specs.Words.{control_words, hard_words, is_among, item_of, type_words};
ghost use Rattle.cb_names.specs.Words.{typeof_words, word_of};

use cb_scan::WideToken;

/// What a word is. `struct`, `union`, `enum` and the specifiers are told by their roles.
#[derive(Clone, Copy, Debug, PartialEq, Eq)]
pub(crate) enum Word {
    /// A word of a type, as `int`.
    Type,
    /// `typeof`, in any of its spellings.
    Typeof,
    /// A word that begins an attribute wherever it stands, as `__attribute__`.
    Hard,
    For,
    Case,
    Default,
    Goto,
    Else,
    /// `if`, `while` or `switch`.
    Control,
    Other,
}

/// A token of the code, and what its word is.
#[derive(Clone, Copy)]
pub(crate) struct Item {
    pub token: WideToken,
    pub word: Word,
}

const TYPES: [&[u8]; 18] = [
    b"int",
    b"char",
    b"void",
    b"long",
    b"short",
    b"float",
    b"_Bool",
    b"double",
    b"signed",
    b"unsigned",
    b"_Complex",
    b"_Atomic",
    b"__int128",
    b"__const",
    b"__volatile__",
    b"__inline",
    b"__inline__",
    b"__thread",
];

const TYPEOF: [&[u8]; 3] = [b"typeof", b"__typeof__", b"__typeof"];

const HARD: [&[u8]; 7] = [
    b"__attribute__",
    b"__attribute",
    b"__declspec",
    b"_Alignas",
    b"__asm__",
    b"__asm",
    b"asm",
];

const CONTROL: [&[u8]; 3] = [b"if", b"while", b"switch"];

fn is_among(words: &[&[u8]], word: &[u8]) -> bool
    ensures { result ≡ list_any (λ w. bytes_eq w.now word.now) words.now }
{
    words.iter().any(|w| *w == word)
}

#[tactic(auto, unfolding(crate::specs::Words::type_words))]
fn is_type_word(word: &[u8]) -> bool
    ensures { result ≡ is_among type_words word.now }
{
    is_among(&TYPES, word)
}

#[tactic(auto, unfolding(crate::specs::Words::typeof_words))]
fn is_typeof_word(word: &[u8]) -> bool
    ensures { result ≡ is_among typeof_words word.now }
{
    is_among(&TYPEOF, word)
}

#[tactic(auto, unfolding(crate::specs::Words::hard_words))]
fn is_hard_word(word: &[u8]) -> bool
    ensures { result ≡ is_among hard_words word.now }
{
    is_among(&HARD, word)
}

#[tactic(auto, unfolding(crate::specs::Words::control_words))]
fn is_control_word(word: &[u8]) -> bool
    ensures { result ≡ is_among control_words word.now }
{
    is_among(&CONTROL, word)
}

/// What a word is.
#[tactic(auto, unfolding(crate::specs::Words::word_of))]
fn word_of(word: &[u8]) -> Word
    ensures { result ≡ word_of word.now }
{
    if is_type_word(word) {
        Word::Type
    } else if is_typeof_word(word) {
        Word::Typeof
    } else if is_hard_word(word) {
        Word::Hard
    } else if is_control_word(word) {
        Word::Control
    } else if word == b"for".as_slice() {
        Word::For
    } else if word == b"case".as_slice() {
        Word::Case
    } else if word == b"default".as_slice() {
        Word::Default
    } else if word == b"goto".as_slice() {
        Word::Goto
    } else if word == b"else".as_slice() {
        Word::Else
    } else {
        Word::Other
    }
}

/// A token of a text, and what its word is.
pub(crate) fn item_of(text: &[u8], token: &WideToken) -> Item
    requires { IsTokenOf text.now token.now }
    ensures { result ≡ item_of text.now token.now }
{
    let span = token.token.span;
    Item {
        token: *token,
        word: word_of(&text[span.start as usize..span.end as usize]),
    }
}

/// The token at an index.
pub(crate) fn item_at(items: &[Item], index: u32) -> Item
    requires { index < length items.now }
    ensures { result ≡ at items.now index }
{
    items[index as usize]
}
