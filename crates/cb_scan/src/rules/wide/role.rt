//! What a token is for the rules of the wide profile.
ghost use Rattle.std.specs.Prelude.{◌≡◌, ◌≤◌, length};
ghost use Rattle.cb_scan.specs.declared.lex.token.Role.TheVariants.{Other};
ghost use Rattle.cb_scan.specs.rules.wide.Words.{attribute_words, is_among, is_attribute_word};
ghost use Rattle.cb_scan.specs.rules.wide.Words.{is_keyword, is_literal, is_sign, is_specifier};
ghost use Rattle.cb_scan.specs.rules.wide.Words.{is_statement_word, is_text, is_underscored};
ghost use Rattle.cb_scan.specs.rules.wide.Words.{is_wide_name, is_wide_word, name_role};
ghost use Rattle.cb_scan.specs.rules.wide.Words.{reserved_role, role_from, specifier_words};
ghost use Rattle.cb_scan.specs.rules.wide.Words.{statement_words, wide_role, word_role};

use crate::lex::name::is_among;
use crate::lex::token::{Role, Token, WordKind};

/// What a token is for the rules of the wide profile.
#[derive(Clone, Copy)]
pub enum WideRole {
    /// A name that does not begin with two underscores.
    Name,
    /// A name that begins with two underscores.
    Underscored,
    Struct,
    Union,
    Enum,
    Typedef,
    Extern,
    Static,
    /// Any other specifier, as `const`.
    Specifier,
    /// A word that begins an attribute, as `__attribute__`.
    Attribute,
    /// A word of a statement, as `if`.
    Statement,
    /// Any other reserved word, as `int`.
    Reserved,
    Str,
    Number,
    /// A character constant.
    Character,
    /// A lone byte.
    Mark(u8),
}

const SPECIFIERS: [&[u8]; 9] = [
    b"auto",
    b"const",
    b"inline",
    b"register",
    b"restrict",
    b"volatile",
    b"_Noreturn",
    b"_Thread_local",
    b"__extension__",
];

const STATEMENTS: [&[u8]; 13] = [
    b"break",
    b"case",
    b"continue",
    b"default",
    b"do",
    b"else",
    b"for",
    b"goto",
    b"if",
    b"return",
    b"sizeof",
    b"switch",
    b"while",
];

const ATTRIBUTES: [&[u8]; 3] = [b"__attribute__", b"__declspec", b"_Alignas"];

#[tactic(auto, unfolding(crate::specs::rules::wide::Words::specifier_words))]
fn is_specifier_word(word: &[u8]) -> bool
    ensures { result ≡ is_among specifier_words word.now }
{
    is_among(&SPECIFIERS, word)
}

#[tactic(auto, unfolding(crate::specs::rules::wide::Words::statement_words))]
fn is_statement_word(word: &[u8]) -> bool
    ensures { result ≡ is_among statement_words word.now }
{
    is_among(&STATEMENTS, word)
}

#[tactic(auto, unfolding(crate::specs::rules::wide::Words::attribute_words))]
pub(crate) fn is_attribute_word(word: &[u8]) -> bool
    ensures { result ≡ is_among attribute_words word.now }
{
    word.len() >= 8 && is_among(&ATTRIBUTES, word)
}

/// What a reserved word is for which the standard profile has no rule.
#[tactic(auto, unfolding(crate::specs::rules::wide::Words::reserved_role))]
fn reserved_role(word: &[u8]) -> WideRole
    ensures { result ≡ reserved_role word.now }
{
    if is_attribute_word(word) {
        WideRole::Attribute
    } else if is_specifier_word(word) {
        WideRole::Specifier
    } else if is_statement_word(word) {
        WideRole::Statement
    } else {
        WideRole::Reserved
    }
}

/// A name, by whether it begins with two underscores.
#[inline(always)]
fn name_role(name: &[u8]) -> WideRole
    ensures { result ≡ name_role name.now }
{
    match name {
        [b'_', b'_', ..] => WideRole::Underscored,
        _ => WideRole::Name,
    }
}

#[inline(always)]
fn word_role(kind: WordKind, word: &[u8]) -> WideRole
    ensures { result ≡ word_role kind word.now }
{
    match kind {
        WordKind::Name | WordKind::Define | WordKind::Include => name_role(word),
        WordKind::Typedef => WideRole::Typedef,
        WordKind::Extern => WideRole::Extern,
        WordKind::Static => WideRole::Static,
        WordKind::Struct => WideRole::Struct,
        WordKind::Union => WideRole::Union,
        WordKind::Enum => WideRole::Enum,
        WordKind::Reserved => reserved_role(word),
    }
}

/// What is neither word, mark nor string: a number, or a character constant, which begins with an
/// apostrophe.
#[inline(always)]
#[tactic(auto, unfolding(crate::specs::lex::Lexeme::first_is))]
fn other_role(bytes: &[u8]) -> WideRole
    ensures { result ≡ role_from Other bytes.now }
{
    match bytes {
        [b'\'', ..] => WideRole::Character,
        _ => WideRole::Number,
    }
}

/// What a token of a text is.
#[inline(always)]
pub(crate) fn wide_role(text: &[u8], token: &Token) -> WideRole
    requires order { token.now.span.start ≤ token.now.span.end }
    requires end { token.now.span.end ≤ length text.now }
    ensures { result ≡ wide_role text.now token.now }
{
    let bytes = &text[token.span.start as usize..token.span.end as usize];
    match token.role {
        Role::Word(kind) => word_role(kind, bytes),
        Role::Mark(byte) => WideRole::Mark(byte),
        Role::Str => WideRole::Str,
        Role::Other => other_role(bytes),
    }
}

impl WideRole {
    /// The lone byte.
    pub fn is_sign(self, byte: u8) -> bool
        ensures { result ≡ is_sign byte self }
    {
        match self {
            WideRole::Mark(mark) => mark == byte,
            _ => false,
        }
    }

    /// A name, which is not reserved.
    pub fn is_name(self) -> bool
        ensures { result ≡ is_wide_name self }
    {
        matches!(self, WideRole::Name | WideRole::Underscored)
    }

    /// A word, reserved or not.
    pub fn is_word(self) -> bool
        ensures { result ≡ is_wide_word self }
    {
        !matches!(
            self,
            WideRole::Str | WideRole::Number | WideRole::Character | WideRole::Mark(_)
        )
    }

    /// A number or a string.
    pub fn is_literal(self) -> bool
        ensures { result ≡ is_literal self }
    {
        matches!(self, WideRole::Number | WideRole::Str)
    }

    /// A word that begins an attribute whatever follows its `(`.
    pub fn begins_attribute(self) -> bool
        ensures { result ≡ is_attribute_word self }
    {
        matches!(self, WideRole::Attribute)
    }

    /// `struct`, `union` or `enum`.
    pub fn is_keyword(self) -> bool
        ensures { result ≡ is_keyword self }
    {
        matches!(self, WideRole::Struct | WideRole::Union | WideRole::Enum)
    }

    /// A name that begins with two underscores.
    pub fn is_underscored(self) -> bool
        ensures { result ≡ is_underscored self }
    {
        matches!(self, WideRole::Underscored)
    }

    /// A string.
    pub fn is_text(self) -> bool
        ensures { result ≡ is_text self }
    {
        matches!(self, WideRole::Str)
    }

    /// A word of a statement.
    pub fn is_statement_word(self) -> bool
        ensures { result ≡ is_statement_word self }
    {
        matches!(self, WideRole::Statement)
    }

    /// A specifier, which says nothing of the type.
    pub fn is_specifier(self) -> bool
        ensures { result ≡ is_specifier self }
    {
        matches!(
            self,
            WideRole::Specifier | WideRole::Typedef | WideRole::Extern | WideRole::Static
        )
    }
}
