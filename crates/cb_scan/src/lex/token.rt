//! Tokens: the pieces that the rules on definitions speak of, each with what it is for them.
ghost use Rattle.std.specs.Prelude.{◌≡◌, ◌≤◌, ◌<◌, length};
ghost use Rattle.cb_scan.specs.lex.Tokens.{is_any_word, is_mark, is_name_token, is_static};
ghost use Rattle.cb_scan.specs.lex.Tokens.{is_typedef, name_kind, role_of, starts_line, word_of};
ghost use Rattle.cb_scan.specs.steps.Lined.{Within};
ghost use Rattle.cb_scan.specs.steps.Directives.{lined_token};
ghost use Rattle.cb_scan.specs.steps.Words.{may_begin, may_mean};

use crate::lex::lined::Lined;
use crate::lex::name::{is_reserved, is_same};
use crate::lex::piece::{Class, Piece, Span};

/// A `Name` piece: a name, two of which mean something as the own word of a directive; or a
/// reserved word, six of which a rule asks for.
#[derive(Clone, Copy, Debug, PartialEq, Eq)]
pub enum WordKind {
    Name,
    Define,
    Include,
    Typedef,
    Extern,
    Static,
    Struct,
    Union,
    Enum,
    Reserved,
}

/// What a token is for the rules: a word, a lone byte, a string, or anything else.
#[derive(Clone, Copy, Debug, PartialEq, Eq)]
pub enum Role {
    Word(WordKind),
    Mark(u8),
    Str,
    Other,
}

/// A token: what it is, whether its line begins with it, its bytes, and its line. In this order it
/// takes 16 bytes.
#[derive(Clone, Copy, Debug, PartialEq, Eq)]
pub struct Token {
    pub role: Role,
    pub starts_line: bool,
    pub span: Span,
    pub line: u32,
}

fn name_kind(name: &[u8]) -> WordKind
    ensures { result ≡ name_kind name.now }
{
    if is_same(name, b"define") {
        WordKind::Define
    } else if is_same(name, b"include") {
        WordKind::Include
    } else {
        WordKind::Name
    }
}

/// For `_`, the byte after it and each small letter: the lengths of the words that begin with it
/// and are reserved, `define` or `include`, a bit for each.
const LENGTHS: [u16; 28] = [
    0x67a0, 0x0000, 0x0018, 0x0020, 0x0130, 0x00c4, 0x0050, 0x0028, 0x0010, 0x0000, 0x00cc, 0x0000,
    0x0000, 0x0010, 0x0000, 0x0000, 0x0000, 0x0000, 0x0000, 0x0140, 0x0060, 0x0080, 0x0120, 0x0110,
    0x0020, 0x0000, 0x0000, 0x0000,
];

/// Whether a word with this first byte and of this length may be reserved, `define` or `include`.
fn may_begin(first: u8, len: usize) -> bool
    ensures { result ≡ may_begin first len }
{
    match first {
        b'_'..=b'z' if len < 16 => (LENGTHS[(first - b'_') as usize] >> len) & 1 == 1,
        _ => false,
    }
}

/// Whether a word may be reserved, `define` or `include`: most names are seen to be none.
#[tactic(auto, unfolding(crate::specs::steps::Words::may_mean))]
fn may_mean(word: &[u8]) -> bool
    ensures { result ≡ may_mean word.now }
{
    match word {
        [first, ..] => may_begin(*first, word.len()),
        [] => false,
    }
}

#[inline(always)]
#[tactic(auto, unfolding(crate::specs::lex::Tokens::word_of))]
fn word_of(word: &[u8]) -> WordKind
    ensures { result ≡ word_of word.now }
{
    if !may_mean(word) {
        return WordKind::Name;
    }
    if !is_reserved(word) {
        name_kind(word)
    } else if is_same(word, b"typedef") {
        WordKind::Typedef
    } else if is_same(word, b"extern") {
        WordKind::Extern
    } else if is_same(word, b"static") {
        WordKind::Static
    } else if is_same(word, b"struct") {
        WordKind::Struct
    } else if is_same(word, b"union") {
        WordKind::Union
    } else if is_same(word, b"enum") {
        WordKind::Enum
    } else {
        WordKind::Reserved
    }
}

#[inline(always)]
fn role_of(text: &[u8], piece: &Piece) -> Role
    requires start { piece.now.span.start < length text.now }
    requires order { piece.now.span.start ≤ piece.now.span.end }
    requires end { piece.now.span.end ≤ length text.now }
    ensures { result ≡ role_of text.now piece.now }
{
    let start = piece.span.start as usize;
    if piece.class == Class::Name {
        Role::Word(word_of(&text[start..piece.span.end as usize]))
    } else if piece.class == Class::Byte {
        Role::Mark(text[start])
    } else if piece.class == Class::Str {
        Role::Str
    } else {
        Role::Other
    }
}

#[inline(always)]
fn starts_line(text: &[u8], place: u32) -> bool
    requires { place ≤ length text.now }
    ensures { result ≡ starts_line text.now place }
{
    place == 0 || text[place as usize - 1] == b'\n'
}

/// The token of a piece. Spans are written number by number here: a copy of both at once would wait
/// until each, which was written just before, has reached the cache.
#[inline(always)]
pub(crate) fn token_of(text: &[u8], lined: &Lined) -> Token
    requires { Within text.now lined.now }
    ensures { result ≡ lined_token text.now lined.now }
{
    Token {
        role: role_of(text, &lined.piece),
        starts_line: starts_line(text, lined.piece.span.start),
        span: Span {
            start: lined.piece.span.start,
            end: lined.piece.span.end,
        },
        line: lined.line,
    }
}

impl Token {
    /// The same token, number by number, for the reason that [`token_of`] has.
    #[inline(always)]
    pub(crate) fn copied(&self) -> Token
        ensures { result ≡ self.now }
    {
        Token {
            role: self.role,
            starts_line: self.starts_line,
            span: Span {
                start: self.span.start,
                end: self.span.end,
            },
            line: self.line,
        }
    }

    /// A name that is not reserved.
    pub fn is_name(self) -> bool
        ensures { result ≡ is_name_token self.role }
    {
        matches!(
            self.role,
            Role::Word(WordKind::Name | WordKind::Define | WordKind::Include)
        )
    }

    /// A word, reserved or not.
    pub(crate) fn is_word(self) -> bool
        ensures { result ≡ is_any_word self.role }
    {
        matches!(self.role, Role::Word(_))
    }

    pub(crate) fn is_typedef(self) -> bool
        ensures { result ≡ is_typedef self.role }
    {
        matches!(self.role, Role::Word(WordKind::Typedef))
    }

    pub(crate) fn is_static(self) -> bool
        ensures { result ≡ is_static self.role }
    {
        matches!(self.role, Role::Word(WordKind::Static))
    }

    /// The lone byte.
    pub fn is_mark(self, byte: u8) -> bool
        ensures { result ≡ is_mark byte self.role }
    {
        match self.role {
            Role::Mark(mark) => mark == byte,
            _ => false,
        }
    }
}
