//! Where a lexeme ends. The first byte decides its class, and each byte is looked at once.
ghost use Rattle.std.specs.Prelude.{◌≡◌, ◌<◌, ◌≤◌, false, ◌==◌, length};
ghost use Rattle.std.specs.List.{prefix_len};
ghost use Rattle.cb_scan.specs.lex.Lexeme.{is_digit, is_letter, is_word, goes_on, first_is};
ghost use Rattle.cb_scan.specs.steps.Lanes.{ends_blank};
ghost use Rattle.cb_scan.specs.steps.Cut.{begins, ends_join, is_alone, class_at, first_code};
ghost use Rattle.cb_scan.specs.steps.Cut.{number_len, blank_len, comment_escape, ends_comment};
ghost use Rattle.cb_scan.specs.steps.Cut.{comment_len, literal_escape, ends_literal, literal_len};
ghost use Rattle.cb_scan.specs.steps.Cut.{block_len, length_in};

use crate::lex::lanes::{LANES, space_run, word_run};
use crate::lex::piece::Class;
use memchr::memmem;

/// What is directly before a byte of a comment or literal: nothing special, a `\`, or a `\` and a
/// carriage return.
#[derive(Clone, Copy, Debug, PartialEq, Eq)]
pub(crate) enum Escape {
    Plain,
    Backslash,
    Return,
}

#[inline]
#[tactic(auto, unfolding(crate::specs::lex::Lexeme::first_is))]
fn begins(text: &[u8], byte: u8) -> bool
    ensures { result ≡ begins byte text.now }
{
    !text.is_empty() && text[0] == byte
}

#[inline]
#[tactic(auto, unfolding(crate::specs::lex::Lexeme::first_is))]
fn begins_digit(text: &[u8]) -> bool
    ensures { result ≡ first_is is_digit text.now }
{
    matches!(text, [b'0'..=b'9', ..])
}

#[inline]
#[tactic(auto, unfolding(crate::specs::lex::Lexeme::first_is, crate::specs::steps::Cut::ends_join))]
fn ends_join(text: &[u8]) -> bool
    ensures { result ≡ ends_join text.now }
{
    matches!(text, [b'\n', ..] | [b'\r', b'\n', ..])
}

/// A letter or `_`. Small letters are asked for first, since most are, and then whether the byte is
/// below all letters.
#[inline]
pub(crate) fn is_letter(byte: u8) -> bool
    ensures { result ≡ is_letter byte }
{
    if byte >= b'a' {
        byte <= b'z'
    } else if byte < b'A' {
        false
    } else {
        byte <= b'Z' || byte == b'_'
    }
}

/// A byte that is a piece of its own wherever one begins with it. Three ranges tell it of most.
#[inline]
fn is_alone(byte: u8) -> bool
    ensures { result ≡ is_alone byte }
{
    matches!(byte, b'('..=b'-' | b':'..=b'@' | b'{'..)
}

/// What the first byte of a piece says of its class: 0 a name, 1 a blank, 2 a line feed, 3 a number,
/// 4 a string, 5 a character constant, 6 a lone byte; at 7 what follows decides. Of all bytes this
/// is one look, where tests one after another are often foreseen wrongly.
const FIRST: [u8; 256] = [
    6, 6, 6, 6, 6, 6, 6, 6, 6, 1, 2, 1, 1, 1, 6, 6, 6, 6, 6, 6, 6, 6, 6, 6, 6, 6, 6, 6, 6, 6, 6, 6,
    1, 6, 4, 6, 6, 6, 6, 5, 6, 6, 6, 6, 6, 6, 7, 7, 3, 3, 3, 3, 3, 3, 3, 3, 3, 3, 6, 6, 6, 6, 6, 6,
    6, 0, 0, 0, 0, 0, 0, 0, 0, 0, 0, 0, 0, 0, 0, 0, 0, 0, 0, 0, 0, 0, 0, 0, 0, 0, 0, 6, 7, 6, 6, 0,
    6, 0, 0, 0, 0, 0, 0, 0, 0, 0, 0, 0, 0, 0, 0, 0, 0, 0, 0, 0, 0, 0, 0, 0, 0, 0, 0, 6, 6, 6, 6, 6,
    6, 6, 6, 6, 6, 6, 6, 6, 6, 6, 6, 6, 6, 6, 6, 6, 6, 6, 6, 6, 6, 6, 6, 6, 6, 6, 6, 6, 6, 6, 6, 6,
    6, 6, 6, 6, 6, 6, 6, 6, 6, 6, 6, 6, 6, 6, 6, 6, 6, 6, 6, 6, 6, 6, 6, 6, 6, 6, 6, 6, 6, 6, 6, 6,
    6, 6, 6, 6, 6, 6, 6, 6, 6, 6, 6, 6, 6, 6, 6, 6, 6, 6, 6, 6, 6, 6, 6, 6, 6, 6, 6, 6, 6, 6, 6, 6,
    6, 6, 6, 6, 6, 6, 6, 6, 6, 6, 6, 6, 6, 6, 6, 6, 6, 6, 6, 6, 6, 6, 6, 6, 6, 6, 6, 6, 6, 6, 6, 6,
];

/// What a byte says of the class of a piece that begins with it.
#[inline]
fn first_code(byte: u8) -> u8
    ensures { result ≡ first_code byte }
{
    FIRST[byte as usize]
}

/// The class of the piece that a text begins with, by its first byte and what follows.
#[tactic(auto, unfolding(crate::specs::steps::Cut::class_at))]
fn class_of(text: &[u8]) -> Class
    requires { 0 < length text.now }
    ensures { result ≡ class_at text.now }
{
    let rest = &text[1..];
    let byte = text[0];
    if is_letter(byte) {
        return Class::Name;
    }
    if byte == b' ' {
        return Class::Blank;
    }
    if is_alone(byte) {
        return Class::Byte;
    }
    match byte {
        b' ' | b'\t' | 0x0B | 0x0C | b'\r' => Class::Blank,
        b'\n' => Class::Newline,
        b'0'..=b'9' => Class::Number,
        b'"' => Class::Str,
        b'\'' => Class::Chr,
        b'.' if begins_digit(rest) => Class::Number,
        b'/' if begins(rest, b'/') => Class::LineNote,
        b'/' if begins(rest, b'*') => Class::BlockNote,
        b'\\' if ends_join(rest) => Class::Blank,
        _ => Class::Byte,
    }
}

/// The class of the piece that a text begins with.
#[inline(always)]
pub(crate) fn class_at(text: &[u8]) -> Class
    requires { 0 < length text.now }
    ensures { result ≡ class_at text.now }
{
    match first_code(text[0]) {
        0 => Class::Name,
        1 => Class::Blank,
        6 => Class::Byte,
        2 => Class::Newline,
        3 => Class::Number,
        4 => Class::Str,
        5 => Class::Chr,
        _ => class_of(text),
    }
}

/// A letter, a digit or `_`.
#[inline]
pub(crate) fn is_word(byte: u8) -> bool
    ensures { result ≡ is_word byte }
{
    matches!(byte, b'A'..=b'Z' | b'a'..=b'z' | b'_' | b'0'..=b'9')
}

/// How many letters, digits and `_` a text begins with, one byte after the other.
fn words_len(text: &[u8]) -> usize
    ensures value { result ≡ prefix_len is_word text.now }
    ensures within { result ≤ length text.now }
{
    text.iter().take_while(|byte| is_word(**byte)).count()
}

/// The same, many bytes at a time where there are as many. Few names are longer.
#[inline(always)]
fn name_len(text: &[u8]) -> usize
    ensures value { result ≡ prefix_len is_word text.now }
    ensures within { result ≤ length text.now }
{
    if text.len() < LANES {
        return words_len(text);
    }
    let run = word_run(text);
    if run < LANES {
        run
    } else {
        LANES + words_len(&text[LANES..])
    }
}

#[inline]
fn goes_on(last: u8, byte: u8) -> bool
    ensures { result ≡ goes_on last byte }
{
    match byte {
        b'.' => true,
        b'+' | b'-' => matches!(last, b'e' | b'E' | b'p' | b'P'),
        _ => is_word(byte),
    }
}

#[tactic(auto, unfolding(crate::specs::steps::Cut::number_len))]
fn number_len(text: &[u8]) -> usize
    ensures value { result ≡ number_len 46 text.now }
    ensures within { result ≤ length text.now }
{
    let mut last = b'.';
    for (i, byte) in text.iter().enumerate() {
        if !goes_on(last, *byte) {
            return i;
        }
        last = *byte;
    }
    text.len()
}

/// How many bytes of blanks and of joined lines a text begins with. Most are a lone space.
#[inline(always)]
#[tactic(auto, unfolding(crate::specs::steps::Cut::blank_len))]
fn blank_len(text: &[u8]) -> usize
    ensures value { result ≡ blank_len false text.now }
    ensures within { result ≤ length text.now }
{
    match text {
        [b' ' | b'\r', next, ..] if ends_blank(*next) => 1,
        _ if text.len() >= LANES => spaces_len(text),
        _ => blanks_len(text),
    }
}

/// No blank goes on with the byte, and no join begins with it.
#[inline]
fn ends_blank(byte: u8) -> bool
    ensures { result ≡ ends_blank byte }
{
    (byte > b' ' && byte != b'\\') || byte == b'\n'
}

/// The same, many bytes at a time: an indentation is seldom longer, and mostly made of spaces and
/// tabs.
#[inline(always)]
fn spaces_len(text: &[u8]) -> usize
    requires { LANES ≤ length text.now }
    ensures value { result ≡ blank_len false text.now }
    ensures within { result ≤ length text.now }
{
    let run = space_run(text);
    if run < LANES && ends_blank(text[run]) {
        run
    } else {
        blanks_len(text)
    }
}

/// The same, one byte after the other.
#[tactic(auto, unfolding(crate::specs::steps::Cut::blank_len))]
fn blanks_len(text: &[u8]) -> usize
    ensures value { result ≡ blank_len false text.now }
    ensures within { result ≤ length text.now }
{
    let mut joining = false;
    for (i, byte) in text.iter().enumerate() {
        match *byte {
            b' ' | b'\t' | 0x0B | 0x0C | b'\r' => {}
            b'\n' if joining => joining = false,
            b'\\' if ends_join(&text[i + 1..]) => joining = true,
            _ => return i,
        }
    }
    text.len()
}

#[inline]
#[tactic(auto, unfolding(crate::specs::steps::Cut::comment_escape))]
fn comment_escape(escape: Escape, byte: u8) -> Escape
    ensures { result ≡ comment_escape escape byte }
{
    match (escape, byte) {
        (_, b'\\') => Escape::Backslash,
        (Escape::Backslash, b'\r') => Escape::Return,
        _ => Escape::Plain,
    }
}

#[tactic(auto, unfolding(crate::specs::steps::Cut::comment_len, crate::specs::steps::Cut::ends_comment))]
fn comment_len(text: &[u8]) -> usize
    ensures value { result ≡ comment_len Escape.Plain text.now }
    ensures within { result ≤ length text.now }
{
    let mut escape = Escape::Plain;
    for (i, byte) in text.iter().enumerate() {
        if *byte == b'\n' && escape == Escape::Plain {
            return i;
        }
        escape = comment_escape(escape, *byte);
    }
    text.len()
}

#[inline]
#[tactic(auto, unfolding(crate::specs::steps::Cut::literal_escape))]
pub(crate) fn literal_escape(escape: Escape, byte: u8) -> Escape
    ensures { result ≡ literal_escape escape byte }
{
    match (escape, byte) {
        (Escape::Backslash, b'\r') => Escape::Return,
        (Escape::Backslash, _) => Escape::Plain,
        (_, b'\\') => Escape::Backslash,
        _ => Escape::Plain,
    }
}

#[inline]
#[tactic(auto, unfolding(crate::specs::steps::Cut::ends_literal))]
pub(crate) fn ends_literal(quote: u8, escape: Escape, byte: u8) -> bool
    ensures { result ≡ ends_literal quote escape byte }
{
    match escape {
        Escape::Plain => byte == quote || byte == b'\n',
        Escape::Backslash => false,
        Escape::Return => byte == quote,
    }
}

#[tactic(auto, unfolding(crate::specs::steps::Cut::literal_len))]
fn literal_len(quote: u8, text: &[u8]) -> usize
    ensures value { result ≡ literal_len quote Escape.Plain text.now }
    ensures within { result ≤ length text.now }
{
    let mut escape = Escape::Plain;
    for (i, byte) in text.iter().enumerate() {
        if ends_literal(quote, escape, *byte) {
            return if *byte == quote { i + 1 } else { i };
        }
        escape = literal_escape(escape, *byte);
    }
    text.len()
}

fn block_len(text: &[u8]) -> usize
    ensures value { result ≡ block_len false text.now }
    ensures within { result ≤ length text.now }
{
    match memmem::find(text, b"*/") {
        Some(at) => at + 2,
        None => text.len(),
    }
}

/// How many bytes the piece of the class takes that a text begins with.
#[inline(always)]
#[tactic(auto, using(crate::proofs::Cuts::first_bytes), unfolding(crate::specs::steps::Cut::length_in))]
pub(crate) fn length_in(class: Class, text: &[u8]) -> usize
    requires is { class ≡ class_at text.now }
    requires some { 0 < length text.now }
    ensures value { result ≡ length_in class text.now }
    ensures some { 0 < result }
    ensures within { result ≤ length text.now }
{
    match class {
        Class::Name => name_len(text),
        Class::Number => number_len(text),
        Class::Str => 1 + literal_len(b'"', &text[1..]),
        Class::Chr => 1 + literal_len(b'\'', &text[1..]),
        Class::LineNote => 2 + comment_len(&text[2..]),
        Class::BlockNote => 2 + block_len(&text[2..]),
        Class::Blank => blank_len(text),
        Class::Newline | Class::Byte => 1,
    }
}
