//! Which statements of a block are declarations.
ghost use Rattle.std.specs.Prelude.{◌≡◌, ◌<◌, ◌≤◌, ◌+◌, ◌-◌, ◌^◌, MatchOption, drop, filter, length};
ghost use Rattle.std.specs.List.{list_any, prefix_len, take_while};
ghost use Rattle.cb_names.specs.Declarations.{begins_type, behind, calls_pointer, declares_after};
ghost use Rattle.cb_names.specs.Declarations.{ends_declared, is_called, is_declaration, is_follower};
ghost use Rattle.cb_names.specs.Declarations.{is_name_item, is_named, is_piece, is_pointer};
ghost use Rattle.cb_names.specs.Declarations.{is_separator, is_star, is_stray_word, is_type};
ghost use Rattle.cb_names.specs.Declarations.{is_typed, is_word_at, is_word_item, names_from};
ghost use Rattle.cb_names.specs.Declarations.{run, stars, words};
ghost use Rattle.cb_names.specs.Pairs.{at, partner};
ghost use Rattle.cb_names.specs.Tables.{IsTable};

use crate::braces::{is_keyword_at, is_name_at};
use crate::pairs::{answer, sign};
use crate::word::{Item, Word};

fn is_type(word: Word) -> bool
    ensures { result ≡ is_type word }
{
    matches!(word, Word::Type | Word::Typeof)
}

pub(crate) fn is_word_at(items: &[Item], at: u32) -> bool
    ensures { result ≡ is_word_at items.now at }
{
    match items.get(at as usize) {
        Some(item) => item.token.role.is_word(),
        None => false,
    }
}

/// A word with which only a declaration begins.
fn begins_type(items: &[Item], at: u32) -> bool
    ensures { result ≡ begins_type items.now at }
{
    match items.get(at as usize) {
        Some(item) => {
            is_type(item.word) || item.token.role.is_keyword() || item.token.role.is_specifier()
        }
        None => false,
    }
}

fn is_piece(item: &Item) -> bool
    ensures { result ≡ is_piece item.now }
{
    item.token.role.is_word() || item.token.role.is_sign(b'*')
}

fn is_star(item: &Item) -> bool
    ensures { result ≡ is_star item.now }
{
    item.token.role.is_sign(b'*')
}

pub(crate) fn is_name_item(item: &Item) -> bool
    ensures { result ≡ is_name_item item.now }
{
    item.token.role.is_name()
}

fn is_word_item(item: &Item) -> bool
    ensures { result ≡ is_word_item item.now }
{
    item.token.role.is_word()
}

fn is_stray_word(item: &Item) -> bool
    ensures { result ≡ is_stray_word item.now }
{
    item.token.role.is_statement_word()
}

/// The tokens from an index on.
pub(crate) fn from(items: &[Item], at: u32) -> &[Item]
    ensures { result.now ≡ drop at items.now }
{
    if at as usize <= items.len() {
        &items[at as usize..]
    } else {
        &[]
    }
}

/// With how many words and stars some tokens begin.
fn run_len(items: &[Item]) -> usize
    ensures value { result ≡ prefix_len is_piece items.now }
    ensures within { result ≤ length items.now }
{
    items.iter().take_while(|item| is_piece(*item)).count()
}

/// The words and stars from an index on.
fn run(items: &[Item], at: u32) -> &[Item]
    ensures value { result.now ≡ run items.now at }
    ensures within { length result.now ≤ length items.now }
{
    let rest = from(items, at);
    &rest[..run_len(rest)]
}

/// How many stars there are from an index on.
fn stars(items: &[Item], at: u32) -> usize
    ensures value { result ≡ stars items.now at }
    ensures within { result ≤ length items.now - at }
{
    from(items, at)
        .iter()
        .take_while(|item| is_star(*item))
        .count()
}

/// How many words there are from an index on.
fn words(items: &[Item], at: u32) -> usize
    ensures value { result ≡ words items.now at }
    ensures within { result ≤ length items.now - at }
{
    from(items, at)
        .iter()
        .take_while(|item| is_word_item(*item))
        .count()
}

fn has_star(run: &[Item]) -> bool
    ensures { result ≡ list_any is_star run.now }
{
    run.iter().any(|item| is_star(item))
}

fn has_stray(run: &[Item]) -> bool
    ensures { result ≡ list_any is_stray_word run.now }
{
    run.iter().any(|item| is_stray_word(item))
}

fn name_count(run: &[Item]) -> usize
    ensures { result ≡ length (filter is_name_item run.now) }
{
    run.iter().filter(|item| is_name_item(*item)).count()
}

/// What may follow a declared name.
fn is_follower(byte: u8) -> bool
    ensures { result ≡ is_follower byte }
{
    matches!(byte, b';' | b'=' | b',' | b'[' | b')')
}

/// What may follow the parameters behind a declared name.
fn is_separator(byte: u8) -> bool
    ensures { result ≡ is_separator byte }
{
    matches!(byte, b';' | b'=' | b',')
}

/// The index behind the partner of a bracket, if it has one.
#[tactic(auto, using(crate::proofs::PairingLemmas::partner_less))]
fn behind(items: &[Item], partners: &[Option<u32>], at: u32) -> Option<u32>
    requires few { length items.now < 2 ^ 32 }
    requires within { at < length items.now }
    requires table { IsTable (partner items.now) (length items.now) partners.now }
    ensures value { result ≡ behind items.now at }
    ensures within { MatchOption result (Unit {0}) (λ next. next ≤ length items.now) }
{
    match answer(partners, at) {
        Some(end) => Some(end + 1),
        None => None,
    }
}

/// Whether what may follow parameters stands behind the parentheses that begin with a token.
fn declares_after(items: &[Item], partners: &[Option<u32>], at: u32) -> bool
    requires few { length items.now < 2 ^ 32 }
    requires within { at < length items.now }
    requires table { IsTable (partner items.now) (length items.now) partners.now }
    ensures { result ≡ declares_after items.now at }
{
    match behind(items, partners, at) {
        Some(next) => is_separator(sign(items, next)) || is_word_at(items, next),
        None => false,
    }
}

/// Whether words and stars that end before a token, with a `*` among them or not, end in a declared
/// name.
#[tactic(auto, using(crate::proofs::SignLemmas::paren_within))]
fn ends_declared(items: &[Item], partners: &[Option<u32>], starred: bool, at: u32) -> bool
    requires few { length items.now < 2 ^ 32 }
    requires table { IsTable (partner items.now) (length items.now) partners.now }
    ensures { result ≡ ends_declared items.now starred at }
{
    let before = at.saturating_sub(1);
    match sign(items, at) {
        b'(' => {
            (is_name_at(items, before) && (starred || declares_after(items, partners, at)))
                || (sign(items, before) == b'*' && sign(items, at + 1) == b'*')
        }
        byte => is_name_at(items, before) && is_follower(byte),
    }
}

/// Whether the words and stars from an index on are the rest of a declaration's first name.
fn names_from(items: &[Item], partners: &[Option<u32>], at: u32) -> bool
    requires few { length items.now < 2 ^ 32 }
    requires table { IsTable (partner items.now) (length items.now) partners.now }
    ensures { result ≡ names_from items.now at }
{
    let words = run(items, at);
    !words.is_empty()
        && !has_stray(words)
        && ends_declared(items, partners, has_star(words), at + words.len() as u32)
}

/// A name as type.
fn is_named(items: &[Item], partners: &[Option<u32>], at: u32) -> bool
    requires few { length items.now < 2 ^ 32 }
    requires within { at < length items.now }
    requires table { IsTable (partner items.now) (length items.now) partners.now }
    ensures { result ≡ is_named items.now at }
{
    is_name_at(items, at) && names_from(items, partners, at + 1)
}

/// At least one `*` or two names.
fn is_typed(words: &[Item]) -> bool
    ensures { result ≡ is_typed words.now }
{
    has_star(words) || name_count(words) >= 2
}

/// A name and parentheses as type.
fn is_called(items: &[Item], partners: &[Option<u32>], at: u32) -> bool
    requires few { length items.now < 2 ^ 32 }
    requires within { at < length items.now }
    requires table { IsTable (partner items.now) (length items.now) partners.now }
    ensures { result ≡ is_called items.now at }
{
    if !is_name_at(items, at) || sign(items, at + 1) != b'(' {
        return false;
    }
    match behind(items, partners, at + 1) {
        Some(next) => {
            begins_type(items, next)
                || (names_from(items, partners, next) && is_typed(run(items, next)))
        }
        None => false,
    }
}

/// Whether so many words end in a name, and the `)` and `(` of a called pointer follow them.
#[tactic(auto, using(crate::proofs::SignLemmas::close_within))]
fn calls_pointer(items: &[Item], at: u32, count: usize) -> bool
    requires few { length items.now < 2 ^ 32 }
    requires within { at + count ≤ length items.now }
    ensures { result ≡ calls_pointer items.now at count }
{
    if count == 0 {
        return false;
    }
    let end = at + count as u32;
    is_name_at(items, end - 1) && sign(items, end) == b')' && sign(items, end + 1) == b'('
}

/// A name as type, and in parentheses a pointer that is called.
#[tactic(auto, using(crate::proofs::SignLemmas::paren_within))]
fn is_pointer(items: &[Item], at: u32) -> bool
    requires few { length items.now < 2 ^ 32 }
    requires within { at < length items.now }
    ensures { result ≡ is_pointer items.now at }
{
    if !is_name_at(items, at) || sign(items, at + 1) != b'(' {
        return false;
    }
    let stars = stars(items, at + 2);
    if stars == 0 {
        return false;
    }
    let first = at + 2 + stars as u32;
    calls_pointer(items, first, words(items, first))
}

/// Whether the statement that begins with a token is a declaration.
pub(crate) fn is_declaration(items: &[Item], partners: &[Option<u32>], at: u32) -> bool
    requires few { length items.now < 2 ^ 32 }
    requires within { at < length items.now }
    requires table { IsTable (partner items.now) (length items.now) partners.now }
    ensures { result ≡ is_declaration items.now at }
{
    begins_type(items, at)
        || is_named(items, partners, at)
        || is_pointer(items, at)
        || is_called(items, partners, at)
}
