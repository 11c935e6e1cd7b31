//! What the text of a macro names, and whether its arguments may become something else.
ghost use Rattle.std.specs.Prelude.{◌≡◌, ◌<◌, ◌≤◌, ◌+◌, ◌^◌, ◌++◌, ◌∷◌, [], IfErr, IfOk, drop, length};
ghost use Rattle.std.specs.Prelude.{◌||◌, if◌then◌else◌};
ghost use Rattle.std.specs.List.{AllByRecursion};
ghost use Rattle.cb_scan.specs.CodeTokens.{IsSpanOf};
ghost use Rattle.cb_scan.specs.rules.Depth.{token_at};
ghost use Rattle.cb_scan.specs.rules.Macros.{begin_arguments};
ghost use Rattle.cb_names.specs.Macros.{are_called, is_called};
ghost use Rattle.cb_names.specs.Macros.{adjoins, are_odd, ends_arrow, follows_maker, follows_operand};
ghost use Rattle.cb_names.specs.Macros.{has_list, has_tag, is_hash, is_listed, is_made, is_member, is_odd, is_own_name};
ghost use Rattle.cb_names.specs.Macros.{is_parameter, is_tag, list_len, listed, macro_name};
ghost use Rattle.cb_names.specs.Macros.{macro_parts, marks, name_at, names, own_names, replacement};
ghost use Rattle.cb_names.specs.Macros.{parts_by, takes_member};
ghost use Rattle.cb_names.specs.steps.Replacing.{IsText};

use cb_scan::{Role, ScanError, Source, Span, Token, WordKind, line_tokens};
use std::alloc::{AllocError, Global};
use std::marker::Model;

/// A name of the text of a macro that is none of its parameters.
#[derive(Clone, Copy, Debug, PartialEq, Eq)]
pub struct MacroName {
    /// Its place, from the name of the macro on.
    pub name: Span,
    /// Whether it is neither a member nor a tag.
    pub free: bool,
}

/// What is known of a macro.
#[derive(Drop)]
pub struct Macro {
    takes: bool,
    names: Vec<MacroName>,
    odd: bool,
    calls: bool,
}

impl Model for Macro {
    ghost use Rattle.cb_names.specs.Macros.{MacroParts};

    ghost Value = { MacroParts };

    ghost view = { λ m. record {
      takes = m.takes;
      names = m.names.items;
      odd = m.odd;
      calls = m.calls;
    } };
}

impl Macro {
    /// Whether it takes arguments: a `(` directly follows its name.
    pub fn takes_arguments(&self) -> bool
        ensures { result ≡ self.now.takes }
    {
        self.takes
    }

    /// The names of its text that are none of its parameters, by place.
    pub fn names(&self) -> &[MacroName]
        ensures { result.now ≡ self.now.names }
    {
        self.names.as_slice()
    }

    /// Whether its text alone may make something else of its arguments: a text, a part of a name, a
    /// member, a tag or a label.
    pub fn is_odd(&self) -> bool
        ensures { result ≡ self.now.odd }
    {
        self.odd
    }

    /// Whether its text calls one of its parameters, which may be the name of a macro.
    pub fn calls_parameter(&self) -> bool
        ensures { result ≡ self.now.calls }
    {
        self.calls
    }
}

/// Whether a token is a lone byte.
fn marks(tokens: &[Token], at: usize, byte: u8) -> bool
    ensures { result ≡ marks byte tokens.now at }
{
    match tokens.get(at) {
        Some(token) => token.is_mark(byte),
        None => false,
    }
}

fn names(tokens: &[Token], at: usize) -> bool
    ensures { result ≡ names tokens.now at }
{
    match tokens.get(at) {
        Some(token) => token.is_name(),
        None => false,
    }
}

/// Whether a token is `struct`, `union` or `enum`.
fn has_tag(tokens: &[Token], at: usize) -> bool
    ensures { result ≡ has_tag (token_at tokens.now at).role }
{
    match tokens.get(at) {
        Some(token) => matches!(
            token.role,
            Role::Word(WordKind::Struct | WordKind::Union | WordKind::Enum)
        ),
        None => false,
    }
}

fn start_at(tokens: &[Token], at: usize) -> u32
    ensures { result ≡ (token_at tokens.now at).span.start }
{
    match tokens.get(at) {
        Some(token) => token.span.start,
        None => 0,
    }
}

fn end_at(tokens: &[Token], at: usize) -> u32
    ensures { result ≡ (token_at tokens.now at).span.end }
{
    match tokens.get(at) {
        Some(token) => token.span.end,
        None => 0,
    }
}

/// Whether no byte stands between a token and the next one.
fn adjoins(tokens: &[Token], at: usize) -> bool
    requires { at + 1 < 2 ^ 64 }
    ensures { result ≡ adjoins tokens.now at }
{
    end_at(tokens, at) == start_at(tokens, at + 1)
}

/// Whether `->` ends with a token.
#[tactic(auto, unfolding(crate::specs::Macros::ends_arrow))]
fn ends_arrow(tokens: &[Token], at: usize) -> bool
    ensures { result ≡ ends_arrow tokens.now at }
{
    at > 0 && marks(tokens, at, b'>') && marks(tokens, at - 1, b'-') && adjoins(tokens, at - 1)
}

/// Whether `#` is there, also as `%:`.
fn is_hash(tokens: &[Token], at: usize) -> bool
    requires { at + 1 < 2 ^ 64 }
    ensures { result ≡ is_hash tokens.now at }
{
    marks(tokens, at, b'#') || (marks(tokens, at, b'%') && marks(tokens, at + 1, b':'))
}

/// Whether an operand may end directly before a token.
#[tactic(auto, unfolding(crate::specs::Macros::follows_operand))]
fn follows_operand(tokens: &[Token], at: usize) -> bool
    ensures { result ≡ follows_operand tokens.now at }
{
    at > 0 && (names(tokens, at - 1) || marks(tokens, at - 1, b')') || marks(tokens, at - 1, b']'))
}

#[tactic(auto, unfolding(crate::specs::Macros::is_member))]
fn is_member(tokens: &[Token], at: usize) -> bool
    ensures { result ≡ is_member tokens.now at }
{
    at > 0
        && (ends_arrow(tokens, at - 1)
            || (marks(tokens, at - 1, b'.') && follows_operand(tokens, at - 1)))
}

#[tactic(auto, unfolding(crate::specs::Macros::is_tag))]
fn is_tag(tokens: &[Token], at: usize) -> bool
    ensures { result ≡ is_tag tokens.now at }
{
    at > 0 && has_tag(tokens, at - 1)
}

/// The bytes of a token; none where there is no such token.
fn name_at<'a>(bytes: &'a [u8], tokens: &[Token], at: usize) -> &'a [u8]
    requires { AllByRecursion (IsSpanOf bytes.now) tokens.now }
    ensures { result.now ≡ name_at bytes.now tokens.now at }
{
    match tokens.get(at) {
        Some(token) => &bytes[token.span.start as usize..token.span.end as usize],
        None => &bytes[..0],
    }
}

/// The tokens of the text of a macro, those among which its parameters are, and the bytes in which
/// all of them lie.
#[derive(Clone, Copy)]
struct Text<'a> {
    bytes: &'a [u8],
    listed: &'a [Token],
    tokens: &'a [Token],
}

impl Text<'_> {
    /// Whether a parameter has these bytes.
    fn is_listed(&self, name: &[u8]) -> bool
        requires { IsText self.now }
        ensures { result ≡ is_listed self.now.bytes.now self.now.listed.now name.now }
    {
        for i in 0..self.listed.len() {
            if self.listed[i].is_name() && name_at(self.bytes, self.listed, i) == name {
                return true;
            }
        }
        false
    }

    fn is_parameter(&self, at: usize) -> bool
        requires { IsText self.now }
        ensures { result ≡ is_parameter self.now.bytes.now self.now.listed.now self.now.tokens.now
            at }
    {
        names(self.tokens, at) && self.is_listed(name_at(self.bytes, self.tokens, at))
    }

    /// Whether a token is a name that is no parameter.
    fn is_own_name(&self, at: usize) -> bool
        requires { IsText self.now }
        ensures { result ≡ is_own_name self.now.bytes.now self.now.listed.now self.now.tokens.now
            at }
    {
        names(self.tokens, at) && !self.is_listed(name_at(self.bytes, self.tokens, at))
    }

    /// Its names that are no parameters.
    fn own_names(&self, alloc: Global) -> Result<Vec<MacroName>, AllocError>
        requires { IsText self.now }
        ensures { IfOk result (λ found. found.items
            ≡ own_names self.now.bytes.now self.now.listed.now self.now.tokens.now) }
    {
        let mut found = Vec::new(alloc);
        for at in 0..self.tokens.len() {
            push_if(
                self.is_own_name(at),
                macro_name(self.tokens, at),
                &mut found,
            )?;
        }
        Ok(found)
    }

    /// Whether `goto`, or what makes a member or tag of a name, is directly before a token.
    #[tactic(auto, unfolding(crate::specs::Macros::follows_maker))]
    fn follows_maker(&self, at: usize) -> bool
        requires { IsText self.now }
        ensures { result ≡ follows_maker self.now.bytes.now self.now.tokens.now at }
    {
        at > 0
            && (marks(self.tokens, at - 1, b'.')
                || ends_arrow(self.tokens, at - 1)
                || has_tag(self.tokens, at - 1)
                || name_at(self.bytes, self.tokens, at - 1) == b"goto".as_slice())
    }

    /// Whether a token is a parameter that becomes a member, a tag or a label.
    fn is_made(&self, at: usize) -> bool
        requires text { IsText self.now }
        requires within { at < length self.now.tokens.now }
        ensures { result ≡ is_made self.now.bytes.now self.now.listed.now self.now.tokens.now at }
    {
        self.is_parameter(at) && (self.follows_maker(at) || marks(self.tokens, at + 1, b':'))
    }

    /// Whether a token alone makes the arguments something else.
    fn is_odd(&self, at: usize) -> bool
        requires text { IsText self.now }
        requires within { at < length self.now.tokens.now }
        ensures { result ≡ is_odd self.now.bytes.now self.now.listed.now self.now.tokens.now at }
    {
        is_hash(self.tokens, at)
            || self.is_made(at)
            || takes_member(name_at(self.bytes, self.tokens, at))
    }

    /// Whether one does.
    fn are_odd(&self) -> bool
        requires { IsText self.now }
        ensures { result ≡ are_odd self.now.bytes.now self.now.listed.now self.now.tokens.now }
    {
        let mut odd = false;
        for at in 0..self.tokens.len() {
            odd = either(odd, self.is_odd(at));
        }
        odd
    }

    /// Whether a token is a parameter that is called.
    fn is_called(&self, at: usize) -> bool
        requires text { IsText self.now }
        requires within { at < length self.now.tokens.now }
        ensures { result ≡ is_called self.now.bytes.now self.now.listed.now self.now.tokens.now at }
    {
        self.is_parameter(at) && marks(self.tokens, at + 1, b'(')
    }

    /// Whether one is.
    fn are_called(&self) -> bool
        requires { IsText self.now }
        ensures { result
            ≡ are_called self.now.bytes.now self.now.listed.now self.now.tokens.now }
    {
        let mut called = false;
        for at in 0..self.tokens.len() {
            called = either(called, self.is_called(at));
        }
        called
    }
}

fn either(first: bool, second: bool) -> bool
    ensures { result ≡ (first || second) }
{
    first || second
}

/// Whether a name is that of what takes a member as an argument.
pub fn takes_member(name: &[u8]) -> bool
    ensures { result ≡ takes_member name.now }
{
    name == b"offsetof".as_slice() || name == b"__builtin_offsetof".as_slice()
}

fn macro_name(tokens: &[Token], at: usize) -> MacroName
    requires { at < length tokens.now }
    ensures { result ≡ macro_name tokens.now at }
{
    MacroName {
        name: tokens[at].span,
        free: !(is_member(tokens, at) || is_tag(tokens, at)),
    }
}

/// Appends a name, if it is wanted.
fn push_if(is_wanted: bool, one: MacroName, names: &mut Vec<MacroName>) -> Result<(), AllocError>
    ensures { IfOk result
        (λ _. names.new.items ≡ names.old.items ++ (if is_wanted then one ∷ [] else [])) }
{
    if is_wanted {
        names.push(one)?;
    }
    Ok(())
}

/// Whether a `(` directly follows the name of a macro.
fn begin_arguments(name: &Token, rest: &[Token]) -> bool
    ensures { result ≡ begin_arguments name.now rest.now }
{
    match rest {
        [paren, ..] => paren.is_mark(b'(') && paren.span.start == name.span.end,
        [] => false,
    }
}

/// How many tokens there are before the first `)`.
fn list_len(tokens: &[Token]) -> usize
    ensures value { result ≡ list_len tokens.now }
    ensures within { result ≤ length tokens.now }
{
    tokens
        .iter()
        .take_while(|token| !token.is_mark(b')'))
        .count()
}

/// Whether a macro takes arguments.
fn has_list(tokens: &[Token]) -> bool
    ensures { result ≡ has_list tokens.now }
{
    match tokens {
        [name, rest @ ..] => begin_arguments(name, rest),
        [] => false,
    }
}

/// The tokens of a macro among which its parameters are.
fn listed(tokens: &[Token]) -> &[Token]
    ensures { result.now ≡ listed tokens.now }
{
    match tokens {
        [name, rest @ ..] if begin_arguments(name, rest) => &rest[..list_len(rest)],
        _ => &tokens[..0],
    }
}

/// Those of its text.
fn replacement(tokens: &[Token]) -> &[Token]
    ensures { result.now ≡ replacement tokens.now }
{
    match tokens {
        [name, rest @ ..] if begin_arguments(name, rest) => {
            &rest[rest.len().min(list_len(rest) + 1)..]
        }
        [_, rest @ ..] => rest,
        [] => tokens,
    }
}

/// What is known of a macro, by its tokens.
fn parts(alloc: Global, bytes: &[u8], tokens: &[Token]) -> Result<Macro, AllocError>
    requires { AllByRecursion (IsSpanOf bytes.now) tokens.now }
    ensures { IfOk result (λ m. m ≡ parts_by bytes.now tokens.now) }
{
    let text = Text {
        bytes,
        listed: listed(tokens),
        tokens: replacement(tokens),
    };
    let names = text.own_names(alloc)?;
    Ok(Macro {
        takes: has_list(tokens),
        names,
        odd: text.are_odd(),
        calls: text.are_called(),
    })
}

/// What is known of the macro whose name begins at a place of a text, by the rest of its line.
/// Refused memory is the only error. Time in proportion to that line, times its parameters.
pub fn macro_at(alloc: Global, source: &Source, place: u32) -> Result<Macro, ScanError>
    ensures value { IfOk result (λ m. m ≡ macro_parts (drop place source.now)) }
    ensures memory { IfErr result (λ e. e ≡ ScanError.OutOfMemory) }
{
    let tokens = line_tokens(alloc, source, place)?;
    let bytes = source.bytes();
    let rest = &bytes[bytes.len().min(place as usize)..];
    match parts(alloc, rest, tokens.as_slice()) {
        Ok(parts) => Ok(parts),
        Err(_) => Err(ScanError::OutOfMemory),
    }
}
