//! What a `{` would open inside a block, where nothing else is asked of the tokens. Attributes are
//! left out without holding tokens back.
ghost use Rattle.std.specs.Prelude.{◌≡◌, ◌+◌, ◌<◌, ◌≤◌, ◌^◌, length};
ghost use Rattle.cb_scan.specs.lex.Tokens.{bytes_of};
ghost use Rattle.cb_scan.specs.steps.wide.Tokens.{token_after};
ghost use Rattle.cb_scan.specs.steps.wide.Sights.{early_past, early_past_mark, early_past_other};
ghost use Rattle.cb_scan.specs.steps.wide.Sights.{early_past_paren, early_past_word, idle_in};
ghost use Rattle.cb_scan.specs.steps.wide.Sights.{is_late, is_passed};
ghost use Rattle.cb_scan.specs.steps.wide.Sights.{look, look_inside, open_in_phase, phase_after};
ghost use Rattle.cb_scan.specs.steps.wide.Sights.{phase_of, seen_after, sight_by, sight_opening};
ghost use Rattle.cb_scan.specs.steps.wide.Sights.{sight_start};

use crate::lex::token::{Role, Token, WordKind};
use crate::rules::functions::Before;
use crate::rules::wide::opening::{Opening, next_opening};
use crate::rules::wide::role::{is_attribute_word, wide_role};
use crate::rules::wide::token::{WideToken, token_as};
use std::marker::Model;

/// How far an attribute has come.
#[derive(Clone, Copy)]
pub(crate) enum Phase {
    Clear,
    /// A word came, and whether it begins an attribute whatever follows its `(`.
    Word(bool),
    /// Any other word and `(` came.
    Paren,
    /// An attribute began, and so many parentheses are open besides the first.
    Inside(u32),
}

/// How far an attribute has come, what a `{` would have opened before its first word, and what it
/// would open now.
#[derive(Clone, Copy)]
pub(crate) struct Sight {
    phase: Phase,
    before: Option<Opening>,
    opening: Option<Opening>,
}

/// After a word, and after another token.
#[inline(always)]
fn phase_after(item: &WideToken) -> Phase
    ensures { result ≡ phase_after item.now }
{
    if item.role.is_word() {
        Phase::Word(item.role.begins_attribute())
    } else {
        Phase::Clear
    }
}

/// A sight in one byte, where nothing is to open and no attribute is open: how much of the
/// beginning of an attribute has come.
#[derive(Clone, Copy)]
enum Early {
    Clear,
    /// A word came that begins no attribute by itself.
    Word,
    /// Such a word and `(` came.
    Paren,
    /// Anything else, as after a word that begins an attribute: the sight is kept beside this byte.
    Late,
}

impl Early {
    #[inline(always)]
    fn is_late(self) -> bool
        ensures { result ≡ is_late self }
    {
        matches!(self, Early::Late)
    }

    /// The phase, if this byte is the whole sight.
    #[inline(always)]
    fn phase(self) -> Option<Phase>
        ensures { result ≡ phase_of self }
    {
        match self {
            Early::Clear => Some(Phase::Clear),
            Early::Word => Some(Phase::Word(false)),
            Early::Paren => Some(Phase::Paren),
            Early::Late => None,
        }
    }
}

/// After a word, where it was not late before.
fn early_past_word(kind: WordKind, word: &[u8]) -> Early
    ensures { result ≡ early_past_word kind word.now }
{
    match kind {
        WordKind::Struct | WordKind::Union | WordKind::Enum => Early::Late,
        WordKind::Reserved if is_attribute_word(word) => Early::Late,
        _ => Early::Word,
    }
}

/// After a `(`, where it was not late before.
#[inline(always)]
fn early_past_paren(early: Early) -> Early
    ensures { result ≡ early_past_paren early }
{
    match early {
        Early::Word => Early::Paren,
        _ => Early::Clear,
    }
}

/// After a string, a number or a character constant, where it was not late before.
#[inline(always)]
fn early_past_other(early: Early) -> Early
    ensures { result ≡ early_past_other early }
{
    match early {
        Early::Paren => Early::Late,
        _ => Early::Clear,
    }
}

/// After a mark, where it was not late before. Whether it is a `(` is hard to foresee: so what
/// comes after a `(` is worked out before that is asked.
#[inline(always)]
fn early_past_mark(early: Early, mark: u8) -> Early
    ensures { result ≡ early_past_mark early mark }
{
    let past_paren = early_past_paren(early);
    if mark == b'(' {
        past_paren
    } else {
        Early::Clear
    }
}

/// After a token of a text: `Late` where one byte may not be the whole sight, and wherever it was
/// `Late` before.
#[inline(always)]
fn early_past(early: Early, text: &[u8], token: &Token) -> Early
    requires order { token.now.span.start ≤ token.now.span.end }
    requires end { token.now.span.end ≤ length text.now }
    ensures { result ≡ early_past early token.now.role (bytes_of text.now token.now.span) }
{
    let past = match token.role {
        Role::Word(kind) => early_past_word(
            kind,
            &text[token.span.start as usize..token.span.end as usize],
        ),
        Role::Mark(mark) => early_past_mark(early, mark),
        Role::Str | Role::Other => early_past_other(early),
    };
    if early.is_late() { Early::Late } else { past }
}

impl Sight {
    /// What a `{` would open here.
    #[inline(always)]
    fn opening(&self) -> Option<Opening>
        ensures { result ≡ sight_opening self.now }
    {
        match self.phase {
            Phase::Clear | Phase::Word(_) => self.opening,
            Phase::Paren => None,
            Phase::Inside(_) => self.before,
        }
    }

    /// After a token in an attribute.
    fn look_inside(&mut self, more: u32, item: &WideToken)
        requires same { self.old.phase ≡ Phase.Inside more }
        requires small { more + 1 < 2 ^ 32 }
        ensures value { self.new ≡ look_inside more self.old item.now }
        ensures small { open_in_phase self.new.phase ≤ more + 1 }
    {
        if item.role.is_sign(b'(') {
            self.phase = Phase::Inside(more + 1);
        } else if item.role.is_sign(b')') {
            if more == 0 {
                self.phase = Phase::Clear;
                self.opening = self.before;
            } else {
                self.phase = Phase::Inside(more - 1);
            }
        }
    }

    /// After a token that is of no attribute so far. Mostly there is nothing to open.
    #[inline(always)]
    fn see(&mut self, item: &WideToken)
        ensures { self.new ≡ seen_after self.old.opening item.now }
    {
        self.phase = phase_after(item);
        if self.opening.is_some() || self.before.is_some() || item.role.is_keyword() {
            self.before = self.opening;
            self.opening = next_opening(self.opening, item);
        }
    }

    /// After a token.
    #[inline(always)]
    fn look(&mut self, item: &WideToken)
        requires { open_in_phase self.old.phase + 1 < 2 ^ 32 }
        ensures value { self.new ≡ look self.old item.now }
        ensures small { open_in_phase self.new.phase ≤ open_in_phase self.old.phase + 1 }
    {
        match self.phase {
            Phase::Inside(more) => self.look_inside(more, item),
            Phase::Word(is_attribute) if item.role.is_sign(b'(') => {
                self.phase = if is_attribute {
                    Phase::Inside(0)
                } else {
                    Phase::Paren
                };
            }
            Phase::Paren if item.role.is_literal() => self.phase = Phase::Inside(0),
            Phase::Paren => {
                self.opening = None;
                self.see(item);
            }
            Phase::Clear | Phase::Word(_) => self.see(item),
        }
    }

    /// Where nothing is to open.
    #[inline(always)]
    fn idle_in(phase: Phase) -> Sight
        ensures { result ≡ idle_in phase }
    {
        Sight {
            phase,
            before: None,
            opening: None,
        }
    }

    /// The sight in one byte.
    fn early(&self) -> Early
        ensures { sight_by result self.now ≡ self.now }
    {
        match (&self.opening, &self.before, self.phase) {
            (None, None, Phase::Clear) => Early::Clear,
            (None, None, Phase::Word(false)) => Early::Word,
            (None, None, Phase::Paren) => Early::Paren,
            _ => Early::Late,
        }
    }
}

/// A sight, in one byte where that can be: most tokens in blocks then write this byte alone.
#[derive(Drop)]
pub(crate) struct Watch {
    early: Early,
    sight: Sight,
}

impl Model for Watch {
    ghost use Rattle.cb_scan.specs.declared.rules.wide.sight.Sight.{Sight};
    ghost use Rattle.cb_scan.specs.steps.wide.Sights.{sight_by};

    ghost Value = { Sight };

    ghost view = { λ w. sight_by w.early w.sight };
}

impl Watch {
    /// The beginning of a block.
    pub(crate) fn new() -> Watch
        ensures { result ≡ sight_start }
    {
        Watch {
            early: Early::Clear,
            sight: Sight::idle_in(Phase::Clear),
        }
    }

    /// As at the beginning of a block.
    #[inline(always)]
    pub(crate) fn restart(&mut self)
        ensures { self.new ≡ sight_start }
    {
        self.early = Early::Clear;
    }

    /// What a `{` would open here.
    pub(crate) fn opening(&self) -> Option<Opening>
        ensures { result ≡ sight_opening self.now }
    {
        match self.early {
            Early::Late => self.sight.opening(),
            _ => None,
        }
    }

    /// After a token.
    #[inline(always)]
    pub(crate) fn look(&mut self, item: &WideToken)
        requires { open_in_phase self.old.phase + 1 < 2 ^ 32 }
        ensures value { self.new ≡ look self.old item.now }
        ensures small { open_in_phase self.new.phase ≤ open_in_phase self.old.phase + 1 }
    {
        if let Some(phase) = self.early.phase() {
            self.sight = Sight::idle_in(phase);
        }
        self.sight.look(item);
        self.early = self.sight.early();
    }

    /// The token is in an attribute, and is neither a `(` nor a `)`.
    #[inline(always)]
    fn passes(&self, token: &Token) -> bool
        ensures { result ≡ is_passed self.now.phase token.now.role }
    {
        match (self.early, self.sight.phase) {
            (Early::Late, Phase::Inside(_)) => !token.is_mark(b'(') && !token.is_mark(b')'),
            _ => false,
        }
    }

    /// After a token of a text, by what is directly before it. It stands apart, so that the short
    /// way, which most tokens take, need not save registers.
    #[inline(never)]
    fn look_after(&mut self, text: &[u8], before: Before, token: &Token)
        requires order { token.now.span.start ≤ token.now.span.end }
        requires end { token.now.span.end ≤ length text.now }
        requires small { open_in_phase self.old.phase + 1 < 2 ^ 32 }
        ensures value { self.new ≡ look self.old (token_after text.now before token.now) }
        ensures small { open_in_phase self.new.phase ≤ open_in_phase self.old.phase + 1 }
    {
        if self.passes(token) {
            return;
        }
        let role = wide_role(text, token);
        self.look(&token_as(role, before, token));
    }

    /// After a token of a text, by what is directly before it. Most tokens say nothing.
    #[inline(always)]
    pub(crate) fn glance(&mut self, text: &[u8], before: Before, token: &Token)
        requires order { token.now.span.start ≤ token.now.span.end }
        requires end { token.now.span.end ≤ length text.now }
        requires small { open_in_phase self.old.phase + 1 < 2 ^ 32 }
        ensures value { self.new ≡ look self.old (token_after text.now before token.now) }
        ensures small { open_in_phase self.new.phase ≤ open_in_phase self.old.phase + 1 }
    {
        let early = early_past(self.early, text, token);
        if early.is_late() {
            self.look_after(text, before, token);
        } else {
            self.early = early;
        }
    }
}
