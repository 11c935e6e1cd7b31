//! Tokens that are held back until those after them are known.
ghost use Rattle.std.specs.Prelude.{◌≡◌, ◌+◌, ◌<◌, ◌≤◌, [], ◌∷◌, ◌++◌, drop, length, take};
ghost use Rattle.cb_scan.specs.steps.wide.HeldBack.{none_held};

use crate::lex::piece::Span;
use crate::lex::token::{Role, Token};
use crate::rules::wide::role::WideRole;
use crate::rules::wide::token::WideToken;
use std::marker::Model;

/// More than are ever held back, so that they are rarely moved to make room.
const ROOM: usize = 64;

const NO_TOKEN: WideToken = WideToken {
    token: Token {
        role: Role::Other,
        starts_line: false,
        span: Span { start: 0, end: 0 },
        line: 0,
    },
    role: WideRole::Number,
    counted: false,
};

/// The tokens that are held back: from `start` to `raw` those that are known to be of no attribute,
/// and from there to `end` those that may yet be of one.
#[derive(Drop)]
pub(crate) struct Window {
    items: [WideToken; ROOM],
    start: usize,
    raw: usize,
    end: usize,
}

impl Model for Window {
    ghost use Rattle.std.specs.Prelude.{◌-◌, ◌≤◌, drop, take};
    ghost use Rattle.cb_scan.specs.steps.wide.HeldBack.{HeldBack};

    ghost Value = { HeldBack };

    ghost view = { λ w. record {
      bare = take (w.raw - w.start) (drop w.start w.items);
      raw = take (w.end - w.raw) (drop w.raw w.items);
    } };

    ghost invariant = { λ w. (w.start ≤ w.raw) × (w.raw ≤ w.end) × (w.end ≤ 64) };
}

impl Window {
    pub(crate) fn new() -> Window
        ensures { result ≡ none_held }
    {
        Window {
            items: [NO_TOKEN; ROOM],
            start: 0,
            raw: 0,
            end: 0,
        }
    }

    /// The tokens that are of no attribute, the next one first.
    #[inline(always)]
    pub(crate) fn bare(&self) -> &[WideToken]
        ensures { result.now ≡ self.now.bare }
    {
        &self.items[self.start..self.raw]
    }

    /// Those after them, which may be of an attribute.
    #[inline(always)]
    pub(crate) fn raw(&self) -> &[WideToken]
        ensures { result.now ≡ self.now.raw }
    {
        &self.items[self.raw..self.end]
    }

    /// One more token, behind all others.
    #[inline(always)]
    pub(crate) fn push(&mut self, item: WideToken)
        requires { length self.old.bare + length self.old.raw < 64 }
        ensures { self.new ≡ record self.old { raw = self.old.raw ++ (item ∷ []) } }
    {
        if self.end == ROOM {
            let (start, raw, end) = (self.start, self.raw, self.end);
            self.items.copy_within(start..end, 0);
            self.start = 0;
            self.raw = raw - start;
            self.end = end - start;
        }
        self.items[self.end] = item;
        self.end += 1;
    }

    /// The first token that might have been of an attribute is of none.
    #[inline(always)]
    pub(crate) fn keep(&mut self)
        requires { 1 ≤ length self.old.raw }
        ensures { self.new
            ≡ record { bare = self.old.bare ++ take 1 self.old.raw; raw = drop 1 self.old.raw } }
    {
        self.raw += 1;
    }

    /// The first token that might have been of an attribute is of one, and is left out. This is
    /// rare: it stands apart for the reason that `Watch::look_after` has.
    #[inline(never)]
    pub(crate) fn leave_out(&mut self)
        requires { 1 ≤ length self.old.raw }
        ensures { self.new ≡ record self.old { raw = drop 1 self.old.raw } }
    {
        let (raw, end) = (self.raw, self.end);
        self.items.copy_within(raw + 1..end, raw);
        self.end = end - 1;
    }

    /// Without the tokens that are of no attribute.
    #[inline(always)]
    pub(crate) fn clear(&mut self)
        ensures { self.new ≡ record self.old { bare = [] } }
    {
        self.start = self.raw;
    }

    /// Without the next token.
    #[inline(always)]
    pub(crate) fn pop(&mut self)
        requires { 1 ≤ length self.old.bare }
        ensures { self.new ≡ record self.old { bare = drop 1 self.old.bare } }
    {
        self.start += 1;
    }
}
