//! The functions of the wide profile, a token at a time. Attributes are left out.
ghost use Rattle.std.specs.Prelude.{◌≡◌, ◌+◌, ◌<◌, ◌≤◌, ◌^◌};
ghost use Rattle.cb_scan.specs.steps.Heads.{add};
ghost use Rattle.cb_scan.specs.steps.wide.Functions.{defined, found, function_here, grown};
ghost use Rattle.cb_scan.specs.steps.wide.Functions.{head_name, next, next_depth, next_inside};
ghost use Rattle.cb_scan.specs.steps.wide.Functions.{next_old, start, stopped, stops};
ghost use Rattle.cb_scan.specs.steps.wide.Joint.{machine_beside};

use crate::facts::Def;
use crate::lex::token::Token;
use crate::rules::heads::{Head, def_of};
use crate::rules::wide::declaration::{Declaration, is_linkage};
use crate::rules::wide::head::WideHead;
use crate::rules::wide::token::WideToken;

/// What is known before a token: how many braces are open, the head so far and its parts, and the
/// function in the old style that is open.
#[derive(Clone, Copy)]
pub(crate) struct WideMachine {
    pub depth: u32,
    head: Head,
    pub parts: WideHead,
    opened: Option<Def>,
}

impl WideMachine {
    /// The beginning of the code.
    pub(crate) fn new() -> WideMachine
        ensures { result ≡ start }
    {
        WideMachine {
            depth: 0,
            head: Head::new(),
            parts: WideHead::new(),
            opened: None,
        }
    }

    /// The name that the head defines: that of a prototype, or else the first called name.
    fn head_name(&self) -> Option<Token>
        ensures { result ≡ head_name self.now }
    {
        match self.parts.declared() {
            Some(name) => Some(name.token),
            None => self.head.called,
        }
    }

    /// The function that the head defines.
    fn defined(&self) -> Option<Def>
        ensures { result ≡ defined self.now }
    {
        match self.head_name() {
            Some(name) if self.head.defines() => Some(def_of(self.head.has_static, name)),
            _ => None,
        }
    }

    /// The function that a `{` opens here.
    fn function_here(&self) -> Option<Def>
        ensures { result ≡ function_here self.now }
    {
        if self.head.last.is_none() {
            self.opened
        } else {
            self.defined()
        }
    }

    /// The function whose `{` the token is, if it is a block.
    pub(crate) fn found(&self, is_block: bool) -> Option<Def>
        ensures { result ≡ found self.now is_block }
    {
        if is_block && self.depth == 0 {
            self.function_here()
        } else {
            None
        }
    }

    /// The depth after the token.
    #[inline(always)]
    pub(crate) fn next_depth(&self, item: &WideToken) -> u32
        requires { self.now.depth + 1 < 2 ^ 32 }
        ensures value { result ≡ next_depth self.now item.now }
        ensures small { result ≤ self.now.depth + 1 }
    {
        if item.counted {
            self.depth + 1
        } else if !item.token.is_mark(b'}') {
            self.depth
        } else if item.token.starts_line {
            0
        } else {
            self.depth.saturating_sub(1)
        }
    }

    #[inline(always)]
    fn stops(&self, item: &WideToken, after: u32) -> bool
        requires { after ≡ next_depth self.now item.now }
        ensures { result ≡ stops self.now item.now }
    {
        (item.role.is_sign(b';') && self.depth == 0)
            || (item.role.is_sign(b'}') && after == 0)
            || is_linkage(item)
    }

    fn next_old(&self, item: &WideToken) -> Option<Def>
        ensures { result ≡ next_old self.now item.now }
    {
        if item.role.is_sign(b';') {
            self.head.next_opened(self.opened)
        } else {
            None
        }
    }

    /// After a stop.
    fn stop(&mut self, item: &WideToken)
        requires { self.old.depth + 1 < 2 ^ 32 }
        ensures value { self.new ≡ stopped self.old item.now }
        ensures depth { self.new.depth ≤ self.old.depth + 1 }
        ensures count { self.new.parts.count ≤ self.old.parts.count + 1 }
    {
        self.opened = self.next_old(item);
        self.depth = self.next_depth(item);
        self.head = Head::new();
        self.parts = WideHead::new();
    }

    /// After the first of these tokens, which is no stop.
    #[inline(always)]
    fn grow(&mut self, ahead: &[WideToken], item: &WideToken)
        requires depth { self.old.depth + 1 < 2 ^ 32 }
        requires count { self.old.parts.count + 1 < 2 ^ 32 }
        ensures value { self.new ≡ grown self.old ahead.now item.now }
        ensures depth { self.new.depth ≤ self.old.depth + 1 }
        ensures count { self.new.parts.count ≤ self.old.parts.count + 1 }
    {
        let depth = self.next_depth(item);
        if self.depth == 0 {
            self.head.add(&item.token);
            self.parts.add(ahead, item);
        }
        self.depth = depth;
    }

    /// After a token that is no stop, where a declaration has the same open part, which goes on.
    #[inline(always)]
    pub(crate) fn go_on(&mut self, item: &WideToken)
        ensures { self.new ≡ record self.old { head = add self.old.head item.now.token } }
    {
        self.head.add(&item.token);
    }

    /// After a token of the file that is no brace, where a declaration has the same open part.
    #[inline(always)]
    pub(crate) fn next_beside(&mut self, declaration: &Declaration, item: &WideToken)
        requires { self.old.depth + 1 < 2 ^ 32 }
        ensures { self.new ≡ machine_beside declaration.now self.old item.now }
    {
        if item.role.is_sign(b';') {
            self.stop(item);
        } else {
            self.head.add(&item.token);
            self.parts.add_beside(declaration, item);
        }
    }

    /// After a token deeper in braces, which is of no head.
    #[inline(always)]
    pub(crate) fn next_inside(&mut self, item: &WideToken)
        requires { self.old.depth + 1 < 2 ^ 32 }
        ensures value { self.new ≡ next_inside self.old item.now }
        ensures depth { self.new.depth ≤ self.old.depth + 1 }
        ensures count { self.new.parts.count ≤ self.old.parts.count + 1 }
    {
        let after = self.next_depth(item);
        if self.stops(item, after) {
            self.stop(item);
        } else {
            self.depth = after;
        }
    }

    /// After the first of these tokens.
    #[inline(always)]
    pub(crate) fn next(&mut self, ahead: &[WideToken], item: &WideToken)
        requires depth { self.old.depth + 1 < 2 ^ 32 }
        requires count { self.old.parts.count + 1 < 2 ^ 32 }
        ensures value { self.new ≡ next self.old ahead.now item.now }
        ensures depth { self.new.depth ≤ self.old.depth + 1 }
        ensures count { self.new.parts.count ≤ self.old.parts.count + 1 }
    {
        let after = self.next_depth(item);
        if self.stops(item, after) {
            self.stop(item);
        } else {
            self.grow(ahead, item);
        }
    }
}
