//! A part of a declaration, or of the head of a function, a token at a time.
ghost use Rattle.std.specs.Prelude.{◌≡◌, true};
ghost use Rattle.cb_scan.specs.steps.wide.Parts.{begins_value, function, is_stray, may_declare};
ghost use Rattle.cb_scan.specs.steps.wide.Parts.{named, next_part, part_start};

use crate::rules::wide::called::Calls;
use crate::rules::wide::pointer::Pointer;
use crate::rules::wide::role::WideRole;
use crate::rules::wide::tail::Tail;
use crate::rules::wide::token::WideToken;

/// What is known of a part.
#[derive(Clone, Copy)]
pub(crate) struct Part {
    calls: Calls,
    pointer: Pointer,
    tail: Tail,
    pub has_value: bool,
    pub is_stray: bool,
}

/// An `=` or `:` outside parentheses and brackets.
#[inline(always)]
fn begins_value(is_outer: bool, item: &WideToken) -> bool
    ensures { result ≡ begins_value is_outer item.now }
{
    is_outer && matches!(item.role, WideRole::Mark(b'=' | b':'))
}

/// A word, a string, a brace, `*`, or one of the parentheses and brackets.
#[inline(always)]
fn may_declare(item: &WideToken) -> bool
    ensures { result ≡ may_declare item.now }
{
    item.role.is_word()
        || item.role.is_text()
        || item.counted
        || matches!(item.role, WideRole::Mark(b'*' | b'(' | b')' | b'[' | b']'))
}

/// A token that no declaration has outside parentheses and brackets.
#[inline(always)]
fn is_stray(is_outer: bool, item: &WideToken) -> bool
    ensures { result ≡ is_stray is_outer item.now }
{
    is_outer && (item.role.is_statement_word() || !may_declare(item))
}

impl Part {
    pub(crate) fn new(is_first: bool) -> Part
        ensures { result ≡ part_start is_first }
    {
        Part {
            calls: Calls::new(),
            pointer: Pointer::Nothing,
            tail: Tail::new(is_first),
            has_value: false,
            is_stray: false,
        }
    }

    /// The first part begins.
    pub(crate) fn is_new(&self) -> bool
        ensures { result ≡ true → self.now ≡ part_start true }
    {
        self.tail.is_new()
            && self.calls.is_new()
            && matches!(self.pointer, Pointer::Nothing)
            && !self.has_value
            && !self.is_stray
    }

    /// After the first of these tokens. The value is passed over.
    #[inline(always)]
    pub(crate) fn add(&mut self, ahead: &[WideToken], item: &WideToken, is_outer: bool)
        ensures { self.new ≡ next_part self.old is_outer ahead.now item.now }
    {
        if self.has_value {
            return;
        }
        if begins_value(is_outer, item) {
            self.has_value = true;
            return;
        }
        self.is_stray = self.is_stray || is_stray(is_outer, item);
        self.calls.add(is_outer, ahead, item);
        self.pointer.add(is_outer, ahead, item);
        self.tail.add(is_outer, ahead, item);
    }

    /// The name of the part.
    pub(crate) fn named(&self) -> Option<WideToken>
        ensures { result ≡ named self.now }
    {
        match (&self.calls.found, &self.pointer) {
            (Some(called), _) => Some(called.name),
            (None, Pointer::Nothing) => self.tail.name,
            (None, Pointer::Sought) => None,
            (None, Pointer::Found(name, _)) => Some(*name),
        }
    }

    /// The name of the function that the part declares.
    pub(crate) fn function(&self) -> Option<WideToken>
        ensures { result ≡ function self.now }
    {
        if self.has_value {
            return None;
        }
        match (&self.calls.found, &self.pointer) {
            (Some(called), _) => {
                if called.starred {
                    None
                } else {
                    Some(called.name)
                }
            }
            (None, Pointer::Found(name, is_called)) => {
                if *is_called { Some(*name) } else { None }
            }
            (None, Pointer::Nothing | Pointer::Sought) => self.tail.prototype,
        }
    }
}
