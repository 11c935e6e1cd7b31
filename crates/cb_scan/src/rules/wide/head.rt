//! The head of a function, as far as prototypes are asked for.
ghost use Rattle.std.specs.Prelude.{◌≡◌, ◌+◌, ◌<◌, ◌≤◌, ◌^◌, true};
ghost use Rattle.cb_scan.specs.steps.wide.Heads.{declared, head_start, next_head};
ghost use Rattle.cb_scan.specs.steps.wide.Joint.{head_beside, head_with};

use crate::rules::typedefs::nesting_after;
use crate::rules::wide::declaration::Declaration;
use crate::rules::wide::part::Part;
use crate::rules::wide::token::WideToken;

/// The tokens since the last stop: how many parentheses and brackets are open, the part that is
/// open, and the function that a part before it declares.
#[derive(Clone, Copy)]
pub(crate) struct WideHead {
    pub count: u32,
    part: Part,
    found: Option<WideToken>,
}

impl WideHead {
    pub(crate) fn new() -> WideHead
        ensures { result ≡ head_start }
    {
        WideHead {
            count: 0,
            part: Part::new(true),
            found: None,
        }
    }

    /// The function that the first part declares which declares one.
    pub(crate) fn declared(&self) -> Option<WideToken>
        ensures { result ≡ declared self.now }
    {
        match self.found {
            Some(name) => Some(name),
            None => self.part.function(),
        }
    }

    /// No token came.
    pub(crate) fn is_new(&self) -> bool
        ensures { result ≡ true → self.now ≡ head_start }
    {
        self.part.is_new() && self.count == 0 && self.found.is_none()
    }

    /// With the open part of a declaration.
    pub(crate) fn part_from(&mut self, declaration: &Declaration)
        ensures { self.new ≡ head_with true declaration.now self.old }
    {
        self.count = declaration.count;
        self.part = declaration.part;
    }

    /// After a token that is no brace, where a declaration has the same open part.
    #[inline(always)]
    pub(crate) fn add_beside(&mut self, declaration: &Declaration, item: &WideToken)
        ensures { self.new ≡ head_beside declaration.now self.old item.now }
    {
        if declaration.count == 0 && item.role.is_sign(b',') && self.found.is_none() {
            self.found = declaration.part.function();
        }
    }

    /// After the first of these tokens.
    #[inline(always)]
    pub(crate) fn add(&mut self, ahead: &[WideToken], item: &WideToken)
        requires { self.old.count + 1 < 2 ^ 32 }
        ensures value { self.new ≡ next_head self.old ahead.now item.now }
        ensures small { self.new.count ≤ self.old.count + 1 }
    {
        let is_outer = self.count == 0;
        if is_outer && item.role.is_sign(b',') {
            self.found = self.declared();
            self.part = Part::new(false);
        } else {
            self.part.add(ahead, item, is_outer);
        }
        self.count = nesting_after(&item.token, self.count);
    }
}
