//! The body of an enumeration, a token at a time.
ghost use Rattle.std.specs.Prelude.{◌≡◌, ◌+◌, ◌<◌, ◌≤◌, ◌^◌};
ghost use Rattle.cb_scan.specs.steps.wide.Enumerators.{enumeration_start, is_enumerator};
ghost use Rattle.cb_scan.specs.steps.wide.Enumerators.{next_enumeration};

use crate::rules::typedefs::nesting_after;
use crate::rules::wide::ahead::second_is;
use crate::rules::wide::token::WideToken;

/// How many parentheses and brackets are open, and whether a name that comes next is an enumerator.
#[derive(Clone, Copy)]
pub(crate) struct Enumeration {
    pub count: u32,
    expects: bool,
}

impl Enumeration {
    pub(crate) fn new() -> Enumeration
        ensures { result ≡ enumeration_start }
    {
        Enumeration {
            count: 0,
            expects: true,
        }
    }

    /// Whether the first of these tokens is an enumerator.
    pub(crate) fn finds(self, ahead: &[WideToken]) -> bool
        ensures { result ≡ is_enumerator self ahead.now }
    {
        match ahead {
            [first, ..] => self.expects && first.role.is_name() && !second_is(ahead, b'('),
            [] => false,
        }
    }

    /// The state after a token.
    pub(crate) fn next(self, item: &WideToken) -> Enumeration
        requires { self.count + 1 < 2 ^ 32 }
        ensures value { result ≡ next_enumeration self item.now }
        ensures small { result.count ≤ self.count + 1 }
    {
        Enumeration {
            count: nesting_after(&item.token, self.count),
            expects: self.count == 0 && item.role.is_sign(b','),
        }
    }
}
