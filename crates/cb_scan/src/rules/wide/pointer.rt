//! The name of a pointer, as in `(*f)(`.
ghost use Rattle.std.specs.Prelude.{◌≡◌};
ghost use Rattle.cb_scan.specs.steps.wide.Pointers.{next_pointer};

use crate::rules::wide::ahead::{second_is, second_is_word};
use crate::rules::wide::token::WideToken;

/// What is known of the name of the pointer that a part declares.
#[derive(Clone, Copy)]
pub(crate) enum Pointer {
    /// No `(` and `*` came.
    Nothing,
    /// They came, and no name since.
    Sought,
    /// The name, and whether `(` directly follows it.
    Found(WideToken, bool),
}

impl Pointer {
    /// After the first of these tokens.
    #[inline(always)]
    pub(crate) fn add(&mut self, is_outer: bool, ahead: &[WideToken], item: &WideToken)
        ensures { self.new ≡ next_pointer self.old is_outer ahead.now item.now }
    {
        match *self {
            Pointer::Nothing => {
                if is_outer && item.role.is_sign(b'(') && second_is(ahead, b'*') {
                    *self = Pointer::Sought;
                }
            }
            Pointer::Sought => {
                if item.role.is_name() && !second_is_word(ahead) {
                    *self = Pointer::Found(*item, second_is(ahead, b'('));
                }
            }
            Pointer::Found(_, _) => {}
        }
    }
}
