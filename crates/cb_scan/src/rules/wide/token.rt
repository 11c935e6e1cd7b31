//! Tokens of the code as the wide profile reads them.
ghost use Rattle.std.specs.Prelude.{◌≡◌};
ghost use Rattle.cb_scan.specs.steps.wide.Tokens.{token_as};

use crate::lex::token::Token;
use crate::rules::functions::Before;
use crate::rules::wide::role::WideRole;

/// A token of the code: what it is for the wide profile, and whether it is a `{` that counts.
#[derive(Clone, Copy)]
pub struct WideToken {
    pub token: Token,
    pub role: WideRole,
    pub counted: bool,
}

/// A token of this role, which counts as a `{` by what is directly before it.
#[inline(always)]
pub(crate) fn token_as(role: WideRole, before: Before, token: &Token) -> WideToken
    ensures { result ≡ token_as role before token.now }
{
    WideToken {
        token: token.copied(),
        role,
        counted: token.is_mark(b'{') && !matches!(before, Before::Linkage),
    }
}
