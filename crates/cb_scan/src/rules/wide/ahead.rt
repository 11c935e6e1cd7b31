//! What follows the next token.
ghost use Rattle.std.specs.Prelude.{◌≡◌};
ghost use Rattle.cb_scan.specs.steps.wide.Ahead.{encloses_name, opens_twice, rest_encloses_name};
ghost use Rattle.cb_scan.specs.steps.wide.Ahead.{second_is, second_is_word};

use crate::rules::wide::token::WideToken;

/// The second token is the lone byte.
pub(crate) fn second_is(ahead: &[WideToken], byte: u8) -> bool
    ensures { result ≡ second_is byte ahead.now }
{
    match ahead {
        [_, second, ..] => second.role.is_sign(byte),
        _ => false,
    }
}

/// The second token and the third are `(`.
pub(crate) fn opens_twice(ahead: &[WideToken]) -> bool
    ensures { result ≡ opens_twice ahead.now }
{
    match ahead {
        [_, second, third, ..] => second.role.is_sign(b'(') && third.role.is_sign(b'('),
        _ => false,
    }
}

/// The second token is a word.
pub(crate) fn second_is_word(ahead: &[WideToken]) -> bool
    ensures { result ≡ second_is_word ahead.now }
{
    match ahead {
        [_, second, ..] => second.role.is_word(),
        _ => false,
    }
}

/// The tokens begin with `(`, a name, `)` and `(`.
pub(crate) fn encloses_name(ahead: &[WideToken]) -> bool
    ensures { result ≡ encloses_name ahead.now }
{
    match ahead {
        [a, b, c, d, ..] => {
            a.role.is_sign(b'(') && b.role.is_name() && c.role.is_sign(b')') && d.role.is_sign(b'(')
        }
        _ => false,
    }
}

/// The tokens after the first do.
pub(crate) fn rest_encloses_name(ahead: &[WideToken]) -> bool
    ensures { result ≡ rest_encloses_name ahead.now }
{
    match ahead {
        [_, rest @ ..] => encloses_name(rest),
        [] => false,
    }
}
