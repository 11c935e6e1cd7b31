//! Bodies with an escape of one half of a surrogate pair, without the other half.
ghost use Rattle.std.specs.Prelude.{◌≡◌, ◌≤◌, IfOk};
ghost use Rattle.cb_wire.specs.Surrogates.{begins_with_escape, begins_with_half, half_at};
ghost use Rattle.cb_wire.specs.Surrogates.{begins_with_lone_half, begins_with_pair};
ghost use Rattle.cb_wire.specs.Surrogates.{front_size, front_text, is_escape, is_first_half};
ghost use Rattle.cb_wire.specs.Surrogates.{is_second_half, with_whole_pairs};

use crate::units::{after_place, before};
use std::alloc::{AllocError, Global};

/// Whether a text begins with a backslash.
fn begins_with_escape(text: &[u8]) -> bool
    ensures { result ≡ begins_with_escape text.now }
{
    matches!(text, [b'\\', ..])
}

/// Whether a hexadecimal digit is the second one of a first half.
fn is_first_half(digit: u8) -> bool
    ensures { result ≡ is_first_half digit }
{
    digit == b'8'
        || (digit == b'9' || (digit == b'A' || (digit == b'B' || (digit == b'a' || digit == b'b'))))
}

/// The same of a second half.
fn is_second_half(digit: u8) -> bool
    ensures { result ≡ is_second_half digit }
{
    (b'C' <= digit && digit <= b'F') || (b'c' <= digit && digit <= b'f')
}

/// Whether these are the bytes of the escape `\uDXXX`, but for its second digit.
fn is_escape(s: u8, u: u8, d: u8, x: u8, y: u8) -> bool
    ensures { result ≡ is_escape s u d x y }
{
    (s == b'\\' && u == b'u')
        && ((d == b'D' || d == b'd') && (x.is_ascii_hexdigit() && y.is_ascii_hexdigit()))
}

/// The second digit of the escape `\uDXXX` that a text begins with.
fn half_at(text: &[u8]) -> Option<u8>
    ensures { result ≡ half_at text.now }
{
    match text {
        [s, u, d, half, x, y, ..] => {
            if is_escape(*s, *u, *d, *x, *y) {
                Some(*half)
            } else {
                None
            }
        }
        _ => None,
    }
}

/// Whether a text begins with the escape of a first half.
fn begins_with_first_half(text: &[u8]) -> bool
    ensures { result ≡ begins_with_half is_first_half text.now }
{
    match half_at(text) {
        Some(digit) => is_first_half(digit),
        None => false,
    }
}

/// Whether a text begins with the escape of a second half.
fn begins_with_second_half(text: &[u8]) -> bool
    ensures { result ≡ begins_with_half is_second_half text.now }
{
    match half_at(text) {
        Some(digit) => is_second_half(digit),
        None => false,
    }
}

/// Whether a text begins with the escapes of both halves.
fn begins_with_pair(text: &[u8]) -> bool
    ensures { result ≡ begins_with_pair text.now }
{
    begins_with_first_half(text) && begins_with_second_half(after_place(text, 6))
}

/// Whether a text begins with the escape of one half, without the other.
fn begins_with_lone_half(text: &[u8]) -> bool
    ensures { result ≡ begins_with_lone_half text.now }
{
    !begins_with_pair(text) && (begins_with_first_half(text) || begins_with_second_half(text))
}

/// How many bytes stand for one character at the front of a text.
fn front_size(text: &[u8]) -> usize
    ensures value { result ≡ front_size text.now }
    ensures some { (1 ≤ result) × (result ≤ 12) }
{
    if begins_with_pair(text) {
        12
    } else if begins_with_lone_half(text) {
        6
    } else if begins_with_escape(text) {
        2
    } else {
        1
    }
}

/// What is read in their place.
fn front_text(text: &[u8]) -> &[u8]
    ensures { result.now ≡ front_text text.now }
{
    if begins_with_lone_half(text) {
        b"\\uFFFD"
    } else {
        before(text, front_size(text))
    }
}

/// A body with U+FFFD for each half of a surrogate pair that stands alone.
pub fn with_whole_pairs(alloc: Global, body: &[u8]) -> Result<Vec<u8>, AllocError>
    ensures { IfOk result (λ text. text.items ≡ with_whole_pairs body.now) }
{
    let mut text = Vec::new(alloc);
    let mut rest = body;
    'fronts: while rest.len() > 0 {
        text.extend_from_slice(front_text(rest))?;
        rest = after_place(rest, front_size(rest));
    }
    Ok(text)
}
