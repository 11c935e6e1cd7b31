//! The bytes of a name, of a blank or of a comment, many at a time.
ghost use Rattle.std.specs.Prelude.{◌≡◌, ◌≤◌, length, take, count_by};
ghost use Rattle.std.specs.List.{prefix_len};
ghost use Rattle.cb_scan.specs.lex.Lexeme.{is_word};
ghost use Rattle.cb_scan.specs.steps.Lanes.{first_set, is_space};
ghost use Rattle.cb_scan.specs.steps.Lined.{is_feed};

use std::simd::prelude::*;

/// How many bytes are looked at together.
pub(crate) const LANES: usize = 16;

/// The place of the lowest bit that is set, or the number of lanes.
#[inline]
fn first_set(mask: u64) -> usize
    ensures { result ≡ first_set mask }
{
    if mask == 0 {
        LANES
    } else {
        mask.trailing_zeros() as usize
    }
}

/// How many of the first bytes of a text are letters, digits and `_`, up to the number of lanes.
#[inline]
pub(crate) fn word_run(text: &[u8]) -> usize
    requires { LANES ≤ length text.now }
    ensures { result ≡ prefix_len is_word (take LANES text.now) }
{
    let bytes = u8x16::from_slice(text);
    let from_a = (bytes | u8x16::splat(0x20)) - u8x16::splat(b'a');
    let from_0 = bytes - u8x16::splat(b'0');
    let stops = from_a.simd_ge(u8x16::splat(26))
        & from_0.simd_ge(u8x16::splat(10))
        & bytes.simd_ne(u8x16::splat(b'_'));
    first_set(stops.to_bitmask())
}

/// How many of the first bytes of a text are spaces and tabs, up to the number of lanes.
#[inline]
pub(crate) fn space_run(text: &[u8]) -> usize
    requires { LANES ≤ length text.now }
    ensures { result ≡ prefix_len is_space (take LANES text.now) }
{
    let bytes = u8x16::from_slice(text);
    let stops = bytes.simd_ne(u8x16::splat(b' ')) & bytes.simd_ne(u8x16::splat(b'\t'));
    first_set(stops.to_bitmask())
}

/// How many of the first bytes of a text are line feeds, of as many as there are lanes.
#[inline]
pub(crate) fn feed_lanes(text: &[u8]) -> u32
    requires { LANES ≤ length text.now }
    ensures { result ≡ count_by is_feed (take LANES text.now) }
{
    let feeds = u8x16::from_slice(text).simd_eq(u8x16::splat(b'\n'));
    feeds.to_bitmask().count_ones()
}
