//! Addresses: how they are written and read, and the lines that they find.
ghost use Rattle.std.specs.Prelude.{◌≡◌, ◌≢◌, ◌++◌, ℕ, false, List, codes, MatchOption};
ghost use Rattle.std.specs.Str.{bytes_eq};
ghost use Rattle.cb_scan.specs.Lines.{line_text};
ghost use Rattle.cb_tags.specs.Addresses.{is_escaped, escape, address, IsAddress, finds};
ghost use Rattle.cb_tags.specs.Writing.{Puts};
ghost use Rattle.cb_tags.specs.steps.Items.{are_items, unescaped};

use crate::sink::{Sink, WriteFault};
use crate::text::{put_text, put_texts};
use cb_scan::Source;
use std::io::Write;
use std::marker::Model;

/// Whether an address has a `\` before this byte.
fn is_escaped(byte: u8) -> bool
    ensures { result ≡ is_escaped byte }
{
    byte == b'/' || byte == b'\\'
}

/// Writes a text with `\` before each `/` and each `\`, in pieces that each begin with such a byte.
fn put_escaped<W: Write>(out: &mut Sink<W>, text: &[u8]) -> Result<(), WriteFault>
    ensures { Puts out.old out.new result (escape text.now) }
{
    let mut start = 0;
    for (i, byte) in text.iter().enumerate() {
        if is_escaped(*byte) {
            put_texts(out, &[&text[start..i], b"\\"])?;
            start = i;
        }
    }
    put_text(out, &text[start..])
}

/// Writes the address of a line that reads so.
#[tactic(auto, unfolding(crate::specs::Addresses::address))]
pub(crate) fn put_address<W: Write>(out: &mut Sink<W>, text: &[u8]) -> Result<(), WriteFault>
    ensures { Puts out.old out.new result (address text.now) }
{
    put_text(out, b"/^")?;
    put_escaped(out, text)?;
    put_text(out, b"$/")
}

/// An address, whose text is a whole line.
#[derive(Debug, Drop)]
pub struct Address<'a> {
    items: &'a [u8],
}

impl<'a> Model for Address<'a> {
    ghost use Rattle.std.specs.Prelude.{List, ℕ, ◌≡◌, true, false};
    ghost use Rattle.cb_tags.specs.steps.Items.{are_items, unescaped};

    ghost Value = { List ℕ };

    ghost view = { λ a. unescaped false a.items.now };

    ghost invariant = { λ a. are_items false a.items.now ≡ true };
}

/// Whether the bytes are whole items: `\/`, `\\`, or a byte other than `/`, `\` and a line feed.
#[tactic(auto, unfolding(crate::specs::steps::Items::are_items))]
fn are_items(bytes: &[u8]) -> bool
    ensures { result ≡ are_items false bytes.now }
{
    let mut escaping = false;
    for byte in bytes {
        match *byte {
            b'/' | b'\\' if escaping => escaping = false,
            b'\\' => escaping = true,
            b'/' | b'\n' => return false,
            _ if escaping => return false,
            _ => {}
        }
    }
    !escaping
}

/// Whether the items stand for this text.
#[tactic(auto, unfolding(crate::specs::steps::Items::unescaped))]
fn stand_for(items: &[u8], text: &[u8]) -> bool
    ensures { result ≡ bytes_eq (unescaped false items.now) text.now }
{
    let mut rest = text;
    let mut escaping = false;
    for byte in items {
        if *byte == b'\\' && !escaping {
            escaping = true;
        } else {
            match rest {
                [first, more @ ..] if first == byte => rest = more,
                _ => return false,
            }
            escaping = false;
        }
    }
    rest.is_empty()
}

/// What is between `/^` and `$/`; `None` where the bytes don't begin and end so.
fn between_anchors(bytes: &[u8]) -> Option<&[u8]>
    ensures { MatchOption result ((items : List ℕ) → bytes.now ≢ codes "/^" ++ items ++ codes "$/")
        (λ items. bytes.now ≡ codes "/^" ++ items.now ++ codes "$/") }
{
    bytes.strip_prefix(b"/^")?.strip_suffix(b"$/")
}

/// The bytes as an address: `/^`, items that are `\/`, `\\` or a byte other than `/`, `\` and a
/// line feed, then `$/`. Its text is the items without the `\` that escapes. `None` for any other
/// bytes.
pub fn read_address(bytes: &[u8]) -> Option<Address<'_>>
    ensures { MatchOption result ((text : List ℕ) → IsAddress bytes.now text → ⊥)
        (λ text. IsAddress bytes.now text) }
{
    match between_anchors(bytes) {
        Some(items) if are_items(items) => Some(Address { items }),
        _ => None,
    }
}

impl Address<'_> {
    /// Whether line `n` of the source, from 1, reads as the address says.
    fn is_at(&self, source: &Source, n: u32) -> bool
        ensures { result ≡ bytes_eq self.now (line_text source.now n) }
    {
        stand_for(self.items, source.shown_line(n))
    }

    /// The first line of the source, from 1, that reads as the address says; `None` where none
    /// does.
    #[tactic(auto, unfolding(crate::specs::Addresses::finds))]
    pub fn find(&self, source: &Source) -> Option<u32>
        ensures { result ≡ finds source.now self.now }
    {
        for index in 0..source.line_count() {
            if self.is_at(source, index + 1) {
                return Some(index + 1);
            }
        }
        None
    }
}
