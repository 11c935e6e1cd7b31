//! A text and its lines.
ghost use Rattle.std.specs.Prelude.{◌≡◌, ◌≤◌, ◌<◌, ◌-◌, ◌+◌, ◌^◌, ◌↔◌, length, vec_len, IfOk};
ghost use Rattle.std.specs.Prelude.{nat_le, slice_get, None};
ghost use Rattle.cb_scan.specs.declared.source.TheConstants.{MOST_BYTES};
ghost use Rattle.std.specs.Option.{option_copied};
ghost use Rattle.bstr.specs.Text.{lines_of, without_terminator};
ghost use Rattle.cb_scan.specs.Lines.{lines, line_of, line_start, line_text};
ghost use Rattle.cb_scan.specs.steps.LineStarts.{line_starts};

use bstr::ByteSlice;
use std::alloc::{AllocError, Global};
use std::marker::Model;
use thiserror::Error;

/// The most bytes that a source holds.
const MOST_BYTES: usize = 268_435_456;

/// Why bytes are no source, or why a source could not be scanned.
#[derive(Clone, Copy, Debug, PartialEq, Eq, Error)]
pub enum ScanError {
    /// There are more than 268,435,456 bytes.
    #[error("a source holds at most 268435456 bytes")]
    TooLarge,
    /// A growth of memory was refused.
    #[error("out of memory")]
    OutOfMemory,
}

/// A text of at most 268,435,456 bytes, with the places at which its lines begin and the last one
/// ends.
#[derive(Debug, Drop)]
pub struct Source {
    bytes: Vec<u8>,
    starts: Vec<u32>,
}

impl Model for Source {
    ghost use Rattle.cb_scan.specs.declared.source.TheConstants.{MOST_BYTES};
    ghost use Rattle.std.specs.Prelude.{List, ℕ, ◌≤◌, ◌≡◌, length};
    ghost use Rattle.cb_scan.specs.steps.LineStarts.{line_starts};

    ghost Value = { List ℕ };

    ghost view = { λ s. s.bytes.items };

    ghost invariant = { λ s. (length s.bytes.items ≤ MOST_BYTES)
        × (s.starts.items ≡ line_starts s.bytes.items) };
}

/// Where the lines of a text begin, and where the last one ends.
fn line_starts(alloc: Global, text: &[u8]) -> Result<Vec<u32>, AllocError>
    requires { length text.now ≤ MOST_BYTES }
    ensures { IfOk result (λ starts. starts.items ≡ line_starts text.now) }
{
    let mut starts = Vec::new(alloc);
    let mut at = 0;
    for line in text.lines_with_terminator() {
        starts.push(at)?;
        at += line.len() as u32;
    }
    starts.push(at)?;
    Ok(starts)
}

/// The line of that index, with its line feed, by the table of line starts.
fn line_at<'a>(text: &'a [u8], starts: &[u32], index: usize) -> Option<&'a [u8]>
    requires table { starts.now ≡ line_starts text.now }
    requires small { index < 2 ^ 32 }
    ensures { option_copied result ≡ slice_get (lines_of text.now) index }
{
    if index + 1 >= starts.len() {
        return None;
    }
    let start = starts[index] as usize;
    let end = starts[index + 1] as usize;
    Some(&text[start..end])
}

/// A line as it is shown: without its line feed and one carriage return before that.
fn shown(line: &[u8]) -> &[u8]
    ensures { result.now ≡ without_terminator line.now }
{
    match line {
        [text @ .., b'\r', b'\n'] => text,
        [text @ .., b'\n'] => text,
        _ => line,
    }
}

impl Source {
    /// The bytes as a source: `TooLarge` over 268,435,456 of them, `OutOfMemory` where a growth was
    /// refused. On an error the bytes are dropped.
    pub fn new(alloc: Global, bytes: Vec<u8>) -> Result<Source, ScanError>
        ensures ok { IfOk result (λ s. s ≡ bytes.items) }
        ensures large { (result ≡ Err ScanError.TooLarge) ↔ (MOST_BYTES < vec_len bytes) }
        ensures small { IfOk result (λ s. vec_len bytes ≤ MOST_BYTES) }
    {
        if bytes.len() > MOST_BYTES {
            return Err(ScanError::TooLarge);
        }
        match line_starts(alloc, bytes.as_slice()) {
            Ok(starts) => Ok(Source { bytes, starts }),
            Err(_) => Err(ScanError::OutOfMemory),
        }
    }

    /// The text.
    pub fn bytes(&self) -> &[u8]
        ensures value { result.now ≡ self.now }
        ensures small { length result.now ≤ MOST_BYTES }
    {
        self.bytes.as_slice()
    }

    /// How many lines there are; a last line without line feed counts if it is not empty (POSIX
    /// text lines).
    pub fn line_count(&self) -> u32
        ensures { result ≡ length (lines self.now) }
    {
        (self.starts.as_slice().len() - 1) as u32
    }

    /// The shown line `n`, from 1; `None` at 0 and past the end. It takes constant time.
    pub fn line(&self, n: u32) -> Option<&[u8]>
        ensures zero { n ≡ 0 → result ≡ None }
        ensures line { 0 < n → option_copied result ≡ slice_get (lines self.now) (n - 1) }
    {
        let index = n.checked_sub(1)? as usize;
        let line = line_at(self.bytes.as_slice(), self.starts.as_slice(), index)?;
        Some(shown(line))
    }

    /// The shown line `n`, from 1; no bytes at 0 and past the end. It takes constant time.
    pub fn shown_line(&self, n: u32) -> &[u8]
        ensures { result.now ≡ line_text self.now n }
    {
        match self.line(n) {
            Some(text) => text,
            None => b"",
        }
    }

    /// The byte at which the shown line `n` begins, from 0; the end of the text past the last line,
    /// and 0 at line 0. It takes constant time.
    pub fn line_start(&self, n: u32) -> u32
        ensures value { result ≡ line_start self.now n }
        ensures within { result ≤ length self.now }
    {
        let starts = self.starts.as_slice();
        let index = n.saturating_sub(1) as usize;
        if index < starts.len() {
            starts[index]
        } else {
            self.bytes().len() as u32
        }
    }

    /// The line of a byte of the text, by binary search.
    fn line_of_byte(&self, place: usize) -> u32
        requires { place < length self.now }
        ensures { result ≡ line_of self.now place }
    {
        let starts = self.starts.as_slice();
        starts.partition_point(
            |start: &u32| -> bool
                ensures { result ≡ nat_le start.now place }
            { *start as usize <= place },
        ) as u32
    }

    /// The line of a place, a byte from 0: one more than the line feeds before it, also past the
    /// end. It takes a binary search.
    pub fn line_of(&self, place: u32) -> u32
        ensures { result ≡ line_of self.now place }
    {
        let bytes = self.bytes();
        let end = bytes.len().min(place as usize);
        match end.checked_sub(1) {
            Some(before) => self.line_of_byte(before) + (bytes[before] == b'\n') as u32,
            None => 1,
        }
    }
}
