//! Input, a byte or a piece at a time.
ghost use Rattle.std.specs.Prelude.{◌≡◌, ◌↔◌, ◌≤◌, ◌<◌, ◌-◌, ◌++◌, IsTrue, length, min, take};
ghost use Rattle.std.specs.Prelude.{vec_capacity};
ghost use Rattle.cb_tags.specs.Readers.{GivesByte, GivesPiece};

use std::io::BufRead;
use std::marker::Model;

/// The reader's own call failed or was interrupted, now or before.
#[derive(Clone, Copy, Debug, PartialEq, Eq)]
pub struct ReadFault;

/// How far a feed is.
#[derive(Clone, Copy, Debug, PartialEq, Eq)]
enum Stage {
    /// The reader is asked.
    Open,
    /// The end of input was met, and the reader is asked no more.
    Ended,
    /// The reader failed, and is asked no more.
    Failed,
}

/// A reader that remembers its end and its failure.
#[derive(Drop)]
pub struct Feed<R: BufRead> {
    reader: R,
    stage: Stage,
}

impl<R: BufRead> Model for Feed<R> {
    ghost use Rattle.cb_tags.specs.Readers.{Reader, left_at};

    ghost Value = { Reader };

    ghost view = { λ f.
        record { bytes = left_at f.stage (R.remaining f.reader); stage = f.stage } };
}

impl<R: BufRead> Feed<R> {
    /// A feed that has not failed.
    pub fn new(reader: R) -> Feed<R>
        ensures bytes { result.bytes ≡ R.remaining reader }
        ensures stage { result.stage ≡ Stage.Open }
    {
        Feed {
            reader,
            stage: Stage::Open,
        }
    }

    /// The next byte, or `None` at the end of input and ever after. After a fault each further call
    /// is a fault.
    pub fn byte(&mut self) -> Result<Option<u8>, ReadFault>
        ensures { GivesByte self.old self.new result }
    {
        match self.stage {
            Stage::Open => {}
            Stage::Ended => return Ok(None),
            Stage::Failed => return Err(ReadFault),
        }
        let first = match self.reader.fill_buf() {
            Ok(bytes) => bytes.first().copied(),
            Err(_) => {
                self.stage = Stage::Failed;
                return Err(ReadFault);
            }
        };
        match first {
            Some(_) => self.reader.consume(1),
            None => self.stage = Stage::Ended,
        }
        Ok(first)
    }

    /// Appends the next bytes to those that are kept, at least one, up to `count` in all; `false`
    /// at the end of input and ever after. After a fault each further call is a fault.
    pub fn piece(&mut self, count: usize, kept: &mut Vec<u8>) -> Result<bool, ReadFault>
        requires { (length kept.old.items < count) × (count ≤ vec_capacity kept.old) }
        ensures piece { GivesPiece self.old self.new count kept.old.items kept.new.items result }
        ensures room { vec_capacity kept.old ≤ vec_capacity kept.new }
    {
        if self.failed() {
            return Err(ReadFault);
        }
        if self.stage == Stage::Ended {
            return Ok(false);
        }
        let Ok(bytes) = self.reader.fill_buf() else {
            self.stage = Stage::Failed;
            return Err(ReadFault);
        };
        let taken = keep_front(bytes, count, kept);
        if taken == 0 {
            self.stage = Stage::Ended;
            return Ok(false);
        }
        self.reader.consume(taken);
        Ok(true)
    }

    /// Whether the reader has failed.
    pub fn failed(&self) -> bool
        ensures { IsTrue result ↔ (self.now.stage ≡ Stage.Failed) }
    {
        matches!(self.stage, Stage::Failed)
    }
}

/// Appends the first of these bytes to those that are kept, up to `count` in all. How many.
fn keep_front(bytes: &[u8], count: usize, kept: &mut Vec<u8>) -> usize
    requires { (length kept.old.items < count) × (count ≤ vec_capacity kept.old) }
    ensures taken { result ≡ min (length bytes.now) (count - length kept.old.items) }
    ensures kept { kept.new.items ≡ kept.old.items ++ take result bytes.now }
    ensures room { vec_capacity kept.old ≤ vec_capacity kept.new }
{
    let taken = bytes.len().min(count - kept.len());
    if kept.extend_from_slice(&bytes[..taken]).is_err() {
        unreachable!();
    }
    taken
}
