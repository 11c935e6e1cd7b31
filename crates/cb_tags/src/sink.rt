//! Output that remembers a failure.
ghost use Rattle.std.specs.Prelude.{◌≡◌, ◌≢◌, [], false};
ghost use Rattle.cb_tags.specs.Writers.{TakesBytes, Flushes};

use std::io::Write;
use std::marker::Model;

/// The writer's own call failed, was interrupted or took no bytes, now or before.
#[derive(Clone, Copy, Debug, PartialEq, Eq)]
pub struct WriteFault;

/// A writer that remembers its failure.
#[derive(Drop)]
pub struct Sink<W: Write> {
    writer: W,
    broken: bool,
    pending: bool,
}

impl<W: Write> Model for Sink<W> {
    ghost use Rattle.cb_tags.specs.Writers.{Writer};

    ghost Value = { Writer };

    ghost view = { λ s.
        record { bytes = W.contents s.writer; failed = s.broken; pending = s.pending } };
}

impl<W: Write> Sink<W> {
    /// A sink that has not failed, and has taken nothing.
    pub fn new(writer: W) -> Sink<W>
        ensures bytes { result.bytes ≡ W.contents writer }
        ensures fine { (result.failed ≡ false) × (result.pending ≡ false) }
    {
        Sink {
            writer,
            broken: false,
            pending: false,
        }
    }

    /// Takes the first of the bytes, and answers how many it took. After a fault each further call
    /// is a fault.
    pub fn write(&mut self, bytes: &[u8]) -> Result<usize, WriteFault>
        requires { bytes.now ≢ [] }
        ensures { TakesBytes self.old self.new result bytes.now }
    {
        if self.broken {
            return Err(WriteFault);
        }
        match self.writer.write(bytes) {
            Ok(taken) if taken > 0 => {
                self.pending = true;
                Ok(taken)
            }
            _ => {
                self.broken = true;
                Err(WriteFault)
            }
        }
    }

    /// Hands on what the writer keeps back. After a fault each further call is a fault.
    pub fn flush(&mut self) -> Result<(), WriteFault>
        ensures { Flushes self.old self.new result }
    {
        if self.broken {
            return Err(WriteFault);
        }
        match self.writer.flush() {
            Ok(()) => {
                self.pending = false;
                Ok(())
            }
            Err(_) => {
                self.broken = true;
                Err(WriteFault)
            }
        }
    }

    /// The writer.
    pub fn into_inner(self) -> W
        ensures { W.contents result ≡ self.bytes }
    {
        self.writer
    }

    /// Whether the writer has failed.
    pub fn failed(&self) -> bool
        ensures { result ≡ self.now.failed }
    {
        self.broken
    }
}
