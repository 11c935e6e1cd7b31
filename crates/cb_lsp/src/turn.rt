//! Turns of a run: a message is read, and taken.
ghost use Rattle.std.specs.Prelude.{◌≡◌};
ghost use Rattle.cb_lsp.specs.Endings.{ending_at};
ghost use Rattle.cb_lsp.specs.steps.Turns.{ending_of};

use crate::Server;
use crate::body::going_on;
use crate::disk::Disk;
use crate::server::Stage;
use cb_tags::{Feed, Sink, WriteFault};
use cb_wire::{Frame, FrameError, Frames};
use json::Scratch;
use std::alloc::Global;
use std::io::{BufRead, Write};

/// How the input of a run ended.
#[derive(Clone, Copy, Debug, PartialEq, Eq)]
pub enum Ending {
    /// By `exit`, or at the end of input before a message, after `shutdown`.
    Down,
    /// The same, before it.
    Early,
    /// There was no head of a message.
    BadHeader,
    /// The input ended inside a message.
    InputEnded,
    /// The reader failed.
    Read,
}

/// The ending of a run that the client ends.
fn ending_at(stage: Stage) -> Ending
    ensures { result ≡ ending_at stage }
{
    match stage {
        Stage::Down => Ending::Down,
        Stage::Fresh => Ending::Early,
        Stage::Running => Ending::Early,
    }
}

/// The ending of a run where a message could not be read.
fn ending_of(error: FrameError) -> Ending
    ensures { result ≡ ending_of error }
{
    match error {
        FrameError::BadHeader => Ending::BadHeader,
        FrameError::InputEnded => Ending::InputEnded,
        FrameError::Read => Ending::Read,
    }
}

impl Server {
    ghost use Rattle.cb_tags.specs.Readers.{WhateverFollows};
    ghost use Rattle.cb_wire.specs.Frames.{first};
    ghost use Rattle.cb_lsp.specs.Endings.{LeavesTurn};
    ghost use Rattle.cb_lsp.specs.steps.Turns.{GoesOn};

    /// Hands on what was written for a message; the ending of the run, if the message ends it.
    fn go_on<W: Write>(
        &self,
        out: &mut Sink<W>,
        taken: Result<bool, WriteFault>,
    ) -> Result<Option<Ending>, WriteFault>
        ensures { GoesOn self.now.stage taken out.old out.new result }
    {
        match taken {
            Ok(true) => Ok(Some(ending_at(self.stage()))),
            Ok(false) => match out.flush() {
                Ok(()) => Ok(None),
                Err(fault) => Err(fault),
            },
            Err(fault) => Err(fault),
        }
    }

    /// Reads a message, and takes it; the ending of the run, if it ends.
    pub(crate) fn turn<D: Disk, R: BufRead, W: Write>(
        &mut self,
        alloc: Global,
        disk: &D,
        frames: &mut Frames,
        scratch: &mut Scratch,
        feed: &mut Feed<R>,
        out: &mut Sink<W>,
    ) -> Result<Option<Ending>, WriteFault>
        ensures { WhateverFollows feed.old feed.new (λ bytes left.
            LeavesTurn (D.finds disk.now) (first bytes) self.old self.new left
            out.old out.new result) }
    {
        match frames.read(feed) {
            Ok(Frame::Body(body)) => {
                let taken = self.take_body(alloc, disk, out, scratch, body);
                self.go_on(out, taken)
            }
            Ok(Frame::TooLarge) => {
                let taken = going_on(self.drop_body(out, b"too large"));
                self.go_on(out, taken)
            }
            Ok(Frame::OutOfMemory) => {
                let taken = going_on(self.drop_body(out, b"out of memory"));
                self.go_on(out, taken)
            }
            Ok(Frame::End) => Ok(Some(ending_at(self.stage()))),
            Err(error) => Ok(Some(ending_of(error))),
        }
    }
}
