//! Runs of a language server.

use crate::Server;
use crate::disk::Disk;
use crate::turn::Ending;
use cb_tags::{Feed, Sink};
use cb_wire::Frames;
use json::Scratch;
use std::alloc::Global;
use std::io::{BufRead, Write};

/// Why a run stopped before its input ended.
#[derive(Clone, Copy, Debug, PartialEq, Eq)]
pub enum RunFault {
    /// Memory was refused at the start.
    Memory,
    /// The writer failed.
    Write,
    /// There were too many messages.
    ManyMessages,
}

impl Server {
    ghost use Rattle.cb_tags.specs.Readers.{WhateverFollows};
    ghost use Rattle.cb_lsp.specs.Runs.{LeavesRun};

    /// Reads messages and writes replies, until the input of the run ends. Files that are closed or
    /// written are read again. Memory is refused only before the first message; after it, a refusal
    /// is told to the client.
    pub fn serve<D: Disk, R: BufRead, W: Write>(
        &mut self,
        alloc: Global,
        disk: &D,
        feed: &mut Feed<R>,
        out: &mut Sink<W>,
    ) -> Result<Ending, RunFault>
        ensures { WhateverFollows feed.old feed.new (λ bytes left.
            LeavesRun (D.finds disk.now) bytes self.old self.new left out.old out.new result) }
    {
        let mut frames = match Frames::new(alloc) {
            Ok(frames) => frames,
            Err(_) => return Err(RunFault::Memory),
        };
        let mut scratch = Scratch::new(alloc);
        'turns: for _turn in 0..u64::MAX {
            match self.turn(alloc, disk, &mut frames, &mut scratch, feed, out) {
                Ok(None) => {}
                Ok(Some(ending)) => return Ok(ending),
                Err(_) => return Err(RunFault::Write),
            }
        }
        Err(RunFault::ManyMessages)
    }
}
