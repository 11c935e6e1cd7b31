//! Messages as they come in a stream.
ghost use Rattle.std.specs.Prelude.{◌≡◌, ◌≤◌, List, ℕ, [], Some, vec_capacity};
ghost use Rattle.cb_tags.specs.Readers.{WhateverFollows};
ghost use Rattle.cb_wire.specs.declared.head.TheConstants.{MOST_HEAD};
ghost use Rattle.cb_wire.specs.Frames.{ReadsFrame, first_body};
ghost use Rattle.cb_wire.specs.steps.ReadBodies.{ReadsBody, Skips};
ghost use Rattle.cb_wire.specs.steps.ReadHeads.{EndsKnown};

use crate::head::{HeadRead, MOST_HEAD, read_head};
use crate::header::content_length;
use cb_tags::{Feed, ReadFault};
use std::alloc::{AllocError, Global};
use std::io::BufRead;

/// The most bytes of a body that is kept.
pub const MOST_BODY: usize = 16_000_000;

/// What a stream had next.
#[derive(Clone, Copy, Debug, PartialEq, Eq)]
pub enum Frame<'a> {
    /// The body of a message.
    Body(&'a [u8]),
    /// A body of more than 16,000,000 bytes, which was dropped.
    TooLarge,
    /// A body that memory was refused for, and that was dropped.
    OutOfMemory,
    /// The end of input, before a message.
    End,
}

/// Why a stream had no message.
#[derive(Clone, Copy, Debug, PartialEq, Eq)]
pub enum FrameError {
    /// There is no head of a message.
    BadHeader,
    /// The input ended inside a message.
    InputEnded,
    /// The reader failed.
    Read,
}

impl From<ReadFault> for FrameError {
    ghost use Rattle.std.specs.Prelude.{◌≡◌};
    ghost use Rattle.cb_wire.specs.declared.frame.FrameError.TheVariants.{Read};

    ghost from_gives = { λ _ e. e ≡ Read };

    fn from(_fault: ReadFault) -> FrameError {
        FrameError::Read
    }
}

/// Room for the heads and the bodies of a stream.
#[derive(Debug, Drop)]
pub struct Frames {
    head: Vec<u8>,
    body: Vec<u8>,
    ghost room: { MOST_HEAD ≤ vec_capacity head },
}

impl Frames {
    ghost use Rattle.std.specs.Prelude.{◌≡◌, ◌≤◌, IfOk, List, ℕ, Some, vec_capacity};
    ghost use Rattle.cb_tags.specs.Readers.{WhateverFollows};
    ghost use Rattle.cb_wire.specs.Frames.{ReadsFrame, first};

    /// Room for a head, and for a body of 65,536 bytes.
    pub fn new(alloc: Global) -> Result<Frames, AllocError>
        ensures room { IfOk result (λ frames. 65536 ≤ vec_capacity frames.body) }
    {
        let head = Vec::with_capacity(alloc, MOST_HEAD)?;
        let body = Vec::with_capacity(alloc, 65_536)?;
        Ok(Frames { head, body })
    }

    /// Reads the next message. Memory is taken only for a body that is larger than each before.
    pub fn read<R: BufRead>(&mut self, feed: &mut Feed<R>) -> Result<Frame<'_>, FrameError>
        ensures frame { (bytes : List ℕ) → feed.old.bytes ≡ Some bytes
            → ReadsFrame (first bytes) feed.new result }
        ensures every_input { WhateverFollows feed.old feed.new
            (λ bytes left. ReadsFrame (first bytes) left result) }
    {
        match read_head(feed, &mut self.head)? {
            HeadRead::End => return Ok(Frame::End),
            HeadRead::Ended => return Err(FrameError::InputEnded),
            HeadRead::Bad => return Err(FrameError::BadHeader),
            HeadRead::Whole => {}
        }
        match content_length(self.head.as_slice()) {
            Some(count) => first_body(feed, count, &mut self.body),
            None => Err(FrameError::BadHeader),
        }
    }
}

/// Reads the body behind a head, or drops it.
fn first_body<'a, R: BufRead>(
    feed: &mut Feed<R>,
    count: usize,
    body: &'a mut Vec<u8>,
) -> Result<Frame<'a>, FrameError>
    ensures follows { WhateverFollows feed.old feed.new
        (λ bytes left. ReadsFrame (first_body count bytes) left result) }
    ensures ends { EndsKnown feed.old → EndsKnown feed.new }
{
    if count > MOST_BODY {
        return if skip(feed, count)? {
            Ok(Frame::TooLarge)
        } else {
            Err(FrameError::InputEnded)
        };
    }
    body.clear();
    if body.reserve(count).is_err() {
        return if skip(feed, count)? {
            Ok(Frame::OutOfMemory)
        } else {
            Err(FrameError::InputEnded)
        };
    }
    if read_body(feed, count, body)? {
        Ok(Frame::Body(body.as_slice()))
    } else {
        Err(FrameError::InputEnded)
    }
}

/// Reads a body of that many bytes; `false` where the input ends before.
fn read_body<R: BufRead>(
    feed: &mut Feed<R>,
    count: usize,
    body: &mut Vec<u8>,
) -> Result<bool, ReadFault>
    requires { (body.old.items ≡ []) × (count ≤ vec_capacity body.old) }
    ensures follows { WhateverFollows feed.old feed.new
        (λ bytes left. ReadsBody count bytes left body.new.items result) }
    ensures ends { EndsKnown feed.old → EndsKnown feed.new }
    ensures room { vec_capacity body.old ≤ vec_capacity body.new }
{
    'pieces: while body.len() < count {
        if !feed.piece(count, body)? {
            return Ok(false);
        }
    }
    Ok(true)
}

/// Reads so many bytes, and drops them; `false` where the input ends before.
fn skip<R: BufRead>(feed: &mut Feed<R>, count: usize) -> Result<bool, ReadFault>
    ensures follows { WhateverFollows feed.old feed.new
        (λ bytes left. Skips count bytes left result) }
    ensures ends { EndsKnown feed.old → EndsKnown feed.new }
{
    'bytes: for read in 0..count {
        match feed.byte()? {
            Some(_) => {}
            None => return Ok(false),
        }
    }
    Ok(true)
}
