//! The head of a message.
ghost use Rattle.std.specs.Prelude.{◌≡◌, ◌≤◌, ◌<◌, vec_capacity};
ghost use Rattle.cb_tags.specs.Readers.{WhateverFollows};
ghost use Rattle.cb_wire.specs.Heads.{next};
ghost use Rattle.cb_wire.specs.steps.ReadHeads.{EndsKnown, ReadsHead};

use cb_tags::{Feed, ReadFault};
use std::io::BufRead;

/// The most bytes of a head.
pub(crate) const MOST_HEAD: usize = 4_096;

/// How far a line of a head is.
#[derive(Clone, Copy, Debug, PartialEq, Eq)]
enum Line {
    /// At its start.
    Start,
    /// Behind a carriage return at its start.
    Return,
    /// Behind any other byte.
    Text,
    /// Behind a carriage return after other bytes.
    TextReturn,
}

/// What a byte of a line leads to.
#[derive(Clone, Copy, Debug, PartialEq, Eq)]
enum Step {
    /// Further on in the head.
    On(Line),
    /// The end of the head.
    End,
    /// A line feed without a carriage return before it.
    Bad,
}

/// What was found where a head is read.
#[derive(Clone, Copy, Debug, PartialEq, Eq)]
pub(crate) enum HeadRead {
    /// The end of input, before a head.
    End,
    /// The end of input inside a head.
    Ended,
    /// No head.
    Bad,
    /// A head.
    Whole,
}

/// Where the next byte of a line leads.
fn next(line: Line, byte: u8) -> Step
    ensures { result ≡ next line byte }
{
    match (line, byte) {
        (Line::Return, b'\n') => Step::End,
        (Line::TextReturn, b'\n') => Step::On(Line::Start),
        (Line::Start | Line::Text, b'\n') => Step::Bad,
        (Line::Start, b'\r') => Step::On(Line::Return),
        (_, b'\r') => Step::On(Line::TextReturn),
        (_, _) => Step::On(Line::Text),
    }
}

/// Reads a head, and keeps it.
pub(crate) fn read_head<R: BufRead>(
    feed: &mut Feed<R>,
    head: &mut Vec<u8>,
) -> Result<HeadRead, ReadFault>
    requires { MOST_HEAD ≤ vec_capacity head.old }
    ensures follows { WhateverFollows feed.old feed.new
        (λ bytes left. ReadsHead bytes left head.new.items result) }
    ensures ends { EndsKnown feed.new }
    ensures room { vec_capacity head.old ≤ vec_capacity head.new }
{
    head.clear();
    let mut line = Line::Start;
    'bytes: for read in 0..MOST_HEAD {
        let byte = match feed.byte()? {
            Some(byte) => byte,
            None if read == 0 => return Ok(HeadRead::End),
            None => return Ok(HeadRead::Ended),
        };
        head.push_reserved(byte);
        match next(line, byte) {
            Step::On(more) => line = more,
            Step::End => return Ok(HeadRead::Whole),
            Step::Bad => return Ok(HeadRead::Bad),
        }
    }
    Ok(HeadRead::Bad)
}
