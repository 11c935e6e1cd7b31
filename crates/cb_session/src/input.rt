//! What is read at a prompt, and how a run ends. Reading it, within the limits of the run: a line,
//! and behind that of a load or a reload a block.
ghost use Rattle.std.specs.Prelude.{◌≡◌, List, ℕ, Some, IfOk, IfErr, ◌<◌, ◌≤◌, ◌∷◌, [], ◌++◌};
ghost use Rattle.std.specs.Prelude.{length, vec_capacity};
ghost use Rattle.cb_desk.specs.Models.{step_of};
ghost use Rattle.cb_tags.specs.Readers.{HoldsOut, WhateverFollows};
ghost use Rattle.cb_session.specs.Inputs.{is_cut, ending_of, change_with, with_block};
ghost use Rattle.cb_session.specs.Models.{request_of, going_of, HasPattern};
ghost use Rattle.cb_session.specs.Reading.{Reads, IsReadFault};
ghost use Rattle.cb_session.specs.Requests.{block};
ghost use Rattle.cb_session.specs.declared.input.TheConstants.{MOST_LINE};
ghost use Rattle.cb_session.specs.steps.Lines.{ReadsBlock, StopsBefore, line_of_length};
ghost use Rattle.cb_session.specs.steps.Rounds.{is_unread};

use crate::line::{Asked, Purpose, line_asks};
use cb_desk::{Change, Field, Format, Refusal};
use cb_tags::{Feed, ReadFault, WriteFault};
use std::alloc::{AllocError, Global};
use std::io::BufRead;

// ---- inputs and endings

/// What is read at a prompt.
#[derive(Debug, Drop)]
pub enum Input<'a> {
    /// A command to be done.
    Command(Command<'a>),
    /// A line that is no command, or a command whose block is cut off.
    Refused(Refusal),
    /// An empty line.
    Nothing,
    /// The end of the session.
    End,
}

/// A command.
#[derive(Debug, Drop)]
pub enum Command<'a> {
    /// A query, whose pattern is not empty.
    Query(Field, &'a [u8]),
    /// A change of the files, of the marks or of the tag stack.
    Change(Change<'a>),
    /// Scans every file again.
    Rebuild,
    /// Takes the last change back.
    Undo,
    /// Makes the last change that was taken back again.
    Redo,
    /// Shows the tags file.
    Tags(Format),
    /// Shows the listing.
    Listing,
    /// Shows the marks.
    Marks,
    /// Shows the tag stack.
    Stack,
}

/// Why a run ends before its input does.
#[derive(Clone, Copy, Debug, PartialEq, Eq)]
pub enum Fault {
    /// The feed has failed.
    Read,
    /// The sink has failed.
    Write,
    /// A growth of the intake was refused.
    Memory,
    /// A line has more than `Limits::line` bytes.
    LongLine,
    /// `Limits::lines` lines were read.
    ManyLines,
}

/// How a run ends.
#[derive(Clone, Copy, Debug, PartialEq, Eq)]
pub enum Ended {
    /// By the command to end it, or by the end of input.
    Done,
    /// By the end of input inside a block.
    Cut,
    /// By a fault.
    Fault(Fault),
    /// By a refused operand, before anything is read: its place, counted from 0, and why.
    Operand(u32, Refusal),
}

/// Whether a run goes on after a command.
#[derive(Clone, Copy, Debug, PartialEq, Eq)]
pub enum Going {
    On,
    Stop,
}

impl From<ReadFault> for Fault {
    ghost use Rattle.cb_session.specs.declared.input.Fault.TheVariants.{Read};

    ghost from_gives = { λ _ fault. fault ≡ Read };

    fn from(_fault: ReadFault) -> Fault {
        Fault::Read
    }
}

impl From<WriteFault> for Fault {
    ghost use Rattle.cb_session.specs.declared.input.Fault.TheVariants.{Write};

    ghost from_gives = { λ _ fault. fault ≡ Write };

    fn from(_fault: WriteFault) -> Fault {
        Fault::Write
    }
}

fn is_cut(refusal: Refusal) -> bool
    ensures { result ≡ is_cut refusal }
{
    matches!(refusal, Refusal::InputEnded)
}

impl Ended {
    /// Whether a read fault ended the run.
    pub(crate) fn is_unread(self) -> bool
        ensures { result ≡ is_unread self }
    {
        matches!(self, Ended::Fault(Fault::Read))
    }
}

impl Input<'_> {
    /// The ending of the run, where this is its last input.
    pub fn ending(&self) -> Option<Ended>
        ensures { result ≡ ending_of (request_of self.now) }
    {
        match self {
            Input::End => Some(Ended::Done),
            Input::Refused(refusal) => if is_cut(*refusal) {
                Some(Ended::Cut)
            } else {
                None
            },
            Input::Command(_) | Input::Nothing => None,
        }
    }

    /// Whether the run goes on after this input.
    pub fn going(&self) -> Going
        ensures { result ≡ going_of (ending_of (request_of self.now)) }
    {
        match self.ending() {
            None => Going::On,
            Some(_) => Going::Stop,
        }
    }
}

// ---- limits

/// The most bytes of a command's line.
const MOST_LINE: usize = 4_096;

/// The most digits of a number in a command.
pub(crate) const MOST_DIGITS: usize = 9;

/// The limits of a run.
#[derive(Clone, Copy, Debug)]
pub struct Limits {
    /// The most bytes of a line before its line feed, and of a block. A longer line ends the run,
    /// and a longer block is refused. It is more than a command may have, so at least 4,097.
    pub line: u64,
    /// The most lines that are read. The bytes of a block are no lines.
    pub lines: u64,
    ghost enough: { MOST_LINE < line },
}

// ---- a line

/// A growth of memory was refused.
#[derive(Clone, Copy, Debug, PartialEq, Eq)]
pub struct OutOfMemory;

impl From<AllocError> for OutOfMemory {
    ghost from_gives = { λ _ _. Unit {0} };

    fn from(_error: AllocError) -> OutOfMemory {
        OutOfMemory
    }
}

/// What was found where a line is read.
#[derive(Clone, Copy, Debug, PartialEq, Eq)]
enum LineRead {
    /// The end of input.
    End,
    /// A line.
    Line,
    /// A line with more bytes than a command may have.
    Long,
}

/// Room for one line of a command.
#[derive(Debug, Drop)]
pub struct Intake {
    line: Vec<u8>,
    ghost room: { MOST_LINE ≤ vec_capacity line },
}

impl Intake {
    ghost use Rattle.cb_session.specs.Inputs.{first};
    ghost use Rattle.cb_session.specs.Models.{request_of, HasPattern};
    ghost use Rattle.cb_session.specs.Reading.{Reads, IsReadFault, IsUnread};
    ghost use Rattle.cb_session.specs.steps.Lines.{ReadsLine};
    ghost use Rattle.cb_tags.specs.Readers.{HoldsOut, WhateverFollows};

    /// An intake with room for one line.
    pub fn new(alloc: Global) -> Result<Intake, OutOfMemory>
        ensures { IfOk result (λ intake. intake.line.items ≡ []) }
    {
        let line = Vec::with_capacity(alloc, MOST_LINE)?;
        Ok(Intake { line })
    }

    /// Reads one command with its block. Memory is taken for the block of a `:load` or a `:reload`
    /// with a good count alone.
    pub fn read<R: BufRead>(
        &mut self,
        alloc: Global,
        limits: &Limits,
        feed: &mut Feed<R>,
    ) -> Result<Input<'_>, Fault>
        ensures first { (bytes : List ℕ) → feed.old.bytes ≡ Some bytes
            → Reads (first limits.now.line bytes) feed.new result }
        ensures every_input { WhateverFollows feed.old feed.new
            (λ bytes left. Reads (first limits.now.line bytes) left result) }
        ensures failed { IfErr result (IsReadFault feed.old feed.new) }
        ensures fine { IfOk result (λ _. HoldsOut feed.old feed.new) }
        ensures unread { IfErr result
            (λ fault. fault ≡ Fault.Read → IsUnread limits.now.line feed.old feed.new) }
        ensures pattern { IfOk result (λ input. HasPattern (request_of input)) }
    {
        match self.read_line(limits, feed)? {
            LineRead::End => Ok(Input::End),
            LineRead::Long => Ok(Input::Refused(Refusal::LineTooLong)),
            LineRead::Line => match line_asks(limits.line, self.line.as_slice()) {
                Asked::Whole(input) => Ok(input),
                Asked::Block(purpose, name, count) => {
                    read_change(alloc, purpose, name, count, feed)
                }
            },
        }
    }

    /// Reads one line; of a line that no command can have, only the first bytes are kept.
    fn read_line<R: BufRead>(
        &mut self,
        limits: &Limits,
        feed: &mut Feed<R>,
    ) -> Result<LineRead, Fault>
        ensures line { (bytes : List ℕ) → feed.old.bytes ≡ Some bytes
            → ReadsLine limits.now.line bytes feed.new self.new.line.items result }
        ensures every_input { WhateverFollows feed.old feed.new
            (λ bytes left. ReadsLine limits.now.line bytes left self.new.line.items result) }
        ensures failed { IfErr result (IsReadFault feed.old feed.new) }
        ensures fine { IfOk result (λ _. HoldsOut feed.old feed.new) }
        ensures unread { IfErr result
            (λ fault. fault ≡ Fault.Read → IsUnread limits.now.line feed.old feed.new) }
    {
        self.line.clear();
        'bytes: for read in 0..limits.line {
            match feed.byte()? {
                None if read == 0 => return Ok(LineRead::End),
                None => return Ok(line_of_length(read)),
                Some(b'\n') => return Ok(line_of_length(read)),
                Some(byte) => self.keep(byte),
            }
        }
        match feed.byte()? {
            None => Ok(line_of_length(limits.line)),
            Some(b'\n') => Ok(line_of_length(limits.line)),
            Some(_) => Err(Fault::LongLine),
        }
    }

    /// Keeps a byte of a line, unless no command is that long.
    fn keep(&mut self, byte: u8)
        ensures kept { length self.old.line.items < MOST_LINE
            → self.new.line.items ≡ self.old.line.items ++ byte ∷ [] }
        ensures left { MOST_LINE ≤ length self.old.line.items
            → self.new.line.items ≡ self.old.line.items }
    {
        if self.line.len() < MOST_LINE {
            self.line.push_reserved(byte);
        }
    }
}

fn line_of_length(length: u64) -> LineRead
    ensures { result ≡ line_of_length length }
{
    if length <= MOST_LINE as u64 {
        LineRead::Line
    } else {
        LineRead::Long
    }
}

// ---- a block

/// Reads a block of `count` bytes; `None` where the input ends before.
fn read_block<R: BufRead>(
    alloc: Global,
    count: u32,
    feed: &mut Feed<R>,
) -> Result<Option<Vec<u8>>, Fault>
    ensures block { (bytes : List ℕ) → feed.old.bytes ≡ Some bytes
        → ReadsBlock count bytes feed.new result }
    ensures every_input { WhateverFollows feed.old feed.new
        (λ bytes left. ReadsBlock count bytes left result) }
    ensures failed { IfErr result (IsReadFault feed.old feed.new) }
    ensures fine { IfOk result (λ _. HoldsOut feed.old feed.new) }
    ensures unread { IfErr result
        (λ fault. fault ≡ Fault.Read → StopsBefore count feed.old feed.new) }
{
    let mut block = match Vec::with_capacity(alloc, count as usize) {
        Ok(block) => block,
        Err(_) => return Err(Fault::Memory),
    };
    'pieces: while block.len() < count as usize {
        if !feed.piece(count as usize, &mut block)? {
            return Ok(None);
        }
    }
    Ok(Some(block))
}

/// The change that a block makes, by what it is for.
fn change_with<'a>(purpose: Purpose, name: &'a [u8], bytes: Vec<u8>) -> Change<'a>
    ensures { step_of result ≡ change_with purpose name.now bytes.items }
{
    match purpose {
        Purpose::Load => Change::Load(name, bytes),
        Purpose::Reload => Change::Reload(name, bytes),
    }
}

/// Reads the block of a load or a reload of this name.
fn read_change<'a, R: BufRead>(
    alloc: Global,
    purpose: Purpose,
    name: &'a [u8],
    count: u32,
    feed: &mut Feed<R>,
) -> Result<Input<'a>, Fault>
    ensures first { (bytes : List ℕ) → feed.old.bytes ≡ Some bytes
        → Reads (with_block (block purpose name.now count) bytes) feed.new result }
    ensures every_input { WhateverFollows feed.old feed.new
        (λ bytes left. Reads (with_block (block purpose name.now count) bytes) left result) }
    ensures failed { IfErr result (IsReadFault feed.old feed.new) }
    ensures fine { IfOk result (λ _. HoldsOut feed.old feed.new) }
    ensures unread { IfErr result
        (λ fault. fault ≡ Fault.Read → StopsBefore count feed.old feed.new) }
    ensures pattern { IfOk result (λ input. HasPattern (request_of input)) }
{
    match read_block(alloc, count, feed)? {
        Some(bytes) => Ok(Input::Command(Command::Change(change_with(purpose, name, bytes)))),
        None => Ok(Input::Refused(Refusal::InputEnded)),
    }
}
