//! A session that was worked out by hand.
use crate::devices::{Broken, Short};
use crate::ended::put_end;
use crate::escapes::put_line;
use crate::failed::Failed;
use cb_desk::Bounds;
use cb_scan::{Profile, Rules};
use cb_session::{Ended, Fault, Limits, Operand, Operands, run};
use cb_tags::{Feed, Sink};
use std::alloc::Global;
use std::io::{BufRead, Write};

/// Limits that a session has where it names none.
const WIDE: Limits = Limits {
    line: 1_000_000,
    lines: 1_000_000_000,
};

/// Limits that a short session reaches.
const NARROW: Limits = Limits {
    line: 5_000,
    lines: 3,
};

/// The files that a session begins with, its input, and what it should write and end with.
#[derive(Drop)]
pub(crate) struct Case {
    alloc: Global,
    name: Vec<u8>,
    bounds: Bounds,
    limits: Limits,
    operands: Operands,
    input: Vec<u8>,
    output: Vec<u8>,
    /// Empty where the input ends at a prompt that the lines do not show.
    end: Vec<u8>,
    /// Whether it is run over devices that fail at each byte too.
    at_each_byte: bool,
    /// What the last run wrote.
    written: Vec<u8>,
}

impl Case {
    /// A session with no name and nothing in it.
    pub(crate) fn new(alloc: Global) -> Case {
        Case {
            alloc,
            name: Vec::new(alloc),
            bounds: Bounds::standard(),
            limits: WIDE,
            operands: Vec::new(alloc),
            input: Vec::new(alloc),
            output: Vec::new(alloc),
            end: Vec::new(alloc),
            at_each_byte: false,
            written: Vec::new(alloc),
        }
    }

    /// Begins anew under a name.
    pub(crate) fn begin(&mut self, name: &[u8]) -> Result<(), Failed> {
        self.name.clear();
        self.name.extend_from_slice(name)?;
        self.bounds = Bounds::standard();
        self.limits = WIDE;
        self.operands.clear();
        self.input.clear();
        self.output.clear();
        self.end.clear();
        self.at_each_byte = false;
        Ok(())
    }

    pub(crate) fn name(&self) -> &[u8] {
        self.name.as_slice()
    }

    /// What the last run wrote.
    pub(crate) fn written(&self) -> &[u8] {
        self.written.as_slice()
    }

    /// One more file to begin with.
    pub(crate) fn put_file(&mut self, name: &[u8], bytes: Vec<u8>) -> Result<(), Failed> {
        let name = Vec::from_slice(self.alloc, name)?;
        self.operands.push(Operand { name, bytes })?;
        Ok(())
    }

    /// A line of input, behind its prompt.
    pub(crate) fn put_input(&mut self, line: &[u8]) -> Result<(), Failed> {
        self.output.extend_from_slice(b">> ")?;
        put_line(&mut self.input, line)
    }

    /// A line of a block: of the last file, where no input came yet, else of the input.
    pub(crate) fn put_block(&mut self, line: &[u8]) -> Result<(), Failed> {
        if self.output.is_empty() {
            return match self.operands.last_mut() {
                Some(file) => put_line(&mut file.bytes, line),
                None => Err(Failed),
            };
        }
        put_line(&mut self.input, line)
    }

    /// A line of a reply.
    pub(crate) fn put_reply(&mut self, line: &[u8]) -> Result<(), Failed> {
        put_line(&mut self.output, line)
    }

    /// How the run ends.
    pub(crate) fn put_end(&mut self, words: &[u8]) -> Result<(), Failed> {
        self.end.extend_from_slice(words)?;
        Ok(())
    }

    /// The limits of the run are 5,000 bytes of a line and three lines.
    pub(crate) fn put_narrow_limits(&mut self) {
        self.limits = NARROW;
    }

    /// The session has bounds of three files, each of 20 bytes.
    pub(crate) fn put_narrow_bounds(&mut self) {
        self.bounds = Bounds::new(3, 20, 65_536);
    }

    /// The run is made over devices that fail at each byte too.
    pub(crate) fn put_at_each_byte(&mut self) {
        self.at_each_byte = true;
    }

    /// Runs the session over each device. Whether it wrote what it should, and ended so.
    pub(crate) fn is_right(&mut self) -> Result<bool, Failed> {
        if self.end.is_empty() {
            self.output.extend_from_slice(b">> ")?;
            self.end.extend_from_slice(b"done")?;
        }
        if !self.is_right_over(usize::MAX)? {
            return Ok(false);
        }
        if !self.at_each_byte {
            return Ok(true);
        }
        let in_pieces = self.is_right_over(1)? && self.is_right_over(7)?;
        Ok(in_pieces && self.fills_writers()? && self.outlasts_readers()?)
    }

    /// Whether a run over a reader that gives so many bytes at a time is right.
    fn is_right_over(&mut self, shown: usize) -> Result<bool, Failed> {
        let operands = copy_of(self.alloc, self.operands.as_slice())?;
        let mut feed = Feed::new(Broken {
            bytes: self.input.as_slice(),
            left: usize::MAX,
            shown,
        });
        self.written.clear();
        let ended = run_into(
            self.alloc,
            self.bounds,
            &self.limits,
            operands,
            &mut feed,
            &mut self.written,
        );
        Ok(self.written == self.output && self.is_end(ended)?)
    }

    /// Whether that is the end that the run should have.
    fn is_end(&self, ended: Ended) -> Result<bool, Failed> {
        let mut words = Vec::new(self.alloc);
        put_end(&mut words, ended)?;
        Ok(words == self.end)
    }

    /// Whether a writer that fails has taken just the first bytes of the output, and the run says
    /// that it failed, at each byte.
    fn fills_writers(&mut self) -> Result<bool, Failed> {
        for room in 0..self.output.len() {
            let operands = copy_of(self.alloc, self.operands.as_slice())?;
            let mut writer = Short {
                taken: Vec::new(self.alloc),
                room,
            };
            let mut feed = Feed::new(self.input.as_slice());
            let ended = run_into(
                self.alloc,
                self.bounds,
                &self.limits,
                operands,
                &mut feed,
                &mut writer,
            );
            self.written.clear();
            self.written.extend_from_slice(writer.taken.as_slice())?;
            let is_front = self.output.as_slice().get(..room) == Some(self.written.as_slice());
            if !is_front || ended != Ended::Fault(Fault::Write) {
                return Ok(false);
            }
        }
        Ok(true)
    }

    /// Whether a reader that fails leaves whole replies and a prompt, and the run says that it
    /// failed, at each byte. Where the run ends before, it is as if the reader were good.
    fn outlasts_readers(&mut self) -> Result<bool, Failed> {
        for left in 0..self.input.len() {
            let operands = copy_of(self.alloc, self.operands.as_slice())?;
            let mut feed = Feed::new(Broken {
                bytes: self.input.as_slice(),
                left,
                shown: 3,
            });
            self.written.clear();
            let ended = run_into(
                self.alloc,
                self.bounds,
                &self.limits,
                operands,
                &mut feed,
                &mut self.written,
            );
            let failed = ended == Ended::Fault(Fault::Read) && feed.failed();
            let is_front = self.output.starts_with(self.written.as_slice());
            let is_broken = failed && is_front && self.written.ends_with(b">> ");
            if !is_broken && !(self.written == self.output && self.is_end(ended)?) {
                return Ok(false);
            }
        }
        Ok(true)
    }
}

/// Copies of these files.
fn copy_of(alloc: Global, files: &[Operand]) -> Result<Operands, Failed> {
    let mut copies = Vec::new(alloc);
    for file in files {
        copies.push(Operand {
            name: Vec::from_slice(alloc, file.name.as_slice())?,
            bytes: Vec::from_slice(alloc, file.bytes.as_slice())?,
        })?;
    }
    Ok(copies)
}

/// How a run from these files on ends.
fn run_into<R: BufRead, W: Write + Drop>(
    alloc: Global,
    bounds: Bounds,
    limits: &Limits,
    operands: Operands,
    feed: &mut Feed<R>,
    writer: W,
) -> Ended {
    let mut out = Sink::new(writer);
    run(
        alloc,
        bounds,
        Profile::all_by(Rules::Standard),
        limits,
        feed,
        &mut out,
        operands,
    )
}
