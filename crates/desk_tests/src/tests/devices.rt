//! Runs over readers and writers that fail.
use super::inputs::WIDE;
use cb_desk::Bounds;
use cb_scan::{Profile, Rules};
use cb_session::{Ended, Fault, Session};
use cb_tags::{Feed, Sink};
use std::alloc::Global;
use std::io::{self, BufRead, ErrorKind, Read, Write};
use std::process::Abort;
use std::test::Fail;

/// A command of each kind, and more lines refused than done.
const INPUT: &[u8] = b":load a.c 2\n{}:undo\n:undo\n1f\n\n:load b.txt 1\nx6x\nzzz";

/// Its output.
const OUTPUT: &[u8] =
    b">> cscope: done\n>> cscope: done\n>> cscope: refused: nothing to undo\n>> cscope: 0 lines\n>> >> cscope: refused: bad name\n>> cscope: refused: field not in this profile\n>> cscope: refused: unknown command\n>> ";

/// What a new session does between a feed and a sink.
fn serve<I: BufRead, O: Write>(alloc: Global, feed: &mut Feed<I>, sink: &mut Sink<O>) -> Ended {
    let mut session = Session::new(alloc, Bounds::standard(), Profile::all_by(Rules::Standard));
    session.serve(alloc, &WIDE, feed, sink)
}

/// A writer whose bytes never reach anybody.
#[derive(Drop)]
struct Stuck;

impl Write for Stuck {
    fn write(&mut self, buf: &[u8]) -> io::Result<usize> {
        Ok(buf.len())
    }

    fn flush(&mut self) -> io::Result<()> {
        Err(io::Error::from(ErrorKind::BrokenPipe))
    }
}

#[test]
fn a_failed_flush_ends_the_run(rt: HostRuntime) {
    let mut sink = Sink::new(Stuck);
    let mut feed = Feed::new(INPUT);
    let ended = serve(rt.alloc(), &mut feed, &mut sink);
    assert_eq!(rt; ended, Ended::Fault(Fault::Write));
    assert!(rt; sink.failed());
    assert!(rt; sink.write(b"x").is_err());
    assert!(rt; sink.flush().is_err());
    assert_eq!(rt; feed.byte(), Ok(Some(b':')));
}

/// A reader that gives so many of its bytes, so many at a time at most, and then fails; at its end
/// it says so once, and then fails too.
#[derive(Drop)]
struct Broken<'a> {
    bytes: &'a [u8],
    left: usize,
    shown: usize,
    ended: bool,
}

impl Read for Broken<'_> {
    fn read(&mut self, _buf: &mut [u8]) -> io::Result<usize> {
        Err(io::Error::from(ErrorKind::Unsupported))
    }
}

impl BufRead for Broken<'_> {
    fn fill_buf(&mut self) -> io::Result<&[u8]> {
        if self.left == 0 || self.ended {
            return Err(io::Error::from(ErrorKind::ConnectionReset));
        }
        if self.bytes.is_empty() {
            self.ended = true;
            return Ok(&[]);
        }
        let shown = self.shown.min(self.left).min(self.bytes.len());
        Ok(&self.bytes[..shown])
    }

    fn consume(&mut self, amount: usize) {
        if amount <= self.bytes.len() && amount <= self.left {
            self.bytes = &self.bytes[amount..];
            self.left -= amount;
        }
    }
}

/// A run over a reader that gives so many bytes and then fails, or that fails only at its end.
fn run_over_broken(rt: &impl Abort, alloc: Global, left: usize, written: &mut Vec<u8>) {
    let mut sink = Sink::new(written);
    let mut feed = Feed::new(Broken {
        bytes: INPUT,
        left,
        shown: 1,
        ended: false,
    });
    let ended = serve(alloc, &mut feed, &mut sink);
    assert_eq!(rt; feed.failed(), left <= INPUT.len());
    if feed.failed() {
        assert_eq!(rt; ended, Ended::Fault(Fault::Read));
        assert!(rt; feed.byte().is_err());
    } else {
        // The reader would fail now; the feed asks it no more.
        assert_eq!(rt; ended, Ended::Done);
        assert_eq!(rt; feed.byte(), Ok(None));
    }
}

/// What it has written is a prefix of the output.
fn break_after(rt: &impl Abort, alloc: Global, left: usize) {
    let mut written = Vec::new(alloc);
    run_over_broken(rt, alloc, left, &mut written);
    assert!(rt; OUTPUT.starts_with(written.as_slice()));
}

#[test]
fn a_reader_that_fails_leaves_a_prefix(rt: HostRuntime) -> Result<(), Fail> {
    for left in 0..INPUT.len() + 2 {
        break_after(&rt, rt.alloc(), left);
    }
    Ok(())
}

/// A reader that fails once, after so many of its bytes, and would then go on.
#[derive(Drop)]
struct Interrupted<'a> {
    bytes: &'a [u8],
    left: usize,
    has_failed: bool,
}

impl Read for Interrupted<'_> {
    fn read(&mut self, _buf: &mut [u8]) -> io::Result<usize> {
        Err(io::Error::from(ErrorKind::Unsupported))
    }
}

impl BufRead for Interrupted<'_> {
    fn fill_buf(&mut self) -> io::Result<&[u8]> {
        if self.left == 0 && !self.has_failed {
            self.has_failed = true;
            return Err(io::Error::from(ErrorKind::Interrupted));
        }
        Ok(self.bytes)
    }

    fn consume(&mut self, amount: usize) {
        if amount <= self.bytes.len() {
            self.bytes = &self.bytes[amount..];
            self.left = self.left.saturating_sub(amount);
        }
    }
}

/// A run over a reader that is interrupted after so many bytes.
fn run_over_interrupted(rt: &impl Abort, alloc: Global, left: usize, written: &mut Vec<u8>) {
    let mut sink = Sink::new(written);
    let mut feed = Feed::new(Interrupted {
        bytes: INPUT,
        left,
        has_failed: false,
    });
    let ended = serve(alloc, &mut feed, &mut sink);
    assert_eq!(rt; ended, Ended::Fault(Fault::Read));
    assert!(rt; feed.failed());
    assert!(rt; feed.byte().is_err());
    assert!(rt; feed.failed());
}

/// What it has written is a prefix of the output.
fn interrupt_after(rt: &impl Abort, alloc: Global, left: usize) {
    let mut written = Vec::new(alloc);
    run_over_interrupted(rt, alloc, left, &mut written);
    assert!(rt; OUTPUT.starts_with(written.as_slice()));
}

#[test]
fn a_reader_that_was_interrupted_is_asked_no_more(rt: HostRuntime) -> Result<(), Fail> {
    for left in 0..INPUT.len() {
        interrupt_after(&rt, rt.alloc(), left);
    }
    Ok(())
}

/// A writer that keeps how many bytes it had at each flush. One of its flushes fails.
#[derive(Drop)]
struct Flushed {
    taken: Vec<u8>,
    flushes: Vec<usize>,
    failing: usize,
}

impl Flushed {
    /// A writer of which this flush fails, counted from 1.
    fn new(alloc: Global, failing: usize) -> Flushed {
        Flushed {
            taken: Vec::new(alloc),
            flushes: Vec::new(alloc),
            failing,
        }
    }
}

impl Write for Flushed {
    fn write(&mut self, buf: &[u8]) -> io::Result<usize> {
        self.taken.extend_from_slice(buf)?;
        Ok(buf.len())
    }

    fn flush(&mut self) -> io::Result<()> {
        self.flushes.push(self.taken.len())?;
        if self.flushes.len() == self.failing {
            return Err(io::Error::from(ErrorKind::StorageFull));
        }
        Ok(())
    }
}

/// A run into this writer ends so, and the sink has failed or has not.
fn flush_into(
    rt: &impl Abort,
    alloc: Global,
    writer: &mut Flushed,
    input: &[u8],
    end: Ended,
    fails: bool,
) {
    let mut sink = Sink::new(writer);
    let mut feed = Feed::new(input);
    let ended = serve(alloc, &mut feed, &mut sink);
    assert_eq!(rt; ended, end);
    assert_eq!(rt; sink.failed(), fails);
}

/// A run of which no flush fails has flushed at all of these places.
fn flush_all(rt: &impl Abort, alloc: Global, input: &[u8], places: &[usize], end: Ended) {
    let mut writer = Flushed::new(alloc, 0);
    flush_into(rt, alloc, &mut writer, input, end, false);
    assert_eq!(rt; writer.flushes.as_slice(), places);
}

/// A run whose last flush, at the last of these places, fails.
fn flush_until(rt: &impl Abort, alloc: Global, input: &[u8], places: &[usize], last: usize) {
    let mut writer = Flushed::new(alloc, places.len());
    let end = Ended::Fault(Fault::Write);
    flush_into(rt, alloc, &mut writer, input, end, true);
    assert_eq!(rt; writer.flushes.as_slice(), places);
    assert_eq!(rt; writer.taken.len(), last);
}

/// Each prompt is flushed, and the whole output once more at the end: also where a block is cut
/// off.
#[test]
fn prompts_and_the_end_are_flushed(rt: HostRuntime) {
    let cases = [
        (
            b":undo\n\nq\n".as_slice(),
            [3, 39, 42, 42].as_slice(),
            Ended::Done,
        ),
        (b":load a.c 1".as_slice(), [3, 32].as_slice(), Ended::Cut),
    ];
    for (input, places, end) in cases {
        flush_all(&rt, rt.alloc(), input, places, end);
        for (before, last) in places.iter().enumerate() {
            flush_until(&rt, rt.alloc(), input, &places[..before + 1], *last);
        }
    }
}

/// A run over a reader that fails behind its first command.
fn run_over_one_command(rt: &impl Abort, alloc: Global, writer: &mut Flushed) {
    let mut sink = Sink::new(writer);
    let mut feed = Feed::new(Broken {
        bytes: b":undo\n:undo\n",
        left: 6,
        shown: 1,
        ended: false,
    });
    let ended = serve(alloc, &mut feed, &mut sink);
    assert_eq!(rt; ended, Ended::Fault(Fault::Read));
}

/// After a fault of reading nothing is written and nothing is flushed.
#[test]
fn a_read_fault_ends_the_output(rt: HostRuntime) {
    let mut writer = Flushed::new(rt.alloc(), 0);
    run_over_one_command(&rt, rt.alloc(), &mut writer);
    assert_eq!(rt;
        writer.taken.as_slice(),
        b">> cscope: refused: nothing to undo\n>> ".as_slice()
    );
    assert_eq!(rt; writer.flushes.as_slice(), [3, 39].as_slice());
}
