//! How the program ends: its exit status, and what it says on standard error.
ghost use Rattle.std.specs.Prelude.{◌≡◌, ◌<◌, [], map, string_bytes};
ghost use Rattle.std.specs.List.{slice_index_or};
ghost use Rattle.std.specs.Option.{option_map};
ghost use Rattle.cb_tags.specs.Writing.{Puts};
ghost use Rattle.cbrowse.specs.Messages.{Says, error_line, fault_line, file_line, hex_digit};
ghost use Rattle.cbrowse.specs.Messages.{is_plain, told_byte, told_name, bounds_of, files_of, force_of};
ghost use Rattle.cbrowse.specs.Messages.{list_name, list_of, most_line_bytes, tagsfile_of};
ghost use Rattle.cbrowse.specs.Messages.{run_said, said_of, server_said, server_status, run_status};
ghost use Rattle.cbrowse.specs.Messages.{status_of, usage_status, usage_said};

use cb_desk::Bounds;
use cb_lsp::{Ending, RunFault};
use cb_session::{Ended, Fault};
use cb_tags::{Sink, WriteFault, put_text, put_texts};
use cb_words::{Job, Usage};
use itoa::Buffer;
use std::io::Write;

/// How a job ended.
#[derive(Clone, Copy, Debug, PartialEq, Eq)]
pub(crate) enum Finish {
    /// Its run ended so.
    Ran(Ended),
    /// Its run as a language server ended so.
    Served(Result<Ending, RunFault>),
    /// The file at this place of its files, counted from 0, cannot be read.
    Unreadable(usize),
    /// Its list of files cannot be read.
    Unlisted,
    /// Its tags file cannot be made or written.
    Unwritable,
}

/// The files of a job.
pub(crate) fn files_of(job: &Job) -> &[String]
    ensures { map string_bytes result.now ≡ files_of job.now }
{
    match job {
        Job::Line { files, .. } => files.as_slice(),
        Job::Find { files, .. } => files.as_slice(),
        Job::Tags { files, .. } => files.as_slice(),
        Job::Lsp { files, .. } => files.as_slice(),
    }
}

/// The name of a job's list of files.
pub(crate) fn list_of(job: &Job) -> Option<&str>
    ensures { option_map (λ list. list.now) result ≡ list_of job.now }
{
    match job {
        Job::Line { list, .. } => list.as_deref(),
        Job::Find { list, .. } => list.as_deref(),
        Job::Tags { list, .. } => list.as_deref(),
        Job::Lsp { list, .. } => list.as_deref(),
    }
}

/// The same, or nothing.
fn list_name(job: &Job) -> &[u8]
    ensures { result.now ≡ list_name job.now }
{
    match list_of(job) {
        Some(list) => list.as_bytes(),
        None => b"",
    }
}

/// The bounds of a job.
pub(crate) fn bounds_of(job: &Job) -> Bounds
    ensures { result ≡ bounds_of job.now }
{
    match job {
        Job::Line { bounds, .. } => *bounds,
        Job::Find { bounds, .. } => *bounds,
        Job::Tags { bounds, .. } => *bounds,
        Job::Lsp { bounds, .. } => *bounds,
    }
}

/// The most bytes of a line of a session.
pub(crate) fn most_line_bytes(bounds: Bounds) -> u64
    ensures { result ≡ most_line_bytes bounds }
{
    (bounds.file_bytes() as u64).max(1_000_000)
}

/// The name of a job's tags file.
fn tagsfile_of(job: &Job) -> &[u8]
    ensures { result.now ≡ tagsfile_of job.now }
{
    match job {
        Job::Line { .. } => b"",
        Job::Find { .. } => b"",
        Job::Tags { tagsfile, .. } => tagsfile.as_bytes(),
        Job::Lsp { .. } => b"",
    }
}

/// Whether a job's tags file takes the place of any file.
pub(crate) fn force_of(job: &Job) -> bool
    ensures { result ≡ force_of job.now }
{
    match job {
        Job::Line { .. } => false,
        Job::Find { .. } => false,
        Job::Tags { force, .. } => *force,
        Job::Lsp { .. } => false,
    }
}

/// The name of the file at a place; nothing where there is none.
fn name_at(files: &[String], place: usize) -> &[u8]
    ensures { result.now ≡ slice_index_or (map string_bytes files.now) place [] }
{
    match files.get(place) {
        Some(name) => name.as_bytes(),
        None => b"",
    }
}

fn run_status(ended: Ended) -> u8
    ensures { result ≡ run_status ended }
{
    match ended {
        Ended::Done => 0,
        Ended::Cut => 1,
        Ended::Fault(_) => 1,
        Ended::Operand(_, _) => 1,
    }
}

fn server_status(end: Result<Ending, RunFault>) -> u8
    ensures { result ≡ server_status end }
{
    match end {
        Ok(Ending::Down) => 0,
        Ok(Ending::Early) => 1,
        Ok(Ending::BadHeader) => 1,
        Ok(Ending::InputEnded) => 1,
        Ok(Ending::Read) => 1,
        Err(_) => 1,
    }
}

fn status(finish: Finish) -> u8
    ensures { result ≡ status_of finish }
{
    match finish {
        Finish::Ran(ended) => run_status(ended),
        Finish::Served(end) => server_status(end),
        Finish::Unreadable(_) => 1,
        Finish::Unlisted => 1,
        Finish::Unwritable => 1,
    }
}

fn usage_status(usage: &Usage) -> u8
    ensures { result ≡ usage_status usage.now }
{
    match usage {
        Usage::Help(_) => 0,
        Usage::Wrong(_) => 2,
        Usage::BadField => 2,
        Usage::NoPattern => 2,
        Usage::Memory => 1,
    }
}

fn put_error<E: Write>(errors: &mut Sink<E>, text: &[u8]) -> Result<(), WriteFault>
    ensures { Puts errors.old errors.new result (error_line text.now) }
{
    put_texts(errors, &[b"cbrowse: ", text, b"\n"])
}

/// Whether a byte of a name is told as it is.
fn is_plain(byte: u8) -> bool
    ensures { result ≡ is_plain byte }
{
    byte > 31 && (byte < 127 && !(byte == b'\\'))
}

fn hex_digit(number: u8) -> u8
    requires { number < 16 }
    ensures { result ≡ hex_digit number }
{
    if number < 10 {
        48 + number
    } else {
        87 + number
    }
}

/// Writes a byte of a name.
fn put_byte<E: Write>(errors: &mut Sink<E>, byte: u8) -> Result<(), WriteFault>
    ensures { Puts errors.old errors.new result (told_byte byte) }
{
    if is_plain(byte) {
        put_text(errors, &[byte])
    } else {
        put_text(
            errors,
            &[b'\\', b'x', hex_digit(byte / 16), hex_digit(byte % 16)],
        )
    }
}

/// Writes a name in one line, whatever its bytes.
fn put_name<E: Write>(errors: &mut Sink<E>, name: &[u8]) -> Result<(), WriteFault>
    ensures { Puts errors.old errors.new result (told_name name.now) }
{
    for byte in name {
        put_byte(errors, *byte)?;
    }
    Ok(())
}

fn put_file_error<E: Write>(
    errors: &mut Sink<E>,
    name: &[u8],
    text: &[u8],
) -> Result<(), WriteFault>
    ensures { Puts errors.old errors.new result (file_line name.now text.now) }
{
    put_text(errors, b"cbrowse: ")?;
    put_name(errors, name)?;
    put_texts(errors, &[b": ", text, b"\n"])
}

/// Says that a line has more than so many bytes.
fn put_long_line<E: Write>(errors: &mut Sink<E>, limit: u64) -> Result<(), WriteFault>
    ensures { Puts errors.old errors.new result (fault_line limit Fault.LongLine) }
{
    let mut buffer = Buffer::new();
    let digits = buffer.format(limit).as_bytes();
    put_texts(errors, &[b"cbrowse: line over ", digits, b" bytes\n"])
}

/// Says what a fault is called, where a line may have so many bytes.
fn put_fault<E: Write>(errors: &mut Sink<E>, limit: u64, fault: Fault) -> Result<(), WriteFault>
    ensures { Puts errors.old errors.new result (fault_line limit fault) }
{
    match fault {
        Fault::Read => put_error(errors, b"read fault"),
        Fault::Write => put_error(errors, b"write fault"),
        Fault::Memory => put_error(errors, b"out of memory"),
        Fault::LongLine => put_long_line(errors, limit),
        Fault::ManyLines => put_error(errors, b"too many lines"),
    }
}

/// Says how a run over these files ended, if not as it should, where a line may have so many bytes.
fn put_run<E: Write>(
    errors: &mut Sink<E>,
    limit: u64,
    files: &[String],
    ended: Ended,
) -> Result<(), WriteFault>
    ensures { Puts errors.old errors.new result
        (run_said limit (map string_bytes files.now) ended) }
{
    match ended {
        Ended::Done => Ok(()),
        Ended::Cut => put_error(errors, b"input ended"),
        Ended::Fault(fault) => put_fault(errors, limit, fault),
        Ended::Operand(place, refusal) => put_file_error(
            errors,
            name_at(files, place as usize),
            refusal.text().as_bytes(),
        ),
    }
}

/// Says how a run of a language server ended, if not by its client.
fn put_served<E: Write>(
    errors: &mut Sink<E>,
    end: Result<Ending, RunFault>,
) -> Result<(), WriteFault>
    ensures { Puts errors.old errors.new result (server_said end) }
{
    match end {
        Ok(Ending::Down) => Ok(()),
        Ok(Ending::Early) => Ok(()),
        Ok(Ending::BadHeader) => put_error(errors, b"bad header"),
        Ok(Ending::InputEnded) => put_error(errors, b"input ended"),
        Ok(Ending::Read) => put_error(errors, b"read fault"),
        Err(RunFault::Memory) => put_error(errors, b"out of memory"),
        Err(RunFault::Write) => put_error(errors, b"write fault"),
        Err(RunFault::ManyMessages) => put_error(errors, b"too many messages"),
    }
}

/// Says how a job ended, if not as it should.
fn put_finish<E: Write>(errors: &mut Sink<E>, job: &Job, finish: Finish) -> Result<(), WriteFault>
    ensures { Puts errors.old errors.new result (said_of job.now finish) }
{
    match finish {
        Finish::Ran(ended) => {
            put_run(
                errors,
                most_line_bytes(bounds_of(job)),
                files_of(job),
                ended,
            )
        }
        Finish::Served(end) => put_served(errors, end),
        Finish::Unreadable(place) => {
            put_file_error(errors, name_at(files_of(job), place), b"cannot be read")
        }
        Finish::Unlisted => put_file_error(errors, list_name(job), b"cannot be read"),
        Finish::Unwritable => put_file_error(errors, tagsfile_of(job), b"cannot be written"),
    }
}

/// Says why there is no job.
fn put_usage<E: Write>(errors: &mut Sink<E>, usage: &Usage) -> Result<(), WriteFault>
    ensures { Puts errors.old errors.new result (usage_said usage.now) }
{
    match usage {
        Usage::Help(text) => put_texts(errors, &[text.as_bytes()]),
        Usage::Wrong(text) => put_texts(errors, &[text.as_bytes()]),
        Usage::BadField => put_error(errors, b"field not in this profile"),
        Usage::NoPattern => put_error(errors, b"no pattern"),
        Usage::Memory => put_error(errors, b"out of memory"),
    }
}

/// Says how a job ended, and answers the exit status.
pub(crate) fn conclude<E: Write>(errors: &mut Sink<E>, job: &Job, end: Finish) -> u8
    ensures status { result ≡ status_of end }
    ensures said { Says errors.old errors.new (said_of job.now end) }
{
    // Nobody is left to hear that standard error failed.
    let _ = put_finish(errors, job, end);
    status(end)
}

/// Says why there is no job, and answers the exit status.
pub(crate) fn refuse<E: Write>(errors: &mut Sink<E>, usage: &Usage) -> u8
    ensures status { result ≡ usage_status usage.now }
    ensures said { Says errors.old errors.new (usage_said usage.now) }
{
    let _ = put_usage(errors, usage);
    usage_status(usage)
}
