//! The program behind its entry: words in, a job done, an exit status out.
ghost use Rattle.std.specs.Prelude.{◌≡◌, ◌≢◌, ◌≤◌, ◌⊎◌, ◌∷◌, [], true, false, IfOk, map};
ghost use Rattle.std.specs.Prelude.{string_bytes};
ghost use Rattle.std.specs.Vec.Iter.{into_iter_items};
ghost use Rattle.std.specs.List.{flat_map};
ghost use Rattle.std.specs.Option.{MatchOption, option_map};
ghost use Rattle.cb_desk.specs.Answer.{answer};
ghost use Rattle.cb_session.specs.Output.{row_line};
ghost use Rattle.cb_tags.specs.Writers.{Writer};
ghost use Rattle.cbrowse.specs.Endings.{EndsJob, EndsProcess, EndsRun, EndsUsage, TakesWords};
ghost use Rattle.cbrowse.specs.Files.{Does, closes, disk_over};
ghost use Rattle.cbrowse.specs.Lists.{WorksListed};
ghost use Rattle.cbrowse.specs.Messages.{bounds_of, most_line_bytes, tagsfile_of};
ghost use Rattle.cbrowse.specs.Program.{IsReady, RunsServer, output_format, output_text};
ghost use Rattle.cbrowse.specs.Program.{tags_output, file_text, writes_file, server_of};
ghost use Rattle.cbrowse.specs.Program.{DoesFrom, DoesJob, Works, most_lines};
ghost use Rattle.cbrowse.specs.Writes.{WritesFile, WritesText, fresh};
ghost use Rattle.cb_session.specs.Writing.{Puts};

mod files;
mod finish;
mod list;
mod needs;
mod process;
mod storage;
mod tagsfile;

use crate::execute::files::{OUT_OF_MEMORY, operands_of, read_operands};
use crate::execute::finish::{
    Finish, bounds_of, conclude, files_of, force_of, most_line_bytes, refuse,
};
use crate::execute::list::take_list;
use crate::execute::needs::needed_of;
use crate::execute::storage::Storage;
use crate::execute::tagsfile::{begin, settle};
use cb_desk::{Bounds, Desk, Field, Format, TagRows};
use cb_lsp::{Disk, Ending, RunFault, Server};
use cb_session::{
    Ended, Fault, Limits, Session, prepare, put_answer, put_listing_file, put_tags_file,
};
use cb_tags::{Feed, Sink};
use cb_wire::Root;
use cb_words::{Job, Usage, VERSION, job_of};
pub(crate) use process::Process;
use std::alloc::{AllocError, Global};
use std::env::Args;
use std::io::{self, BufRead, BufReader, BufWriter, ErrorKind, Read, Write};
use std::mem::forget;

/// The limits of the program's runs.
fn limits(bounds: Bounds) -> Limits
    ensures line { result.line ≡ most_line_bytes bounds }
    ensures lines { result.lines ≡ most_lines }
{
    let line = most_line_bytes(bounds);
    Limits {
        line,
        lines: 1_000_000_000,
    }
}

/// The order of the lines of a listing, or of a tags file.
fn output_format(listing: bool, format: Format) -> Format
    ensures { result ≡ output_format listing format }
{
    if listing { Format::Extended } else { format }
}

/// Writes a listing, or a tags file.
fn put_output<W: Write>(
    out: &mut Sink<W>,
    listing: bool,
    format: Format,
    rows: TagRows<'_>,
) -> Result<(), Fault>
    ensures { Puts out.old out.new result (output_text listing format rows.entry) }
{
    if listing {
        put_listing_file(out, rows)
    } else {
        put_tags_file(out, format, rows)
    }
}

/// Writes the tags of a desk, and hands them on.
fn write_tags<W: Write>(listing: bool, format: Format, desk: &mut Desk, out: &mut Sink<W>) -> Ended
    ensures { WritesText (tags_output listing format desk.old.timeline.present)
        out.old out.new result }
{
    desk.settle_tags(output_format(listing, format));
    let rows = desk.tag_rows(output_format(listing, format));
    match put_output(out, listing, format, rows) {
        Ok(()) => {}
        Err(fault) => return Ended::Fault(fault),
    }
    match out.flush() {
        Ok(()) => Ended::Done,
        Err(_) => Ended::Fault(Fault::Write),
    }
}

/// Writes the rows that answer a question, and hands them on.
fn write_rows<W: Write>(field: Field, pattern: &[u8], desk: &mut Desk, out: &mut Sink<W>) -> Ended
    requires { pattern.now ≢ [] }
    ensures { WritesText (flat_map row_line (answer desk.old.timeline.present field pattern.now))
        out.old out.new result }
{
    desk.settle(field);
    match put_answer(out, desk.rows(field, pattern)) {
        Ok(()) => {}
        Err(fault) => return Ended::Fault(fault),
    }
    match out.flush() {
        Ok(()) => Ended::Done,
        Err(_failed) => Ended::Fault(Fault::Write),
    }
}

/// Answers a question of a session, and leaves its memory to the end of the process.
fn find_in<W: Write>(session: Session, field: Field, pattern: &[u8], out: &mut Sink<W>) -> Ended
    requires { pattern.now ≢ [] }
    ensures { WritesText (flat_map row_line (answer session.timeline.present field pattern.now))
        out.old out.new result }
{
    let mut desk = session.into_desk();
    let ended = write_rows(field, pattern, &mut desk, out);
    forget(desk);
    ended
}

/// Writes the tags of a session, and leaves its memory to the end of the process.
fn tags_of<W: Write>(session: Session, listing: bool, format: Format, out: &mut Sink<W>) -> Ended
    ensures { WritesText (tags_output listing format session.timeline.present)
        out.old out.new result }
{
    let mut desk = session.into_desk();
    let ended = write_tags(listing, format, &mut desk, out);
    forget(desk);
    ended
}

/// Serves an editor from the files of a session, and leaves their memory to the end of the process.
fn serve_editor<D: Disk, R: BufRead, W: Write>(
    alloc: Global,
    disk: &D,
    root: Option<&str>,
    session: Session,
    feed: &mut Feed<R>,
    out: &mut Sink<W>,
) -> Result<Ending, RunFault>
    requires { 1 ≤ session.timeline.present.bounds.history }
    ensures { RunsServer (D.finds disk.now) (option_map (λ folder. folder.now) root.entry)
        session.timeline.present feed.old feed.new out.old out.new result }
{
    let mut server = match server_of(alloc, root, session.into_desk()) {
        Ok(server) => server,
        Err(_) => return Err(RunFault::Memory),
    };
    let end = server.serve(alloc, disk, feed, out);
    forget(server);
    end
}

/// A language server of the files of a desk, below this root; below none, if it is not given,
/// before the client names one.
fn server_of(alloc: Global, root: Option<&str>, desk: Desk) -> Result<Server, AllocError>
    requires { 1 ≤ desk.timeline.present.bounds.history }
    ensures { IfOk result (λ server.
        server ≡ server_of (option_map (λ folder. folder.now) root.entry) desk.timeline.present) }
{
    let folder = Root::of_folder(alloc, root.unwrap_or("").as_bytes())?;
    Ok(Server::new(alloc, desk, folder, root.is_some(), VERSION))
}

/// Does a job over input and output, from a session in which its files are loaded. A job is the
/// last that a process does, so the memory of the session is not given back.
pub fn run_job<D: Disk, R: BufRead, W: Write>(
    alloc: Global,
    disk: &D,
    job: &Job,
    limits: &Limits,
    mut session: Session,
    feed: &mut Feed<R>,
    out: &mut Sink<W>,
) -> Finish
    requires ready { IsReady job.now }
    requires bounds { session.timeline.present.bounds ≡ bounds_of job.now }
    ensures { DoesJob (D.finds disk.now) job.now limits.now.lines limits.now.line session
        feed.old feed.new out.old out.new result }
{
    match job {
        Job::Line { .. } => {
            let ended = session.serve(alloc, limits, feed, out);
            forget(session);
            Finish::Ran(ended)
        }
        Job::Find { field, pattern, .. } => {
            Finish::Ran(find_in(session, *field, pattern.as_bytes(), out))
        }
        Job::Tags {
            listing,
            format,
            ..
        } => Finish::Ran(tags_of(session, *listing, *format, out)),
        Job::Lsp { root, .. } => {
            Finish::Served(serve_editor(alloc, disk, root.as_deref(), session, feed, out))
        }
    }
}

/// The name of the tags file that a job writes, if it writes one. The name `-` is standard output.
fn output_file(job: &Job) -> Option<&str>
    ensures { MatchOption result (writes_file job.now ≡ false)
        (λ name. (writes_file job.now ≡ true) × (name.now ≡ tagsfile_of job.now)) }
{
    match job {
        Job::Line { .. } => None,
        Job::Find { .. } => None,
        Job::Tags {
            listing,
            tagsfile,
            ..
        } => if *listing || tagsfile.as_str() == "-" {
            None
        } else {
            Some(tagsfile.as_str())
        },
        Job::Lsp { .. } => None,
    }
}

/// Does a job of tags into a file that is open. Where a write or the last flush fails, the file
/// can't be written.
fn run_job_over<D: Disk, I: BufRead, W: Write>(
    alloc: Global,
    disk: &D,
    job: &Job,
    session: Session,
    feed: &mut Feed<I>,
    out: &mut Sink<W>,
) -> Finish
    requires file { writes_file job.now ≡ true }
    requires ready { IsReady job.now }
    requires bounds { session.timeline.present.bounds ≡ bounds_of job.now }
    ensures written { WritesFile (file_text job.now session.timeline.present)
        out.old out.new result }
    ensures feed { feed.new ≡ feed.old }
{
    match run_job(
        alloc,
        disk,
        job,
        &limits(bounds_of(job)),
        session,
        feed,
        out,
    ) {
        Finish::Ran(Ended::Fault(Fault::Write)) => Finish::Unwritable,
        end => end,
    }
}

/// Does a job of tags into a file that was begun, which is closed then.
fn run_job_into<D: Disk + Storage, I: BufRead, W: Write + Drop>(
    alloc: Global,
    disk: &mut D,
    job: &Job,
    session: Session,
    feed: &mut Feed<I>,
    writer: W,
) -> Finish
    requires file { writes_file job.now ≡ true }
    requires ready { IsReady job.now }
    requires bounds { session.timeline.present.bounds ≡ bounds_of job.now }
    ensures written { (file : Writer) × WritesFile (file_text job.now session.timeline.present)
        (fresh (W.contents writer)) file result
        × Does D.does disk.old (closes file.bytes ∷ []) disk.new }
    ensures feed { feed.new ≡ feed.old }
{
    let mut out = Sink::new(writer);
    let end = run_job_over(alloc, &*disk, job, session, feed, &mut out);
    disk.close(out);
    end
}

/// Does a job from a session in which its files are loaded. Nothing is done to a file but here.
fn do_job<D: Disk + Storage, I: BufRead, O: Write>(
    alloc: Global,
    disk: &mut D,
    job: &Job,
    session: Session,
    feed: &mut Feed<I>,
    out: &mut Sink<O>,
) -> Finish
    requires ready { IsReady job.now }
    requires bounds { session.timeline.present.bounds ≡ bounds_of job.now }
    ensures { DoesFrom (disk_over D.finds D.shows D.does disk.old disk.new) session job.now
        feed.old feed.new out.old out.new result }
{
    let Some(name) = output_file(job) else {
        let limits = limits(bounds_of(job));
        return run_job(alloc, disk, job, &limits, session, feed, out);
    };
    let (writer, draft) = match begin(alloc, disk, name, files_of(job), force_of(job)) {
        Ok(begun) => begun,
        Err(end) => return end,
    };
    let end = run_job_into(alloc, disk, job, session, feed, writer);
    settle(disk, name, draft.as_deref(), end)
}

/// Does a job: every file is read, then all are loaded, where no fact is sought that the job does
/// not read, and only then is something done with them.
fn work<D: Disk + Storage, I: BufRead, O: Write>(
    alloc: Global,
    disk: &mut D,
    job: &Job,
    feed: &mut Feed<I>,
    out: &mut Sink<O>,
) -> Finish
    requires { IsReady job.now }
    ensures { Works (disk_over D.finds D.shows D.does disk.old disk.new) job.now
        feed.old feed.new out.old out.new result }
{
    let bounds = bounds_of(job);
    let mut operands = Vec::new(alloc);
    match read_operands(alloc, disk, bounds, files_of(job), &mut operands) {
        Ok(()) => {}
        Err(end) => return end,
    }
    let Ok(operands) = operands_of(alloc, job, operands) else {
        return OUT_OF_MEMORY;
    };
    let session = match prepare(alloc, bounds, needed_of(job), operands) {
        Ok(session) => session,
        Err(ended) => return Finish::Ran(ended),
    };
    do_job(alloc, disk, job, session, feed, out)
}

/// Does a job, to which the names of its list were added, if it has one.
fn work_listed<D: Disk + Storage, I: BufRead, O: Write>(
    alloc: Global,
    disk: &mut D,
    job: &mut Job,
    feed: &mut Feed<I>,
    out: &mut Sink<O>,
) -> Finish
    requires { IsReady job.old }
    ensures { WorksListed (disk_over D.finds D.shows D.does disk.old disk.new) job.old job.new
        feed.old feed.new out.old out.new result }
{
    match take_list(alloc, disk, job, feed) {
        Ok(()) => work(alloc, disk, job, feed, out),
        Err(end) => end,
    }
}

/// Runs the program on these words, the first of which is its name, and answers its exit status.
pub fn execute<D: Disk + Storage, I: BufRead, O: Write, E: Write>(
    alloc: Global,
    disk: &mut D,
    words: &[String],
    feed: &mut Feed<I>,
    out: &mut Sink<O>,
    errors: &mut Sink<E>,
) -> u8
    ensures { EndsJob (disk_over D.finds D.shows D.does disk.old disk.new)
        (map string_bytes words.now) result feed.old feed.new out.old out.new
        errors.old errors.new
        ⊎ EndsUsage (disk_over D.finds D.shows D.does disk.old disk.new)
        (map string_bytes words.now) result feed.old feed.new out.old out.new
        errors.old errors.new }
{
    match job_of(alloc, words) {
        Ok(mut job) => {
            let end = work_listed(alloc, disk, &mut job, feed, out);
            conclude(errors, &job, end)
        }
        Err(usage) => refuse(errors, &usage),
    }
}

/// The same on the words of the process.
pub fn execute_process<D: Disk + Storage, I: BufRead, O: Write, E: Write>(
    alloc: Global,
    disk: &mut D,
    words: io::Result<Args>,
    feed: &mut Feed<I>,
    out: &mut Sink<O>,
    errors: &mut Sink<E>,
) -> u8
    ensures { EndsProcess (disk_over D.finds D.shows D.does disk.old disk.new) words result
        feed.old feed.new out.old out.new errors.old errors.new }
{
    match taken_words(alloc, words) {
        Ok(words) => execute(alloc, disk, words.as_slice(), feed, out, errors),
        Err(missing) => refuse(errors, &missing),
    }
}

/// The same behind buffers.
pub fn run<D: Disk + Storage, I: Read + Drop, O: Write + Drop, E: Write>(
    alloc: Global,
    disk: &mut D,
    words: io::Result<Args>,
    input: I,
    output: O,
    errors: &mut Sink<E>,
) -> u8
    ensures { EndsRun (disk_over D.finds D.shows D.does disk.old disk.new) words
        (I.remaining input) (O.contents output) result errors.old errors.new }
{
    let Ok(reader) = BufReader::new(alloc, input) else {
        return refuse(errors, &Usage::Memory);
    };
    let Ok(writer) = BufWriter::new(alloc, output) else {
        return refuse(errors, &Usage::Memory);
    };
    let mut feed = Feed::new(reader);
    let mut out = Sink::new(writer);
    execute_process(alloc, disk, words, &mut feed, &mut out, errors)
}

fn all_words(alloc: Global, words: Args) -> Result<Vec<String>, AllocError>
    ensures { IfOk result (λ taken. taken.items ≡ into_iter_items words) }
{
    words.collect(alloc)
}

/// The words of the process, the first of which is the program's name.
fn taken_words(alloc: Global, words: io::Result<Args>) -> Result<Vec<String>, Usage>
    ensures { TakesWords words result }
{
    match words {
        Ok(words) => Ok(all_words(alloc, words)?),
        Err(error) if error.kind() == ErrorKind::InvalidData => Err(Usage::Wrong(
            String::from_str(
                alloc,
                "error: a word is not UTF-8\n\nFor more information, try '--help'.\n",
            )?,
        )),
        Err(_) => Err(Usage::Memory),
    }
}
