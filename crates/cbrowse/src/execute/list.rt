//! The list of a job: a file, or standard input, with the names of more files.
ghost use Rattle.std.specs.Prelude.{◌≡◌, ◌≤◌, ◌<◌, ◌++◌, ◌∷◌, [], Ok, true, MatchResult, length};
ghost use Rattle.std.specs.Prelude.{map, string_bytes, vec_capacity};
ghost use Rattle.cb_words.specs.Jobs.{is_standard_input, most_file_bytes};
ghost use Rattle.cbrowse.specs.Lists.{HasMore, HasNoList, IsListText, IsNoList, LacksList};
ghost use Rattle.cbrowse.specs.Lists.{ReadsAll, TakesList, names_in};
ghost use Rattle.cbrowse.specs.Messages.{list_of};

use crate::execute::files::OUT_OF_MEMORY;
use crate::execute::finish::{Finish, list_of};
use crate::execute::storage::Storage;
use bstr::ByteSlice;
use cb_desk::MOST_BYTES;
use cb_tags::Feed;
use cb_words::Job;
use std::alloc::Global;
use std::io::{self, ErrorKind};

/// Adds the names in the list of a job, if it has one, to its files, behind them.
pub(crate) fn take_list<D: Storage, I: io::BufRead>(
    alloc: Global,
    disk: &D,
    job: &mut Job,
    feed: &mut Feed<I>,
) -> Result<(), Finish>
    ensures taken { MatchResult result
        (λ _. TakesList (D.shows disk.now) (list_of job.old) job.old feed.old feed.new job.new)
        (LacksList (list_of job.old) feed.old feed.new) }
    ensures list { list_of job.new ≡ list_of job.old }
{
    let text = match list_of(job) {
        Some(list) => list_text(alloc, disk, list, feed)?,
        None => return Ok(()),
    };
    add_to(alloc, text.as_slice(), job)
}

/// The text of a list. The list `-` is standard input.
fn list_text<D: Storage, I: io::BufRead>(
    alloc: Global,
    disk: &D,
    list: &str,
    feed: &mut Feed<I>,
) -> Result<Vec<u8>, Finish>
    ensures { MatchResult result
        (λ text. IsListText (D.shows disk.now) list.now (is_standard_input list.now)
        feed.old feed.new text.items)
        (HasNoList (is_standard_input list.now) feed.old feed.new) }
{
    if list == "-" {
        read_input(alloc, feed)
    } else {
        whole_list(disk.list(alloc, list, MOST_BYTES as u64 + 1))
    }
}

/// The list that was read, unless it is too large: then one byte more than it may have was read.
fn whole_list(read: io::Result<Vec<u8>>) -> Result<Vec<u8>, Finish>
    ensures { MatchResult result
        (λ text. (read ≡ Ok text) × (length text.items ≤ most_file_bytes)) IsNoList }
{
    match read {
        Ok(text) if text.len() <= MOST_BYTES as usize => Ok(text),
        Ok(_) => Err(Finish::Unlisted),
        Err(error) if error.kind() == ErrorKind::OutOfMemory => Err(OUT_OF_MEMORY),
        Err(_) => Err(Finish::Unlisted),
    }
}

/// All that is left of the input, unless it is too large.
fn read_input<I: io::BufRead>(alloc: Global, feed: &mut Feed<I>) -> Result<Vec<u8>, Finish>
    ensures { MatchResult result
        (λ text. (length text.items ≤ most_file_bytes) × ReadsAll feed.old feed.new text.items)
        (HasNoList true feed.old feed.new) }
{
    let mut text = Vec::new(alloc);
    'pieces: while text.len() <= MOST_BYTES as usize {
        make_room(&mut text)?;
        match feed.piece(text.capacity(), &mut text) {
            Ok(true) => {}
            Ok(false) => return Ok(text),
            Err(_) => return Err(Finish::Unlisted),
        }
    }
    Err(Finish::Unlisted)
}

/// Makes room for more bytes where there is none.
fn make_room(text: &mut Vec<u8>) -> Result<(), Finish>
    ensures items { text.new.items ≡ text.old.items }
    ensures room { MatchResult result
        (λ _. length text.new.items < vec_capacity text.new) IsNoList }
{
    if text.len() < text.capacity() {
        return Ok(());
    }
    match text.reserve(text.len().max(8_192)) {
        Ok(()) => Ok(()),
        Err(_) => Err(OUT_OF_MEMORY),
    }
}

/// Adds the names in a list to the files of a job, behind them.
fn add_to(alloc: Global, text: &[u8], job: &mut Job) -> Result<(), Finish>
    ensures more { MatchResult result
        (λ _. HasMore job.old (names_in text.now) job.new) IsNoList }
    ensures list { list_of job.new ≡ list_of job.old }
{
    match job {
        Job::Line { files, .. } => add_names(alloc, text, files),
        Job::Find { files, .. } => add_names(alloc, text, files),
        Job::Tags { files, .. } => add_names(alloc, text, files),
        Job::Lsp { files, .. } => add_names(alloc, text, files),
    }
}

/// Adds the names in a list to these, behind them.
fn add_names(alloc: Global, text: &[u8], files: &mut Vec<String>) -> Result<(), Finish>
    ensures { MatchResult result
        (λ _. map string_bytes files.new.items
        ≡ map string_bytes files.old.items ++ names_in text.now)
        IsNoList }
{
    for line in text.lines() {
        add_name(alloc, line, files)?;
    }
    Ok(())
}

/// Adds a name to these, behind them. A list with a name that is not UTF-8 cannot be read.
fn add_name(alloc: Global, line: &[u8], files: &mut Vec<String>) -> Result<(), Finish>
    ensures { MatchResult result
        (λ _. map string_bytes files.new.items
        ≡ map string_bytes files.old.items ++ line.now ∷ [])
        IsNoList }
{
    let Ok(name) = str::from_utf8(line) else {
        return Err(Finish::Unlisted);
    };
    let name = match String::from_str(alloc, name) {
        Ok(name) => name,
        Err(_) => return Err(OUT_OF_MEMORY),
    };
    match files.push(name) {
        Ok(()) => Ok(()),
        Err(_) => Err(OUT_OF_MEMORY),
    }
}
