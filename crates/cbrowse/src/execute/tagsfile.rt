//! The tags file: what it may replace, and how it comes to its name.
ghost use Rattle.std.specs.Prelude.{◌≡◌, ◌++◌, ◌∷◌, [], List, IfOk, MatchResult, codes, decimal};
ghost use Rattle.std.specs.Prelude.{map, string_bytes};
ghost use Rattle.std.specs.List.{AllByRecursion};
ghost use Rattle.std.specs.Option.{option_map};
ghost use Rattle.cbrowse.specs.Files.{Does, Step, creates};
ghost use Rattle.cbrowse.specs.Tagsfile.{Begins, BeginsNone, IsDraft, IsOther, IsWay, MayLose};
ghost use Rattle.cbrowse.specs.Tagsfile.{MayReplace, Settles, after_tab, begins_number, is_same};
ghost use Rattle.cbrowse.specs.Tagsfile.{is_source_name, is_tags, most_first};

use crate::execute::files::OUT_OF_MEMORY;
use crate::execute::finish::Finish;
use crate::execute::storage::{Seen, Storage};
use cb_session::Ended;
use itoa::Buffer;
use std::alloc::{AllocError, Global};
use std::io::{self, BufWriter, ErrorKind, Write};

/// How a tags file comes to its name.
#[derive(Clone, Copy, Debug, PartialEq, Eq)]
pub(crate) enum Way {
    /// A draft beside it takes the name, and the permissions of what stands there.
    Beside(Option<Seen>),
    /// What stands there is written: a device, a pipe, or a file behind a link.
    InPlace(Seen),
}

/// What an existing file holds is not lost.
fn refused() -> io::Error {
    io::Error::from(ErrorKind::AlreadyExists)
}

/// What follows the first tab of the first line.
fn after_tab(text: &[u8]) -> &[u8]
    ensures { result.now ≡ after_tab text.now }
{
    for (i, byte) in text.iter().enumerate() {
        if *byte == b'\t' {
            return &text[i + 1..];
        }
        if *byte == b'\n' {
            return b"";
        }
    }
    b""
}

/// Whether a digit begins a text.
fn begins_number(text: &[u8]) -> bool
    ensures { result ≡ begins_number text.now }
{
    match text {
        [digit, ..] => *digit > 47 && *digit < 58,
        [] => false,
    }
}

/// Whether a text begins as a tags file does: with a pseudo-tag, or with a name, a file and an
/// address (tags(5)).
fn is_tags(text: &[u8]) -> bool
    ensures { result ≡ is_tags text.now }
{
    let address = after_tab(after_tab(text));
    text.starts_with(b"!_TAG_") || (address.starts_with(b"/^") || begins_number(address))
}

/// Whether a file of this name may be a C source.
fn is_source_name(name: &str) -> bool
    ensures { result ≡ is_source_name name.now }
{
    name.as_bytes().ends_with(b".c") || name.as_bytes().ends_with(b".h")
}

/// Whether two names lead to one file.
fn is_same(a: Seen, b: Seen) -> bool
    ensures { result ≡ is_same a b }
{
    a.device == b.device && a.inode == b.inode
}

/// Fails where a file that was seen is an operand.
fn check_operands<D: Storage>(disk: &D, files: &[String], seen: Seen) -> io::Result<()>
    ensures { IfOk result
        (λ _. AllByRecursion (IsOther (D.shows disk.now) seen) (map string_bytes files.now)) }
{
    for file in files {
        match disk.look(file.as_str())? {
            Some(other) if is_same(other, seen) => return Err(refused()),
            _ => {}
        }
    }
    Ok(())
}

/// Fails where what a file holds may not be lost. The first line of a tags file is never longer
/// than what is looked at, unless a name in it has more than a million bytes.
fn check_held<D: Storage>(alloc: Global, disk: &D, name: &str, force: bool) -> io::Result<()>
    ensures { IfOk result (λ _. MayLose (D.shows disk.now) name.now force) }
{
    let target = disk.target(alloc, name)?;
    let first = disk.first_bytes(alloc, name, 1_048_576)?;
    if is_source_name(name) || is_source_name(target.as_str()) {
        return Err(refused());
    }
    if force || is_tags(first.as_slice()) {
        Ok(())
    } else {
        Err(refused())
    }
}

/// Fails where a regular file may not be replaced.
fn check_regular<D: Storage>(
    alloc: Global,
    disk: &D,
    name: &str,
    files: &[String],
    force: bool,
    seen: Seen,
) -> io::Result<()>
    ensures { IfOk result
        (λ _. MayReplace (D.shows disk.now) name.now (map string_bytes files.now) force seen) }
{
    check_operands(disk, files, seen)?;
    if seen.empty {
        return Ok(());
    }
    check_held(alloc, disk, name, force)
}

/// The way to a name.
fn way_to<D: Storage>(
    alloc: Global,
    disk: &D,
    name: &str,
    files: &[String],
    force: bool,
) -> io::Result<Way>
    ensures { IfOk result (IsWay (D.shows disk.now) name.now (map string_bytes files.now) force) }
{
    let Some(seen) = disk.look(name)? else {
        return Ok(Way::Beside(None));
    };
    if seen.regular {
        check_regular(alloc, disk, name, files, force, seen)?;
        if !seen.link {
            return Ok(Way::Beside(Some(seen)));
        }
    }
    Ok(Way::InPlace(seen))
}

/// A file behind a buffer: it is made or opened once the buffer's memory is there.
#[derive(Drop)]
pub(crate) struct LateFile<F: Write + Drop> {
    file: Option<F>,
}

impl<F: Write + Drop> Write for LateFile<F> {
    ghost use Rattle.cbrowse.specs.Writes.{late_contents};

    ghost contents = { λ late. late_contents F.contents late.file };

    fn write(&mut self, buf: &[u8]) -> io::Result<usize> {
        match &mut self.file {
            Some(file) => file.write(buf),
            None => Err(io::Error::from(ErrorKind::NotConnected)),
        }
    }

    fn flush(&mut self) -> io::Result<()> {
        match &mut self.file {
            Some(file) => file.flush(),
            None => Err(io::Error::from(ErrorKind::NotConnected)),
        }
    }
}

/// A tags file that is written.
pub(crate) type TagsFile<F> = BufWriter<LateFile<F>>;

/// The name of a draft beside a file.
fn draft_name(alloc: Global, name: &str, number: u32) -> Result<String, AllocError>
    ensures { IfOk result (λ draft. string_bytes draft
        ≡ name.now ++ (codes "." ++ (decimal number ++ codes ".tmp"))) }
{
    let mut digits = Buffer::new();
    let mut draft = String::from_str(alloc, name)?;
    draft.push_str(".")?;
    draft.push_str(digits.format(number))?;
    draft.push_str(".tmp")?;
    Ok(draft)
}

/// Makes a draft beside a file, by a name that nothing has. A run that is killed leaves its own.
fn make_draft<D: Storage>(
    alloc: Global,
    disk: &mut D,
    name: &str,
    like: Option<Seen>,
) -> io::Result<(String, D::File)>
    ensures { MatchResult result
        (λ made. IsDraft name.now (string_bytes made.0)
        × Does D.does disk.old (creates (string_bytes made.0) ∷ []) disk.new)
        (λ _. disk.new ≡ disk.old) }
{
    for number in 1..100 {
        let draft = draft_name(alloc, name, number)?;
        match disk.create(draft.as_str(), like) {
            Ok(file) => return Ok((draft, file)),
            Err(error) if error.kind() == ErrorKind::AlreadyExists => {}
            Err(error) => return Err(error),
        }
    }
    Err(refused())
}

/// A tags file that is begun: its writer, and the name of its draft, if it is written as one.
fn begun<D: Storage>(
    alloc: Global,
    disk: &mut D,
    name: &str,
    files: &[String],
    force: bool,
) -> io::Result<(TagsFile<D::File>, Option<String>)>
    ensures { MatchResult result
        (λ begun. Begins (D.shows disk.old) (λ steps. Does D.does disk.old steps disk.new)
        name.now (map string_bytes files.now) force (option_map string_bytes begun.1))
        (λ _. disk.new ≡ disk.old) }
{
    let mut writer = BufWriter::new(alloc, LateFile { file: None })?;
    match way_to(alloc, disk, name, files, force)? {
        Way::Beside(like) => {
            let (draft, file) = make_draft(alloc, disk, name, like)?;
            writer.get_mut().file = Some(file);
            Ok((writer, Some(draft)))
        }
        Way::InPlace(seen) => {
            writer.get_mut().file = Some(disk.open(name, seen)?);
            Ok((writer, None))
        }
    }
}

/// The same, in place of these files. All that takes memory comes first.
pub(crate) fn begin<D: Storage>(
    alloc: Global,
    disk: &mut D,
    name: &str,
    files: &[String],
    force: bool,
) -> Result<(TagsFile<D::File>, Option<String>), Finish>
    ensures { MatchResult result
        (λ begun. Begins (D.shows disk.old) (λ steps. Does D.does disk.old steps disk.new)
        name.now (map string_bytes files.now) force (option_map string_bytes begun.1))
        (λ end. BeginsNone end × (disk.new ≡ disk.old)) }
{
    match begun(alloc, disk, name, files, force) {
        Ok(begun) => Ok(begun),
        Err(error) if error.kind() == ErrorKind::OutOfMemory => Err(OUT_OF_MEMORY),
        Err(_) => Err(Finish::Unwritable),
    }
}

/// Gives a draft that is whole the name, and drops another one.
pub(crate) fn settle<D: Storage>(
    disk: &mut D,
    name: &str,
    draft: Option<&str>,
    end: Finish,
) -> Finish
    ensures { Settles (λ steps. Does D.does disk.old steps disk.new) name.now
        (option_map (λ text. text.now) draft.entry) end result }
{
    let Some(draft) = draft else {
        return end;
    };
    if end == Finish::Ran(Ended::Done) && disk.rename(draft, name).is_ok() {
        return end;
    }
    let _ = disk.remove(draft);
    Finish::Unwritable
}
