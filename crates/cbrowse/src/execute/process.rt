//! The files of the process, by the calls of the system. What the system does has no model: here
//! stands what the program takes for granted.
ghost use Rattle.std.specs.Prelude.{◌≡◌, ◌<◌, ◌^◌, IfOk, IfSome, take};

use crate::execute::storage::{Seen, Storage};
use cb_lsp::{Disk, Found};
use cb_tags::Sink;
use std::alloc::Global;
use std::fs::{self, Metadata, OpenFile, OpenOptions, Permissions};
use std::io::{self, ErrorKind, Read, Write};
use std::os::unix::fs::{MetadataExt, PermissionsExt};
use std::rt::Files;

/// The files of the process.
#[derive(Drop)]
pub(crate) struct Process<'a, R> {
    pub(crate) rt: &'a R,
}

/// The bytes that are left, at most so many. There is room for as many, and for one more that would
/// show that there are more, before the first is read.
fn read_whole<F: Read + Drop>(alloc: Global, most: u64, file: F, size: u64) -> io::Result<Vec<u8>>
    requires { most < 2 ^ 33 }
    ensures { IfOk result (λ bytes.
        IfSome (F.remaining file) (λ left. bytes.items ≡ take most left)) }
{
    let mut bytes = Vec::with_capacity(alloc, size.min(most) as usize + 1)?;
    file.take(most).read_to_end(&mut bytes)?;
    Ok(bytes)
}

/// The first bytes of an open file, at most so many; of a regular one, if only that will do.
fn read_open<F: Read + OpenFile + Drop>(
    alloc: Global,
    most: u64,
    file: F,
    regular: bool,
) -> io::Result<Vec<u8>>
    requires { most < 2 ^ 33 }
{
    let found = file.metadata()?;
    if regular && !found.is_file() {
        return Err(io::Error::from(ErrorKind::InvalidInput));
    }
    read_whole(alloc, most, file, found.len())
}

/// Whether the last bytes of a path, so many, are the only name of its file: no other path leads to
/// it, and none of the folders and files that they name is a link. Any are where there are none.
fn is_alone<R: Files + AllocGlobal>(rt: &R, path: &str, only: usize) -> io::Result<bool> {
    if only == 0 {
        return Ok(true);
    }
    let Some((folder, name)) = path.split_at_checked(path.len().saturating_sub(only)) else {
        return Ok(false);
    };
    if fs::metadata(rt, path)?.nlink() > 1 {
        return Ok(false);
    }
    let folder = rt.canonicalize(rt.alloc(), folder)?;
    let file = rt.canonicalize(rt.alloc(), path)?;
    match file.strip_prefix(folder.as_path()) {
        Ok(below) => Ok(below.as_str() == name),
        Err(_) => Ok(false),
    }
}

/// The first bytes of a regular file, at most so many; where `only` is not 0, of one whose only name
/// are so many of the last bytes of the path. What is none is not opened, since a pipe waits for a writer; another one may have come
/// to the name meanwhile.
fn read_regular<R: Files + AllocGlobal>(
    rt: &R,
    most: u64,
    path: &str,
    only: usize,
) -> io::Result<Found>
    requires { most < 2 ^ 33 }
{
    if !fs::metadata(rt, path)?.is_file() {
        return Err(io::Error::from(ErrorKind::InvalidInput));
    }
    if !is_alone(rt, path, only)? {
        return Ok(Found::Linked);
    }
    let bytes = read_open(rt.alloc(), most, fs::open(rt, path)?, true)?;
    Ok(Found::Holds(bytes))
}

impl<R: Files + AllocGlobal> Disk for Process<'_, R> {
    ghost finds = { λ process looked. Unit {0} };

    fn read(&self, _alloc: Global, path: &[u8], most: u64, only: usize) -> Found {
        let Ok(path) = str::from_utf8(path) else {
            return Found::Unreadable;
        };
        match read_regular(self.rt, most, path, only) {
            Ok(found) => found,
            Err(error) => match error.kind() {
                ErrorKind::NotFound | ErrorKind::NotADirectory => Found::Gone,
                ErrorKind::OutOfMemory => Found::NoRoom,
                _ => Found::Unreadable,
            },
        }
    }
}

/// A link to nothing.
const LOOSE_LINK: Seen = Seen {
    regular: false,
    empty: true,
    link: true,
    device: 0,
    inode: 0,
    mode: 0,
};

/// What the system tells of a path.
fn seen_in(found: &Metadata, link: bool) -> Seen {
    Seen {
        regular: found.is_file(),
        empty: found.len() == 0,
        link,
        device: found.dev(),
        inode: found.ino(),
        mode: found.mode(),
    }
}

/// Whether the path is that of a link.
fn is_link<R: Files>(rt: &R, path: &str) -> bool {
    match fs::symlink_metadata(rt, path) {
        Ok(found) => found.is_symlink(),
        Err(_) => false,
    }
}

/// Gives a new file these permissions. Where files have no permissions of their own, they are as
/// they should be already.
fn permit<F: OpenFile>(file: &F, mode: u32) -> io::Result<()> {
    if file.metadata()?.mode() == mode {
        Ok(())
    } else {
        file.set_permissions(Permissions::from_mode(mode))
    }
}

/// Empties a file that was opened where this was seen, if it is a regular one. It is the one that
/// was seen, or holds nothing.
fn emptied<F: OpenFile + Drop>(file: F, old: Seen) -> io::Result<F> {
    let found = file.metadata()?;
    if found.is_file() {
        if found.len() > 0 && (found.dev() != old.device || found.ino() != old.inode) {
            return Err(io::Error::from(ErrorKind::AlreadyExists));
        }
        file.set_len(0)?;
    }
    Ok(file)
}

impl<R: Files + AllocGlobal> Storage for Process<'_, R> {
    type File = R::File;

    ghost shows = { λ process sight. Unit {0} };

    ghost does = { λ before step after. Unit {0} };

    fn list(&self, alloc: Global, path: &str, most: u64) -> io::Result<Vec<u8>> {
        read_open(alloc, most, fs::open(self.rt, path)?, false)
    }

    fn look(&self, path: &str) -> io::Result<Option<Seen>> {
        let link = is_link(self.rt, path);
        match fs::metadata(self.rt, path) {
            Ok(found) => Ok(Some(seen_in(&found, link))),
            Err(error) if error.kind() != ErrorKind::NotFound => Err(error),
            Err(_) if link => Ok(Some(LOOSE_LINK)),
            Err(_) => Ok(None),
        }
    }

    fn first_bytes(&self, alloc: Global, path: &str, most: u64) -> io::Result<Vec<u8>> {
        let file = OpenOptions::new()
            .read(true)
            .write(true)
            .open(self.rt, path)?;
        read_open(alloc, most, file, true)
    }

    fn target(&self, alloc: Global, path: &str) -> io::Result<String> {
        let target = self.rt.canonicalize(alloc, path)?;
        Ok(String::from_str(alloc, target.as_str())?)
    }

    fn create(&mut self, path: &str, like: Option<Seen>) -> io::Result<R::File> {
        let file = OpenOptions::new()
            .write(true)
            .create_new(true)
            .open(self.rt, path)?;
        if let Some(old) = like {
            if let Err(error) = permit(&file, old.mode) {
                let _ = fs::remove_file(self.rt, path);
                return Err(error);
            }
        }
        Ok(file)
    }

    fn open(&mut self, path: &str, seen: Seen) -> io::Result<R::File> {
        let file = OpenOptions::new()
            .write(true)
            .create(true)
            .open(self.rt, path)?;
        emptied(file, seen)
    }

    fn close<W: Write + Drop>(&mut self, out: Sink<W>) {
        drop(out);
    }

    fn rename(&mut self, from: &str, to: &str) -> io::Result<()> {
        fs::rename(self.rt, from, to)
    }

    fn remove(&mut self, path: &str) -> io::Result<()> {
        fs::remove_file(self.rt, path)
    }
}
