//! What the program asks of the files of a process, beside what its server asks.

use cb_tags::Sink;
use std::alloc::Global;
use std::io::{self, Write};

/// What stands under a path. Links are followed.
#[derive(Clone, Copy, Debug, PartialEq, Eq)]
pub(crate) struct Seen {
    /// It is a regular file.
    pub(crate) regular: bool,
    /// It holds nothing.
    pub(crate) empty: bool,
    /// The path is that of a link.
    pub(crate) link: bool,
    /// Its device, and its number there.
    pub(crate) device: u64,
    pub(crate) inode: u64,
    /// Its permissions.
    pub(crate) mode: u32,
}

/// The files of a process. Beside what a call answers and does, nothing is done. A call that fails
/// does nothing.
pub(crate) trait Storage {
    ghost use Rattle.std.specs.Prelude.{◌≡◌, ◌<◌, ◌^◌, IfOk, MatchResult, string_bytes};
    ghost use Rattle.cbrowse.specs.Files.{Sight, Step, begins, closes, creates, leads, opens};
    ghost use Rattle.cbrowse.specs.Files.{removes, renames, stands};

    /// A file that is open to be written.
    type File: Write + Drop;

    /// This may be seen of the files.
    ghost shows: { Self → Sight → Type 0 };

    /// This step may lead from these files to those.
    ghost does: { Self → Step → Self → Type 0 };

    /// The first bytes of a file, which may be a pipe or a device; at most so many.
    fn list(&self, alloc: Global, path: &str, most: u64) -> io::Result<Vec<u8>>
        requires { most < 2 ^ 33 }
        ensures { IfOk result (λ first. shows self.now (begins path.now most first.items)) };

    /// What stands under a path, if anything does.
    fn look(&self, path: &str) -> io::Result<Option<Seen>>
        ensures { IfOk result (λ seen. shows self.now (stands path.now seen)) };

    /// The first bytes of a regular file that may be written; at most so many.
    fn first_bytes(&self, alloc: Global, path: &str, most: u64) -> io::Result<Vec<u8>>
        requires { most < 2 ^ 33 }
        ensures { IfOk result (λ first. shows self.now (begins path.now most first.items)) };

    /// The path of the file to which a path leads.
    fn target(&self, alloc: Global, path: &str) -> io::Result<String>
        ensures { IfOk result (λ target. shows self.now (leads path.now (string_bytes target))) };

    /// Makes a file where nothing stands, with the permissions of what was seen.
    fn create(&mut self, path: &str, like: Option<Seen>) -> io::Result<Self::File>
        ensures { MatchResult result (λ _. does self.old (creates path.now) self.new)
            (λ _. self.new ≡ self.old) };

    /// Opens what was seen under a path, and empties it if it is a regular file.
    fn open(&mut self, path: &str, seen: Seen) -> io::Result<Self::File>
        ensures { MatchResult result (λ _. does self.old (opens path.now) self.new)
            (λ _. self.new ≡ self.old) };

    /// Closes what was made or opened, which is behind this sink.
    fn close<W: Write + Drop>(&mut self, out: Sink<W>)
        ensures { does self.old (closes out.bytes) self.new };

    /// Gives a file another name, in the place of what has it.
    fn rename(&mut self, from: &str, to: &str) -> io::Result<()>
        ensures { MatchResult result (λ _. does self.old (renames from.now to.now) self.new)
            (λ _. self.new ≡ self.old) };

    /// Takes a file away.
    fn remove(&mut self, path: &str) -> io::Result<()>
        ensures { MatchResult result (λ _. does self.old (removes path.now) self.new)
            (λ _. self.new ≡ self.old) };
}
