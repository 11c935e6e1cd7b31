//! Files that are read again.
ghost use Rattle.std.specs.Prelude.{◌≡◌, ◌<◌, ◌^◌};
ghost use Rattle.std.specs.Str.{bytes_eq};
ghost use Rattle.cb_desk.specs.World.{text_of_file};
ghost use Rattle.cb_lsp.specs.Documents.{Looked, most_read};
ghost use Rattle.cb_lsp.specs.Models.{found_in};

use cb_desk::Desk;
use std::alloc::Global;

/// What is found where a file is read again.
#[derive(Debug, Drop)]
pub enum Found {
    /// No file.
    Gone,
    /// A file that is reached by a link or has a second name, where its name has to be its only one.
    Linked,
    /// A file that cannot be read.
    Unreadable,
    /// A file for whose bytes memory is refused.
    NoRoom,
    /// The bytes of a file.
    Holds(Vec<u8>),
}

/// The file system, as a server reads it.
pub trait Disk {
    /// A path of which at most so many bytes are read, maybe only of a file that has no other name
    /// than so many of the last bytes of the path, has this finding.
    ghost finds: { Self → Looked → Type 0 };

    /// The first bytes of the file of a path, at most so many. Where `only` is not 0, so many of the
    /// last bytes of the path are a name that has to be the only one of the file: no link in it is
    /// followed, the last one or one of a folder, and a file that has a second name is not read.
    fn read(&self, alloc: Global, path: &[u8], most: u64, only: usize) -> Found
        requires { most < 2 ^ 33 }
        ensures { finds self.now (record {
          path = path.now;
          most = most;
          only = only;
          found = found_in result;
        }) };
}

/// Whether a file has a text.
pub(crate) fn has_text(desk: &Desk, file: &[u8], text: &[u8]) -> bool
    ensures { result ≡ bytes_eq text.now (text_of_file desk.now.timeline.present.files file.now) }
{
    match desk.source(file) {
        Some(source) => text == source.bytes(),
        None => text.is_empty(),
    }
}

/// One more than the most bytes of a file, so that a larger one is seen to be too large.
pub(crate) fn most_read(desk: &Desk) -> u64
    ensures value { result ≡ most_read desk.now.timeline.present.bounds }
    ensures small { result < 2 ^ 33 }
{
    desk.bounds().file_bytes() as u64 + 1
}
