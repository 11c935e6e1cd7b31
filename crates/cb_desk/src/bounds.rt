//! How large a session may grow, and the limits of what it keeps.
ghost use Rattle.std.specs.Prelude.{◌≡◌, ◌≤◌};
ghost use Rattle.cb_desk.specs.World.{AreBounds, WorldBounds, standard_bounds};
ghost use Rattle.cb_desk.specs.declared.bounds.TheConstants.{MOST_BYTES, MOST_FILES};

use std::marker::Model;

/// The most bytes that bounds allow a file.
pub const MOST_BYTES: u32 = 268_435_456;

/// The most files that bounds allow a world.
pub const MOST_FILES: u32 = 1_048_576;

/// The most bytes of a text that is wanted, or that is put in place of one.
pub const MOST_TEXT: usize = 4_096;

/// The bounds of a session: the most files, the most bytes of each, and the most changes that can
/// be undone. Within the widest bounds no number wraps.
#[derive(Clone, Copy, Debug)]
pub struct Bounds {
    files: u32,
    file_bytes: u32,
    history: u32,
}

impl Model for Bounds {
    ghost use Rattle.cb_desk.specs.World.{AreBounds, WorldBounds};

    ghost Value = { WorldBounds };

    ghost view = { λ b. record {
      files = b.files;
      file_bytes = b.file_bytes;
      history = b.history;
    } };

    ghost invariant = { λ b. AreBounds (record {
      files = b.files;
      file_bytes = b.file_bytes;
      history = b.history;
    }) };

    ghost inverse = { λ b. record {
      files = b.files;
      file_bytes = b.file_bytes;
      history = b.history;
    } };
}

impl Bounds {
    /// Bounds of at most 1,048,576 files, each of at most 268,435,456 bytes.
    pub fn new(files: u32, file_bytes: u32, history: u32) -> Bounds
        requires files { files ≤ MOST_FILES }
        requires file_bytes { file_bytes ≤ MOST_BYTES }
        ensures { result
            ≡ record { files = files; file_bytes = file_bytes; history = history } }
    {
        Bounds {
            files,
            file_bytes,
            history,
        }
    }

    /// The bounds of a session that is given none: 4,096 files, each of 1,000,000 bytes, and 65,536
    /// changes.
    pub fn standard() -> Bounds
        ensures { result ≡ standard_bounds }
    {
        Bounds::new(4_096, 1_000_000, 65_536)
    }

    /// The most files of a world.
    pub fn files(self) -> u32
        ensures value { result ≡ self.files }
        ensures within { AreBounds self }
    {
        self.files
    }

    /// The most bytes of a file.
    pub fn file_bytes(self) -> u32
        ensures { result ≡ self.file_bytes }
    {
        self.file_bytes
    }

    /// The most changes of a past, and of a past and a future together.
    pub fn history(self) -> u32
        ensures { result ≡ self.history }
    {
        self.history
    }
}
