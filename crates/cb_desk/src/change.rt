//! What can be done to the files, and why a command is refused: one table of numbers and texts for
//! all layers.
ghost use Rattle.std.specs.Prelude.{◌≡◌};
ghost use Rattle.cb_desk.specs.Refusals.{number_of, text_of};

use std::alloc::{AllocError, AllocFailed};

/// A change of the world. A change owns the bytes that it brings.
#[derive(Debug, Drop)]
pub enum Change<'a> {
    /// Adds a file under a name.
    Load(&'a [u8], Vec<u8>),
    /// Gives the file of a name these bytes, also where they are the ones that it has. Its marks
    /// and its frames are taken away.
    Reload(&'a [u8], Vec<u8>),
    /// Takes the file of a name away, with its marks and its frames.
    Unload(&'a [u8]),
    /// Gives the file of the first name, its marks and its frames the second.
    Rename(&'a [u8], &'a [u8]),
    /// Wants a text of 1 to 4,096 bytes without line feed, and takes all marks away.
    Want(&'a [u8]),
    /// Marks the nth line that holds the wanted text, by file and line, counted from 1; takes its
    /// mark away if it has one.
    Mark(u64),
    /// Marks every line that holds the wanted text.
    MarkAll,
    /// Puts a text of at most 4,096 bytes without line feed in place of each match of the wanted
    /// text on the marked lines: of matches that overlap, the leftmost. Then nothing is wanted and
    /// nothing is marked. A frame of a line that is gone leaves the stack.
    Replace(&'a [u8]),
    /// Pushes the place of the nth definition of a name, by file and place, counted from 1.
    Tag(&'a [u8], u64),
    /// Takes the top frame away.
    Pop,
}

/// Why a command is refused. Of the refusals that apply, the lowest-numbered one is answered.
#[derive(Clone, Copy, Debug, PartialEq, Eq)]
pub enum Refusal {
    UnknownCommand,
    LineTooLong,
    BadCount,
    InputEnded,
    BadName,
    NoSuchFile,
    FileExists,
    BadText,
    TooLarge,
    TooManyFiles,
    NoPattern,
    NoSuchDefinition,
    NoSuchLine,
    NothingWanted,
    NothingMarked,
    StackEmpty,
    NothingToUndo,
    NothingToRedo,
    HistoryFull,
    OutOfMemory,
    NoSuchField,
}

impl Refusal {
    /// Its number, from 1.
    pub fn number(self) -> u8
        ensures { result ≡ number_of self }
    {
        self as u8 + 1
    }

    /// Its text, as replies and error messages show it.
    #[tactic(auto, unfolding(crate::specs::Refusals::text_of))]
    pub fn text(self) -> &'static str
        ensures { result.now ≡ text_of self }
    {
        match self {
            Refusal::UnknownCommand => "unknown command",
            Refusal::LineTooLong => "line too long",
            Refusal::BadCount => "bad count",
            Refusal::InputEnded => "input ended",
            Refusal::BadName => "bad name",
            Refusal::NoSuchFile => "no such file",
            Refusal::FileExists => "file exists",
            Refusal::BadText => "bad text",
            Refusal::TooLarge => "too large",
            Refusal::TooManyFiles => "too many files",
            Refusal::NoPattern => "no pattern",
            Refusal::NoSuchDefinition => "no such definition",
            Refusal::NoSuchLine => "no such line",
            Refusal::NothingWanted => "nothing wanted",
            Refusal::NothingMarked => "nothing marked",
            Refusal::StackEmpty => "tag stack is empty",
            Refusal::NothingToUndo => "nothing to undo",
            Refusal::NothingToRedo => "nothing to redo",
            Refusal::HistoryFull => "history is full",
            Refusal::OutOfMemory => "out of memory",
            Refusal::NoSuchField => "field not in this profile",
        }
    }
}

impl From<AllocError> for Refusal {
    ghost use Rattle.cb_desk.specs.declared.change.Refusal.TheVariants.{OutOfMemory};

    ghost from_gives = { λ _ r. r ≡ OutOfMemory };

    fn from(_error: AllocError) -> Refusal {
        Refusal::OutOfMemory
    }
}

impl<T: Drop> From<AllocFailed<T>> for Refusal {
    ghost use Rattle.cb_desk.specs.declared.change.Refusal.TheVariants.{OutOfMemory};

    ghost from_gives = { λ _ r. r ≡ OutOfMemory };

    fn from(_error: AllocFailed<T>) -> Refusal {
        Refusal::OutOfMemory
    }
}
