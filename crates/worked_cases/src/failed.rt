//! Why sessions could not be run.
use std::alloc::{AllocError, AllocFailed};
use std::io;

/// A file could not be read, a line of it is none of the form, memory was refused, or the output
/// failed.
#[derive(Clone, Copy, Debug, Drop)]
pub(crate) struct Failed;

impl From<io::Error> for Failed {
    fn from(_error: io::Error) -> Failed {
        Failed
    }
}

impl From<AllocError> for Failed {
    fn from(_error: AllocError) -> Failed {
        Failed
    }
}

impl<T: Drop> From<AllocFailed<T>> for Failed {
    fn from(_error: AllocFailed<T>) -> Failed {
        Failed
    }
}
