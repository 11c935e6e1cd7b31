//! Why there are no figures.
use cb_index::OutOfMemory;
use cb_scan::ScanError;
use std::alloc::{AllocError, AllocFailed};
use std::io;

/// A file could not be read or shown, memory was refused, or the output failed.
#[derive(Clone, Copy, Debug, Drop)]
pub(crate) struct Failed;

impl From<io::Error> for Failed {
    fn from(_error: io::Error) -> Failed {
        Failed
    }
}

impl From<AllocError> for Failed {
    fn from(_error: AllocError) -> Failed {
        Failed
    }
}

impl<T: Drop> From<AllocFailed<T>> for Failed {
    fn from(_error: AllocFailed<T>) -> Failed {
        Failed
    }
}

impl From<ScanError> for Failed {
    fn from(_error: ScanError) -> Failed {
        Failed
    }
}

impl From<OutOfMemory> for Failed {
    fn from(_error: OutOfMemory) -> Failed {
        Failed
    }
}
