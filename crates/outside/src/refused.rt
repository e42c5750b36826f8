use std::alloc::{AllocError, AllocFailed};
use std::io::{self, ErrorKind};

/// Why a call on a file of the machine was refused, with what the system said of it.
pub(crate) enum Refused {
    /// Want of memory.
    Memory,
    /// The file itself could not be used.
    Failed(io::Error),
    /// No new file could be made in the folder of the file that was to be replaced.
    NoNewFile(io::Error),
}

impl From<AllocError> for Refused {
    fn from(_refused: AllocError) -> Refused {
        Refused::Memory
    }
}

impl<T> From<AllocFailed<T>> for Refused
where
    T: Drop,
{
    fn from(_refused: AllocFailed<T>) -> Refused {
        Refused::Memory
    }
}

impl From<io::Error> for Refused {
    fn from(error: io::Error) -> Refused {
        match error.kind() {
            ErrorKind::OutOfMemory => Refused::Memory,
            _ => Refused::Failed(error),
        }
    }
}
