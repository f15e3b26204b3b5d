// Why the rows can't be played to their end. It is a value that nothing has to drop, and a function of these libraries holds one or two
// values that have to be dropped, since each `?` drops all that stand.
use pd_base::OutOfMemory;
use std::alloc::{AllocError, AllocFailed};
use std::io;

/// Why a row can't be played.
#[derive(Clone, Copy)]
pub enum Trouble {
    /// The line is no row.
    NoRow,
    /// What a call wrote is no text.
    NoText,
    /// Memory ran out.
    NoMemory,
    /// A line could not be read or printed.
    NoStream,
}

impl From<OutOfMemory> for Trouble {
    fn from(_: OutOfMemory) -> Trouble {
        Trouble::NoMemory
    }
}

impl From<AllocError> for Trouble {
    fn from(_: AllocError) -> Trouble {
        Trouble::NoMemory
    }
}

impl<T: Drop> From<AllocFailed<T>> for Trouble {
    fn from(_: AllocFailed<T>) -> Trouble {
        Trouble::NoMemory
    }
}

impl From<io::Error> for Trouble {
    fn from(_: io::Error) -> Trouble {
        Trouble::NoStream
    }
}
