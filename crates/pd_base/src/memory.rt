// Want of memory, the one refusal of a call that only builds a value. The value is evidence: only this file makes it, of a request for
// memory that was refused, of a size that no memory here has, or of an error of the kit that tells of a refused request by its kind alone.
// So no call answers want of memory at will; bench/evidence looks for ways round.
ghost use Rattle.std.specs.Prelude.{◌≡◌, ◌*◌, ◌^◌, ◌≤◌};
ghost use Rattle.pd_base.specs.Memory.{out_of_memory};

use std::alloc::{AllocError, AllocFailed};

/// Evidence that a request for memory was refused, or that a list would have 2^32 entries or more. Each call that answers so says what
/// stands afterwards.
#[derive(Clone, Copy, Debug, PartialEq, Eq)]
pub struct OutOfMemory {
    // private, so that no other file makes one
    _refused: (),
}

impl OutOfMemory {
    /// For `count` lists of `size` entries each that have 2^32 entries or more together: none so long is made here, whatever memory there
    /// is.
    pub fn of_size(_count: usize, _size: usize) -> OutOfMemory
        requires { 2 ^ 32 ≤ _count * _size }
        ensures { result ≡ out_of_memory }
    {
        OutOfMemory { _refused: () }
    }

    /// For an error of the kit that tells of a refused request for memory by its kind alone. Three functions call this, each of which takes
    /// such an error: one for clap's, one for csv's, one for that of the program's arguments.
    pub fn reported() -> OutOfMemory
        ensures { result ≡ out_of_memory }
    {
        OutOfMemory { _refused: () }
    }
}

impl From<AllocError> for OutOfMemory {
    ghost from_gives = { λ _ refused. refused ≡ out_of_memory };

    fn from(_: AllocError) -> OutOfMemory {
        OutOfMemory { _refused: () }
    }
}

impl<T: Drop> From<AllocFailed<T>> for OutOfMemory {
    ghost from_gives = { λ _ refused. refused ≡ out_of_memory };

    fn from(_: AllocFailed<T>) -> OutOfMemory {
        OutOfMemory { _refused: () }
    }
}
