// Why a list of statements describes no circuit.
ghost use Rattle.std.specs.Prelude.{◌≡◌};

use pd_base::{Items, OutOfMemory};
use std::alloc::{AllocError, AllocFailed};
use thiserror::Error;

/// Why a list of statements is refused: the first of these reasons that applies to it, in this order. A place is the number
/// of a statement's line in the text, and a name stands on that line. `NoMemory` stands beside them.
#[derive(Debug, Drop, Error)]
pub enum BuildFault {
    /// It defines more than 262,144 lines: this many.
    #[error("too many lines")]
    TooManyLines(u64),
    /// Its gates have more than 1,048,576 pins: this many.
    #[error("too many pins")]
    TooManyPins(u64),
    /// The first statement that defines a name which an earlier one has defined.
    #[error("a name is defined twice")]
    Twice(u32, Items<u8>),
    /// The first use of a name that nothing defines, statements in order and arguments from the left.
    #[error("a name is not defined")]
    Undefined(u32, Items<u8>),
    /// The first gate that lies on a loop or is fed by one.
    #[error("a loop of gates")]
    Loop(u32, Items<u8>),
    /// The first gate whose level is over 4,096.
    #[error("too many levels")]
    TooDeep(u32, Items<u8>),
    /// Memory ran out.
    #[error("want of memory")]
    NoMemory(OutOfMemory),
}

impl From<OutOfMemory> for BuildFault {
    ghost use Rattle.net_builder.specs.declared.fault.BuildFault.TheVariants.{NoMemory};

    ghost from_gives = { λ refused fault. fault ≡ NoMemory refused };

    fn from(refused: OutOfMemory) -> BuildFault {
        BuildFault::NoMemory(refused)
    }
}

impl From<AllocError> for BuildFault {
    ghost use Rattle.net_builder.specs.declared.fault.BuildFault.TheVariants.{NoMemory};
    ghost use Rattle.pd_base.specs.Memory.{out_of_memory};

    ghost from_gives = { λ _ fault. fault ≡ NoMemory out_of_memory };

    fn from(error: AllocError) -> BuildFault {
        BuildFault::NoMemory(error.into())
    }
}

impl<T: Drop> From<AllocFailed<T>> for BuildFault {
    ghost use Rattle.net_builder.specs.declared.fault.BuildFault.TheVariants.{NoMemory};
    ghost use Rattle.pd_base.specs.Memory.{out_of_memory};

    ghost from_gives = { λ _ fault. fault ≡ NoMemory out_of_memory };

    fn from(error: AllocFailed<T>) -> BuildFault {
        BuildFault::NoMemory(OutOfMemory::from(error))
    }
}
