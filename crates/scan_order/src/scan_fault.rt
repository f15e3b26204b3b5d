// Why a scan file is refused.
ghost use Rattle.std.specs.Prelude.{◌≡◌};
ghost use Rattle.pd_base.specs.Memory.{out_of_memory};

use pd_base::{LineId, OutOfMemory};
use std::alloc::AllocFailed;
use thiserror::Error;

/// Why a scan file is refused. Lines are counted from 1, and the first line that fails is named. `NoMemory` stands beside the others.
#[derive(Clone, Copy, Debug, PartialEq, Eq, Error)]
pub enum ScanFault {
    /// This line is neither the name of a flip-flop nor an empty line between two chains. Bytes behind the last LF count as a line.
    #[error("unknown flip-flop")]
    Unknown(u32),
    /// The flip-flop of this line stands on an earlier one.
    #[error("flip-flop twice")]
    Twice(u32),
    /// All lines pass, and this is the first flip-flop, in the order of the netlist, that stands on none of them.
    #[error("missing flip-flop")]
    Missing(LineId),
    /// Memory ran out.
    #[error("want of memory")]
    NoMemory(OutOfMemory),
}

impl From<OutOfMemory> for ScanFault {
    ghost use Rattle.scan_order.specs.declared.scan_fault.ScanFault.TheVariants.{NoMemory};

    ghost from_gives = { λ refused fault. fault ≡ NoMemory refused };

    fn from(refused: OutOfMemory) -> ScanFault {
        ScanFault::NoMemory(refused)
    }
}

impl<T: Drop> From<AllocFailed<T>> for ScanFault {
    ghost use Rattle.scan_order.specs.declared.scan_fault.ScanFault.TheVariants.{NoMemory};

    ghost from_gives = { λ _ fault. fault ≡ NoMemory out_of_memory };

    fn from(error: AllocFailed<T>) -> ScanFault {
        ScanFault::NoMemory(error.into())
    }
}
