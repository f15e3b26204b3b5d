// Why a text of one of the three files was not read.
ghost use Rattle.std.specs.Prelude.{◌≡◌};
ghost use Rattle.pd_base.specs.Memory.{out_of_memory};
ghost use Rattle.run_files.specs.declared.fault.TextFault.TheVariants.{NoMemory};

use pd_base::OutOfMemory;
use std::alloc::AllocFailed;

/// Why a tests file, a report or a proofs file was not read.
#[derive(Clone, Copy, Debug, PartialEq, Eq)]
pub enum TextFault {
    /// The line of this number, from 1, is the first one that lacks its form, or that is missing at the end.
    Malformed(u32),
    /// Memory ran out.
    NoMemory(OutOfMemory),
}

impl From<OutOfMemory> for TextFault {
    ghost from_gives = { λ refused e. e ≡ NoMemory refused };

    fn from(refused: OutOfMemory) -> TextFault {
        TextFault::NoMemory(refused)
    }
}

impl<T: Drop> From<AllocFailed<T>> for TextFault {
    ghost from_gives = { λ _ e. e ≡ NoMemory out_of_memory };

    fn from(error: AllocFailed<T>) -> TextFault {
        TextFault::NoMemory(error.into())
    }
}
