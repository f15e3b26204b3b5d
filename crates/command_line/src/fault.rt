// What the reading of words answers in place of a command.
ghost use Rattle.std.specs.Prelude.{◌≡◌};
ghost use Rattle.pd_base.specs.Memory.{out_of_memory};
ghost use Rattle.command_line.specs.declared.fault.WordsFault.TheVariants as faults;

use crate::WordsRefusal;
use pd_base::OutOfMemory;
use std::alloc::AllocFailed;

/// Why words gave no command.
#[derive(Clone, Copy)]
pub enum WordsFault {
    /// The words are no lawful command.
    Refused(WordsRefusal),
    /// Memory ran out.
    NoMemory(OutOfMemory),
}

impl<T: Drop> From<AllocFailed<T>> for WordsFault {
    ghost from_gives = { λ _ fault. fault ≡ faults.NoMemory out_of_memory };

    fn from(error: AllocFailed<T>) -> WordsFault {
        WordsFault::NoMemory(error.into())
    }
}
