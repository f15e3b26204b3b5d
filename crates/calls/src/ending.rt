// How a call ends, with all detail. The status and the line on err are made of it at the very end.
ghost use Rattle.std.specs.Prelude.{◌≡◌};
ghost use Rattle.calls.specs.declared.ending.Ending.TheVariants as ended;

use crate::{Refusal, Role};
use pd_base::OutOfMemory;

/// How a call ended.
#[derive(Drop)]
pub enum Ending {
    /// The work was done.
    Done,
    /// The words or the inputs were refused.
    Refused(Refusal),
    /// A read of the file of this role failed.
    ReadFault(Role),
    /// A write of the file of this role failed.
    WriteFault(Role),
    /// A write on out failed.
    OutFault,
    /// Memory ran out.
    NoMemory(OutOfMemory),
}

impl From<OutOfMemory> for Ending {
    ghost from_gives = { λ refused ending. ending ≡ ended.NoMemory refused };

    fn from(refused: OutOfMemory) -> Ending {
        Ending::NoMemory(refused)
    }
}

impl From<Refusal> for Ending {
    ghost from_gives = { λ refusal ending. ending ≡ ended.Refused refusal };

    fn from(refusal: Refusal) -> Ending {
        Ending::Refused(refusal)
    }
}
