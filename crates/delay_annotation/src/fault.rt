// Why a delay file is refused.
ghost use Rattle.std.specs.Prelude.{◌≡◌};
ghost use Rattle.delay_annotation.specs.DelayFile.{at_row};

use crate::setting::RowFault;
use pd_base::OutOfMemory;
use thiserror::Error;

/// Why a delay file is refused, with the number of the row where one is, counted from 1 as csv counts records. The first row
/// that is refused is named, by the first of its faults in the order of this list. `NoMemory` stands beside them.
#[derive(Clone, Copy, Debug, PartialEq, Eq, Error)]
pub enum DelayFault {
    /// There is no row, or the first is not that of the titles: `gate`, `pin`, `delay`, or of two delays `gate`, `pin`, `rise`,
    /// `fall`.
    #[error("no titles")]
    Header,
    /// The row has not three fields, or of two delays four.
    #[error("another number of fields")]
    Fields(u32),
    /// The first field is neither `*` nor the name of a gate.
    #[error("an unknown gate")]
    UnknownGate(u32),
    /// The second field is neither `*` nor the number of a pin, in one to four digits: below the number of pins of a gate that
    /// is named, else below 1,024.
    #[error("no pin")]
    BadPin(u32),
    /// The third field is no number of one to seven digits, or one above 1,000,000; or of two delays the fourth.
    #[error("no delay")]
    BadNumber(u32),
    /// Memory ran out.
    #[error("want of memory")]
    NoMemory(OutOfMemory),
}

// A row's fault, with the number of the row.
pub(crate) fn at_row(fault: RowFault, number: u32) -> DelayFault
    ensures { result ≡ at_row fault number }
{
    match fault {
        RowFault::Fields => DelayFault::Fields(number),
        RowFault::UnknownGate => DelayFault::UnknownGate(number),
        RowFault::BadPin => DelayFault::BadPin(number),
        RowFault::BadNumber => DelayFault::BadNumber(number),
    }
}

impl From<OutOfMemory> for DelayFault {
    ghost use Rattle.delay_annotation.specs.declared.fault.DelayFault.TheVariants.{NoMemory};

    ghost from_gives = { λ refused fault. fault ≡ NoMemory refused };

    fn from(refused: OutOfMemory) -> DelayFault {
        DelayFault::NoMemory(refused)
    }
}
