// Why a log is refused.
ghost use Rattle.std.specs.Prelude.{◌≡◌};

use pd_base::OutOfMemory;
use thiserror::Error;

/// Why a log is refused, with the number of the row where one is, counted from 1 as csv counts records. The first row that is refused is
/// named, by the first of its faults in the order of this list. `NoMemory` stands beside them.
#[derive(Clone, Copy, Debug, PartialEq, Eq, Error)]
pub enum LogFault {
    /// There is no row, or the first is not that of the titles `test`, `time`, `result`.
    #[error("no titles")]
    Header,
    /// The row has not three fields.
    #[error("not three fields")]
    Fields(u32),
    /// The first field is not the number of a test, in one to five digits.
    #[error("unknown number")]
    NoTest(u32),
    /// The second field is no number of one to ten digits.
    #[error("no time")]
    BadTime(u32),
    /// The third field is neither `pass` nor `fail`.
    #[error("no result")]
    BadResult(u32),
    /// Memory ran out.
    #[error("want of memory")]
    NoMemory(OutOfMemory),
}

impl From<OutOfMemory> for LogFault {
    ghost use Rattle.delay_bounds.specs.declared.log_fault.LogFault.TheVariants.{NoMemory};

    ghost from_gives = { λ refused fault. fault ≡ NoMemory refused };

    fn from(refused: OutOfMemory) -> LogFault {
        LogFault::NoMemory(refused)
    }
}
