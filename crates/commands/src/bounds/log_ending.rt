// How a call ends whose LOG is no log of the tests: refused for a fault of the text, or for want of memory.
ghost use Rattle.std.specs.Prelude.{◌≡◌};
ghost use Rattle.commands.specs.Bounds.{log_ending, wrong_row};

use calls::{Cause, Ending, Part, Refusal};
use delay_bounds::LogFault;

// How it ends for this fault.
pub(crate) fn log_ending(fault: LogFault) -> Ending
    ensures { result ≡ log_ending fault }
{
    match fault {
        LogFault::Header => {
            Ending::Refused(Refusal::new(Cause::Log, &[Part::Words(b"log: header")]))
        }
        LogFault::Fields(row) => wrong_row(row, b" fields"),
        LogFault::NoTest(row) => wrong_row(row, b" test"),
        LogFault::BadTime(row) => wrong_row(row, b" time"),
        LogFault::BadResult(row) => wrong_row(row, b" result"),
        LogFault::NoMemory(refused) => Ending::NoMemory(refused),
    }
}

// A row, and what is wrong there.
fn wrong_row(row: u32, reason: &'static [u8]) -> Ending
    ensures { result ≡ wrong_row row reason.now }
{
    Ending::Refused(Refusal::new(
        Cause::Log,
        &[
            Part::Words(b"log: row "),
            Part::Number(u64::from(row)),
            Part::Words(reason),
        ],
    ))
}
