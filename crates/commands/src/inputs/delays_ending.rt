// How a call ends whose delay file gives no delays: refused for a fault of the text, or for want of memory.
ghost use Rattle.std.specs.Prelude.{◌≡◌};
ghost use Rattle.commands.specs.InputRefusals.{delays_ending, wrong_in};

use calls::{Cause, Ending, Part, Refusal};
use delay_annotation::DelayFault;

// How it ends for this fault.
pub(crate) fn delays_ending(fault: DelayFault) -> Ending
    ensures { result ≡ delays_ending fault }
{
    match fault {
        DelayFault::Header => {
            Ending::Refused(Refusal::new(Cause::Delays, &[Part::Words(b"delays: header")]))
        }
        DelayFault::Fields(row) => wrong_in(row, b" fields"),
        DelayFault::UnknownGate(row) => wrong_in(row, b" unknown gate"),
        DelayFault::BadPin(row) => wrong_in(row, b" bad pin"),
        DelayFault::BadNumber(row) => wrong_in(row, b" bad number"),
        DelayFault::NoMemory(refused) => Ending::NoMemory(refused),
    }
}

// A row, and what is wrong there.
fn wrong_in(row: u32, reason: &'static [u8]) -> Ending
    ensures { result ≡ wrong_in row reason.now }
{
    Ending::Refused(Refusal::new(
        Cause::Delays,
        &[
            Part::Words(b"delays: row "),
            Part::Number(u64::from(row)),
            Part::Words(reason),
        ],
    ))
}
