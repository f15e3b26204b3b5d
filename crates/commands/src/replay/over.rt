// Tests whose lines change too often, under whichever delay model: the fault of a text, and how the call ends for it.
ghost use Rattle.std.specs.Prelude.{◌≡◌};
ghost use Rattle.commands.specs.Inside.ReplayEndings.{EndsForFault, NamesLine};
ghost use Rattle.commands.specs.TestChanges.{changes_too_often, replay_text_fault};

use crate::copied::copied;
use calls::{Cause, Ending, Part, Refusal};
use delay_replay::ReplayFault;
use netlist::Netlist;
use pd_base::{Items, LineId, OutOfMemory};
use std::alloc::Global;

/// Why the text of a replay was not made.
#[derive(Clone, Copy, Drop)]
pub(crate) enum ReplayTextFault {
    /// The first test, by its number from 1, under whose pair some line changes too often, and the first such line in rank order.
    TooManyChanges(u32, LineId),
    /// Memory ran out.
    NoMemory(OutOfMemory),
}

impl From<OutOfMemory> for ReplayTextFault {
    ghost use Rattle.commands.specs.declared.replay.over.ReplayTextFault.TheVariants.{NoMemory};

    ghost from_gives = { λ refused fault. fault ≡ NoMemory refused };

    fn from(refused: OutOfMemory) -> ReplayTextFault {
        ReplayTextFault::NoMemory(refused)
    }
}

/// The fault of the test of this number.
pub(crate) fn replay_text_fault(number: u32, fault: ReplayFault) -> ReplayTextFault
    ensures { result ≡ replay_text_fault number fault }
{
    match fault {
        ReplayFault::TooManyChanges(line) => ReplayTextFault::TooManyChanges(number, line),
        ReplayFault::NoMemory(refused) => ReplayTextFault::NoMemory(refused),
    }
}

/// How the call ends for a fault of its text.
pub(crate) fn ending_for(alloc: Global, net: &Netlist, fault: ReplayTextFault) -> Ending
    requires { NamesLine net.now fault }
    ensures { EndsForFault net.now fault result }
{
    match fault {
        ReplayTextFault::TooManyChanges(number, line) => match copied(alloc, net.name(line)) {
            Ok(name) => Ending::Refused(changes_too_often(number, name)),
            Err(refused) => Ending::NoMemory(refused),
        },
        ReplayTextFault::NoMemory(refused) => Ending::NoMemory(refused),
    }
}

// The refusal of a test of this number, under whose pair the line of this name changes too often.
fn changes_too_often(number: u32, name: Items<u8>) -> Refusal
    ensures { result ≡ changes_too_often number name }
{
    Refusal::naming(
        Cause::Size,
        &[
            Part::Words(b"size: test "),
            Part::Number(u64::from(number)),
            Part::Words(b" line "),
        ],
        name,
    )
}
