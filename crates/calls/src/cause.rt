// Why calls are refused, as far as the exit status says it.
ghost use Rattle.std.specs.Prelude.{◌≡◌};
ghost use Rattle.calls.specs.Lines.{status_for};

use crate::Status;

/// What a refusal speaks of. Each has a status of its own, which is none of work that was done, of failed reads and writes, and of want
/// of memory.
#[derive(Clone, Copy, Debug, PartialEq, Eq)]
pub enum Cause {
    /// The claim files of a run: one lacks its form, or what they claim does not hold.
    Claims,
    /// The words.
    Words,
    /// The netlist.
    Netlist,
    /// The delay file.
    Delays,
    /// A length, a number of changes, or tests times faults, over its limit.
    Size,
    /// The scan file.
    Scan,
    /// A test, whose pair of vectors no shift launches.
    Pair,
    /// The tester's log.
    Log,
}

impl Cause {
    /// The status of a call that is refused for this cause.
    pub fn status(self) -> Status
        ensures { result ≡ status_for self }
    {
        match self {
            Cause::Claims => Status::Refused,
            Cause::Words => Status::Words,
            Cause::Netlist => Status::Netlist,
            Cause::Delays => Status::Delays,
            Cause::Size => Status::Size,
            Cause::Scan => Status::Scan,
            Cause::Pair => Status::Pair,
            Cause::Log => Status::Log,
        }
    }
}
