// The exit status of a call.
ghost use Rattle.std.specs.Prelude.{◌≡◌};
ghost use Rattle.calls.specs.Lines.{number_of};

use pd_base::OutOfMemory;

/// How a call ended, as the number with which the program ends.
#[derive(Clone, Copy, Debug, PartialEq, Eq)]
pub enum Status {
    /// The work was done.
    Done,
    /// A claim file is malformed, the run that the claim files spell is not good, a listed path is none of the netlist, or a test expects
    /// other bits than the values of the observed lines.
    Refused,
    /// The words were refused.
    Words,
    /// The netlist has no circuit.
    Netlist,
    /// The delay file gives no delays.
    Delays,
    /// A file could not be read.
    ReadFault,
    /// A file or out could not be written.
    WriteFault,
    /// Memory ran out.
    NoMemory(OutOfMemory),
    /// An input has more bytes than are read of it, the texts may be too long, a line changes too often under a test, or there are too many
    /// tests for so many faults.
    Size,
    /// The scan file gives no chains of the circuit.
    Scan,
    /// A test has a pair of vectors that the last shift of the chains does not launch.
    Pair,
    /// The log is refused: it is no log of these tests.
    Log,
}

impl Status {
    /// The number with which the program ends.
    pub fn number(self) -> u8
        ensures { result ≡ number_of self }
    {
        match self {
            Status::Done => 0,
            Status::Refused => 1,
            Status::Words => 2,
            Status::Netlist => 3,
            Status::Delays => 4,
            Status::ReadFault => 5,
            Status::WriteFault => 6,
            Status::NoMemory(_) => 7,
            Status::Size => 8,
            Status::Scan => 10,
            Status::Pair => 11,
            Status::Log => 12,
        }
    }
}
