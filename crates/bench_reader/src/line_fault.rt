// Why a line of a netlist is refused.
ghost use Rattle.std.specs.Prelude.{◌≡◌};
ghost use Rattle.pd_base.specs.Memory.{out_of_memory};

use pd_base::OutOfMemory;
use std::alloc::AllocFailed;

/// The first of these that is true of a line is why it is refused. `NoMemory` stands beside them.
#[derive(Clone, Copy)]
pub enum LineFault {
    /// Outside a comment stands a byte that is neither white space nor one of the printable bytes that may stand there.
    BadByte,
    /// A name has more than 255 bytes.
    NameTooLong,
    /// The tokens have none of the three forms of a statement (specs/Statements.antt).
    Syntax,
    /// The word for the kind names no kind.
    UnknownKind,
    /// A gate or a flip-flop of this kind takes another number of arguments.
    FanIn,
    /// Memory ran out.
    NoMemory(OutOfMemory),
}

impl<T: Drop> From<AllocFailed<T>> for LineFault {
    ghost use Rattle.bench_reader.specs.declared.line_fault.LineFault.TheVariants.{NoMemory};

    ghost from_gives = { λ _ fault. fault ≡ NoMemory out_of_memory };

    fn from(error: AllocFailed<T>) -> LineFault {
        LineFault::NoMemory(error.into())
    }
}
