// Why a text has no circuit.
ghost use Rattle.std.specs.Prelude.{◌≡◌};
ghost use Rattle.bench_reader.specs.Texts.{at_line};

use crate::line_fault::LineFault;
use net_builder::BuildFault;
use pd_base::OutOfMemory;
use thiserror::Error;

/// Why a text is refused, with the number of the line where one is. The first line that is refused is named, by the first
/// of its faults in the order of this list. `NoMemory` stands beside them.
#[derive(Debug, Drop, Error)]
pub enum BenchFault {
    /// Outside a comment stands a byte that is neither white space nor one of the printable bytes that may stand there.
    #[error("a byte that may not stand there")]
    BadByte(u32),
    /// A name has more than 255 bytes.
    #[error("a name is too long")]
    NameTooLong(u32),
    /// The tokens have none of the three forms of a statement.
    #[error("no form of a statement")]
    Syntax(u32),
    /// The word for the kind names no kind.
    #[error("an unknown kind")]
    UnknownKind(u32),
    /// A gate or a flip-flop of this kind takes another number of arguments.
    #[error("another number of arguments")]
    FanIn(u32),
    /// Each line has its form, and the statements describe no circuit for this reason, which is never want of memory.
    #[error("no circuit")]
    Build(BuildFault),
    /// Memory ran out.
    #[error("want of memory")]
    NoMemory(OutOfMemory),
}

// A line's fault, with the number of the line.
pub(crate) fn at_line(fault: LineFault, number: u32) -> BenchFault
    ensures { result ≡ at_line fault number }
{
    match fault {
        LineFault::BadByte => BenchFault::BadByte(number),
        LineFault::NameTooLong => BenchFault::NameTooLong(number),
        LineFault::Syntax => BenchFault::Syntax(number),
        LineFault::UnknownKind => BenchFault::UnknownKind(number),
        LineFault::FanIn => BenchFault::FanIn(number),
        LineFault::NoMemory(refused) => BenchFault::NoMemory(refused),
    }
}
