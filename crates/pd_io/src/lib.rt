//! The outside as traits, files by name and sinks of bytes, and whole files read and written over them; and files and sinks
//! in memory, of which calls fail as planned or never, for tests of what stands above.
//! Stands on pd_base. The layers above use the contracts of `read_whole`, `write_whole`, `write_pieces` and `write_all`, over any
//! `Files`, `Sink` and `Pieces`; system_files has the objects of the real outside.
#![tactic(auto)]

mod appending;
mod count;
mod fault;
mod files;
mod memory;
mod named;
mod pieces;
mod plan;
mod shelf;
mod sink;
mod steady;
mod whole;

pub use count::FailedCalls;
pub use fault::{FileFault, ReadFault, WriteFault};
pub use files::Files;
pub use memory::{FileCall, MemoryFiles, MemorySink};
pub use named::MOST_AT_ONCE;
pub use pieces::{Pieces, whole_text};
pub use sink::{Sink, write_all};
pub use steady::{SteadyFiles, SteadySink};
pub use whole::{read_whole, write_pieces, write_whole};
