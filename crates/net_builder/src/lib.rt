//! A netlist as its text states it, a list of statements kept flat, and the circuit that such a list describes, built as a
//! netlist, or the first reason why it describes none. Stands on netlist, whose definitions it meets. bench_reader fills a `RawNet`
//! and uses `build`; what is refused, and in which order, stands in specs/Refusals.antt.
#![tactic(auto)]

mod agreeing;
mod building;
mod by_name;
mod defined;
mod fanouts;
mod fault;
mod filling;
mod known;
mod levels;
mod limits;
mod measures;
mod name_list;
mod name_set;
mod named_lines;
mod named_parts;
mod names;
mod once;
mod order;
mod ordered_names;
mod parts;
mod places;
mod progress;
mod raw_net;
mod reading;
mod wires;

pub use building::build;
pub use fault::BuildFault;
pub use raw_net::{Form, RawNet};
