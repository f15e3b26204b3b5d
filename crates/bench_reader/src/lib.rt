//! Netlists in `.bench` form, read from bytes, line by line, and written in one canonical text. Stands on netlist and on
//! net_builder, which makes a netlist of the statements. The layers above use `read_bench` and `bench_text`; proofs/CanonicalText.antt
//! shows that the canonical text has the circuit again.
#![tactic(auto)]

mod byte;
mod cut;
mod fault;
mod kind;
mod line;
mod line_fault;
mod lines;
mod pieces;
mod reading;
mod statement;
mod statements;
mod text;
mod token;

pub use fault::BenchFault;
pub use reading::read_bench;
pub use text::bench_text;
