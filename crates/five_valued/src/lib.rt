//! What follows for each line of a circuit where only some is known of the sources' states: five values, without memory.
//! Stands on pd_base, netlist, state_sets and state_laws, and cites the proofs on rank order of logic_values.
//! The layers above use `simulate` for what holds under every completion, and `five_join` and `five_invert` for one gate.
#![tactic(auto)]

mod five;
mod join;
mod simulation;

pub use five::{Five, five_invert};
pub use join::five_join;
pub use simulation::simulate;
