//! States of a line under a pair of vectors, sets of them, labels of all lines, and what narrowing means (specs/).
//! Stands on pd_base and netlist.
//! The layers above use `Algebra`, `FourStates`, `SixStates` and `Labels`, and cite the definitions.
#![tactic(auto)]

mod algebra;
mod condition;
mod four_states;
mod four_tables;
mod labels;
mod narrowed;
mod op_tables;
mod six_states;
mod six_tables;
mod state;

pub use algebra::{Algebra, count_states, every_state};
pub use condition::Condition;
pub use four_states::FourStates;
pub use labels::Labels;
pub use narrowed::Narrowed;
pub use netlist::Op;
pub use six_states::SixStates;
pub use state::{State, StateSet};
