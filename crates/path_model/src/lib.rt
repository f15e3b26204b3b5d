//! What is asked of one path: whether it is one, how long it is, which of two stands first, and whether a pair of vectors is a
//! test for it; and of a pair whether it keeps links. Stands on pd_base, netlist, path_laws, delay_annotation and logic_values.
//! The layers above use `is_path`, `length`, `compare`, `meets` and `linked`, each of which decides its definition without memory, and
//! `broadside_links`.
#![tactic(auto)]

mod connected;
mod linked_pairs;
mod measured;
mod test_conditions;

pub use connected::is_path;
pub use linked_pairs::{broadside_links, linked};
pub use measured::{compare, length};
pub use test_conditions::{Scratch, meets};
