//! The laws of paths: what robust and nonrobust tests show late, and why; and how the paths of a circuit are the walks of a
//! graph with delays, whose first ones are listed through best walks that share their ends.
//! Stands on pd_base and netlist; all its code is the entry as which a walk is kept.
//! The layers above cite `robust_detects`, `nonrobust_detects`, the lemmas on values of gates, and `first_paths_from_walks`.
#![tactic(auto)]

mod entry;

pub use entry::{NONE, WalkEntry};
