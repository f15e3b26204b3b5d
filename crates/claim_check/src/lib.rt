//! Whether a run is good, judged from the netlist and the delays alone: what holds of it, or its first flaw.
//! Stands on path_lister, path_model, pair_judging, refutation_check and good_runs, and on nothing that searches.
//! The layer above uses `check_run`, and cites its contract.
#![tactic(auto)]

mod applying;
mod checking;
mod citing;
mod claim;
mod counts;
mod fault;
mod listed;
mod numbered;
mod prefix_tree;
mod proving;
mod rule_pairs;
mod testing;
mod verdicts;

pub use checking::check_run;
pub use claim::{Claim, Reason};
