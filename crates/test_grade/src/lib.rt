//! Tests beside the faults of a report: for which faults each of them is a test, found for up to 64 tests at once; and a list of tests
//! without those that could be left out.
//! Stands on pd_base, netlist, path_laws, logic_values and runs. The layers above use `compact`, `grade` with
//! `serves`, and `PairLanes`.
#![tactic(auto)]

mod compaction;
mod covering;
mod flagged_tests;
mod grading;
mod kind_asked;
mod leaving_out;
mod matrix;
mod pair_lanes;
mod serving;
mod steady_lanes;

pub use compaction::compact;
pub use kind_asked::KindAsked;
pub use leaving_out::serves;
pub use matrix::grade;
pub use pair_lanes::{LANES, PairLanes};
