//! What is computed for all lines of a netlist: the values under a vector or under 64 at once, and at which value each line is steady under
//! a pair of vectors; and the bits that tests expect, and whether their pairs keep links, 64 vectors at a time.
//! Stands on pd_base, netlist and path_laws.
//! The layers above use `evaluate`, `evaluate_lanes` and `steady`, without memory, each of which gives what its definition says, and of
//! tests `with_expected_bits`, `expect_observed` and `keep_links`.
#![tactic(auto)]

mod blocks;
mod boolean;
mod expected;
mod kept_links;
mod kleene;
mod lane;
mod lanes;
mod steadiness;

pub use boolean::evaluate;
pub use expected::{expect_observed, with_expected_bits};
pub use kept_links::keep_links;
pub use kleene::steady;
pub use lane::{bit_in_lane, put_into_lane};
pub use lanes::evaluate_lanes;
pub use steadiness::Steady;
