// The inputs that commands read and judge alike: each read within its limit (reading.rt), NET's circuit and the delays of its pins
// (judging.rt), its scan chains (chains.rt), the claim files (claims.rt), TESTS and REPORT together (listed.rt), which may have to be such that tests can be graded
// (graded.rt), and the two products that bound the texts of a run (sizes.rt). What is required so, and how it is refused, is said in
// specs/InputRequirements.antt and InputRefusals.antt; a command puts its stages together of those, and cites the lemmas of
// proofs/InputStages.antt.
mod chains;
mod claims;
mod delays_ending;
mod graded;
mod judging;
mod listed;
mod netlist_ending;
mod reading;
mod scan_ending;
mod sizes;

pub(crate) use chains::chains_from;
pub(crate) use claims::{malformed, proofs_in, report_in, tests_from, tests_in};
pub use graded::MOST_GRADES;
pub(crate) use graded::graded_in;
pub(crate) use judging::{delays_from, netlist_from, rise_fall_from};
pub(crate) use listed::{TestsAndPaths, TestsAndReport, tests_and_paths_in, tests_and_report_from};
pub use reading::INPUT_LIMIT;
pub(crate) use reading::text_from;
pub(crate) use sizes::require_short_texts;
pub use sizes::{MOST_PATH_TEXT, MOST_TEST_TEXT, STEP_BYTES};
