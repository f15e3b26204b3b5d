//! What tests that passed say of each listed path: an upper bound of its delay. And the log of a tester, which says of tests at which
//! times they passed or failed.
//! Stands on pd_base, netlist, path_laws, delay_annotation, which reads rows of the same kind, test_grade, runs and csv.
//! The layers above use `read_log` and `bounds`, and cite `IsLog` and `RefusesLog` (specs/LogFile.antt), and `AreBounds`
//! (specs/Bounds.antt).
#![tactic(auto)]

mod bare;
mod bounding;
mod earliest;
mod log_fault;
mod log_row;
mod reading;
mod row;

pub use bounding::bounds;
pub use log_fault::LogFault;
pub use log_row::{LogRow, MOST_TEST_DIGITS, MOST_TIME_DIGITS};
pub use reading::read_log;
