//! The three files of a run both ways, its tests, its report and its proofs; and the lines of counts that gen and make end with.
//! Stands on pd_base, pd_io, netlist, runs (what the files may list), text_pieces, csv and itoa. The layers above use of each file its
//! pieces (`TestsPieces`, `ReportPieces`, `ProofsPieces`), its text (`tests_text`, `report_text`, `proofs_text`) and its reader (`read_tests`,
//! `read_report`, `read_proofs`), and `summary_text` and `ladder_line`; a program that measures uses `steps_text`.
#![tactic(auto)]

mod fault;
mod ladder;
mod proof_head;
mod proof_line;
mod proofs_file;
mod proofs_reading;
mod report;
mod report_fields;
mod report_lines;
mod report_paths;
mod report_reading;
mod report_verdicts;
mod rows;
mod steps;
mod summary;
mod test_line;
mod tests_file;
mod tests_reading;
mod version;

pub use fault::TextFault;
pub use ladder::ladder_line;
pub use proofs_file::{ProofsPieces, proofs_text};
pub use proofs_reading::read_proofs;
pub use report::{ReportPieces, report_text};
pub use report_reading::read_report;
pub use steps::steps_text;
pub use summary::summary_text;
pub use tests_file::{TestsPieces, tests_text};
pub use tests_reading::read_tests;
pub use version::ProofsVersion;
