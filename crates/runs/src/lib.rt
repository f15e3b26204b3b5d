//! What a run consists of: listed paths with their verdicts, tests, and proofs with trees of case splits; and which runs
//! the three files can spell (specs/Lawful.antt). It checks nothing: which trees refute is said in trees.
//! Stands on pd_base, netlist and trees. The layers above use `Run` and its parts, and the predicates of specs/.
#![tactic(auto)]

mod run;

pub use run::{ListedPath, Proof, Run, Verdict};
