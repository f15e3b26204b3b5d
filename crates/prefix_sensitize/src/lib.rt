//! Searches for tests of the first paths of a circuit, for both transitions and both kinds of test, and the run that they make. The
//! paths are walked in an order in which those that share a prefix stand side by side, so that each prefix is entered once; a
//! refutation that comes up at a prefix settles all paths that have it, and one of a whole path is lifted to a prefix that it refutes.
//! Stands on implication and justify, which search, and on refutation_check, which judges a refutation at a shorter prefix.
//! The layer above uses `sensitize_all` and `PathTree`, and cites their contracts.
#![tactic(auto)]

mod all_outcomes;
mod anew;
mod course;
mod descent;
mod lifting;
mod listing;
mod numbering;
mod outcome;
mod path_tree;
mod sensitizing;
mod settling;
mod sharing;
mod stretch;
mod verdicts;
mod walking;

pub use path_tree::PathTree;
pub use sensitizing::sensitize_all;
