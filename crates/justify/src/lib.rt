//! A search for a test of one path: at each node of a tree of cases a pair of vectors is read off the labels of a scope and tried; where
//! it is no test, the cases are split. The search ends with a test, with a tree that refutes, or with its budget spent. Stands on
//! implication, on pair_judging, which judges the pairs, on search_hints, which say what to try next, and on trees.
//! The layer above uses `search`, `search_linked`, `search_at`, `Desk`, `Found` and `Unfinished`, and cites their contracts.
#![tactic(auto)]

mod answer;
mod choosing;
mod closers;
mod desk;
mod ending;
mod entering;
mod growing;
mod halves;
mod judging;
mod searching;
mod task;
mod trial;
mod trying;
mod visiting;

pub use answer::{Found, Unfinished};
pub use desk::Desk;
pub use searching::{search, search_at, search_linked};
