//! The first paths of a netlist under a delay assignment, longest first: the first walks of its timing graph, by lists of best
//! walks that share their ends.
//! Stands on pd_base, netlist, delay_annotation and path_laws.
//! The layers above use the contract of `first_paths`.
#![tactic(auto)]

mod arcs;
mod graph;
mod growth;
mod listing;
mod lists;
mod paths;
mod ranking;
mod rows;
mod starting;
mod timing_graph;

pub use paths::first_paths;
