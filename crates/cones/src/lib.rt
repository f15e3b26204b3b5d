//! The fan-in cones of lines, closed over links: which lines stand in the transitive fan-in of one line or in its support under links,
//! found by one search back from some ends, and for one end the sources and the gates among them in order. Stands on netlist, path_laws
//! and state_laws.
//! The layers above use `Cone`, the cone of one end at a time, which keeps those of ends that were asked for not long ago aside;
//! `find_back`, `find_reads` and `FoundLines`, the search for any ends; `SourceLinks`; `support`, which marks a transitive
//! fan-in without a list of its lines; and `ranks_of`, the place of each gate in rank order.
#![tactic(auto)]

mod back_search;
mod cone;
mod cone_lists;
mod end_cone;
mod fan_in;
mod found_lines;
mod ranks;
mod source_links;

pub use back_search::{find_back, find_reads};
pub use cone::Cone;
pub use fan_in::support;
pub use found_lines::FoundLines;
pub use ranks::ranks_of;
pub use source_links::SourceLinks;
