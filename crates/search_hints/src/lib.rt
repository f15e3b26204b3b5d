//! What a search tries next: a pair that is found by decisions on any line of a cone, a source at which to split the cases, and the
//! sources to blame for a failure. Hints alone, which are tried before they are taken; so contracts say that they end, stay within their
//! room, and name lines of the circuit. Stands on hulls and cones.
//! The layer above uses `Justifier` with `Effort` and `Sight`, `follow` with `Frontier` and `Lead`, and `Blame`.
#![tactic(auto)]

mod activity;
mod blaming;
mod changes;
mod completing;
mod culprits;
mod decisions;
mod draft;
mod first_values;
mod framed_picking;
mod frames;
mod frontier;
mod grounds;
mod heavy_lines;
mod justifier;
mod link_ends;
mod open_lines;
mod patience;
mod picking;
mod region;
mod source_weights;
mod tree_limits;
mod weights;

pub use blaming::Blame;
pub use frontier::{Frontier, Lead, follow};
pub use justifier::{Effort, Justifier};
pub use picking::Sight;
