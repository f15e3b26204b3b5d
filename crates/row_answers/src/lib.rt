//! Answers to rows of tests, as texts: what a netlist and a delay file say, values, five values, cones, paths, tests, links and scan chains,
//! waves, hulls, and what the judge says of trees. Stands on the readers, the models, the lister, the replay and refutation_check, and is no
//! part of the product. The program rows prints the answers; it and search_answers read netlists, paths and words of their rows by it.
#![tactic(auto)]

mod asked_cones;
mod circuit_facts;
mod circuits;
mod delay_files;
mod faults;
mod fives;
mod halves;
mod judged_trees;
mod line_values;
mod linked_pairs;
mod listed_paths;
mod loads;
mod nodes;
mod paths;
mod replays;
mod rules;
mod single_paths;
mod text;
mod texts;
mod trouble;

pub use asked_cones::cones_in_turn;
pub use circuit_facts::{netlist_facts, netlist_text};
pub use circuits::read;
pub use delay_files::delays_text;
pub use faults::{Fault, RuledFault, fault_of};
pub use fives::five_values;
pub use halves::{add_labels, halves_of, hull_at};
pub use judged_trees::{deep, judged, judged_spent, refutes, spent};
pub use line_values::{steadiness, support_of, values};
pub use linked_pairs::keeps;
pub use listed_paths::listing;
pub use loads::loaded;
pub use paths::{accepted_delays, path};
pub use replays::{samples, seen_by_pin, sides, waves};
pub use rules::{rules_of, unlinked_rules_of};
pub use single_paths::{comparison, path_facts, verdict};
pub use text::Text;
pub use texts::{number_of, spelled_out};
pub use trouble::Trouble;
