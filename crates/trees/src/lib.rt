//! Trees of case splits: what a tree is, when it refutes, when it shows that a budget was spent, what each of them tells of pairs of
//! vectors, and the bound of a spent budget; under all rules (specs/, proofs/). Stands on pd_base, netlist, path_laws, state_sets and
//! state_laws. The layers above use `Tree`, whose nodes are one whole tree in preorder, and cite the definitions and laws.
#![tactic(auto)]

mod tree;

pub use tree::{Node, Tree};
