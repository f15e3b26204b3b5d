//! The laws of states, of narrowing and of hulls: what is true of the definitions of state_sets alone.
//! Stands on pd_base, netlist, path_laws and state_sets, and has no code but the types `Split`, `SplitKind` and `Half`.
//! The layers above use these, cite what lines may be in at a node of a tree of cases (specs/), and the lemmas that a hull loses no
//! pair of vectors that meets the conditions, that single states decide, that the hull of a cone is that of the whole circuit there, and
//! that labels without steps are computed forward (proofs/).
#![tactic(auto)]

mod split;

pub use split::{Half, Split, SplitKind};
