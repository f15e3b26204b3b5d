//! Judges trees of cases: whether one refutes, and whether it shows that a budget was spent; if not, which node is first at fault. Whether
//! one refutes is also judged on a scope that has entered the pins of a prefix already (`refutes_entered`). And the hull at a node of a
//! tree.
//! Under any rules, with the kind of states that they choose. Stands on implication, trees, cones and pair_judging.
//! The layers above use the contracts of `TreeJudge`, `check_tree`, `check_spent`, `refutes_entered` and `hull`.
#![tactic(auto)]

mod answer;
mod blaming;
mod due;
mod early;
mod entered;
mod halves;
mod judge;
mod near;
mod node_hull;
mod refutation;
mod root;
mod single;
mod spent;
mod split_ends;
mod splits;
mod trial;
mod trial_states;
mod walk;

pub use answer::{Hull, TreeCheck};
pub use entered::refutes_entered;
pub use judge::TreeJudge;
pub use node_hull::hull;
pub use single::{check_spent, check_tree};
