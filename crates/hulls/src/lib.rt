//! Hulls: labels narrowed gate by gate, until nothing changes. One gate or link is narrowed by tables, under the condition that a
//! prefix sets there; the labels stand on a board, with a trail by which changes are undone and the gates that have to be narrowed
//! again, so that a cut costs what it changes.
//! Stands on pd_base, netlist, path_laws, undo_trail, state_sets and state_laws.
//! The layers above use `Board`, `Conditions`, `launching_states`, `other_states`, `kept_at` and `half_states`, and cite their contracts.
#![tactic(auto)]

mod board;
mod collecting;
mod conditions;
mod cutting;
mod entering;
mod few;
mod gate;
mod halving;
mod inverting;
mod joins;
mod limits;
mod link;
mod link_lists;
mod queue;
mod scratch;
mod selecting;
mod settling;
mod starting;
mod three;
mod turn;
mod view;
mod waiting;
mod waking;

pub use board::Board;
pub use conditions::Conditions;
pub use entering::enter_all;
pub use gate::{kept_at, narrow};
pub use halving::half_states;
pub use link::narrow_link;
pub use scratch::NarrowScratch;
pub use starting::{launching_states, other_states};
pub use turn::Turn;
pub use waiting::Waiting;
