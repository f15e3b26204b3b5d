//! Scopes: assumptions about a pair of vectors, made one after another and taken back exactly, and what lines may still be in.
//! Stands on pd_base, netlist, path_laws, undo_trail, state_sets, state_laws, cones, hulls and trees.
//! The layers above use the contracts of `Engine` and `Scope`; specs/Clients.antt and proofs/Restoring.antt are made for them.
#![tactic(auto)]

mod assumption;
mod before;
mod engine;
mod engine_cone;
mod idle;
mod images;
mod making;
mod narrowing_on;
mod ranking;
mod reaching;
mod scope;
mod setting;

pub use assumption::{Assumption, Beginning, Conflict, Origin};
pub use engine::Engine;
pub use scope::{Scope, ScopeMark};
pub use setting::{RuledNetlist, Setting};
