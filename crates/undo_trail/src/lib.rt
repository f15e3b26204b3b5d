//! A trail: what stood at the places of a list before they were written, so that writes can be undone in the opposite order.
//! Stands on pd_base. The layers above use the contracts of `Trail`.
#![tactic(auto)]

mod trail;

pub use trail::{Note, Trail};
