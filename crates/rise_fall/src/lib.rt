//! The waves of all lines of a netlist under a pair of vectors, where each pin delays a rise and a fall of its line differently, and
//! how long paths are then.
//! Stands on pd_base, netlist, path_laws, delay_annotation and delay_replay.
//! The layers above use `replay_rise_fall` and `length_rise_fall`, over the delays that `read_rise_fall` read, and cite
//! `rise_fall_wave` and `final_length` (specs/Waves.antt).
#![tactic(auto)]

mod copy;
mod gate;
mod length;
mod replay;

pub use copy::rise_fall_copy;
pub use delay_annotation::{RiseFall, read_rise_fall};
pub use gate::{KeptCopies, gate_wave};
pub use length::length_rise_fall;
pub use replay::replay_rise_fall;
