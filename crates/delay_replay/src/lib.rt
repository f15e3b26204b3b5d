//! The waves of all lines of a netlist under a pair of vectors and its delays, kept as their changes; samples of them; and
//! whether the sides of a path have settled.
//! Stands on pd_base, netlist, delay_annotation and path_laws.
//! The layers above use the contracts of `replay`, `sample` and `settled`.
#![tactic(auto)]

mod delay_model;
mod gate;
mod line_waves;
mod pin_changes;
mod pin_copies;
mod pin_count;
mod settling;
mod wave;

pub use delay_model::DelayModel;
pub use gate::{MOST_CHANGES, WaveFault, gate_wave, merge};
pub use line_waves::{MOST_CHANGES_OF_ALL, ReplayFault, replay, replay_with};
pub use pin_copies::{LaterWaves, PinCopies};
pub use settling::{sample, settled};
pub use wave::{LATEST_CHANGE, Wave, pin_copy, source_wave};
