//! The delays of a netlist, one for each pin or one of a rise and one of a fall, and how they are read from a delay file.
//! Stands on pd_base, netlist and csv.
//! The layers above use `Delays` and `read_delays`, of two delays `RiseFall` and `read_rise_fall`, and those that read another file with
//! csv also `three_fields`, `trimmed`, `number` and `long_number`. They cite `delays_of` and `Fits` (specs/Annotation.antt), `rise_fall_of` and
//! `BothFit` (specs/RiseFall.antt), and `HasDelays`, `RefusesDelays`, `HasRiseFall` and `RefusesRiseFall` (specs/DelayFile.antt).
#![tactic(auto)]

mod delays;
mod fault;
mod field;
mod last;
mod reading;
mod rise_fall;
mod row;
mod rows;
mod setting;
mod settling;

pub use delays::{Delays, MOST_DELAY, UNIT_DELAY};
pub use fault::DelayFault;
pub use field::{
    MOST_LONG_DIGITS, MOST_NUMBER_DIGITS, MOST_PIN_DIGITS, long_number, number, trimmed,
};
pub use reading::{read_delays, read_rise_fall};
pub use rise_fall::RiseFall;
pub use rows::three_fields;
pub use setting::Columns;
