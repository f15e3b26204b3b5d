//! The circuit, and what the whole project means by values, steadiness, waves, paths, tests and their order (specs/).
//! Stands on pd_base. The layers above use a `Netlist` as the circuit that its contracts show, and the table of side conditions.
#![tactic(auto)]

mod kind;
mod limits;
mod netlist;
mod op;
mod raw_net;
mod side_conditions;
mod transition;

pub use kind::GateKind;
pub use limits::{
    MOST_FAN_IN, MOST_LEVELS, MOST_LINES, MOST_NAME_BYTES, MOST_PINS, MOST_STATEMENTS,
};
pub use netlist::{Layout, Netlist};
pub use op::Op;
pub use raw_net::RawStmt;
pub use side_conditions::{SideCondition, side_condition};
pub use transition::final_bit;
