//! What a tester shifts into a scan chain so that a pair of vectors stands there: the first one when the chain is loaded, the second one
//! after one shift more; and which pairs can be launched so.
//! Stands on pd_base, netlist and scan_order, whose links say which bits the last shift moves. The layers above use `put_load_string`,
//! `load_string` and `shifts_on_all`, and cite `Loads` and `load_bits` (specs/Shifting.antt).
#![tactic(auto)]

mod launching;
mod loading;

pub use launching::shifts_on_all;
pub use loading::{load_string, put_load_string};
