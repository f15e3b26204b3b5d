// The command `check`: whether three files spell a good run of a netlist and its delays (specs/Check.antt). The run is judged by
// claim_check.
mod checking;
mod judging;
mod reading;
mod spelling;

pub(crate) use checking::check;
