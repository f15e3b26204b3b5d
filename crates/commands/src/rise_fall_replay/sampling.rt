// What tests are replayed with, in one value.
use delay_annotation::RiseFall;
use netlist::Netlist;
use runs::ListedPath;

/// What is the same for all tests of a call.
#[derive(Clone, Copy)]
pub(crate) struct Sampling<'a> {
    /// The netlist.
    pub(crate) net: &'a Netlist,
    /// The rise and fall delays of its pins, in delay units.
    pub(crate) delays: &'a RiseFall,
    /// The paths that REPORT lists, by their numbers from 1.
    pub(crate) paths: &'a [ListedPath],
    /// The time at which the observed lines are sampled, in delay units.
    pub(crate) time: u64,
}
