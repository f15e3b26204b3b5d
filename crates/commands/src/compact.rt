// The command `compact`: the tests of a tests file without those that could be left out, with regard to the faults of a report
// (specs/Compact.antt). What is kept, and the line on how much that is, stand whole before OUT is begun.
mod compacting;
mod preparing;

pub(crate) use compacting::compact;
