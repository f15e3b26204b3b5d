// The command `bounds`: for each fault of a report what a tester's log shows of the delay of its path (specs/Bounds.antt, BoundsText.antt). The
// text stands whole before out is touched.
mod bounding;
mod log_ending;
mod preparing;
mod text;

pub(crate) use bounding::bounds;
