//! The system's files and streams: the trusted edge to std.
//! Stands on pd_io, whose traits they meet. The program's main uses `StdFiles` and `StdSink`.
#![tactic(auto)]

mod std_files;

pub use std_files::{StdFiles, StdSink};
