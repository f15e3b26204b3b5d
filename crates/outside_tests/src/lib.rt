//! Tests of what no clause says of files and streams: those in memory succeed with ample memory, and fail where that is planned;
//! what files of the system cut, sync and refuse; a runtime of which a call fails; and a counter of steps under a mark. Stands on
//! pd_base, pd_io and system_files, and holds nothing but tests.
#![tactic(auto)]

#[cfg(test)]
mod attempts;
#[cfg(test)]
mod failing_runtime;
#[cfg(test)]
mod memory;
#[cfg(test)]
mod steps;
#[cfg(test)]
mod system;
