//! What an error of csv means in this program: that memory ran out. All that csv reads or writes here stands in memory, and rows may have
//! any number of fields, so nothing else fails. Stands on pd_base and csv. The readers of delays and logs and the writer of the report use
//! `refused_memory`.
#![tactic(auto)]

use csv::Error;
use pd_base::OutOfMemory;

/// The want of memory that an error of csv tells of, in reading or writing bytes that stand in memory.
pub fn refused_memory(_error: Error) -> OutOfMemory {
    OutOfMemory::reported()
}
