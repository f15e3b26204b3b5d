// Whether the hashes of names agree so far that a table finds the names slowly. Its hasher has a fixed seed, so names can be chosen for
// that; others hardly ever agree so far. Either answer is right: a set of names is the same both ways, and only its time differs.
use crate::RawNet;
use crate::reading::defined;
use pd_base::OutOfMemory;
use std::alloc::Global;
use std::hash::{FoldHasher, Hash, Hasher};

// A table has groups of at most sixteen entries, and of nine or fewer on an average. An entry whose group is full goes on to the next one.
const ENTRIES_ON_AVERAGE: usize = 9;

const MOST_ENTRIES: u32 = 16;

// No more groups one behind another pass entries on, and no more are gone through to find a name.
const MOST_FULL_GROUPS: u32 = 8;

/// Whether a table of the names that the statements define would be slow.
pub(crate) fn hashes_agree(alloc: Global, raw: &RawNet) -> Result<bool, OutOfMemory> {
    let mut counts = vec![in alloc; 0u32; group_count(raw.len())]?;
    for place in 0..raw.len() {
        if let Some(name) = defined(raw, place) {
            count_name(&mut counts, name);
        }
    }
    Ok(are_crowded(counts.as_slice()))
}

// The number of groups of a table for so many entries: the least power of two that is enough.
fn group_count(entries: usize) -> usize {
    (entries.saturating_add(ENTRIES_ON_AVERAGE - 1) / ENTRIES_ON_AVERAGE).next_power_of_two()
}

// Counts a name at the group where it would be looked for first.
fn count_name(counts: &mut Vec<u32>, name: &[u8]) {
    let mut hasher = FoldHasher::default();
    name.hash(&mut hasher);
    let state = hasher.finish();
    let group = (state ^ state >> 32) as usize & counts.len().saturating_sub(1);
    if group < counts.len() {
        counts[group] = counts[group].saturating_add(1);
    }
}

// Whether entries that find their group full have to pass many groups. The groups are gone through twice, since the first is behind the last.
fn are_crowded(counts: &[u32]) -> bool {
    let mut passed_on: u32 = 0;
    let mut full: u32 = 0;
    for _ in 0..2 {
        for count in counts {
            passed_on = passed_on
                .saturating_add(*count)
                .saturating_sub(MOST_ENTRIES);
            full = if passed_on == 0 {
                0
            } else {
                full.saturating_add(1)
            };
            if full > MOST_FULL_GROUPS {
                return true;
            }
        }
    }
    false
}
