// The cone of one end, and where those of some ends stand among others: what a `Cone` has at hand and keeps aside.
ghost use Rattle.std.specs.Prelude.{◌≡◌, ◌<◌, length, Some, All, IfOk, IfSome, IsTrue};
ghost use Rattle.cones.specs.KeptCones.{IsNoCone, IsPlaceOf};

use crate::found_lines::FoundLines;
use pd_base::{GateId, LineId, OutOfMemory};
use std::alloc::Global;

// At most so many cones are kept aside,
const MOST_OTHERS: usize = 32;
// and at least so many;
const FEW_OTHERS: usize = 8;
// between these, so many that together they have no more lines than this.
const MOST_LINES: usize = 1_048_576;

/// The cone of an end, if it is one: its lines, its sources and its gates.
#[derive(Drop)]
pub(crate) struct EndCone {
    pub(crate) end: Option<LineId>,
    pub(crate) found: FoundLines,
    pub(crate) sources: Vec<LineId>,
    pub(crate) gates: Vec<GateId>,
}

impl EndCone {
    // That of no end yet, with room for so many lines. The one error is that memory ran out.
    pub(crate) fn new(alloc: Global, lines: usize) -> Result<EndCone, OutOfMemory>
        ensures { IfOk result (IsNoCone lines) }
    {
        let sources = Vec::with_capacity(alloc, lines)?;
        let gates = Vec::with_capacity(alloc, lines)?;
        let found = FoundLines::new(alloc, lines)?;
        Ok(EndCone {
            end: None,
            found,
            sources,
            gates,
        })
    }

    // Whether this is the cone of this end.
    pub(crate) fn is_of(&self, end: LineId) -> bool
        ensures { IsTrue result → self.now.end ≡ Some end }
    {
        match self.end {
            Some(own) => own.0 == end.0,
            None => false,
        }
    }
}

// How many cones are kept aside of a netlist of so many lines: fewer where they take more room.
pub(crate) fn most_others(lines: usize) -> usize {
    if lines == 0 {
        return 0;
    }
    (MOST_LINES / lines).clamp(FEW_OTHERS, MOST_OTHERS)
}

// So many cones of no end yet, each with room for so many lines. The one error is that memory ran out.
pub(crate) fn no_cones(
    alloc: Global,
    lines: usize,
    count: usize,
) -> Result<Vec<EndCone>, OutOfMemory>
    ensures { IfOk result (λ cones. All (IsNoCone lines) cones.items) }
{
    let mut cones = Vec::with_capacity(alloc, count)?;
    for _ in 0..count {
        cones.push(EndCone::new(alloc, lines)?)?;
    }
    Ok(cones)
}

// Where the cone of an end stands among others, if it does.
pub(crate) fn place_of(cones: &[EndCone], end: LineId) -> Option<usize>
    ensures inside { IfSome result (λ place. place < length cones.now) }
    ensures of { IfSome result (λ place. IsPlaceOf end place cones.now) }
{
    for place in 0..cones.len() {
        if cones[place].is_of(end) {
            return Some(place);
        }
    }
    None
}
