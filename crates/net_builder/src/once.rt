// Lines that are listed, each once, at its first place.
ghost use Rattle.std.specs.Prelude.{◌≡◌, ◌<◌, [], ◌∷◌, ◌++◌, true, false, cond, length, map, slice_set, slice_index_or, All, IfOk, OnOk};
ghost use Rattle.netlist.specs.Circuit.{distinct_lines};

use pd_base::{LineId, OutOfMemory};
use std::alloc::Global;

/// These lines, each once, at its first place. All are below the total.
pub(crate) fn once(alloc: Global, lines: &[LineId], total: u32) -> Result<Vec<LineId>, OutOfMemory>
    requires { All (λ line. line.0 < total) lines.now }
    ensures { IfOk result (λ kept. kept.items ≡ distinct_lines lines.now) }
{
    let mut seen = vec![in alloc; false; total as usize]?;
    let mut kept = Vec::new(alloc);
    for line in lines {
        keep(*line, &mut seen, &mut kept)?;
    }
    Ok(kept)
}

// Puts a line last that was not seen before, and notes it as seen.
fn keep(line: LineId, seen: &mut Vec<bool>, kept: &mut Vec<LineId>) -> Result<(), OutOfMemory>
    requires { line.0 < length seen.old.items }
    ensures seen { OnOk result (seen.new.items ≡ slice_set seen.old.items line.0 true) }
    ensures kept { OnOk result (kept.new.items ≡ cond (slice_index_or seen.old.items line.0 false) kept.old.items (kept.old.items ++ line ∷ [])) }
{
    if seen[line.0 as usize] {
        return Ok(());
    }
    seen[line.0 as usize] = true;
    kept.push(line)?;
    Ok(())
}

/// The outputs and then the data lines of the flip-flops, each line once, at its first place.
pub(crate) fn observed_of(
    alloc: Global,
    outputs: &[LineId],
    flops: &[(LineId, LineId)],
    total: u32,
) -> Result<Vec<LineId>, OutOfMemory>
    requires outputs { All (λ line. line.0 < total) outputs.now }
    requires data_lines { All (λ line. line.0 < total) (map (λ flop. flop.1) flops.now) }
    ensures { IfOk result (λ kept. kept.items ≡ distinct_lines (outputs.now ++ map (λ flop. flop.1) flops.now)) }
{
    let mut lines = Vec::from_slice(alloc, outputs)?;
    for flop in flops {
        lines.push(flop.1)?;
    }
    once(alloc, lines.as_slice(), total)
}
