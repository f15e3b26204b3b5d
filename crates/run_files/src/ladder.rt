// The line on a ladder that the work was done on.
ghost use Rattle.std.specs.Prelude.{◌≡◌, IfOk};
ghost use Rattle.run_files.specs.LadderLine.{first_length, ladder_line};

use crate::summary::{push_count, push_counts};
use netlist::Netlist;
use pd_base::OutOfMemory;
use runs::Run;
use std::alloc::Global;

/// The line that tells of a ladder of so many stages, and of a run of it: its lines and pins, the counts of the run, and the length
/// of the first path.
pub fn ladder_line(
    alloc: Global,
    stages: u32,
    net: &Netlist,
    run: &Run,
) -> Result<Vec<u8>, OutOfMemory>
    ensures { IfOk result (λ text. text.items ≡ ladder_line stages net.now run.now) }
{
    let mut text = Vec::new(alloc);
    push_count(&mut text, b"ladder ", u64::from(stages))?;
    push_count(&mut text, b" lines ", u64::from(net.lines()))?;
    push_count(&mut text, b" pins ", u64::from(net.pin_total()))?;
    text.push(b' ')?;
    push_counts(&mut text, run)?;
    push_count(&mut text, b" longest ", first_length(run))?;
    text.push(b'\n')?;
    Ok(text)
}

// The length of the first path.
fn first_length(run: &Run) -> u64
    ensures { result ≡ first_length run.now.paths }
{
    match run.paths.as_slice() {
        [] => 0,
        [first, ..] => first.length,
    }
}
