// What lists of pins, and paths from their sources on, share at their beginning.
ghost use Rattle.prefix_sensitize.specs.PathOrder.{ShareSteps, SharePrefix};

use pd_base::{Path, PinRef};

// How many steps two lists of pins share at their beginning.
pub(crate) fn shared_steps(first: &[PinRef], second: &[PinRef]) -> usize
    ensures { ShareSteps first.now second.now result }
{
    let most = first.len().min(second.len());
    for at in 0..most {
        if first[at] != second[at] {
            return at;
        }
    }
    most
}

// How many steps a path shares with another one from their source on: none where their sources differ.
pub(crate) fn shared_prefix(other: &Path, path: &Path) -> usize
    ensures { SharePrefix other.now path.now result }
{
    if other.source() == path.source() {
        shared_steps(other.steps(), path.steps())
    } else {
        0
    }
}
