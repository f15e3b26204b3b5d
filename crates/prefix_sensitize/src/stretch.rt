// The paths with one prefix, which stand side by side in the order of a walk.
ghost use Rattle.std.specs.Prelude.{◌≤◌, ◌<◌, ◌↔◌, ℕ, IsTrue, length};
ghost use Rattle.pd_base.specs.Route.{Route};
ghost use Rattle.netlist.specs.Paths.{IsPrefixOf, prefix_of};
ghost use Rattle.prefix_sensitize.specs.PathOrder.{StandsInOrder, IsFirstPlace, IsOrder, IsStretch};

use pd_base::Path;

/// Places of an order, from a known one on.
#[derive(Clone, Copy)]
pub(crate) struct Stretch {
    /// The place behind the last one.
    pub(crate) end: usize,
    /// The least row that stands there.
    pub(crate) least: usize,
}

// The places from this one on whose paths have the first steps of the path there.
pub(crate) fn stretch_from(paths: &[Path], order: &[usize], place: usize, steps: usize) -> Stretch
    requires order { IsOrder paths.now order.now }
    requires place { place < length order.now }
    requires steps { (row : ℕ) (route : Route) → StandsInOrder paths.now order.now place row route → steps ≤ length route.steps }
    ensures { (row : ℕ) (route : Route) → StandsInOrder paths.now order.now place row route
        → IsStretch paths.now order.now (prefix_of steps route) place result.end result.least }
{
    let first = &paths[order[place]];
    let mut least = order[place];
    for at in place + 1..order.len() {
        let row = order[at];
        if !has_first_steps(&paths[row], first, steps) {
            return Stretch { end: at, least };
        }
        least = least.min(row);
    }
    Stretch {
        end: order.len(),
        least,
    }
}

// The first place of all whose path has the first steps, so many, of the path at this place: there the paths with this prefix begin.
pub(crate) fn first_place(paths: &[Path], order: &[usize], place: usize, steps: usize) -> usize
    requires order { IsOrder paths.now order.now }
    requires place { place < length order.now }
    requires steps { (row : ℕ) (route : Route) → StandsInOrder paths.now order.now place row route → steps ≤ length route.steps }
    ensures { (row : ℕ) (route : Route) → StandsInOrder paths.now order.now place row route
        → IsFirstPlace paths.now order.now (prefix_of steps route) place result }
{
    let path = &paths[order[place]];
    let mut start = place;
    while start > 0 && has_first_steps(&paths[order[start - 1]], path, steps) {
        start -= 1;
    }
    start
}

// Whether a path begins with the first steps of another one.
pub(crate) fn has_first_steps(path: &Path, other: &Path, steps: usize) -> bool
    requires { steps ≤ length other.now.steps }
    ensures { IsTrue result ↔ IsPrefixOf (prefix_of steps other.now) path.now }
{
    path.source() == other.source() && path.steps().starts_with(&other.steps()[..steps])
}
