// The order in which listed paths are walked: by their sources, then by their steps, so that paths that share a prefix stand side by side
// and no path stands before one that is a prefix of it. What two paths share is told in sharing.rt, which paths have one prefix in
// stretch.rt. `check` keeps something else (claim_check, prefix_tree.rt): it asks of a proof's prefix, by path and number of steps, which
// listed path has it first, so each prefix has a node there. A walk meets prefixes in order and asks for none by name: it keeps a row for
// each path, and nothing for a step.
ghost use Rattle.std.specs.Prelude.{◌≡◌, ◌≤◌, ◌<◌, ◌*◌, ℕ, length, take, All, IfOk};
ghost use Rattle.std.specs.List.{range_with_len};
ghost use Rattle.pd_base.specs.declared.limits.TheConstants.{MOST_PATHS};
ghost use Rattle.pd_base.specs.Route.{Route};
ghost use Rattle.netlist.specs.declared.limits.TheConstants.{MOST_LEVELS};
ghost use Rattle.prefix_sensitize.specs.PathOrder.{StandsInOrder, IsOrder, IsEntry, rows_in, routes_in};
ghost use Rattle.prefix_sensitize.specs.Prefixes.{HasPrefixes, HasNewPrefixes};

use crate::sharing::shared_prefix;
use pd_base::{LineId, OutOfMemory, Path, PinRef};
use std::alloc::Global;
use std::marker::Model;

/// The rows of listed paths in the order of a walk, and the number of the paths' prefixes of at least one step: the tree that these
/// prefixes make, each of them one step longer than the one that it branches from, is never built.
#[derive(Drop)]
pub struct PathTree {
    order: Vec<usize>,
    prefixes: u64,
}

impl Model for PathTree {
    ghost use Rattle.prefix_sensitize.specs.PathOrder.{OrderedPaths};

    ghost Value = { OrderedPaths };

    ghost view = { λ t. record { order = t.order.items; prefixes = t.prefixes } };
}

impl PathTree {
    /// The order and the prefixes of these paths, of which there are few enough, each of few enough steps. It fails only where memory
    /// runs out.
    pub fn new(alloc: Global, paths: &[Path]) -> Result<PathTree, OutOfMemory>
        requires few { length paths.now ≤ MOST_PATHS }
        requires short { All (λ route. length route.steps ≤ MOST_LEVELS) paths.now }
        ensures order { IfOk result (λ tree. IsOrder paths.now tree.order) }
        ensures prefixes { IfOk result (λ tree. HasPrefixes paths.now tree.prefixes) }
        ensures few { IfOk result (λ tree. tree.prefixes ≤ length paths.now * MOST_LEVELS) }
    {
        let order = order_of(alloc, paths)?;
        let prefixes = count_prefixes(paths, order.as_slice());
        Ok(PathTree { order, prefixes })
    }

    /// How many different prefixes of at least one step the paths have.
    pub fn prefixes(&self) -> u64
        ensures { result ≡ self.now.prefixes }
    {
        self.prefixes
    }

    // The rows in the order of a walk.
    pub(crate) fn order(&self) -> &[usize]
        ensures { result.now ≡ self.now.order }
    {
        self.order.as_slice()
    }
}

// The rows of these paths in the order of a walk.
fn order_of(alloc: Global, paths: &[Path]) -> Result<Vec<usize>, OutOfMemory>
    ensures { IfOk result (λ order. IsOrder paths.now order.items) }
{
    let mut entries = with_rows(alloc, paths)?;
    entries.sort_unstable();
    rows_in(alloc, entries.as_slice())
}

// The source and the steps of each path, with its row, in the order of the list.
fn with_rows<'p>(
    alloc: Global,
    paths: &'p [Path],
) -> Result<Vec<(LineId, &'p [PinRef], usize)>, OutOfMemory>
    ensures entries { IfOk result (λ entries. All (IsEntry paths.now) entries.items) }
    ensures rows { IfOk result (λ entries. rows_in entries.items ≡ range_with_len 0 (length paths.now)) }
{
    let mut entries = Vec::with_capacity(alloc, paths.len())?;
    for row in 0..paths.len() {
        let path = &paths[row];
        entries.push((path.source(), path.steps(), row))?;
    }
    Ok(entries)
}

// The rows alone, in the same order.
fn rows_in(alloc: Global, entries: &[(LineId, &[PinRef], usize)]) -> Result<Vec<usize>, OutOfMemory>
    ensures { IfOk result (λ rows. rows.items ≡ rows_in entries.now) }
{
    let mut rows = Vec::with_capacity(alloc, entries.len())?;
    for (_, _, row) in entries {
        rows.push(*row)?;
    }
    Ok(rows)
}

// The number of prefixes of at least one step of paths in their order.
fn count_prefixes(paths: &[Path], order: &[usize]) -> u64
    requires order { IsOrder paths.now order.now }
    requires few { length paths.now ≤ MOST_PATHS }
    requires short { All (λ route. length route.steps ≤ MOST_LEVELS) paths.now }
    ensures count { HasPrefixes paths.now result }
    ensures few { result ≤ length paths.now * MOST_LEVELS }
{
    let mut prefixes = 0u64;
    for place in 0..order.len() {
        prefixes += new_prefixes(paths, order, place) as u64;
    }
    prefixes
}

// The number of prefixes of the path at a place that no path before it has: what it doesn't share with the one just before it.
fn new_prefixes(paths: &[Path], order: &[usize], place: usize) -> usize
    requires order { IsOrder paths.now order.now }
    requires place { place < length order.now }
    ensures { (row : ℕ) (route : Route) → StandsInOrder paths.now order.now place row route
        → HasNewPrefixes (routes_in paths.now (take place order.now)) route result }
{
    let path = &paths[order[place]];
    if place == 0 {
        return path.steps().len();
    }
    path.steps().len() - shared_prefix(&paths[order[place - 1]], path)
}
