// A walk over the first paths of a netlist, in which each prefix is entered once: how many prefixes there are, and how many steps are
// counted. The run that it makes is what a whole call writes.
ghost use Rattle.std.specs.Prelude.{◌≤◌, All, IsTrue, length};
ghost use Rattle.pd_base.specs.declared.limits.TheConstants.{MOST_PATHS};
ghost use Rattle.delay_annotation.specs.Annotation.{Fits};
ghost use Rattle.netlist.specs.declared.limits.TheConstants.{MOST_LEVELS};

use delay_annotation::Delays;
use netlist::{MOST_LEVELS, Netlist};
use path_lister::first_paths;
use pd_base::{MOST_PATHS, OutOfMemory, Path, Rules, Steps};
use prefix_sensitize::{PathTree, sensitize_all};
use row_answers::{Text, Trouble, accepted_delays, number_of};
use std::alloc::Global;

// The budget of each search.
const BUDGET: u32 = 1_000;

/// Adds how many prefixes of at least one step the first paths have, so many, and whether the walk counts at least as many steps, and at
/// most four times as many.
pub fn walked(
    alloc: Global,
    net: &Netlist,
    file: Option<&str>,
    count: &str,
    answer: &mut Text,
) -> Result<(), Trouble> {
    let count = number_of(count)?;
    if count > MOST_PATHS {
        return Err(Trouble::NoRow);
    }
    let delays = accepted_delays(alloc, net, file)?;
    add_walk(alloc, net, &delays, count, answer)
}

// The same under these delays.
fn add_walk(
    alloc: Global,
    net: &Netlist,
    delays: &Delays,
    count: u32,
    answer: &mut Text,
) -> Result<(), Trouble>
    requires fits { Fits net.now delays.now }
    requires count { count ≤ MOST_PATHS }
{
    let prefixes = prefixes_of(alloc, net, delays, count)?;
    let steps = steps_of(alloc, net, delays, count)?;
    add_line(prefixes, steps, answer);
    Ok(())
}

// The line that tells of it.
fn add_line(prefixes: u64, steps: u64, answer: &mut Text) {
    answer.add_number("  prefixes ", prefixes);
    if prefixes <= steps && steps <= prefixes.saturating_mul(4) {
        answer.add(", each entered\n");
    } else {
        answer.add_number(", steps ", steps);
        answer.add("\n");
    }
}

// How many prefixes the first paths have. It promises nothing, so that the line is not proved over again under the contract of
// `first_paths`.
fn prefixes_of(
    alloc: Global,
    net: &Netlist,
    delays: &Delays,
    count: u32,
) -> Result<u64, OutOfMemory>
    requires fits { Fits net.now delays.now }
    requires count { count ≤ MOST_PATHS }
{
    let paths = first_paths(alloc, net, delays, count)?;
    prefixes(alloc, paths.as_slice())
}

// How many prefixes these paths have, or 0 where they are too many or too long.
fn prefixes(alloc: Global, paths: &[Path]) -> Result<u64, OutOfMemory> {
    if paths.len() > MOST_PATHS as usize || !are_short(paths) {
        return Ok(0);
    }
    let tree = PathTree::new(alloc, paths)?;
    Ok(tree.prefixes())
}

// Whether no path has more steps than a netlist has levels at most.
fn are_short(paths: &[Path]) -> bool
    ensures { IsTrue result → All (λ route. length route.steps ≤ MOST_LEVELS) paths.now }
{
    paths
        .iter()
        .all(|path| path.steps().len() <= MOST_LEVELS as usize)
}

// How many steps a walk over the first paths counts. It promises nothing either.
#[tactic(auto, using(crate::proofs::Told::fits))]
fn steps_of(alloc: Global, net: &Netlist, delays: &Delays, count: u32) -> Result<u64, OutOfMemory>
    requires fits { Fits net.now delays.now }
    requires count { count ≤ MOST_PATHS }
{
    let paths = first_paths(alloc, net, delays, count)?;
    let mut steps = Steps::start(());
    sensitize_all(alloc, net, delays, paths, BUDGET, Rules::One, &mut steps)?;
    Ok(steps.count())
}
