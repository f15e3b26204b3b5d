// What is said of the hull below halves of splits.
ghost use Rattle.std.specs.Prelude.{◌<◌, All, IfOk};
ghost use Rattle.netlist.specs.Circuit.{line_count};
ghost use Rattle.netlist.specs.LinkedPairs.{FitRules};
ghost use Rattle.netlist.specs.Paths.{IsPath};

use crate::faults::{Fault, RuledFault, fault_of};
use crate::nodes::split_of;
use crate::paths::path;
use crate::rules::rules_of;
use crate::text::Text;
use crate::trouble::Trouble;
use netlist::Netlist;
use pd_base::{LineId, OutOfMemory, Path};
use refutation_check::{Hull, hull};
use state_laws::Half;
use state_sets::{State, StateSet};
use std::alloc::Global;

/// Adds the hull below these halves: the rules (rules.rt), transition, kind, and for each half a split, as in a tree, and
/// behind a dot 1 or 2. A line for each line of the circuit: its name, and the numbers of its states; before them, where these are of the
/// six, the name of such an answer. Or that some line has none.
pub fn hull_at(
    alloc: Global,
    net: &Netlist,
    prefix: &str,
    row: &str,
    answer: &mut Text,
) -> Result<(), Trouble> {
    let (rules, row) = rules_of(alloc, net, row)?;
    let (fault, halves) = fault_of(row)?;
    let halves = halves_of(alloc, net, halves)?;
    let rules = &rules;
    let fault = RuledFault { rules, fault };
    add_hull_below(alloc, net, prefix, fault, halves.as_slice(), answer)
}

// The lines of the hull below halves.
fn add_hull_below(
    alloc: Global,
    net: &Netlist,
    prefix: &str,
    fault: RuledFault,
    halves: &[Half],
    answer: &mut Text,
) -> Result<(), Trouble>
    requires halves { All (λ half. half.split.line.0 < line_count net.now) halves.now }
    requires fit { FitRules net.now fault.rules.now }
{
    let prefix = path(alloc, net, prefix)?;
    match hull_of(alloc, net, &prefix, fault, halves)? {
        Hull::Rest(labels) => add_labels(net, labels.as_slice(), answer),
        Hull::RestLinked(labels) => {
            answer.add("  RestLinked\n");
            add_labels(net, labels.as_slice(), answer);
        }
        Hull::Empty(_) => answer.add("  empty\n"),
    }
    Ok(())
}

// The hull. It promises nothing, so that the answers are not proved over again under the contract of `hull`.
fn hull_of(
    alloc: Global,
    net: &Netlist,
    prefix: &Path,
    fault: RuledFault,
    halves: &[Half],
) -> Result<Hull, OutOfMemory>
    requires path { IsPath net.now prefix.now }
    requires halves { All (λ half. half.split.line.0 < line_count net.now) halves.now }
    requires fit { FitRules net.now fault.rules.now }
{
    let Fault { direction, kind } = fault.fault;
    hull(alloc, net, fault.rules, prefix, direction, kind, halves)
}

/// Adds a line for each line of the circuit: its name, and the numbers of its states.
pub fn add_labels(net: &Netlist, labels: &[StateSet], answer: &mut Text) {
    for line in 0..net.lines() {
        answer.add("  ");
        answer.add_bytes(net.name(LineId(line)));
        if let Some(label) = labels.get(line as usize) {
            add_states(*label, answer);
        }
    }
    if labels.len() as u64 > net.lines() as u64 {
        answer.add("  more labels than lines\n");
    }
}

// The numbers of the states of a set.
fn add_states(set: StateSet, answer: &mut Text) {
    answer.add(" ");
    for number in 0..8u8 {
        if set.holds(State(number)) {
            answer.add_number("", number as u64);
        }
    }
    answer.add("\n");
}

/// The halves of a row: for each a split, as in a tree, and behind a dot 1 or 2.
pub fn halves_of(alloc: Global, net: &Netlist, row: &str) -> Result<Vec<Half>, Trouble>
    ensures { IfOk result (λ halves. All (λ half. half.split.line.0 < line_count net.now) halves.items) }
{
    let mut halves = Vec::new(alloc);
    for word in row.split(' ') {
        if !word.is_empty() {
            halves.push(half_of(net, word)?)?;
        }
    }
    Ok(halves)
}

// One half: a split, a dot, and 1 or 2.
fn half_of(net: &Netlist, word: &str) -> Result<Half, Trouble>
    ensures { IfOk result (λ half. half.split.line.0 < line_count net.now) }
{
    let (split, place) = word.split_once('.').ok_or(Trouble::NoRow)?;
    let split = split_of(split)?;
    if split.line.0 >= net.lines() {
        return Err(Trouble::NoRow);
    }
    Ok(Half {
        split,
        second: place == "2",
    })
}
