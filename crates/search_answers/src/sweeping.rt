// The labels of all lines by the plainest way there is: the gates are narrowed one after another, and all of them again, until
// nothing changes. The sets and conditions with which it starts are written out here.
ghost use Rattle.std.specs.Prelude.{◌<◌, IfSome, length};
ghost use Rattle.netlist.specs.Circuit.{gate_count, pins_at};

use hulls::{NarrowScratch, narrow};
use netlist::Netlist;
use pd_base::{Direction, GateId, Kind, LineId, OutOfMemory, PinRef, Rules};
use state_laws::{Half, SplitKind};
use state_sets::{Condition, FourStates, Labels, Narrowed, StateSet};
use std::alloc::Global;

// The states are, from bit 0 on: steady at 0, steady at 1, not steady and 0 at last, not steady and 1 at last.
const FALLS: StateSet = StateSet(4);

const RISES: StateSet = StateSet(8);

const STEADY: StateSet = StateSet(3);

const MOVES: StateSet = StateSet(12);

const ENDS_AT_0: StateSet = StateSet(5);

const ENDS_AT_1: StateSet = StateSet(10);

// What is not steady may have begun at either value.
const BEGINS_AT_0: StateSet = StateSet(13);

const BEGINS_AT_1: StateSet = StateSet(14);

/// What is assumed: a transition at a source, the conditions of a kind of test at the steps of a prefix, and halves of splits.
#[derive(Clone, Copy)]
pub(crate) struct Assumed<'a> {
    pub(crate) rules: &'a Rules,
    pub(crate) source: LineId,
    pub(crate) direction: Direction,
    pub(crate) kind: Kind,
    pub(crate) steps: &'a [PinRef],
    pub(crate) halves: &'a [Half],
}

/// The sets of all lines when a round over all gates changes nothing any more, or None where some line is left without a state.
pub(crate) fn swept(
    alloc: Global,
    net: &Netlist,
    assumed: &Assumed,
) -> Result<Option<Labels<FourStates>>, OutOfMemory> {
    let mut scratch = NarrowScratch::new();
    let mut labels = started(alloc, net, assumed)?;
    // each round but the last takes some state away
    for _ in 0..=4 * net.lines() as u64 {
        if !sweep(net, assumed, &mut labels, &mut scratch) {
            break;
        }
    }
    if labels.as_slice().contains(&StateSet::EMPTY) {
        Ok(None)
    } else {
        Ok(Some(labels))
    }
}

// The sets with which it starts.
fn started(
    alloc: Global,
    net: &Netlist,
    assumed: &Assumed,
) -> Result<Labels<FourStates>, OutOfMemory> {
    let mut labels = Labels::<FourStates>::full(alloc, net)?;
    if matches!(assumed.rules, Rules::Two) {
        steady_others(net, assumed.source, &mut labels);
    }
    let launched = match assumed.direction {
        Direction::Rise => RISES,
        Direction::Fall => FALLS,
    };
    cut(&mut labels, assumed.source, launched);
    for half in assumed.halves {
        cut(&mut labels, half.split.line, states_of(*half));
    }
    Ok(labels)
}

// Cuts the sets of all sources but this one down to the steady states.
fn steady_others(net: &Netlist, launched: LineId, labels: &mut Labels<FourStates>) {
    for source in 0..net.sources() {
        if source != launched.0 {
            cut(labels, LineId(source), STEADY);
        }
    }
}

/// The states in a half.
pub(crate) fn states_of(half: Half) -> StateSet {
    match (half.split.kind, half.second) {
        (SplitKind::LastValue, false) => ENDS_AT_0,
        (SplitKind::LastValue, true) => ENDS_AT_1,
        (SplitKind::Steadiness, false) => STEADY,
        (SplitKind::Steadiness, true) => MOVES,
        (SplitKind::FirstValue, false) => BEGINS_AT_0,
        (SplitKind::FirstValue, true) => BEGINS_AT_1,
    }
}

// Cuts the set of a line down, if there is such a line.
fn cut(labels: &mut Labels<FourStates>, line: LineId, to: StateSet) {
    if (line.0 as usize) < labels.as_slice().len() {
        labels.cut(line, to);
    }
}

// Narrows at each gate once. Whether a set changed.
fn sweep(
    net: &Netlist,
    assumed: &Assumed,
    labels: &mut Labels<FourStates>,
    scratch: &mut NarrowScratch,
) -> bool {
    let mut changed = false;
    for gate in 0..net.lines() - net.sources() {
        if narrowed(net, assumed, labels, GateId(gate), scratch) {
            changed = true;
        }
    }
    changed
}

// Narrows at a gate. Whether a set changed.
fn narrowed(
    net: &Netlist,
    assumed: &Assumed,
    labels: &mut Labels<FourStates>,
    gate: GateId,
    scratch: &mut NarrowScratch,
) -> bool
    requires { gate.0 < gate_count net.now }
{
    if labels.as_slice().len() != net.lines() as usize {
        return false;
    }
    let condition = condition_at(net, assumed, gate);
    !matches!(
        narrow(net, labels, gate, condition, scratch),
        Narrowed::Same
    )
}

// The condition at a gate, if a step goes through it.
fn condition_at(net: &Netlist, assumed: &Assumed, gate: GateId) -> Option<Condition>
    requires { gate.0 < gate_count net.now }
    ensures { IfSome result (λ condition. condition.pin < length (pins_at net.now gate.0)) }
{
    for step in assumed.steps {
        if step.gate == gate && (step.pin as usize) < net.pins(gate).len() {
            return Some(Condition {
                pin: step.pin,
                kind: assumed.kind,
            });
        }
    }
    None
}
