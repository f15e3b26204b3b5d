// A pair of linked rules from states of sources: the first value of each is that of its state, and so is the last one of a source without
// a link; a linked source ends at the value that its line has under the first vector.
ghost use Rattle.std.specs.Prelude.{◌≡◌, ◌<◌, length, All, IfOk, IfSome};
ghost use Rattle.netlist.specs.Circuit.{gate_count, line_count, HasLines};
ghost use Rattle.search_hints.specs.Drafts.{IsSizedFor};

use crate::decisions::Decisions;
use crate::first_values::{FirstValues, lasts_of};
use crate::link_ends::LinkEnds;
use crate::open_lines::join_all;
use crate::picking::{Sight, uninverted};
use netlist::{Netlist, Op};
use pd_base::{GateId, LineId, OutOfMemory};
use state_sets::{Algebra, State, StateSet, count_states};
use std::alloc::Global;
use std::marker::Model;

// The pair that is completed: the values of the lines under its first vector, and their states in the second frame, of which as much is
// computed anew as comes of others at sources. Contracts see for how many lines there is room.
#[derive(Drop)]
pub(crate) struct Completed {
    // by line
    values: Vec<bool>,
    // by gate, whether a line that it reads has changed its value since its own one was computed
    is_due: Vec<bool>,
    // by line
    states: Vec<StateSet>,
    // by gate, whether a line that it reads has changed its state since its own one was computed
    is_state_due: Vec<bool>,
}

impl Model for Completed {
    ghost use Rattle.std.specs.Prelude.{◌≡◌, ℕ, length};

    ghost Value = { ℕ };

    ghost view = { λ c. length c.values.items };

    ghost invariant = { λ c. length c.states.items ≡ length c.values.items };
}

impl Completed {
    // Nothing is computed yet.
    pub(crate) fn new(alloc: Global, net: &Netlist) -> Result<Completed, OutOfMemory>
        ensures { IfOk result (λ completed. completed ≡ line_count net.now) }
    {
        let is_due = vec![in alloc; true; net.gates() as usize]?;
        let is_state_due = vec![in alloc; true; net.gates() as usize]?;
        let values = vec![in alloc; false; net.lines() as usize]?;
        let states = vec![in alloc; StateSet::EMPTY; net.lines() as usize]?;
        Ok(Completed {
            values,
            is_due,
            states,
            is_state_due,
        })
    }

    // The values under the first vector, by line number.
    pub(crate) fn values(&self) -> &[bool]
        ensures { length result.now ≡ self.now }
    {
        self.values.as_slice()
    }

    // Puts each of these sources to the first value of the least state of its label.
    pub(crate) fn take(
        &mut self,
        net: &Netlist,
        sources: &[LineId],
        labels: &[StateSet],
        first_values: FirstValues,
    )
        requires of { self.old ≡ line_count net.now }
        requires sources { HasLines net.now sources.now }
        requires labels { length labels.now ≡ line_count net.now }
        ensures { self.new ≡ self.old }
    {
        for source in sources {
            let value = first_values.is_least_at_one(labels[source.0 as usize]);
            self.put(net, *source, value);
        }
    }

    // Gives a line a value, and lets the gates that read it be computed anew if that is another one.
    fn put(&mut self, net: &Netlist, line: LineId, value: bool)
        requires of { self.old ≡ line_count net.now }
        requires line { line.0 < line_count net.now }
        ensures { self.new ≡ self.old }
    {
        let at = line.0 as usize;
        if self.values[at] != value {
            self.values[at] = value;
            let due = self.is_due.as_mut_slice();
            for reader in net.fanout(line) {
                ask(due, reader.gate);
            }
        }
    }

    // Computes the values of the lines of these gates, one after another, as far as they are due.
    pub(crate) fn compute(&mut self, net: &Netlist, gates: &[GateId])
        requires { self.old ≡ line_count net.now }
        ensures { self.new ≡ self.old }
    {
        for gate in gates {
            let at = gate.0 as usize;
            if gate.0 < net.gates() && at < self.is_due.len() && self.is_due[at] {
                self.is_due[at] = false;
                let value = value_at(net, *gate, self.values.as_slice());
                self.put(net, net.line_of(*gate), value);
            }
        }
    }

    // Gives a line a state, and lets the gates that read it be computed anew if that is another one.
    fn put_state(&mut self, net: &Netlist, line: LineId, state: StateSet)
        requires of { self.old ≡ line_count net.now }
        requires line { line.0 < line_count net.now }
        ensures { self.new ≡ self.old }
    {
        let at = line.0 as usize;
        if self.states[at] != state {
            self.states[at] = state;
            let due = self.is_state_due.as_mut_slice();
            for reader in net.fanout(line) {
                ask(due, reader.gate);
            }
        }
    }

    // Computes the state of a gate's line, if it is due, and gives it.
    fn compute_state<A: Algebra>(&mut self, net: &Netlist, gate: GateId) -> StateSet
        requires of { self.old ≡ line_count net.now }
        requires gate { gate.0 < gate_count net.now }
        ensures { self.new ≡ self.old }
    {
        let line = net.line_of(gate);
        let at = gate.0 as usize;
        if at < self.is_state_due.len() && self.is_state_due[at] {
            self.is_state_due[at] = false;
            let kind = net.kind(gate);
            let joined = join_all::<A>(self.states.as_slice(), kind.operation(), net.pins(gate));
            self.put_state(net, line, uninverted::<A>(kind, joined));
        }
        self.states[line.0 as usize]
    }

    // Writes at each of these sources the state that it has in the pair: of a linked one that which begins at its value and ends at that of
    // its line, of another one the least of its label. Whether each of them is in the label that it is seen with.
    pub(crate) fn complete_sources<A: Algebra>(
        &mut self,
        decisions: &mut Decisions,
        links: &LinkEnds,
        sight: &Sight,
        sources: &[LineId],
    ) -> bool
        requires of { self.old ≡ line_count sight.now.net.now }
        requires sizes { IsSizedFor sight.now.net.now decisions.old }
        requires sources { HasLines sight.now.net.now sources.now }
        ensures same { self.new ≡ self.old }
        ensures decisions { decisions.new ≡ decisions.old }
    {
        for source in sources {
            let at = source.0 as usize;
            let state = match linked_state::<A>(links, self.values.as_slice(), *source) {
                Some(state) => StateSet::only(state),
                None => least_of(decisions.labels()[at]),
            };
            decisions.write(*source, state);
            self.put_state(sight.net, *source, state);
            if state.intersect(sight.labels[at]) == StateSet::EMPTY {
                return false;
            }
        }
        true
    }

    // Writes at the lines of these gates, one after another, what the gates make of the states at their pins. Whether each of them has
    // something of the label that it is seen with.
    pub(crate) fn complete_gates<A: Algebra>(
        &mut self,
        decisions: &mut Decisions,
        sight: &Sight,
        gates: &[GateId],
    ) -> bool
        requires of { self.old ≡ line_count sight.now.net.now }
        requires sizes { IsSizedFor sight.now.net.now decisions.old }
        ensures same { self.new ≡ self.old }
        ensures decisions { decisions.new ≡ decisions.old }
    {
        for gate in gates {
            if gate.0 < sight.net.gates() {
                let line = sight.net.line_of(*gate);
                let made = self.compute_state::<A>(sight.net, *gate);
                decisions.write(line, made);
                if made.intersect(sight.labels[line.0 as usize]) == StateSet::EMPTY {
                    return false;
                }
            }
        }
        true
    }
}

// Lets a gate be computed anew.
fn ask(is_due: &mut [bool], gate: GateId)
    ensures { length is_due.new ≡ length is_due.old }
{
    let at = gate.0 as usize;
    if at < is_due.len() {
        is_due[at] = true;
    }
}

// The value that a gate makes of these values of lines, under one vector.
fn value_at(net: &Netlist, gate: GateId, values: &[bool]) -> bool
    requires gate { gate.0 < gate_count net.now }
    requires values { length values.now ≡ line_count net.now }
{
    let kind = net.kind(gate);
    let joined = join_values(kind.operation(), net.pins(gate), values);
    joined != kind.inverts()
}

// What an operation makes of the values of these lines.
fn join_values(op: Op, lines: &[LineId], values: &[bool]) -> bool
    requires { All (λ line. line.0 < length values.now) lines.now }
{
    if let [first, second] = lines {
        let first = values[first.0 as usize];
        let second = values[second.0 as usize];
        return match op {
            Op::And => first && second,
            Op::Or => first || second,
            Op::Xor => first != second,
        };
    }
    match op {
        Op::And => lines.iter().all(|line| values[line.0 as usize]),
        Op::Or => lines.iter().any(|line| values[line.0 as usize]),
        Op::Xor => is_odd(lines, values),
    }
}

// Whether an odd number of these lines is 1.
fn is_odd(lines: &[LineId], values: &[bool]) -> bool
    requires { All (λ line. line.0 < length values.now) lines.now }
{
    let mut odd = false;
    for line in lines {
        odd ^= values[line.0 as usize];
    }
    odd
}

// The least state of a set, as a set.
fn least_of(set: StateSet) -> StateSet {
    StateSet(set.0 & set.0.wrapping_neg())
}

// From now on these lines are liked to begin at these values.
pub(crate) fn like_firsts(
    lines: &[LineId],
    firsts: &[bool],
    values: FirstValues,
    liked: &mut [StateSet],
)
    ensures { length liked.new ≡ length liked.old }
{
    for line in lines {
        let at = line.0 as usize;
        if at < firsts.len() && at < liked.len() {
            liked[at] = values.at(firsts[at]);
        }
    }
}

// From now on these lines are liked to have the first and the last value of their labels, each of which has one state.
pub(crate) fn like_states<A: Algebra>(
    lines: &[LineId],
    labels: &[StateSet],
    values: FirstValues,
    liked: &mut [StateSet],
)
    ensures { length liked.new ≡ length liked.old }
{
    for line in lines {
        let at = line.0 as usize;
        if at < labels.len() && at < liked.len() {
            liked[at] = lasts_of::<A>(labels[at]).intersect(values.spread(labels[at]));
        }
    }
}

// The state of a linked source that begins at its value and ends at that of its line.
fn linked_state<A: Algebra>(links: &LinkEnds, firsts: &[bool], source: LineId) -> Option<State>
    ensures { IfSome result (λ state. state.0 < 8) }
{
    let line = links.line_of(source)?;
    let from = source.0 as usize;
    let to = line.0 as usize;
    if from >= firsts.len() || to >= firsts.len() {
        return None;
    }
    let first = firsts[from];
    let last = firsts[to];
    let state = A::of(first == last, first, last);
    if state.0 < count_states::<A>() {
        Some(state)
    } else {
        None
    }
}
