// By which sources a trial failed. A failure rests on the states of a line or two; the state of a gate's line rests on that of one pin, if
// this decides it alone, and else on those of all its pins; and so on back to sources. These are mostly few of a cone's, and each
// pair that has their states fails.
ghost use Rattle.std.specs.Prelude.{◌≡◌, ◌<◌, ◌↔◌, ℕ, length, All, IfSome, IsTrue, Contains};
ghost use Rattle.netlist.specs.Circuit.{line_count};
ghost use Rattle.netlist.specs.Paths.{end_of};
ghost use Rattle.cones.specs.KeptCones.{IsConeFor, IsConeAt};
ghost use Rattle.pair_judging.specs.ConeStates.{AreStates};
ghost use Rattle.pair_judging.specs.Targets.{seen_target};
ghost use Rattle.refutation_check.specs.Blames.{Absorbs, IsDeciding, IsFailure, IsBlamed, TracesMore};
ghost use Rattle.refutation_check.specs.TrialStates.{AreTrialStates};

use crate::trial_states::TrialStates;
use cones::{Cone, FoundLines};
use netlist::{Netlist, Op};
use pair_judging::Target;
use pd_base::LineId;
use state_sets::{Algebra, State, count_states};

// Two lines, which may be one, by whose states a pair fails.
#[derive(Clone, Copy)]
pub(crate) struct Failure {
    pub(crate) first: LineId,
    pub(crate) second: LineId,
}

// Finds the lines of a cone on whose states a failure rests, back to the sources. False tells nothing: one of them is no line of the
// cone, or the line of a gate that has to be evaluated first. This costs what is found.
pub(crate) fn traces<A: Algebra>(
    net: &Netlist,
    target: &Target,
    cone: &Cone,
    kept: &TrialStates,
    failure: Failure,
    blamed: &mut FoundLines,
) -> bool
    requires made { IsConeFor net.now cone.now }
    requires cone { IsConeAt net.now (end_of net.now target.now.path.now) cone.now }
    requires kept { AreTrialStates A.algebra net.now kept.now }
    requires failure { IsFailure A.algebra net.now cone.now.links (seen_target target.now) kept.now.states.items failure }
    requires room { blamed.old.room ≡ line_count net.now }
    ensures room { blamed.new.room ≡ blamed.old.room }
    ensures blamed { IsTrue result
        → IsBlamed A.algebra net.now cone.now.links (seen_target target.now) kept.now.states.items blamed.new.lines }
{
    // a netlist knows itself as a circuit
    let _ = net.lines();
    blamed.clear();
    blamed.add(failure.first);
    blamed.add(failure.second);
    let mut place = 0;
    while place < blamed.lines().len() {
        let line = blamed.lines()[place];
        if !cone.marks()[line.0 as usize] || !trace_line::<A>(net, kept, line, blamed) {
            return false;
        }
        place += 1;
    }
    true
}

// Finds the lines that a line's gate reads on whose states that of the line rests. False tells nothing: the gate has to be evaluated first.
fn trace_line<A: Algebra>(
    net: &Netlist,
    kept: &TrialStates,
    line: LineId,
    blamed: &mut FoundLines,
) -> bool
    requires kept { AreTrialStates A.algebra net.now kept.now }
    requires line { line.0 < line_count net.now }
    requires room { blamed.old.room ≡ line_count net.now }
    ensures room { blamed.new.room ≡ blamed.old.room }
    ensures traces { IsTrue result → TracesMore A.algebra net.now kept.now.states.items line.0 blamed.old blamed.new }
{
    // a netlist knows itself as a circuit
    let _ = net.lines();
    let Some(gate) = net.gate_of(line) else {
        return true;
    };
    if kept.stale[gate.0 as usize] {
        return false;
    }
    let pins = net.pins(gate);
    match deciding_pin::<A>(net.kind(gate).operation(), pins, kept.states.as_slice()) {
        Some(pin) => blamed.add(pin),
        None => blamed.add_all(pins),
    }
    true
}

// A pin whose state decides alone what an operation makes of the states of these pins, if there is one.
fn deciding_pin<A: Algebra>(op: Op, pins: &[LineId], states: &[State]) -> Option<LineId>
    requires pins { All (λ pin. pin.0 < length states.now) pins.now }
    requires states { AreStates A.algebra.count states.now }
    ensures { IfSome result (IsDeciding A.algebra op states.now pins.now) }
{
    for pin in pins {
        if absorbs::<A>(op, states[pin.0 as usize]) {
            return Some(*pin);
        }
    }
    None
}

// Whether an operation makes this state of it and each other one.
fn absorbs<A: Algebra>(op: Op, state: State) -> bool
    requires { state.0 < A.algebra.count }
    ensures { IsTrue result → Absorbs A.algebra op state }
{
    for other in 0..count_states::<A>() {
        if A::join(op, state, State(other)) != state {
            return false;
        }
    }
    true
}

// Puts the blame on all sources of a cone.
pub(crate) fn blame_sources(net: &Netlist, cone: &Cone, blamed: &mut FoundLines)
    requires room { blamed.old.room ≡ line_count net.now }
    requires sources { All (λ source. source.0 < line_count net.now) cone.now.sources }
    ensures room { blamed.new.room ≡ blamed.old.room }
    ensures sources { (source : ℕ) → Contains blamed.new.lines (record { 0 = source }) ↔ Contains cone.now.sources (record { 0 = source }) }
{
    blamed.clear();
    blamed.add_all(cone.sources());
}
