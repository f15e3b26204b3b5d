// Whether states of the lines meet the conditions of a test for a path: the transition at its source, and at each step the table of
// conditions, read on the states.
ghost use Rattle.std.specs.Prelude.{◌<◌, ◌↔◌, length, All, IsTrue, MatchOption};
ghost use Rattle.pd_base.specs.Links.{LinkList};
ghost use Rattle.netlist.specs.Conditions.{Allows};
ghost use Rattle.netlist.specs.Paths.{IsPrefix, end_of};
ghost use Rattle.state_sets.specs.Starts.{IsLaunching};
ghost use Rattle.pair_judging.specs.ConeStates.{AreStates, AreLineStates};
ghost use Rattle.pair_judging.specs.Targets.{seen_target};
ghost use Rattle.pair_judging.specs.Judged.{IsJudgedBy, FailsInCone, StatesPass, IsFailingSide};

use crate::judging::Judgement;
use crate::target::Target;
use netlist::{Netlist, SideCondition, final_bit, side_condition};
use pd_base::{Direction, LineId};
use state_sets::{Algebra, State};

/// Judges the pairs under which the lines in the fan-in of a path's end are in these states. Takes no memory.
pub fn judge_steps<A: Algebra>(net: &Netlist, target: &Target, states: &[State]) -> Judgement
    requires prefix { IsPrefix net.now target.now.path.now }
    requires states { AreLineStates A.algebra.count net.now states.now }
    ensures within { (links : LinkList) → FailsInCone net.now links (end_of net.now target.now.path.now) result }
    ensures judged { IsJudgedBy A.algebra net.now (seen_target target.now) states.now result }
{
    let Target {
        path,
        direction,
        kind,
    } = *target;
    // A prefix begins at a source. What the states show is shown of a circuit, as which a netlist knows itself.
    let at_source = path.source().0 < net.lines();
    prove!(at_source);
    if !launches::<A>(states[path.source().0 as usize], direction) {
        return Judgement::FailsAt(path.source(), None);
    }
    let mut line = path.source();
    for step in path.steps() {
        let last = A::last(states[line.0 as usize]);
        let condition = side_condition(kind, net.kind(step.gate), last);
        if let Some(side) = failing_side::<A>(condition, net.pins(step.gate), step.pin, states) {
            return Judgement::FailsAt(line, Some(side));
        }
        line = net.line_of(step.gate);
    }
    Judgement::IsTest
}

// Whether a source in this state launches the transition.
fn launches<A: Algebra>(state: State, direction: Direction) -> bool
    requires { state.0 < A.algebra.count }
    ensures { IsTrue result ↔ IsLaunching A.algebra direction state }
{
    !A::is_steady(state) && A::last(state) == final_bit(direction)
}

// The line of the first pin of a gate, but the on-path one, that is not as is asked of the side pins.
fn failing_side<A: Algebra>(
    condition: SideCondition,
    pins: &[LineId],
    on_path: u32,
    states: &[State],
) -> Option<LineId>
    requires pins { All (λ pin. pin.0 < length states.now) pins.now }
    requires states { AreStates A.algebra.count states.now }
    ensures { MatchOption result (StatesPass A.algebra condition states.now on_path pins.now)
        (λ side. IsFailingSide A.algebra condition states.now on_path pins.now side) }
{
    for (pin, side) in pins.iter().enumerate() {
        let state = states[side.0 as usize];
        if pin != on_path as usize && !passes::<A>(condition, state) {
            return Some(*side);
        }
    }
    None
}

// Whether a condition allows a side pin in this state.
fn passes<A: Algebra>(condition: SideCondition, state: State) -> bool
    requires { state.0 < A.algebra.count }
    ensures { IsTrue result ↔ Allows condition (A.algebra.last state) (A.algebra.steady state) }
{
    condition.allows(A::last(state), A::is_steady(state))
}
