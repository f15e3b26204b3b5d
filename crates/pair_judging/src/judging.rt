// The judging of the pairs of vectors that have given states at the sources of a cone: one pass over its gates computes the states of
// its lines, up to the first one whose label has not its state. Then the conditions at the steps of the path are read on the states.
// What is told of one finished pair stands in cone_judge.rt.
ghost use Rattle.std.specs.Prelude.{◌≡◌, ◌<◌, ℕ, true, false, length, All, IfSome, IfNone, MatchOption};
ghost use Rattle.pd_base.specs.Links.{IsLink};
ghost use Rattle.netlist.specs.Circuit.{HasGates, line_count};
ghost use Rattle.netlist.specs.Lawful.{IsCircuit};
ghost use Rattle.netlist.specs.Paths.{IsPrefix, end_of};
ghost use Rattle.cones.specs.KeptCones.{IsConeFor, IsConeAt};
ghost use Rattle.pair_judging.specs.ConeStates.{state_in, AreStates, AreLineStates, KeepsSourceStates};
ghost use Rattle.pair_judging.specs.Targets.{seen_target};
ghost use Rattle.pair_judging.specs.Judged.{IsJudgedAt, FailsInCone, AreComputed, RulesOut, LinksPass, IsFailingLink};

use crate::gate_states::gate_state;
use crate::path_states::judge_steps;
use crate::target::Target;
use cones::{Cone, SourceLinks};
use netlist::Netlist;
use pd_base::{GateId, LineId};
use state_sets::{Algebra, State, StateSet};

/// What is found of the pairs that have given states at the sources of a cone.
#[derive(Clone, Copy)]
pub enum Judgement {
    /// They are tests.
    IsTest,
    /// They are none. The line's state shows it: its label rules it out, or a condition at it fails; where a side pin fails, the other
    /// line is the one that the pin reads.
    FailsAt(LineId, Option<LineId>),
}

/// Judges the pairs that have these states at the sources of the support of a path's end, whose cone is at hand. A pair under which the
/// states along a link may not be linked counts as no test, nor does one under which some line there has a state outside its label, so
/// the labels are to be such that no test is lost by them. The states of the lines of the cone are written where the states of its sources stand; up to the line of a failure,
/// they are those under each such pair. Takes no memory.
pub fn judge<A: Algebra>(
    net: &Netlist,
    cone: &Cone,
    labels: &[StateSet],
    target: &Target,
    states: &mut [State],
) -> Judgement
    requires prefix { IsPrefix net.now target.now.path.now }
    requires made { IsConeFor net.now cone.now }
    requires cone { IsConeAt net.now (end_of net.now target.now.path.now) cone.now }
    requires labels { length labels.now ≡ line_count net.now }
    requires states { AreLineStates A.algebra.count net.now states.old }
    ensures kept { KeepsSourceStates A.algebra.count net.now states.old states.new }
    ensures within { FailsInCone net.now cone.now.links (end_of net.now target.now.path.now) result }
    ensures judged { IsJudgedAt A.algebra net.now cone.now.links (seen_target target.now) labels.now states.new result }
{
    if let Some(line) = compute_states::<A>(net, cone.gates(), labels, states) {
        return Judgement::FailsAt(line, None);
    }
    if let Some((source, line)) = failing_link::<A>(cone.links(), cone.sources(), states) {
        return Judgement::FailsAt(source, Some(line));
    }
    judge_steps::<A>(net, target, states)
}

// Computes the states of the lines of these gates, one after another, up to the first one that its label has not.
fn compute_states<A: Algebra>(
    net: &Netlist,
    gates: &[GateId],
    labels: &[StateSet],
    states: &mut [State],
) -> Option<LineId>
    requires gates { HasGates net.now gates.now }
    requires labels { length labels.now ≡ line_count net.now }
    requires states { AreLineStates A.algebra.count net.now states.old }
    ensures kept { KeepsSourceStates A.algebra.count net.now states.old states.new }
    ensures circuit { IsCircuit net.now }
    ensures computed { IfNone result (AreComputed A.algebra net.now gates.now states.old states.new) }
    ensures failed { IfSome result (λ line. RulesOut A.algebra net.now gates.now labels.now states.old line.0) }
{
    // A netlist knows itself as a circuit.
    let one_each = states.len() == net.lines() as usize;
    prove!(one_each);
    for gate in gates {
        let line = net.line_of(*gate);
        let at = line.0 as usize;
        let state = gate_state::<A>(net.kind(*gate), net.pins(*gate), states);
        states[at] = state;
        if !labels[at].holds(state) {
            return Some(line);
        }
    }
    None
}

/// The first of these sources whose state and that of the line to which it is linked may not be linked, and that line. Takes no memory, and
/// where there are no links no time.
pub fn failing_link<A: Algebra>(
    links: &SourceLinks,
    sources: &[LineId],
    states: &[State],
) -> Option<(LineId, LineId)>
    requires sources { All (λ source. source.0 < length states.now) sources.now }
    requires lines { All (λ link. link.1.0 < length states.now) links.now }
    requires states { AreStates A.algebra.count states.now }
    ensures { MatchOption result (LinksPass A.algebra links.now sources.now states.now)
        (λ link. IsFailingLink A.algebra links.now sources.now states.now link.0 link.1) }
{
    if links.pairs().is_empty() {
        return None;
    }
    for source in sources {
        if let Some(line) = failing_line::<A>(links, *source, states) {
            return Some((*source, line));
        }
    }
    None
}

// The line to which a source is linked, if its state and that of the source may not be linked.
fn failing_line<A: Algebra>(links: &SourceLinks, source: LineId, states: &[State]) -> Option<LineId>
    requires source { source.0 < length states.now }
    requires lines { All (λ link. link.1.0 < length states.now) links.now }
    requires states { AreStates A.algebra.count states.now }
    ensures fails { IfSome result (λ line. IsLink links.now source.0 line.0
        × (A.algebra.link (state_in states.now source.0) (state_in states.now line.0) ≡ false)) }
    ensures passes { IfNone result ((line : ℕ) → IsLink links.now source.0 line
        → A.algebra.link (state_in states.now source.0) (state_in states.now line) ≡ true) }
{
    let Some(line) = links.line_of(source) else {
        return None;
    };
    if A::link(states[source.0 as usize], states[line.0 as usize]) {
        None
    } else {
        Some(line)
    }
}

/// Computes the states of the lines of these gates, one after another. Takes no memory.
pub(crate) fn compute_all<A: Algebra>(net: &Netlist, gates: &[GateId], states: &mut [State])
    requires gates { HasGates net.now gates.now }
    requires states { AreLineStates A.algebra.count net.now states.old }
    ensures states { AreLineStates A.algebra.count net.now states.new }
    ensures circuit { IsCircuit net.now }
    ensures computed { AreComputed A.algebra net.now gates.now states.old states.new }
{
    // A netlist knows itself as a circuit.
    let one_each = states.len() == net.lines() as usize;
    prove!(one_each);
    for gate in gates {
        let line = net.line_of(*gate);
        let state = gate_state::<A>(net.kind(*gate), net.pins(*gate), states);
        states[line.0 as usize] = state;
    }
}
