// States of all lines that are kept from trial to trial: where the states of some sources change, only the gates behind these are
// evaluated anew, each once, in rank order. What the states tell of a node stands in trial.rt.
ghost use Rattle.std.specs.Prelude.{◌≡◌, ◌≢◌, ◌<◌, ◌≤◌, ℕ, true, false, length, take, All, IfOk};
ghost use Rattle.pd_base.specs.Links.{LinkList};
ghost use Rattle.pd_base.specs.declared.ids.PinRef.{PinRef};
ghost use Rattle.netlist.specs.Circuit.{source_count, gate_count, line_count, gate_line, pins_at};
ghost use Rattle.cones.specs.KeptCones.{AreConeGates};
ghost use Rattle.pair_judging.specs.Taken.{AreLeast};
ghost use Rattle.refutation_check.specs.TrialStates.{is_stale, AreTrialStates, AreRoomFor, IsPutAt, IsStaleOrMade, AreStaleAsRead, KeepsSources};

use netlist::Netlist;
use pair_judging::{gate_state, least};
use pd_base::{GateId, LineId, OutOfMemory, PinRef};
use state_sets::{Algebra, State, StateSet};
use std::alloc::Global;

// A state for each line, and for each gate whether its line is stale: its state may be another one than the gate makes of those of its
// pins.
#[derive(Drop)]
pub(crate) struct TrialStates {
    pub(crate) states: Vec<State>,
    pub(crate) stale: Vec<bool>,
}

impl TrialStates {
    // The lines of all gates are stale. It fails only where memory runs out.
    pub(crate) fn new<A: Algebra>(alloc: Global, net: &Netlist) -> Result<TrialStates, OutOfMemory>
        ensures { IfOk result (AreTrialStates A.algebra net.now) }
    {
        let states = vec![in alloc; State(0); net.lines() as usize]?;
        let stale = vec![in alloc; true; net.gates() as usize]?;
        Ok(TrialStates { states, stale })
    }

    // Puts each of these sources into the least state of its label.
    pub(crate) fn take_least<A: Algebra>(
        &mut self,
        net: &Netlist,
        sources: &[LineId],
        labels: &[StateSet],
    )
        requires kept { AreTrialStates A.algebra net.now self.old }
        requires sources { All (λ source. source.0 < source_count net.now) sources.now }
        requires labels { length labels.now ≡ line_count net.now }
        ensures kept { AreTrialStates A.algebra net.now self.new }
        ensures least { AreLeast A.algebra.count sources.now labels.now self.new.states.items }
    {
        // a netlist knows itself as a circuit
        let _ = net.lines();
        for source in sources {
            let state = least::<A>(labels[source.0 as usize]);
            self.put::<A>(net, *source, state);
        }
    }

    // Evaluates of the first gates of a cone, so many in rank order, those whose lines are stale.
    pub(crate) fn refresh<A: Algebra>(&mut self, net: &Netlist, gates: &[GateId], count: usize)
        requires kept { AreTrialStates A.algebra net.now self.old }
        requires gates { (links : LinkList) × (end : ℕ) × AreConeGates net.now links end gates.now }
        requires count { count ≤ length gates.now }
        ensures kept { AreTrialStates A.algebra net.now self.new }
        ensures fresh { All (λ gate. is_stale self.new gate.0 ≡ false) (take count gates.now) }
        ensures sources { KeepsSources net.now self.old self.new }
    {
        // a netlist knows itself as a circuit
        let _ = net.lines();
        for place in 0..count {
            self.refresh_gate::<A>(net, gates[place]);
        }
    }

    // Evaluates a gate, if its line is stale.
    fn refresh_gate<A: Algebra>(&mut self, net: &Netlist, gate: GateId)
        requires kept { AreTrialStates A.algebra net.now self.old }
        requires gate { gate.0 < gate_count net.now }
        requires others { All (λ pin. pin.0 ≢ gate_line net.now gate.0) (pins_at net.now gate.0) }
        ensures kept { AreTrialStates A.algebra net.now self.new }
        ensures fresh { is_stale self.new gate.0 ≡ false }
        ensures stay { (other : ℕ) → is_stale self.old other ≡ false
            → All (λ pin. pin.0 ≢ gate_line net.now gate.0) (pins_at net.now other) → is_stale self.new other ≡ false }
        ensures sources { KeepsSources net.now self.old self.new }
    {
        if !self.stale[gate.0 as usize] {
            return;
        }
        let state = gate_state::<A>(net.kind(gate), net.pins(gate), self.states.as_slice());
        self.stale[gate.0 as usize] = false;
        self.put::<A>(net, net.line_of(gate), state);
    }

    // Puts a line into a state. Where it was in another one, the lines of the gates that read it are stale.
    fn put<A: Algebra>(&mut self, net: &Netlist, line: LineId, state: State)
        requires room { AreRoomFor A.algebra.count net.now self.old }
        requires line { line.0 < line_count net.now }
        requires state { state.0 < A.algebra.count }
        ensures room { AreRoomFor A.algebra.count net.now self.new }
        ensures written { IsPutAt line.0 state self.old.states.items self.new.states.items }
        ensures made { (gate : ℕ) → gate < gate_count net.now → gate_line net.now gate ≢ line.0
            → IsStaleOrMade A.algebra net.now self.old gate → IsStaleOrMade A.algebra net.now self.new gate }
        ensures fresh { (gate : ℕ) → is_stale self.old gate ≡ false → All (λ pin. pin.0 ≢ line.0) (pins_at net.now gate)
            → is_stale self.new gate ≡ false }
    {
        let at = line.0 as usize;
        if self.states[at] == state {
            return;
        }
        self.states[at] = state;
        make_stale(net.fanout(line), self.stale.as_mut_slice());
    }
}

// Makes the lines of the gates of these pins stale.
fn make_stale(pins: &[PinRef], stale: &mut [bool])
    requires { All (λ pin. pin.gate.0 < length stale.old) pins.now }
    ensures { AreStaleAsRead pins.now stale.old stale.new }
{
    for pin in pins {
        stale[pin.gate.0 as usize] = true;
    }
}
