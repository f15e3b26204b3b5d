// The steps of a prefix, kept so that the condition at a gate is one look.
ghost use Rattle.std.specs.Prelude.{◌≡◌, ◌≢◌, ◌+◌, ◌-◌, ◌<◌, ◌++◌, ◌∷◌, ◌↔◌, [], None, length, take, IfOk, IsTrue};
ghost use Rattle.netlist.specs.declared.limits.TheConstants.{MOST_FAN_IN};
ghost use Rattle.netlist.specs.Circuit.{gate_count};
ghost use Rattle.netlist.specs.Lawful.{IsCircuit};
ghost use Rattle.netlist.specs.Levels.{greatest_level};
ghost use Rattle.state_sets.specs.Hulls.{condition_at};
ghost use Rattle.hulls.specs.Marks.{marked_condition};

use netlist::Netlist;
use pd_base::{GateId, Kind, OutOfMemory, PinRef};
use state_sets::Condition;
use std::alloc::Global;
use std::marker::Model;

/// The conditions under which the gates of a netlist are narrowed: those of a kind of tests at the gates of some steps, in the
/// order in which the steps were entered, no two through one gate.
///
/// Contracts see the kind, the number of gates, the most steps that there is room for, and the steps.
#[derive(Drop)]
pub struct Conditions {
    kind: Kind,
    // By gate one more than the pin of the step through it, or 0.
    marks: Vec<u16>,
    room: u32,
    steps: Vec<PinRef>,
}

impl Model for Conditions {
    ghost use Rattle.std.specs.Prelude.{length, vec_capacity};
    ghost use Rattle.hulls.specs.Conditions.{Entered, IsMarked};

    ghost Value = { Entered };

    ghost view = { λ c. record { kind = c.kind; gates = length c.marks.items; room = c.room; steps = c.steps.items } };

    ghost invariant = { λ c. IsMarked c.marks.items c.room (vec_capacity c.steps) c.steps.items };
}

impl Conditions {
    /// No steps yet, with room for as many as the netlist has levels. It fails only where memory runs out.
    pub fn new(alloc: Global, net: &Netlist, kind: Kind) -> Result<Conditions, OutOfMemory>
        ensures empty { IfOk result (λ c. c ≡ record { kind = kind; gates = gate_count net.now; room = greatest_level net.now; steps = [] }) }
        ensures circuit { IsCircuit net.now }
    {
        let gates = net.lines() - net.sources();
        let marks = vec![in alloc; 0u16; gates as usize]?;
        let room = net.levels();
        let steps = Vec::with_capacity(alloc, room as usize)?;
        Ok(Conditions {
            kind,
            marks,
            room,
            steps,
        })
    }

    /// The kind of the tests.
    pub fn kind(&self) -> Kind
        ensures { result ≡ self.now.kind }
    {
        self.kind
    }

    /// From now on the conditions are those of this kind, at the same steps.
    pub fn set_kind(&mut self, kind: Kind)
        ensures { self.new ≡ record self.old { kind = kind } }
    {
        self.kind = kind;
    }

    /// The steps, from the first on.
    pub fn steps(&self) -> &[PinRef]
        ensures { result.now ≡ self.now.steps }
    {
        self.steps.as_slice()
    }

    /// The condition at a gate, if a step goes through it.
    pub fn at(&self, gate: GateId) -> Option<Condition>
        requires { gate.0 < self.now.gates }
        ensures { result ≡ condition_at self.now.kind self.now.steps gate.0 }
    {
        condition_of(self.kind, self.marks[gate.0 as usize])
    }

    /// Whether there is a condition at a gate.
    pub(crate) fn has_condition(&self, gate: GateId) -> bool
        requires { gate.0 < self.now.gates }
        ensures { IsTrue result ↔ (condition_at self.now.kind self.now.steps gate.0 ≢ None) }
    {
        self.marks[gate.0 as usize] != 0
    }

    /// Adds a step behind the others, through a gate that none of them goes through. Takes no memory.
    pub fn enter(&mut self, step: PinRef)
        requires gate { step.gate.0 < self.old.gates }
        requires pin { step.pin < MOST_FAN_IN }
        requires first { condition_at self.old.kind self.old.steps step.gate.0 ≡ None }
        requires room { length self.old.steps < self.old.room }
        ensures { self.new ≡ record self.old { steps = self.old.steps ++ step ∷ [] } }
    {
        self.marks[step.gate.0 as usize] = step.pin as u16 + 1;
        self.steps.push_reserved(step);
    }

    /// Drops the last step, if there is one. Takes no memory.
    pub fn leave(&mut self)
        ensures { self.new ≡ record self.old { steps = take (length self.old.steps - 1) self.old.steps } }
    {
        if let Some(step) = self.steps.pop() {
            self.marks[step.gate.0 as usize] = 0;
        }
    }
}

// The condition of a gate with this mark.
fn condition_of(kind: Kind, mark: u16) -> Option<Condition>
    ensures { result ≡ marked_condition kind mark }
{
    if mark == 0 {
        return None;
    }
    Some(Condition {
        pin: mark as u32 - 1,
        kind,
    })
}
