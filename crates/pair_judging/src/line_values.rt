// Two-valued simulation of one vector after another, by selective trace: from one vector to the next a gate is evaluated only if a line
// that it reads changed. It is stale until then. Gates are marked as stale by their places in rank order, so that those that are fresh are
// passed over by runs.
ghost use Rattle.std.specs.Prelude.{◌≡◌, ◌≢◌, ◌<◌, ◌≤◌, ℕ, false, map, length, IfOk};
ghost use Rattle.netlist.specs.Circuit.{source_count, line_count, gate_line};
ghost use Rattle.netlist.specs.Lawful.{IsFanIn};
ghost use Rattle.netlist.specs.Values.{bit_of, gate_value, parity, value};
ghost use Rattle.logic_values.specs.Known.{bit_at, HasPlaces};
ghost use Rattle.pair_judging.specs.LineValues.{value_made, AreFresh, AreLineValues, IsNextStale, MakesReadersStale};
ghost use Rattle.pair_judging.specs.RankedGates.{gate_ranked, AreRankedGates};

use crate::ranked_gates::RankedGates;
use netlist::{GateKind, Netlist, Op};
use pd_base::{LineId, OutOfMemory};
use std::alloc::Global;
use std::marker::Model;

// So many marks are compared together: vector code does so at a small part of the cost of each by itself.
const RUN: usize = 64;

/// A value for each line of a netlist: that under the vector that was set last.
#[derive(Drop)]
pub(crate) struct LineValues {
    // by line
    values: Vec<bool>,
    gates: RankedGates,
    // by place of a gate, whether a line that it reads changed since its own was evaluated
    stale: Vec<bool>,
}

impl Model for LineValues {
    ghost use Rattle.pair_judging.specs.LineValues.{KeptValues};

    ghost Value = { KeptValues };

    ghost view = { λ v. record { values = v.values.items; gates = v.gates; stale = v.stale.items } };
}

impl LineValues {
    /// Values for this netlist, under no vector yet. The one error is that memory ran out.
    pub(crate) fn new(alloc: Global, net: &Netlist) -> Result<LineValues, OutOfMemory>
        ensures { IfOk result (AreLineValues net.now) }
    {
        let values = vec![in alloc; false; net.lines() as usize]?;
        let gates = RankedGates::new(alloc, net)?;
        let stale = vec![in alloc; true; gates.order().len()]?;
        Ok(LineValues {
            values,
            gates,
            stale,
        })
    }

    /// Puts all lines to their values under a vector, which has one bit per source in the order of the sources. Takes no memory.
    pub(crate) fn set(&mut self, net: &Netlist, vector: &[bool])
        requires kept { AreLineValues net.now self.old }
        requires bits { length vector.now ≡ source_count net.now }
        ensures kept { AreLineValues net.now self.new }
        ensures values { (line : ℕ) → line < line_count net.now → bit_at self.new.values line ≡ value net.now vector.now line }
    {
        let LineValues {
            values,
            gates,
            stale,
        } = self;
        update(
            net,
            vector,
            gates,
            values.as_mut_slice(),
            stale.as_mut_slice(),
        );
    }

    /// The values, by line number.
    pub(crate) fn values(&self) -> &[bool]
        ensures { result.now ≡ self.now.values }
    {
        self.values.as_slice()
    }
}

// Puts the sources to their bits, and then each stale gate's line to its value, in rank order: the lines that it reads have theirs.
fn update(
    net: &Netlist,
    vector: &[bool],
    gates: &RankedGates,
    values: &mut [bool],
    stale: &mut [bool],
)
    requires kept { AreLineValues net.now (record { values = values.old; gates = gates.now; stale = stale.old }) }
    requires bits { length vector.now ≡ source_count net.now }
    ensures kept { AreLineValues net.now (record { values = values.new; gates = gates.now; stale = stale.new }) }
    ensures values { (line : ℕ) → line < line_count net.now → bit_at values.new line ≡ value net.now vector.now line }
{
    // A netlist knows itself as a circuit.
    let _ = net.lines();
    set_sources(net, vector, gates, values, stale);
    let mut place = next_stale(stale, 0);
    while place < stale.len() {
        evaluate_at(net, gates, place, values, stale);
        place = next_stale(stale, place + 1);
    }
}

// The place of the first stale gate from a place on, or the number of gates if none is stale.
fn next_stale(stale: &[bool], from: usize) -> usize
    requires { from ≤ length stale.now }
    ensures { IsNextStale stale.now from result }
{
    let mut place = skip_runs(stale, from);
    while place < stale.len() && !stale[place] {
        place += 1;
    }
    place
}

// Passes over runs of fresh gates from a place on.
fn skip_runs(stale: &[bool], from: usize) -> usize
    requires { from ≤ length stale.now }
    ensures behind { from ≤ result }
    ensures within { result ≤ length stale.now }
    ensures fresh { AreFresh stale.now from result }
{
    let mut place = from;
    while RUN <= stale.len() - place && !stale[place..place + RUN].contains(&true) {
        place += RUN;
    }
    place
}

// Puts the sources to their bits. Those that read one that changes are stale from then on.
fn set_sources(
    net: &Netlist,
    vector: &[bool],
    gates: &RankedGates,
    values: &mut [bool],
    stale: &mut [bool],
)
    requires kept { AreLineValues net.now (record { values = values.old; gates = gates.now; stale = stale.old }) }
    requires bits { length vector.now ≡ source_count net.now }
    ensures kept { AreLineValues net.now (record { values = values.new; gates = gates.now; stale = stale.new }) }
    ensures bits { (source : ℕ) → source < source_count net.now → bit_at values.new source ≡ bit_of vector.now source }
{
    for source in 0..net.sources() {
        let at = source as usize;
        if values[at] != vector[at] {
            values[at] = vector[at];
            make_readers_stale(net, LineId(source), gates, stale);
        }
    }
}

// Puts the line of the gate at a place to the value that the gate makes of those that it reads: the gate is no longer stale. Where that
// changes the line, those that read it are stale from then on.
fn evaluate_at(
    net: &Netlist,
    gates: &RankedGates,
    place: usize,
    values: &mut [bool],
    stale: &mut [bool],
)
    requires place { place < length gates.now.order }
    requires kept { AreLineValues net.now (record { values = values.old; gates = gates.now; stale = stale.old }) }
    ensures kept { AreLineValues net.now (record { values = values.new; gates = gates.now; stale = stale.new }) }
    ensures own { bit_at values.new (gate_line net.now (gate_ranked gates.now place))
        ≡ value_made net.now values.old (gate_ranked gates.now place) }
    ensures others { (line : ℕ) → line ≢ gate_line net.now (gate_ranked gates.now place)
        → bit_at values.new line ≡ bit_at values.old line }
{
    // the gates of a circuit have as many pins as their kinds allow
    let _ = net.lines();
    let gate = gates.order()[place];
    let line = net.line_of(gate);
    let at = line.0 as usize;
    let value = gate_value(net.kind(gate), net.pins(gate), values);
    stale[place] = false;
    if values[at] != value {
        values[at] = value;
        make_readers_stale(net, line, gates, stale);
    }
}

// The gates that read this line are stale from now on.
fn make_readers_stale(net: &Netlist, line: LineId, gates: &RankedGates, stale: &mut [bool])
    requires line { line.0 < line_count net.now }
    requires gates { AreRankedGates net.now gates.now }
    requires marks { length stale.old ≡ length gates.now.order }
    ensures { MakesReadersStale net.now gates.now.places line.0 stale.old stale.new }
{
    for pin in net.fanout(line) {
        stale[gates.place_of(pin.gate)] = true;
    }
}

// A gate's function of the values of the lines that its pins read: of one pin AND is the value itself.
fn gate_value(kind: GateKind, pins: &[LineId], values: &[bool]) -> bool
    requires fan_in { IsFanIn kind (length pins.now) }
    requires places { HasPlaces values.now pins.now }
    ensures { result ≡ gate_value kind (map (λ pin. bit_at values.now pin.0) pins.now) }
{
    let joined = match kind.operation() {
        Op::And => pins.iter().all(|pin| values[pin.0 as usize]),
        Op::Or => pins.iter().any(|pin| values[pin.0 as usize]),
        Op::Xor => parity(pins, values),
    };
    joined != kind.inverts()
}

// Whether an odd number of pins is 1.
fn parity(pins: &[LineId], values: &[bool]) -> bool
    requires { HasPlaces values.now pins.now }
    ensures { result ≡ parity (map (λ pin. bit_at values.now pin.0) pins.now) }
{
    let mut odd = false;
    for pin in pins {
        odd ^= values[pin.0 as usize];
    }
    odd
}
