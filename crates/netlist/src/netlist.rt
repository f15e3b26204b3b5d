// The netlist: a circuit with what every layer above asks of it, laid out for reading. Here are the lists that it keeps, what
// they hold (specs/Stored.antt), and the calls that read them. The crate that builds netlists computes the lists.
ghost use Rattle.std.specs.Prelude.{◌≡◌, ◌≢◌, ◌<◌, All, AllPairs, MatchOption, Contains, length};
ghost use Rattle.netlist.specs.Circuit.{HasLines, source_count, gate_count, gate_line, line_count, kind_at, pins_at, line_names, observed_lines};
ghost use Rattle.netlist.specs.Lawful.{IsCircuit};
ghost use Rattle.netlist.specs.Levels.{level, greatest_level, IsRankOrder, ReadsEarlier};
ghost use Rattle.netlist.specs.Names.{compared, name_at, longest_name};
ghost use Rattle.netlist.specs.Pins.{IsFanout, pin_place_in, pin_total};
ghost use Rattle.netlist.specs.Stored.{IsStored, circuit_of};

use crate::GateKind;
use pd_base::{FlatLists, GateId, LineId, PinRef};
use std::cmp::Ordering;
use std::marker::Model;

/// What a netlist keeps of its circuit.
#[derive(Drop)]
pub struct Layout {
    /// The number of sources.
    pub sources: u32,
    /// The names of the lines, by line number.
    pub names: FlatLists<u8>,
    /// All lines, in the order of their names' bytes.
    pub by_name: Vec<LineId>,
    /// The kinds of the gates.
    pub kinds: Vec<GateKind>,
    /// By gate the lines that its pins read.
    pub pins: FlatLists<LineId>,
    /// The output lines, each once.
    pub outputs: Vec<LineId>,
    /// The flip-flops, each as its own line and its data line.
    pub flops: Vec<(LineId, LineId)>,
    /// The output lines and then the data lines of the flip-flops, each line once.
    pub observed: Vec<LineId>,
    /// By line the pins that read it, by gate and then by pin.
    pub fanouts: FlatLists<PinRef>,
    /// The levels of the lines.
    pub levels: Vec<u32>,
    /// The gates by level, then by number.
    pub order: Vec<GateId>,
    /// The greatest level of a line, 0 where there are no lines.
    pub greatest_level: u32,
    /// The length of the longest name, 0 where there are no lines.
    pub longest_name: u32,
}

/// A circuit of named lines. Contracts see it as the circuit that it stands for.
#[derive(Drop)]
pub struct Netlist {
    layout: Layout,
}

impl Model for Netlist {
    ghost use Rattle.netlist.specs.Circuit.{Circuit};

    ghost Value = { Circuit };

    ghost use Rattle.netlist.specs.Stored.{circuit_of, IsStored};

    ghost view = { λ n. circuit_of n.layout };

    ghost invariant = { λ n. IsStored (circuit_of n.layout) n.layout };
}

impl Netlist {
    /// The netlist that keeps these lists, which have to be those of one circuit.
    pub fn new(layout: Layout) -> Netlist
        requires { IsStored (circuit_of layout) layout }
        ensures { result ≡ circuit_of layout }
    {
        Netlist { layout }
    }

    /// The number of sources.
    pub fn sources(&self) -> u32
        ensures count { result ≡ source_count self.now }
        ensures circuit { IsCircuit self.now }
    {
        self.layout.sources
    }

    /// The number of gates.
    pub fn gates(&self) -> u32
        ensures { result ≡ gate_count self.now }
    {
        self.layout.kinds.len() as u32
    }

    /// The number of lines: of sources and gates together.
    pub fn lines(&self) -> u32
        ensures count { result ≡ line_count self.now }
        ensures circuit { IsCircuit self.now }
    {
        self.layout.sources + self.layout.kinds.len() as u32
    }

    /// The number of pins of all gates.
    pub fn pin_total(&self) -> u32
        ensures { result ≡ pin_total self.now }
    {
        self.layout.pins.item_count() as u32
    }

    /// The greatest level of a line, 0 where there are no lines.
    pub fn levels(&self) -> u32
        ensures { result ≡ greatest_level self.now }
    {
        self.layout.greatest_level
    }

    /// The length of the longest name, 0 where there are no lines.
    pub fn longest_name(&self) -> u32
        ensures { result ≡ longest_name self.now }
    {
        self.layout.longest_name
    }

    /// The kind of a gate.
    pub fn kind(&self, gate: GateId) -> GateKind
        requires { gate.0 < gate_count self.now }
        ensures { result ≡ kind_at self.now gate.0 }
    {
        self.layout.kinds[gate.0 as usize]
    }

    /// The lines that the pins of a gate read, in the order of its arguments.
    pub fn pins(&self, gate: GateId) -> &[LineId]
        requires { gate.0 < gate_count self.now }
        ensures pins { result.now ≡ pins_at self.now gate.0 }
        ensures in_circuit { HasLines self.now result.now }
    {
        self.layout.pins.list(gate.0 as usize)
    }

    /// The line of a gate: those of the sources come first.
    pub fn line_of(&self, gate: GateId) -> LineId
        requires { gate.0 < gate_count self.now }
        ensures line { result ≡ record { 0 = gate_line self.now gate.0 } }
        ensures in_circuit { result.0 < line_count self.now }
    {
        LineId(self.layout.sources + gate.0)
    }

    /// The gate whose line this is, and None if and only if it is a source.
    pub fn gate_of(&self, line: LineId) -> Option<GateId>
        requires { line.0 < line_count self.now }
        ensures { MatchOption result (line.0 < source_count self.now)
            (λ gate. (gate.0 < gate_count self.now) × (line.0 ≡ gate_line self.now gate.0)) }
    {
        let gate = line.0.checked_sub(self.layout.sources)?;
        Some(GateId(gate))
    }

    /// The place of a pin among all pins, gate by gate and at each gate from pin 0 on. It is below the number of pins; different
    /// pins have different places (`places_differ` in proofs/PinRow.antt).
    pub fn pin_place(&self, pin: PinRef) -> usize
        requires gate { pin.gate.0 < gate_count self.now }
        requires pin { pin.pin < length (pins_at self.now pin.gate.0) }
        ensures place { result ≡ pin_place_in self.now pin }
        ensures within { result < pin_total self.now }
    {
        self.layout.pins.first_place(pin.gate.0 as usize) + pin.pin as usize
    }

    /// The pins that read a line, by gate and then by pin.
    pub fn fanout(&self, line: LineId) -> &[PinRef]
        requires { line.0 < line_count self.now }
        ensures { IsFanout self.now line.0 result.now }
    {
        self.layout.fanouts.list(line.0 as usize)
    }

    /// All gates in rank order: by level, then by line number. So each gate stands behind those whose lines it reads.
    pub fn order(&self) -> &[GateId]
        ensures rank { IsRankOrder self.now result.now }
        ensures reads { ReadsEarlier self.now result.now }
    {
        self.layout.order.as_slice()
    }

    /// The level of a line: the number of gates on the longest way to it, its own gate counted, so 0 for a source.
    pub fn level(&self, line: LineId) -> u32
        requires { line.0 < line_count self.now }
        ensures { result ≡ level self.now line.0 }
    {
        self.layout.levels[line.0 as usize]
    }

    /// The output lines, each once.
    pub fn outputs(&self) -> &[LineId]
        ensures outputs { result.now ≡ self.now.outputs }
        ensures in_circuit { HasLines self.now result.now }
        ensures once { AllPairs (λ a b. a ≢ b) result.now }
    {
        self.layout.outputs.as_slice()
    }

    /// The flip-flops, each as its own line and its data line. Their own lines are the last sources.
    pub fn flops(&self) -> &[(LineId, LineId)]
        ensures flops { result.now ≡ self.now.flops }
        ensures sources { All (λ flop. flop.0.0 < source_count self.now) result.now }
        ensures data_lines { All (λ flop. flop.1.0 < line_count self.now) result.now }
    {
        self.layout.flops.as_slice()
    }

    /// The output lines and then the data lines of the flip-flops, each line once, at its first place.
    pub fn observed(&self) -> &[LineId]
        ensures observed { result.now ≡ observed_lines self.now }
        ensures in_circuit { HasLines self.now result.now }
        ensures once { AllPairs (λ a b. a ≢ b) result.now }
    {
        self.layout.observed.as_slice()
    }

    /// The name of a line.
    pub fn name(&self, line: LineId) -> &[u8]
        requires { line.0 < line_count self.now }
        ensures { result.now ≡ name_at self.now line.0 }
    {
        self.layout.names.list(line.0 as usize)
    }

    /// Looks a name up: gives the line that bears it, and None if and only if none does.
    pub fn find(&self, name: &[u8]) -> Option<LineId>
        ensures { MatchOption result (¬ Contains (line_names self.now) name.now)
            (λ line. (line.0 < line_count self.now) × (name_at self.now line.0 ≡ name.now)) }
    {
        let by_name = self.layout.by_name.as_slice();
        match by_name.binary_search_by(|line| self.compare_name(*line, name)) {
            Ok(at) => Some(by_name[at]),
            Err(_) => None,
        }
    }

    // How the name of a line compares with this one. A line past the last has no bytes.
    fn compare_name(&self, line: LineId, name: &[u8]) -> Ordering
        ensures { result ≡ compared (line_names self.now) name.now line }
    {
        let at = line.0 as usize;
        if at < self.layout.names.len() {
            self.layout.names.list(at).cmp(name)
        } else {
            b"".as_slice().cmp(name)
        }
    }
}
