// Which lines a transition at a source can reach: the source, and the line of each gate inside that reads one of them. Where they are many,
// one pass over all gates in rank order finds them, which also lists them by level; else the fan-out of one after the other is followed.
ghost use Rattle.std.specs.Prelude.{◌≡◌, ◌≤◌, ◌<◌, ◌⊎◌, ℕ, [], length, true, false, slice_get, Some, All, Contains};
ghost use Rattle.pd_base.specs.declared.ids.LineId.{LineId};
ghost use Rattle.netlist.specs.Circuit.{source_count, gate_count, line_count, gate_line, pins_at};
ghost use Rattle.cones.specs.FoundLines.{HasMark};
ghost use Rattle.state_laws.specs.Cones.{IsLineIn};
ghost use Rattle.state_laws.specs.Forward.{AreReached};
ghost use Rattle.hulls.specs.Awaiting.{is_inside};
ghost use Rattle.implication.specs.Reached.{HasMore, AreReadersIn};

use cones::FoundLines;
use hulls::Board;
use netlist::Netlist;
use pd_base::{GateId, LineId};
use state_sets::Algebra;

// Once so many lines were seen, a pass over all gates is begun in place of the fan-outs of the others.
const MANY_LINES: usize = 32_768;

// Finds these lines. Takes no memory.
pub(crate) fn reach<A: Algebra>(
    net: &Netlist,
    board: &Board<A>,
    source: LineId,
    reached: &mut FoundLines,
)
    requires source { source.0 < source_count net.now }
    requires gates { gate_count net.now ≤ length board.now.inside }
    requires none { reached.old.lines ≡ [] }
    requires room { reached.old.room ≡ line_count net.now }
    ensures reached { AreReached net.now (is_inside board.now.inside) source.0 reached.new.lines }
    ensures inside { All (λ line. IsLineIn net.now (is_inside board.now.inside) line.0) reached.new.lines }
    ensures room { reached.new.room ≡ line_count net.now }
{
    reached.add(source);
    let mut seen = 0;
    while seen < reached.lines().len() {
        if seen >= MANY_LINES {
            reached.clear();
            reach_by_rank(net, board, source, reached);
            return;
        }
        let line = reached.lines()[seen];
        reach_readers(net, board, line, reached);
        seen += 1;
    }
}

// Adds the lines of the gates inside that read a line.
fn reach_readers<A: Algebra>(
    net: &Netlist,
    board: &Board<A>,
    line: LineId,
    reached: &mut FoundLines,
)
    requires line { line.0 < line_count net.now }
    requires gates { gate_count net.now ≤ length board.now.inside }
    requires room { reached.old.room ≡ line_count net.now }
    ensures more { HasMore net.now board.now.inside reached.old reached.new }
    ensures readers { AreReadersIn net.now board.now.inside line reached.new.lines }
{
    for pin in net.fanout(line) {
        if board.is_inside(pin.gate) {
            reached.add(net.line_of(pin.gate));
        }
    }
}

// Finds these lines in one pass over all gates, each of which stands behind those whose lines it reads.
fn reach_by_rank<A: Algebra>(
    net: &Netlist,
    board: &Board<A>,
    source: LineId,
    reached: &mut FoundLines,
)
    requires source { source.0 < source_count net.now }
    requires gates { gate_count net.now ≤ length board.now.inside }
    requires none { reached.old.lines ≡ [] }
    requires room { reached.old.room ≡ line_count net.now }
    ensures reached { AreReached net.now (is_inside board.now.inside) source.0 reached.new.lines }
    ensures inside { All (λ line. IsLineIn net.now (is_inside board.now.inside) line.0) reached.new.lines }
    ensures room { reached.new.room ≡ line_count net.now }
{
    // a netlist knows itself as a circuit
    let _ = net.sources();
    reached.add(source);
    for gate in net.order() {
        reach_gate(net, board, *gate, reached);
    }
}

// Adds the line of a gate, if the gate is inside and reads one of the lines.
fn reach_gate<A: Algebra>(net: &Netlist, board: &Board<A>, gate: GateId, reached: &mut FoundLines)
    requires gate { gate.0 < gate_count net.now }
    requires gates { gate_count net.now ≤ length board.now.inside }
    requires room { reached.old.room ≡ line_count net.now }
    ensures room { reached.new.room ≡ reached.old.room }
    ensures still { (line : LineId) → Contains reached.old.lines line → Contains reached.new.lines line }
    ensures only { (line : ℕ) → Contains reached.new.lines (record { 0 = line }) → Contains reached.old.lines (record { 0 = line })
        ⊎ ((is_inside board.now.inside gate.0 ≡ true) × (line ≡ gate_line net.now gate.0)) }
    ensures reads { is_inside board.now.inside gate.0 ≡ true → (pin : ℕ) (line : LineId) → slice_get (pins_at net.now gate.0) pin ≡ Some line
        → Contains reached.old.lines line → Contains reached.new.lines (record { 0 = gate_line net.now gate.0 }) }
{
    if !board.is_inside(gate) {
        return;
    }
    if !is_some_found(net.pins(gate), reached.marks()) {
        return;
    }
    reached.add(net.line_of(gate));
}

// Whether one of these lines has a mark.
fn is_some_found(lines: &[LineId], marks: &[bool]) -> bool
    requires { All (λ line. line.0 < length marks.now) lines.now }
    ensures { result ≡ false → All (λ line. ¬ HasMark marks.now line.0) lines.now }
{
    for line in lines {
        if marks[line.0 as usize] {
            return true;
        }
    }
    false
}
