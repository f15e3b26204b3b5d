// Which of up to 64 pairs are tests for a fault: one pass over the path's steps, which judges the sides in all lanes at once.
ghost use Rattle.std.specs.Prelude.{◌≡◌, ◌<◌, ◌↔◌, ℕ, Bool, false, IsTrue, length};
ghost use Rattle.pd_base.specs.Pair.{Vectors};
ghost use Rattle.pd_base.specs.Target.{target_of};
ghost use Rattle.netlist.specs.Circuit.{gate_count, line_count};
ghost use Rattle.netlist.specs.Conditions.{final_bit, side_condition, Allows, Meets, SidesAllowed};
ghost use Rattle.netlist.specs.Paths.{IsPrefix};
ghost use Rattle.logic_values.specs.Lanes.{lane_of};
ghost use Rattle.test_grade.specs.Lines.{AreUnder};

use netlist::{GateKind, Netlist, final_bit};
use pd_base::{Direction, Kind, LineId, Path, PinRef};

/// Which pairs are tests of this kind for the transition at the source of a path, or of a prefix: bit k, from 0, tells of the pair in
/// lane k, as `meets` does of one pair. What the lines are under the pairs is what `evaluate_pairs` gives. Takes no memory.
pub(crate) fn meeting_lanes(
    net: &Netlist,
    path: &Path,
    direction: Direction,
    kind: Kind,
    finals: &[u64],
    steadies: &[u64],
) -> u64
    requires prefix { IsPrefix net.now path.now }
    requires finals { length finals.now ≡ line_count net.now }
    requires steadies { length steadies.now ≡ line_count net.now }
    ensures { (lane : ℕ) (pair : Vectors) → lane < 64 → AreUnder net.now pair lane finals.now steadies.now
        → IsTrue (lane_of result lane) ↔ Meets net.now (target_of path.now direction kind) pair }
{
    // A prefix begins at a source.
    let at_source = path.source().0 < net.sources();
    prove!(at_source);
    let mut line = path.source();
    let mut lanes = launched(
        direction,
        finals[line.0 as usize],
        steadies[line.0 as usize],
    );
    for step in path.steps() {
        if lanes == 0 {
            return 0;
        }
        lanes &= sides_allowed(net, kind, *step, line, finals, steadies);
        line = net.line_of(step.gate);
    }
    lanes
}

// In each lane, whether a source with these words has the transition.
fn launched(direction: Direction, last: u64, steady: u64) -> u64
    ensures { (lane : ℕ) → lane < 64
        → IsTrue (lane_of result lane) ↔ ((lane_of last lane ≡ final_bit direction) × (lane_of steady lane ≡ false)) }
{
    if final_bit(direction) {
        last & !steady
    } else {
        !last & !steady
    }
}

// In each lane, whether all side pins of a step are allowed, where this line is the on-path input.
fn sides_allowed(
    net: &Netlist,
    kind: Kind,
    step: PinRef,
    line: LineId,
    finals: &[u64],
    steadies: &[u64],
) -> u64
    requires gate { step.gate.0 < gate_count net.now }
    requires line { line.0 < line_count net.now }
    requires finals { length finals.now ≡ line_count net.now }
    requires steadies { length steadies.now ≡ line_count net.now }
    ensures { (lane : ℕ) (pair : Vectors) → lane < 64 → AreUnder net.now pair lane finals.now steadies.now
        → IsTrue (lane_of result lane) ↔ SidesAllowed net.now kind pair line.0 step }
{
    let gate = net.kind(step.gate);
    let on_path = finals[line.0 as usize];
    let mut all = u64::MAX;
    for (pin, side) in net.pins(step.gate).iter().enumerate() {
        if pin != step.pin as usize {
            let side = side.0 as usize;
            all &= allowed(kind, gate, on_path, finals[side], steadies[side]);
        }
    }
    all
}

// In each lane, whether a side pin is allowed by the table of conditions.
fn allowed(kind: Kind, gate: GateKind, on_path: u64, last: u64, steady: u64) -> u64
    ensures { (lane : ℕ) → lane < 64 → IsTrue (lane_of result lane)
        ↔ Allows (side_condition kind gate (lane_of on_path lane)) (lane_of last lane) (lane_of steady lane) }
{
    match kind {
        Kind::Robust => allowed_robust(gate, on_path, last, steady),
        Kind::Nonrobust => allowed_nonrobust(gate, last),
    }
}

// The same for robust tests: a side has to end at the noncontrolling value, and to be steady there where the on-path input ends at the
// controlling one.
fn allowed_robust(gate: GateKind, on_path: u64, last: u64, steady: u64) -> u64
    ensures { (lane : ℕ) → lane < 64 → IsTrue (lane_of result lane)
        ↔ Allows (side_condition Kind.Robust gate (lane_of on_path lane)) (lane_of last lane) (lane_of steady lane) }
{
    match gate {
        GateKind::And | GateKind::Nand => last & (steady | on_path),
        GateKind::Or | GateKind::Nor => !last & (steady | !on_path),
        GateKind::Xor | GateKind::Xnor => steady,
        GateKind::Not | GateKind::Buff => u64::MAX,
    }
}

// The same for nonrobust tests.
fn allowed_nonrobust(gate: GateKind, last: u64) -> u64
    ensures { (lane : ℕ) (on_path steady : Bool) → lane < 64 → IsTrue (lane_of result lane)
        ↔ Allows (side_condition Kind.Nonrobust gate on_path) (lane_of last lane) steady }
{
    match gate {
        GateKind::And | GateKind::Nand => last,
        GateKind::Or | GateKind::Nor => !last,
        GateKind::Xor | GateKind::Xnor | GateKind::Not | GateKind::Buff => u64::MAX,
    }
}
