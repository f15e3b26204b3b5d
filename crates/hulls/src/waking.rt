// Where a line lost states, the gates that have it among their lines are to be narrowed: those that read it, and the one that
// drives it. The gate whose narrowing cut the line is passed by where narrowing it again would change nothing.
ghost use Rattle.std.specs.Prelude.{◌≡◌, ◌≢◌, ◌<◌, ◌≤◌, ◌↔◌, true, length, Some, All, Contains, IsTrue};
ghost use Rattle.netlist.specs.Circuit.{gate_count, line_count};
ghost use Rattle.hulls.specs.Awaiting.{is_inside, gate_turn, IsMore};
ghost use Rattle.hulls.specs.Settling.{AreWaiting};

use crate::Turn;
use crate::waiting::Waiting;
use netlist::Netlist;
use pd_base::{GateId, LineId, PinRef};

// Lets all gates inside wait that have this line among theirs, but the one that is passed by. Takes no memory. Inlined, since each cut that
// takes states comes here.
#[inline(always)]
pub(crate) fn wake(waiting: &mut Waiting, net: &Netlist, line: LineId, passed: Option<GateId>)
    requires gates { gate_count net.now ≤ length waiting.old.inside }
    requires line { line.0 < line_count net.now }
    ensures more { IsMore waiting.old waiting.new }
    ensures waits { AreWaiting net.now waiting.old.inside passed line.0 waiting.new.waiting }
{
    let readers = net.fanout(line);
    let Some(driver) = net.gate_of(line) else {
        return wake_others(waiting, readers, passed);
    };
    // most often the narrowed gate's own line was cut: the gate does not read it, so all readers wait
    if is_passed(passed, driver) {
        return wake_all(waiting, readers);
    }
    wake_others(waiting, readers, passed);
    waiting.add(Turn::of_gate(driver));
}

// Lets the gates of these pins wait.
fn wake_all(waiting: &mut Waiting, pins: &[PinRef])
    requires { All (λ pin. pin.gate.0 < length waiting.old.inside) pins.now }
    ensures more { IsMore waiting.old waiting.new }
    ensures waits { All (λ pin. is_inside waiting.old.inside pin.gate.0 ≡ true → Contains waiting.new.waiting (gate_turn pin.gate.0)) pins.now }
{
    for pin in pins {
        waiting.add(Turn::of_gate(pin.gate));
    }
}

// The same without the gate that is passed by. Inlined as `wake` is.
#[inline(always)]
fn wake_others(waiting: &mut Waiting, pins: &[PinRef], passed: Option<GateId>)
    requires { All (λ pin. pin.gate.0 < length waiting.old.inside) pins.now }
    ensures more { IsMore waiting.old waiting.new }
    ensures waits { All (λ pin. is_inside waiting.old.inside pin.gate.0 ≡ true → passed ≢ Some pin.gate
        → Contains waiting.new.waiting (gate_turn pin.gate.0)) pins.now }
{
    for pin in pins {
        wake_gate(waiting, pin.gate, passed);
    }
}

// Lets a gate wait, if it is not the one that is passed by.
fn wake_gate(waiting: &mut Waiting, gate: GateId, passed: Option<GateId>)
    requires { gate.0 < length waiting.old.inside }
    ensures more { IsMore waiting.old waiting.new }
    ensures waits { is_inside waiting.old.inside gate.0 ≡ true → passed ≢ Some gate → Contains waiting.new.waiting (gate_turn gate.0) }
{
    if is_passed(passed, gate) {
        return;
    }
    waiting.add(Turn::of_gate(gate));
}

// Whether the gate is the one that is passed by.
fn is_passed(passed: Option<GateId>, gate: GateId) -> bool
    ensures { IsTrue result ↔ (passed ≡ Some gate) }
{
    passed == Some(gate)
}
