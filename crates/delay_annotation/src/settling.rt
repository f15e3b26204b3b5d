// Each pin gets the delay of the last row for it, once, after all rows were read. Of rows with two delays that of a rise is settled,
// or that of a fall.
ghost use Rattle.std.specs.Prelude.{◌<◌, IfOk};
ghost use Rattle.netlist.specs.Circuit.{gate_count};
ghost use Rattle.netlist.specs.Lawful.{IsCircuit};
ghost use Rattle.delay_annotation.specs.Annotation.{Fits};
ghost use Rattle.delay_annotation.specs.LastRows.{HasRoomForRows};
ghost use Rattle.delay_annotation.specs.Settling.{HasLastDelays, SettlesGate};

use crate::Delays;
use crate::last::LastRows;
use netlist::Netlist;
use pd_base::{Direction, GateId, OutOfMemory, PinRef};
use std::alloc::Global;

// What all pins take to show a rise, or a fall.
pub(crate) fn settle(
    alloc: Global,
    net: &Netlist,
    kept: &LastRows,
    direction: Direction,
) -> Result<Delays, OutOfMemory>
    requires { HasRoomForRows net.now kept.now }
    ensures fits { IfOk result (λ delays. Fits net.now delays) }
    ensures last { IfOk result (HasLastDelays net.now kept.now direction) }
{
    // `lines` promises that the netlist is a circuit, which bounds the pins of its gates.
    let within = net.gates() <= net.lines();
    prove!(within);
    let mut delays = Delays::unit(alloc, net)?;
    for gate in 0..net.gates() {
        settle_gate(net, kept, direction, GateId(gate), &mut delays);
    }
    Ok(delays)
}

// The same of the pins of one gate.
fn settle_gate(
    net: &Netlist,
    kept: &LastRows,
    direction: Direction,
    gate: GateId,
    delays: &mut Delays,
)
    requires circuit { IsCircuit net.now }
    requires gate { gate.0 < gate_count net.now }
    requires places { HasRoomForRows net.now kept.now }
    requires fits { Fits net.now delays.old }
    ensures fits { Fits net.now delays.new }
    ensures settles { SettlesGate net.now kept.now direction gate.0 delays.old delays.new }
{
    for pin in 0..net.pins(gate).len() as u32 {
        let pin = PinRef { gate, pin };
        delays.set(net, pin, kept.delay(net, pin, direction));
    }
}
