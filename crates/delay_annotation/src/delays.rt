// The delays of all pins of a netlist, in delay units.
ghost use Rattle.std.specs.Prelude.{◌≡◌, ◌<◌, ◌≤◌, ℕ, length, IfOk};
ghost use Rattle.pd_base.specs.declared.ids.PinRef.{PinRef};
ghost use Rattle.netlist.specs.Circuit.{gate_count, pins_at};
ghost use Rattle.netlist.specs.Pins.{IsPinOn};
ghost use Rattle.delay_annotation.specs.Annotation.{ArePinDelays, delays_of, SetsDelay, Fits};

use netlist::Netlist;
use pd_base::{GateId, OutOfMemory, PinRef};
use std::alloc::Global;
use std::marker::Model;

/// The greatest delay of a pin, in delay units.
pub const MOST_DELAY: u32 = 1_000_000;

/// The delay of a pin of which nothing else is said.
pub const UNIT_DELAY: u32 = 1;

/// A delay for each pin of a netlist, in whole delay units from 0 to `MOST_DELAY`. Which netlist they fit is a question to
/// `Fits`; each call is handed the netlist again.
#[derive(Drop)]
pub struct Delays {
    by_place: Vec<u32>,
}

impl Model for Delays {
    ghost use Rattle.std.specs.Prelude.{ℕ, List};

    ghost Value = { List ℕ };

    ghost view = { λ d. d.by_place.items };
}

impl Delays {
    /// The delays of a netlist whose pins all have the delay 1. It fails only where memory runs out.
    pub fn unit(alloc: Global, net: &Netlist) -> Result<Delays, OutOfMemory>
        ensures fits { IfOk result (λ delays. Fits net.now delays) }
        ensures unit { IfOk result (λ delays. (pin : PinRef) (line : ℕ) → IsPinOn net.now pin line → delays_of net.now delays pin ≡ UNIT_DELAY) }
    {
        let by_place = vec![in alloc; UNIT_DELAY; net.pin_total() as usize]?;
        Ok(Delays { by_place })
    }

    /// The delay of a pin, in delay units.
    pub fn delay(&self, net: &Netlist, pin: PinRef) -> u32
        requires fits { Fits net.now self.now }
        requires gate { pin.gate.0 < gate_count net.now }
        requires pin { pin.pin < length (pins_at net.now pin.gate.0) }
        ensures delay { result ≡ delays_of net.now self.now pin }
        ensures bounded { result ≤ MOST_DELAY }
    {
        self.by_place[net.pin_place(pin)]
    }

    /// The delays of the pins of a gate, from pin 0 on, in delay units.
    pub fn of_gate(&self, net: &Netlist, gate: GateId) -> &[u32]
        requires fits { Fits net.now self.now }
        requires gate { gate.0 < gate_count net.now }
        ensures { ArePinDelays net.now self.now gate.0 result.now }
    {
        // A netlist knows itself as a circuit, whose gates have a pin 0.
        let within = gate.0 < net.lines();
        prove!(within);
        let first = net.pin_place(PinRef { gate, pin: 0 });
        &self.by_place[first..first + net.pins(gate).len()]
    }

    /// Gives a pin this delay, in delay units. All other pins keep theirs.
    pub fn set(&mut self, net: &Netlist, pin: PinRef, delay: u32)
        requires fits { Fits net.now self.old }
        requires gate { pin.gate.0 < gate_count net.now }
        requires pin { pin.pin < length (pins_at net.now pin.gate.0) }
        requires bounded { delay ≤ MOST_DELAY }
        ensures fits { Fits net.now self.new }
        ensures changes { SetsDelay net.now self.old self.new pin delay }
    {
        self.by_place[net.pin_place(pin)] = delay;
    }
}
