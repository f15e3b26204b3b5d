// The wave of a gate whose pins delay a rise and a fall differently: what its pins see, and the merge of that.
ghost use Rattle.std.specs.Prelude.{◌≡◌, ◌<◌, ◌≤◌, ◌↔◌, ℕ, ⊤, true, false, List, length, All, IfOk, IfErr, IsTrue};
ghost use Rattle.netlist.specs.Circuit.{gate_count, line_count, pins_at};
ghost use Rattle.delay_annotation.specs.RiseFall.{BothFit, rise_fall_of};
ghost use Rattle.delay_replay.specs.declared.gate.TheConstants.{MOST_CHANGES};
ghost use Rattle.delay_replay.specs.Changes.{AreChangesOf, Changes, ChangesOver, IsBounded};
ghost use Rattle.delay_replay.specs.GateWaves.{RefusesWave};
ghost use Rattle.rise_fall.specs.GateWaves.{rise_fall_gate_wave};
ghost use Rattle.rise_fall.specs.Inside.GateCopies.{AreSeen, HaveOneDelay};

use crate::copy::rise_fall_copy;
use delay_annotation::RiseFall;
use delay_replay::{PinCopies, Wave, WaveFault, merge};
use netlist::{MOST_FAN_IN, Netlist};
use pd_base::{GateId, OutOfMemory, PinRef};
use std::alloc::Global;

/// What the pins of a gate see, kept as waves.
#[derive(Drop)]
pub struct KeptCopies {
    waves: Vec<Wave>,
}

impl PinCopies for KeptCopies {
    ghost can_read = { λ _. ⊤ };

    ghost copies = { λ s. s.waves.items };

    fn pins(&self) -> usize {
        self.waves.len()
    }

    fn earliest(&self, pin: usize) -> bool {
        self.waves[pin].earliest()
    }

    fn change(&self, pin: usize, place: usize) -> Option<i64> {
        let changes = self.waves[pin].changes();
        if changes.len() <= place {
            return None;
        }
        Some(changes[place])
    }
}

/// The wave of a gate out of the waves of all lines, of which it looks at those that its pins read: at each time the gate's
/// function of what its pins show, each its line's wave by the pin's rise and fall delay. `waves` has one wave per line, by line
/// number, and none changes after `LATEST_CHANGE`. Refused with `TooMany` where the gate's wave has more changes than
/// `MOST_CHANGES`.
pub fn gate_wave(
    alloc: Global,
    net: &Netlist,
    delays: &RiseFall,
    gate: GateId,
    waves: &[Wave],
) -> Result<Wave, WaveFault>
    requires fits { BothFit net.now delays.now }
    requires gate { gate.0 < gate_count net.now }
    requires one_each { length waves.now ≡ line_count net.now }
    requires bounded { All IsBounded waves.now }
    ensures wave { IfOk result (AreChangesOf (rise_fall_gate_wave net.now delays.now gate.0 waves.now)) }
    ensures few { IfOk result (λ wave. length wave.times ≤ MOST_CHANGES) }
    ensures not_over { IfOk result (λ wave. ¬ ChangesOver (rise_fall_gate_wave net.now delays.now gate.0 waves.now) MOST_CHANGES) }
    ensures refused { IfErr result (RefusesWave (rise_fall_gate_wave net.now delays.now gate.0 waves.now)) }
{
    // A netlist knows itself as a circuit.
    let lines = net.lines() as usize;
    prove!(waves.len() == lines);
    if have_one_delay(net, delays, gate, waves) {
        return delay_replay::gate_wave(alloc, net, delays.rises(), gate, waves);
    }
    let copies = kept_copies(alloc, net, delays, gate, waves)?;
    merge(alloc, net.kind(gate), &copies)
}

// Whether each pin of a gate whose line changes takes as long to show a rise as a fall. Then no copies have to be kept.
fn have_one_delay(net: &Netlist, delays: &RiseFall, gate: GateId, waves: &[Wave]) -> bool
    requires fits { BothFit net.now delays.now }
    requires gate { gate.0 < gate_count net.now }
    requires one_each { length waves.now ≡ line_count net.now }
    requires few_pins { length (pins_at net.now gate.0) ≤ MOST_FAN_IN }
    ensures { IsTrue result ↔ HaveOneDelay (rise_fall_of net.now delays.now) net.now gate.0 (length (pins_at net.now gate.0)) waves.now }
{
    for (pin, line) in net.pins(gate).iter().enumerate() {
        let own = PinRef {
            gate,
            pin: pin as u32,
        };
        // Most lines don't change, so this is asked first.
        let changes = !waves[line.0 as usize].changes().is_empty();
        if changes && !has_one_delay(net, delays, own) {
            return false;
        }
    }
    true
}

// Whether a pin takes as long to show a rise of its line as a fall.
fn has_one_delay(net: &Netlist, delays: &RiseFall, pin: PinRef) -> bool
    requires fits { BothFit net.now delays.now }
    requires gate { pin.gate.0 < gate_count net.now }
    requires pin { pin.pin < length (pins_at net.now pin.gate.0) }
    ensures { IsTrue result ↔ rise_fall_of net.now delays.now pin true ≡ rise_fall_of net.now delays.now pin false }
{
    delays.rise(net, pin) == delays.fall(net, pin)
}

// What the pins of a gate see. It fails only where memory runs out.
fn kept_copies(
    alloc: Global,
    net: &Netlist,
    delays: &RiseFall,
    gate: GateId,
    waves: &[Wave],
) -> Result<KeptCopies, OutOfMemory>
    requires fits { BothFit net.now delays.now }
    requires gate { gate.0 < gate_count net.now }
    requires one_each { length waves.now ≡ line_count net.now }
    requires bounded { All IsBounded waves.now }
    requires few_pins { length (pins_at net.now gate.0) ≤ MOST_FAN_IN }
    ensures { IfOk result (λ kept. AreSeen (rise_fall_of net.now delays.now) net.now gate.0
        (length (pins_at net.now gate.0)) waves.now kept.waves.items) }
{
    let pins = net.pins(gate);
    let mut kept = Vec::with_capacity(alloc, pins.len())?;
    for place in 0..pins.len() {
        let pin = PinRef {
            gate,
            pin: place as u32,
        };
        let wave = &waves[pins[place].0 as usize];
        let copy = rise_fall_copy(alloc, wave, delays.rise(net, pin), delays.fall(net, pin))?;
        kept.push(copy)?;
    }
    Ok(KeptCopies { waves: kept })
}
