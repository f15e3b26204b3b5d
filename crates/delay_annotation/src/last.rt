// The last row of each of the four forms. A row is kept in one place, whatever its form, so a file with many rows for all pins
// costs no pass over the pins for each of them.
ghost use Rattle.std.specs.Prelude.{◌≡◌, ◌<◌, ◌≤◌, [], IfOk, length};
ghost use Rattle.netlist.specs.Circuit.{gate_count, pins_at};
ghost use Rattle.delay_annotation.specs.declared.delays.TheConstants.{MOST_DELAY};
ghost use Rattle.delay_annotation.specs.DelayFile.{delay_on};
ghost use Rattle.delay_annotation.specs.LastRows.{later};

use crate::UNIT_DELAY;
use crate::setting::{EdgeDelays, Pins, Setting};
use netlist::{MOST_FAN_IN, Netlist};
use pd_base::{Direction, OutOfMemory, PinRef};
use std::alloc::Global;

/// A row as it is kept: its number, from 1, and its delays. The number is 0 where there was no row.
#[derive(Clone, Copy)]
pub(crate) struct KeptRow {
    pub row: u32,
    pub delays: EdgeDelays,
}

// What is kept where there was no row: each pin has the delay 1 then.
const NO_ROW_YET: KeptRow = KeptRow {
    row: 0,
    delays: EdgeDelays {
        rise: UNIT_DELAY,
        fall: UNIT_DELAY,
    },
};

/// The last row of each form: of `*,*`, of `GATE,*` by gate, of `*,PIN` by the pin's number, of `GATE,PIN` by pin.
#[derive(Drop)]
pub(crate) struct LastRows {
    pub all: KeptRow,
    pub gates: Vec<KeptRow>,
    pub numbers: Vec<KeptRow>,
    pub pins: Vec<KeptRow>,
}

impl LastRows {
    ghost use Rattle.delay_annotation.specs.LastRows.{last_for, AreOfCircuit, AreWithin, HasRoomForRows, KeepsLast, TakesSetting};

    /// No row was there yet.
    pub(crate) fn new(alloc: Global, net: &Netlist) -> Result<LastRows, OutOfMemory>
        ensures places { IfOk result (HasRoomForRows net.now) }
        ensures none { IfOk result (λ kept. KeepsLast net.now kept []) }
    {
        Ok(LastRows {
            all: NO_ROW_YET,
            gates: vec![in alloc; NO_ROW_YET; net.gates() as usize]?,
            numbers: vec![in alloc; NO_ROW_YET; MOST_FAN_IN as usize]?,
            pins: vec![in alloc; NO_ROW_YET; net.pin_total() as usize]?,
        })
    }

    /// Keeps the row of this number in place of the last one of its form.
    pub(crate) fn take(&mut self, net: &Netlist, row: u32, setting: Setting)
        requires places { HasRoomForRows net.now self.old }
        requires pins { AreOfCircuit net.now setting.pins }
        requires bounded { AreWithin setting.delays }
        ensures places { HasRoomForRows net.now self.new }
        ensures takes { TakesSetting net.now row setting self.old self.new }
    {
        let entry = KeptRow {
            row,
            delays: setting.delays,
        };
        match setting.pins {
            Pins::All => self.all = entry,
            Pins::OfGate(gate) => self.gates[gate.0 as usize] = entry,
            Pins::Numbered(pin) => self.numbers[pin as usize] = entry,
            Pins::One(pin) => {
                let place = net.pin_place(pin);
                self.pins[place] = entry;
            }
        }
    }

    /// What a pin takes to show a rise, or a fall, by the last row for it.
    pub(crate) fn delay(&self, net: &Netlist, pin: PinRef, direction: Direction) -> u32
        requires places { HasRoomForRows net.now self.now }
        requires gate { pin.gate.0 < gate_count net.now }
        requires pin { pin.pin < length (pins_at net.now pin.gate.0) }
        requires number { pin.pin < MOST_FAN_IN }
        ensures delay { result ≡ delay_on direction (last_for net.now self.now pin).delays }
        ensures bounded { result ≤ MOST_DELAY }
    {
        let of_gate = later(self.all, self.gates[pin.gate.0 as usize]);
        let place = net.pin_place(pin);
        let of_pin = later(self.numbers[pin.pin as usize], self.pins[place]);
        let last = later(of_gate, of_pin).delays;
        match direction {
            Direction::Rise => last.rise,
            Direction::Fall => last.fall,
        }
    }
}

// Of two rows the later one.
fn later(a: KeptRow, b: KeptRow) -> KeptRow
    ensures { result ≡ later a b }
{
    if a.row < b.row { b } else { a }
}
