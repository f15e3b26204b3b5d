// The rise and fall delays of all pins of a netlist, in delay units.
ghost use Rattle.std.specs.Prelude.{◌≡◌, ◌<◌, ◌≤◌, true, false, length};
ghost use Rattle.netlist.specs.Circuit.{gate_count, pins_at};
ghost use Rattle.delay_annotation.specs.declared.delays.TheConstants.{MOST_DELAY};
ghost use Rattle.delay_annotation.specs.RiseFall.{BothFit, rise_fall_of};

use crate::Delays;
use netlist::Netlist;
use pd_base::PinRef;
use std::marker::Model;

/// A rise and a fall delay for each pin of a netlist, in whole delay units from 0 to `MOST_DELAY`: what the pin takes to show that
/// its line has become 1, and that it has become 0. Which netlist they fit is a question to `BothFit`; each call is handed the
/// netlist again.
#[derive(Drop)]
pub struct RiseFall {
    rises: Delays,
    falls: Delays,
}

impl Model for RiseFall {
    ghost use Rattle.delay_annotation.specs.RiseFall.{RisesAndFalls};

    ghost Value = { RisesAndFalls };

    ghost view = { λ d. record { rises = d.rises; falls = d.falls } };
}

impl RiseFall {
    /// The delays with which each pin shows rises, and those with which it shows falls. Takes no memory.
    pub fn new(rises: Delays, falls: Delays) -> RiseFall
        ensures { result ≡ record { rises = rises; falls = falls } }
    {
        RiseFall { rises, falls }
    }

    /// The rise delay of a pin, in delay units.
    pub fn rise(&self, net: &Netlist, pin: PinRef) -> u32
        requires fits { BothFit net.now self.now }
        requires gate { pin.gate.0 < gate_count net.now }
        requires pin { pin.pin < length (pins_at net.now pin.gate.0) }
        ensures rise { result ≡ rise_fall_of net.now self.now pin true }
        ensures bounded { result ≤ MOST_DELAY }
    {
        self.rises.delay(net, pin)
    }

    /// The fall delay of a pin, in delay units.
    pub fn fall(&self, net: &Netlist, pin: PinRef) -> u32
        requires fits { BothFit net.now self.now }
        requires gate { pin.gate.0 < gate_count net.now }
        requires pin { pin.pin < length (pins_at net.now pin.gate.0) }
        ensures fall { result ≡ rise_fall_of net.now self.now pin false }
        ensures bounded { result ≤ MOST_DELAY }
    {
        self.falls.delay(net, pin)
    }

    /// The rise delays of all pins.
    pub fn rises(&self) -> &Delays
        ensures { result.now ≡ self.now.rises }
    {
        &self.rises
    }

    /// The fall delays of all pins.
    pub fn falls(&self) -> &Delays
        ensures { result.now ≡ self.now.falls }
    {
        &self.falls
    }
}
