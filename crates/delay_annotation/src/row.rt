// From the fields of a row to what it says: the pins that it means, and the numbers behind them.
ghost use Rattle.std.specs.Prelude.{◌↔◌, ℕ, [], ◌∷◌, IsTrue, MatchOption, MatchResult};
ghost use Rattle.delay_annotation.specs.Rows.{AreInCircuit, AreTitles, IsDelay, IsPinBelow, IsPlace, IsSetting, MeansGates, MeansPins, RefusesPlace, RefusesRow};
ghost use Rattle.delay_annotation.specs.declared.setting.Columns.TheVariants.{Delay, RiseAndFall};
ghost use Rattle.delay_annotation.specs.declared.setting.Gates.{Gates};
ghost use Rattle.delay_annotation.specs.declared.setting.Pins.{Pins};

use crate::MOST_DELAY;
use crate::field::{MOST_NUMBER_DIGITS, MOST_PIN_DIGITS, number, trimmed};
use crate::setting::{EdgeDelays, Gates, Pins, RowFault, Setting};
use netlist::{MOST_FAN_IN, Netlist};
use pd_base::PinRef;

// The text that means all.
const STAR: &[u8] = b"*";

/// Whether three fields are the titles of a delay file with one delay: `gate`, `pin`, `delay`.
pub(crate) fn are_titles(gate: &[u8], pin: &[u8], delay: &[u8]) -> bool
    ensures { IsTrue result ↔ AreTitles Delay (gate.now ∷ pin.now ∷ delay.now ∷ []) }
{
    trimmed(gate) == b"gate".as_slice()
        && trimmed(pin) == b"pin".as_slice()
        && trimmed(delay) == b"delay".as_slice()
}

/// Whether four fields are the titles of a delay file with two delays: `gate`, `pin`, `rise`, `fall`.
pub(crate) fn are_four_titles(gate: &[u8], pin: &[u8], rise: &[u8], fall: &[u8]) -> bool
    ensures { IsTrue result ↔ AreTitles RiseAndFall (gate.now ∷ pin.now ∷ rise.now ∷ fall.now ∷ []) }
{
    trimmed(gate) == b"gate".as_slice()
        && trimmed(pin) == b"pin".as_slice()
        && trimmed(rise) == b"rise".as_slice()
        && trimmed(fall) == b"fall".as_slice()
}

/// Reads a row of three fields, whose delay is that of a rise as of a fall. It is refused exactly where it says nothing, by the
/// first reason that applies.
pub(crate) fn read_row(
    net: &Netlist,
    gate: &[u8],
    pin: &[u8],
    delay: &[u8],
) -> Result<Setting, RowFault>
    ensures { MatchResult result (IsSetting net.now Delay (gate.now ∷ pin.now ∷ delay.now ∷ []))
        (RefusesRow net.now Delay (gate.now ∷ pin.now ∷ delay.now ∷ [])) }
{
    let pins = read_place(net, gate, pin)?;
    let Some(delay) = read_delay(trimmed(delay)) else {
        return Err(RowFault::BadNumber);
    };
    let delays = EdgeDelays {
        rise: delay,
        fall: delay,
    };
    Ok(Setting { pins, delays })
}

/// Reads a row of four fields. It is refused exactly where it says nothing, by the first reason that applies.
pub(crate) fn read_row_of_four(
    net: &Netlist,
    gate: &[u8],
    pin: &[u8],
    rise: &[u8],
    fall: &[u8],
) -> Result<Setting, RowFault>
    ensures { MatchResult result (IsSetting net.now RiseAndFall (gate.now ∷ pin.now ∷ rise.now ∷ fall.now ∷ []))
        (RefusesRow net.now RiseAndFall (gate.now ∷ pin.now ∷ rise.now ∷ fall.now ∷ [])) }
{
    let pins = read_place(net, gate, pin)?;
    let Some(rise) = read_delay(trimmed(rise)) else {
        return Err(RowFault::BadNumber);
    };
    let Some(fall) = read_delay(trimmed(fall)) else {
        return Err(RowFault::BadNumber);
    };
    let delays = EdgeDelays { rise, fall };
    Ok(Setting { pins, delays })
}

// The pins that the first two fields of a row mean.
fn read_place(net: &Netlist, gate: &[u8], pin: &[u8]) -> Result<Pins, RowFault>
    ensures { MatchResult result (IsPlace net.now gate.now pin.now) (RefusesPlace net.now gate.now pin.now) }
{
    let Some(gates) = read_gates(net, trimmed(gate)) else {
        return Err(RowFault::UnknownGate);
    };
    let Some(pins) = read_pins(net, gates, trimmed(pin)) else {
        return Err(RowFault::BadPin);
    };
    Ok(pins)
}

// The gates that a text means.
fn read_gates(net: &Netlist, text: &[u8]) -> Option<Gates>
    ensures { MatchOption result ((gates : Gates) → ¬ MeansGates net.now text.now gates) (MeansGates net.now text.now) }
{
    if text == STAR {
        return Some(Gates::All);
    }
    let line = net.find(text)?;
    // `lines` promises that the netlist is a circuit, in which no other line bears the name.
    let within = line.0 < net.lines();
    prove!(within);
    let gate = net.gate_of(line)?;
    Some(Gates::One(gate))
}

// The pins of these gates that a text means.
fn read_pins(net: &Netlist, gates: Gates, text: &[u8]) -> Option<Pins>
    requires { AreInCircuit net.now gates }
    ensures { MatchOption result ((pins : Pins) → ¬ MeansPins net.now text.now gates pins) (MeansPins net.now text.now gates) }
{
    if text == STAR {
        return Some(match gates {
            Gates::All => Pins::All,
            Gates::One(gate) => Pins::OfGate(gate),
        });
    }
    match gates {
        Gates::All => Some(Pins::Numbered(pin_below(MOST_FAN_IN as usize, text)?)),
        Gates::One(gate) => {
            let pin = pin_below(net.pins(gate).len(), text)?;
            Some(Pins::One(PinRef { gate, pin }))
        }
    }
}

// The number of a pin below this one.
fn pin_below(limit: usize, text: &[u8]) -> Option<u32>
    ensures { MatchOption result ((pin : ℕ) → ¬ IsPinBelow limit text.now pin) (IsPinBelow limit text.now) }
{
    let pin = number(text, MOST_PIN_DIGITS)?;
    if (pin as usize) < limit {
        Some(pin)
    } else {
        None
    }
}

// A delay in delay units.
fn read_delay(text: &[u8]) -> Option<u32>
    ensures { MatchOption result ((delay : ℕ) → ¬ IsDelay text.now delay) (IsDelay text.now) }
{
    let delay = number(text, MOST_NUMBER_DIGITS)?;
    if delay <= MOST_DELAY {
        Some(delay)
    } else {
        None
    }
}
