// Where a gate is defined, by its number: looked for only where a list of statements is refused.
ghost use Rattle.std.specs.Prelude.{◌≡◌, ◌<◌, [], ◌∷◌, length, map, MatchBool, slice_get, Some, IfOk};
ghost use Rattle.netlist.specs.Description.{gate_in, gate_mentions};
ghost use Rattle.net_builder.specs.Reading.{line_at, own_name, statement_at};
ghost use Rattle.net_builder.specs.Refusals.{mention_of};

use crate::defined::copied;
use crate::{Form, RawNet};
use pd_base::{Items, OutOfMemory};
use std::alloc::Global;

/// The line of the text on which a gate is defined, and its name.
pub(crate) fn mention_of_gate(
    alloc: Global,
    raw: &RawNet,
    gate: u32,
) -> Result<(u32, Items<u8>), OutOfMemory>
    requires { gate < length (gate_mentions raw.now) }
    ensures { IfOk result (λ mention. slice_get (gate_mentions raw.now) gate ≡ Some (mention_of mention.0 mention.1)) }
{
    let place = place_of_gate(raw, gate);
    let name = copied(alloc, raw.name(place))?;
    Ok((raw.line(place), name))
}

// The place of the statement that defines a gate.
fn place_of_gate(raw: &RawNet, gate: u32) -> usize
    requires { gate < length (gate_mentions raw.now) }
    ensures within { result < length raw.now }
    ensures mention { slice_get (gate_mentions raw.now) gate
        ≡ Some (mention_of (line_at raw.now result) (own_name (statement_at raw.now result))) }
{
    let mut left = gate;
    for place in 0..raw.len() {
        if is_gate(raw, place) {
            if left == 0 {
                return place;
            }
            left -= 1;
        }
    }
    0
}

// Whether a statement defines a gate.
fn is_gate(raw: &RawNet, place: usize) -> bool
    requires { place < length raw.now }
    ensures { MatchBool result (map (λ gate. gate.name) (gate_in (statement_at raw.now place)) ≡ own_name (statement_at raw.now place) ∷ [])
        (map (λ gate. gate.name) (gate_in (statement_at raw.now place)) ≡ []) }
{
    match raw.form(place) {
        Form::Gate(_) => true,
        Form::Input | Form::Output | Form::Flop => false,
    }
}
