// How many lines the statements define, and how many pins their gates have, against the limits.
ghost use Rattle.std.specs.Prelude.{◌≡◌, ◌≤◌, ◌<◌, length, All, IfOk, IfErr};
ghost use Rattle.netlist.specs.Description.{IsWithinLimits, definitions, pins_in, stated_pins};
ghost use Rattle.netlist.specs.Statements.{IsStatement, defined_by};
ghost use Rattle.net_builder.specs.Reading.{statement_at};
ghost use Rattle.net_builder.specs.Refusals.{MayRefuse};

use crate::{BuildFault, Form, RawNet};
use netlist::{MOST_LINES, MOST_PINS};

/// Refuses statements that go beyond the limit of lines or, else, of pins.
pub(crate) fn check_limits(raw: &RawNet) -> Result<(), BuildFault>
    ensures within { IfOk result (λ _. IsWithinLimits raw.now) }
    ensures lawful { IfOk result (λ _. All (λ s. IsStatement s.statement) raw.now) }
    ensures refused { IfErr result (MayRefuse raw.now) }
{
    let lines = count_lines(raw);
    if lines > u64::from(MOST_LINES) {
        return Err(BuildFault::TooManyLines(lines));
    }
    let pins = count_pins(raw);
    if pins > u64::from(MOST_PINS) {
        return Err(BuildFault::TooManyPins(pins));
    }
    Ok(())
}

// How many lines are defined. Each statement is lawful.
#[tactic(auto, using(crate::proofs::Pieces::definitions_more))]
fn count_lines(raw: &RawNet) -> u64
    ensures count { result ≡ length (definitions raw.now) }
    ensures lawful { All (λ s. IsStatement s.statement) raw.now }
{
    let mut count = 0;
    for place in 0..raw.len() {
        count += lines_at(raw, place);
    }
    count
}

// How many lines a statement defines.
fn lines_at(raw: &RawNet, place: usize) -> u64
    requires { place < length raw.now }
    ensures count { result ≡ length (defined_by (statement_at raw.now place)) }
    ensures few { result ≤ 1 }
{
    match raw.form(place) {
        Form::Output => 0,
        Form::Input | Form::Gate(_) | Form::Flop => 1,
    }
}

/// How many pins all gates have.
#[tactic(auto, using(crate::proofs::Pieces::pins_more))]
pub(crate) fn count_pins(raw: &RawNet) -> u64
    ensures { result ≡ stated_pins raw.now }
{
    let mut count = 0;
    for place in 0..raw.len() {
        count += pins_at(raw, place);
    }
    count
}

// How many pins the gate of a statement has.
fn pins_at(raw: &RawNet, place: usize) -> u64
    requires { place < length raw.now }
    ensures count { result ≡ pins_in (statement_at raw.now place) }
    ensures few { result ≤ 1024 }
{
    match raw.form(place) {
        Form::Gate(_) => raw.used_len(place) as u64,
        Form::Input | Form::Output | Form::Flop => 0,
    }
}
