// What a statement defines, if it defines something of a kind: read by its form.
ghost use Rattle.std.specs.Prelude.{◌≡◌, ◌<◌, [], ◌∷◌, length, map, MatchOption};
ghost use Rattle.netlist.specs.Description.{flop_in, gate_in, input_in, output_in};
ghost use Rattle.netlist.specs.Statements.{defined_by};
ghost use Rattle.net_builder.specs.Reading.{statement_at};

use crate::{Form, RawNet};

/// The name that a statement defines.
pub(crate) fn defined(raw: &RawNet, place: usize) -> Option<&[u8]>
    requires { place < length raw.now }
    ensures { MatchOption result (defined_by (statement_at raw.now place) ≡ [])
        (λ name. defined_by (statement_at raw.now place) ≡ name.now ∷ []) }
{
    match raw.form(place) {
        Form::Output => None,
        Form::Input | Form::Gate(_) | Form::Flop => Some(raw.name(place)),
    }
}

/// The name of the input that a statement defines.
pub(crate) fn input(raw: &RawNet, place: usize) -> Option<&[u8]>
    requires { place < length raw.now }
    ensures { MatchOption result (input_in (statement_at raw.now place) ≡ [])
        (λ name. input_in (statement_at raw.now place) ≡ name.now ∷ []) }
{
    match raw.form(place) {
        Form::Input => Some(raw.name(place)),
        Form::Output | Form::Gate(_) | Form::Flop => None,
    }
}

/// The name of the output that a statement states.
pub(crate) fn output(raw: &RawNet, place: usize) -> Option<&[u8]>
    requires { place < length raw.now }
    ensures { MatchOption result (output_in (statement_at raw.now place) ≡ [])
        (λ name. output_in (statement_at raw.now place) ≡ name.now ∷ []) }
{
    match raw.form(place) {
        Form::Output => Some(raw.name(place)),
        Form::Input | Form::Gate(_) | Form::Flop => None,
    }
}

/// The name of the gate that a statement defines.
pub(crate) fn gate(raw: &RawNet, place: usize) -> Option<&[u8]>
    requires { place < length raw.now }
    ensures { MatchOption result (map (λ gate. gate.name) (gate_in (statement_at raw.now place)) ≡ [])
        (λ name. map (λ gate. gate.name) (gate_in (statement_at raw.now place)) ≡ name.now ∷ []) }
{
    match raw.form(place) {
        Form::Gate(_) => Some(raw.name(place)),
        Form::Input | Form::Output | Form::Flop => None,
    }
}

/// The name of the flip-flop that a statement defines.
pub(crate) fn flop(raw: &RawNet, place: usize) -> Option<&[u8]>
    requires { place < length raw.now }
    ensures { MatchOption result (map (λ flop. flop.name) (flop_in (statement_at raw.now place)) ≡ [])
        (λ name. map (λ flop. flop.name) (flop_in (statement_at raw.now place)) ≡ name.now ∷ []) }
{
    match raw.form(place) {
        Form::Flop => Some(raw.name(place)),
        Form::Input | Form::Output | Form::Gate(_) => None,
    }
}
