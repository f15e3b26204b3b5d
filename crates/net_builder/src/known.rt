// Whether all names that are used are defined: for gates by the numbers that their pins were given, for outputs and
// flip-flops by their names.
ghost use Rattle.std.specs.Prelude.{◌<◌, length, All, Contains, IsTrue};
ghost use Rattle.std.specs.List.{flat_map};
ghost use Rattle.net_builder.specs.Reading.{statement_at};
ghost use Rattle.net_builder.specs.Groups.{other_uses};
ghost use Rattle.net_builder.specs.KnownNames.{known_names};

use crate::name_set::{NameSet, has_name};
use crate::{Form, RawNet};
use pd_base::{FlatLists, LineId};

/// Whether all pins of all gates read lines below this number.
pub(crate) fn are_lines(pins: &FlatLists<LineId>, lines: u32) -> bool
    ensures { IsTrue result → All (λ gate. All (λ line. line.0 < lines) gate) pins.now }
{
    for gate in 0..pins.len() {
        if !are_below(pins.list(gate), lines) {
            return false;
        }
    }
    true
}

// Whether these lines are below this number.
fn are_below(some: &[LineId], lines: u32) -> bool
    ensures { IsTrue result → All (λ line. line.0 < lines) some.now }
{
    for place in 0..some.len() {
        if some[place].0 >= lines {
            return false;
        }
    }
    true
}

/// Whether the outputs and the data lines of the flip-flops are among these names.
pub(crate) fn others_defined(raw: &RawNet, names: &NameSet) -> bool
    ensures { IsTrue result → All (Contains (known_names names.now)) (flat_map (λ s. other_uses s.statement) raw.now) }
{
    for place in 0..raw.len() {
        if !other_defined(raw, place, names) {
            return false;
        }
    }
    true
}

// Whether the output or the data line of a statement is among these names, where it has one.
fn other_defined(raw: &RawNet, place: usize, names: &NameSet) -> bool
    requires { place < length raw.now }
    ensures { IsTrue result → All (Contains (known_names names.now)) (other_uses (statement_at raw.now place)) }
{
    match raw.form(place) {
        Form::Output => has_name(names, raw.name(place)),
        Form::Flop => has_name(names, raw.used(place, 0)),
        Form::Input | Form::Gate(_) => true,
    }
}
