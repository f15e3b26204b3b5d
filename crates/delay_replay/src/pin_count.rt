// A gate's value by how many of its pins are 1, so that a change at one of a thousand pins costs no look at the others.
ghost use Rattle.std.specs.Prelude.{◌≡◌, ◌+◌, ◌<◌, ◌≤◌, ◌^◌, Bool, List, length, not};
ghost use Rattle.netlist.specs.Lawful.{IsFanIn};
ghost use Rattle.netlist.specs.Values.{gate_value};
ghost use Rattle.delay_replay.specs.PinChanges.{one, ones};

use netlist::GateKind;

// The value of a gate of this kind that has so many pins, of which so many are 1.
pub(crate) fn value_of_count(kind: GateKind, pins: usize, count: usize) -> bool
    ensures { (values : List Bool) → IsFanIn kind (length values) → length values ≡ pins → ones values ≡ count → result ≡ gate_value kind values }
{
    match kind {
        GateKind::And => count == pins,
        GateKind::Nand => count != pins,
        GateKind::Or | GateKind::Buff => count != 0,
        GateKind::Nor | GateKind::Not => count == 0,
        GateKind::Xor => count % 2 == 1,
        GateKind::Xnor => count % 2 != 1,
    }
}

// How many pins are 1 once one of them has risen or fallen.
pub(crate) fn counted(count: usize, rises: bool) -> usize
    requires room { count + one rises < 2 ^ 64 }
    requires some { one (not rises) ≤ count }
    ensures { result + one (not rises) ≡ count + one rises }
{
    if rises { count + 1 } else { count - 1 }
}
