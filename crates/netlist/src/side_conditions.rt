// The table of conditions: what a test asks of the side pins of a gate, and which side pins are allowed by that. It is that of
// specs/Conditions.antt.
ghost use Rattle.std.specs.Prelude.{◌≡◌, ◌↔◌, Bool, IsTrue};
ghost use Rattle.netlist.specs.Conditions.{side_condition, Allows};

use crate::GateKind;
use pd_base::Kind;

/// What a test asks of each side pin of a gate.
#[derive(Clone, Copy, Debug, PartialEq, Eq)]
pub enum SideCondition {
    /// Nothing.
    Free,
    /// To have this value under the second vector.
    EndsAt(bool),
    /// To be steady at this value.
    SteadyAt(bool),
    /// To be steady, at either value.
    AnySteady,
}

impl SideCondition {
    /// Whether a side pin is allowed whose line has this value under the second vector, and is or is not steady.
    pub fn allows(self, last: bool, is_steady: bool) -> bool
        ensures { IsTrue result ↔ Allows self last is_steady }
    {
        match self {
            SideCondition::Free => true,
            SideCondition::EndsAt(bit) => last == bit,
            SideCondition::SteadyAt(bit) => last == bit && is_steady,
            SideCondition::AnySteady => is_steady,
        }
    }
}

/// What a test of this kind asks of the side pins of a gate, where the on-path input has this value under the second vector
/// (robust conditions of AND, NAND, OR, NOR, NOT and BUFF: Lin and Reddy 1987; those of XOR and XNOR are this project's own).
pub fn side_condition(kind: Kind, gate: GateKind, on_path: bool) -> SideCondition
    ensures { result ≡ side_condition kind gate on_path }
{
    match kind {
        Kind::Robust => robust_condition(gate, on_path),
        Kind::Nonrobust => nonrobust_condition(gate),
    }
}

// The conditions of a robust test: a side has to end at the noncontrolling value, and to be steady there where the on-path
// input ends at the controlling one.
fn robust_condition(gate: GateKind, on_path: bool) -> SideCondition
    ensures { result ≡ side_condition Kind.Robust gate on_path }
{
    match gate {
        GateKind::And | GateKind::Nand if on_path => SideCondition::EndsAt(true),
        GateKind::And | GateKind::Nand => SideCondition::SteadyAt(true),
        GateKind::Or | GateKind::Nor if on_path => SideCondition::SteadyAt(false),
        GateKind::Or | GateKind::Nor => SideCondition::EndsAt(false),
        GateKind::Xor | GateKind::Xnor => SideCondition::AnySteady,
        GateKind::Not | GateKind::Buff => SideCondition::Free,
    }
}

// The conditions of a nonrobust test.
fn nonrobust_condition(gate: GateKind) -> SideCondition
    ensures { (on_path : Bool) → result ≡ side_condition Kind.Nonrobust gate on_path }
{
    match gate {
        GateKind::And | GateKind::Nand => SideCondition::EndsAt(true),
        GateKind::Or | GateKind::Nor => SideCondition::EndsAt(false),
        GateKind::Xor | GateKind::Xnor | GateKind::Not | GateKind::Buff => SideCondition::Free,
    }
}
