// The kinds of gates: by which operation a gate joins its pins, and whether it inverts what it joined.
ghost use Rattle.std.specs.Prelude.{◌≡◌};
ghost use Rattle.netlist.specs.Gates.{op_of, is_inverting};

use crate::Op;

/// What a gate computes of its pins. NOT and BUFF have one pin, the others one or more.
#[derive(Clone, Copy, Debug, PartialEq, Eq)]
pub enum GateKind {
    /// 1 where all pins are 1.
    And,
    /// The complement of AND.
    Nand,
    /// 1 where some pin is 1.
    Or,
    /// The complement of OR.
    Nor,
    /// The parity of the pins.
    Xor,
    /// The complement of the parity of all pins.
    Xnor,
    /// An inverter: the complement of its pin.
    Not,
    /// A buffer: the value of its pin.
    Buff,
}

impl GateKind {
    /// The operation by which a gate of this kind joins its pins. That of NOT and BUFF, which have one pin, is AND.
    pub fn operation(self) -> Op
        ensures { result ≡ op_of self }
    {
        match self {
            GateKind::And | GateKind::Nand | GateKind::Not | GateKind::Buff => Op::And,
            GateKind::Or | GateKind::Nor => Op::Or,
            GateKind::Xor | GateKind::Xnor => Op::Xor,
        }
    }

    /// Whether a gate of this kind inverts what it joined.
    pub fn inverts(self) -> bool
        ensures { result ≡ is_inverting self }
    {
        match self {
            GateKind::Nand | GateKind::Nor | GateKind::Xnor | GateKind::Not => true,
            GateKind::And | GateKind::Or | GateKind::Xor | GateKind::Buff => false,
        }
    }
}
