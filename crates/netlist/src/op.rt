// The operations by which gates join what their pins have.

/// The operation of a gate, inversion apart.
#[derive(Clone, Copy, Debug, PartialEq, Eq)]
pub enum Op {
    /// AND and NAND.
    And,
    /// OR and NOR.
    Or,
    /// XOR and XNOR.
    Xor,
}
