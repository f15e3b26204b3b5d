// The numbers by which a circuit's parts are known. Sources come first among the lines, gates follow.

/// The number of a line. Where there are s sources, they have 0 to s - 1, and gate g has s + g.
#[derive(Clone, Copy, Debug, Default, PartialEq, Eq, PartialOrd, Ord, Hash)]
pub struct LineId(pub u32);

/// The number of a gate, from 0 in the order of the file.
#[derive(Clone, Copy, Debug, PartialEq, Eq, PartialOrd, Ord, Hash)]
pub struct GateId(pub u32);

/// A pin, by its gate and its place there: pin 0 takes the first argument of the gate, pin 1 the second, and so on.
#[derive(Clone, Copy, Debug, PartialEq, Eq, PartialOrd, Ord, Hash)]
pub struct PinRef {
    /// The gate.
    pub gate: GateId,
    /// The pin's number at that gate.
    pub pin: u32,
}
