// What a row of a delay file says, and why one is refused.
use pd_base::{GateId, PinRef};

/// The gates that a row's first field means.
#[derive(Clone, Copy)]
pub(crate) enum Gates {
    /// All gates.
    All,
    /// One gate, by its name.
    One(GateId),
}

/// The pins that a row is about.
#[derive(Clone, Copy)]
pub(crate) enum Pins {
    /// All pins of all gates.
    All,
    /// All pins of one gate.
    OfGate(GateId),
    /// The pins of this number, at each gate that has one.
    Numbered(u32),
    /// One pin of one gate.
    One(PinRef),
}

/// Which numbers the rows of a delay file have behind gate and pin.
#[derive(Clone, Copy)]
pub enum Columns {
    /// One delay, of a rise as of a fall.
    Delay,
    /// A rise delay, then a fall delay.
    RiseAndFall,
}

/// What a row gives a pin: what the pin takes to show a rise of its line, and a fall, in delay units.
#[derive(Clone, Copy)]
pub(crate) struct EdgeDelays {
    /// The rise delay.
    pub rise: u32,
    /// The fall delay.
    pub fall: u32,
}

/// A row of a delay file: these pins have these delays.
#[derive(Clone, Copy)]
pub(crate) struct Setting {
    /// The pins.
    pub pins: Pins,
    /// The delays.
    pub delays: EdgeDelays,
}

/// Why a row behind the titles is refused: the first of these that is true of it.
#[derive(Clone, Copy)]
pub(crate) enum RowFault {
    /// It has not as many fields as the titles.
    Fields,
    /// The first field is neither `*` nor the name of a gate.
    UnknownGate,
    /// The second field is neither `*` nor the number of a pin, in one to four digits: below the number of pins of a gate that
    /// is named, else below 1,024.
    BadPin,
    /// A field behind these is no number of one to seven digits, or one above 1,000,000.
    BadNumber,
}
