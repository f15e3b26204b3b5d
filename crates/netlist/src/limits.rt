// The limits of a circuit, those of a statement (its names and arguments), and how long a list of statements may be.

/// The most lines of a circuit: sources and gates together.
pub const MOST_LINES: u32 = 262_144;

/// The most pins of all gates of a circuit together.
pub const MOST_PINS: u32 = 1_048_576;

/// The most pins of one gate.
pub const MOST_FAN_IN: u32 = 1_024;

/// The greatest level of a line.
pub const MOST_LEVELS: u32 = 4_096;

/// The most bytes of a name.
pub const MOST_NAME_BYTES: u32 = 255;

/// The most statements of a list of statements.
pub const MOST_STATEMENTS: u32 = 2_147_483_647;
