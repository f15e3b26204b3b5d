// A statement of a netlist's text. What circuit a list of statements describes is said in specs/Description.antt.
use crate::GateKind;
use pd_base::Items;

/// A statement of a netlist. Names may be used before they are defined.
#[derive(Debug, Drop)]
pub enum RawStmt {
    /// Defines a source of this name.
    Input(Items<u8>),
    /// Makes the line of this name an output.
    Output(Items<u8>),
    /// Defines a gate: its name, its kind, and the names of the lines that its pins read.
    Gate(Items<u8>, GateKind, Items<Items<u8>>),
    /// Defines a flip-flop: its name, which is a source, and the name of its data line.
    Flop(Items<u8>, Items<u8>),
}
