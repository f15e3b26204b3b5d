//! The ladder: a circuit of so many stages, each of which a path passes in one of two ways (specs/Ladder.antt). `ladder` builds it as a
//! netlist from its statements (specs/Statements.antt); that they describe it, and so are never refused, is proved in
//! proofs/Described.antt.
//! Stands on net_builder. The command `make` works on it.
#![tactic(auto)]

mod building;
mod line;
mod statements;

pub use building::ladder;
pub use statements::NO_LINE;
