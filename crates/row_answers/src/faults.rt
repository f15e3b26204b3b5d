// Transitions and kinds of tests by their names. The rules that stand before them are read in rules.rt.
use crate::texts::{number_of, parted};
use crate::trouble::Trouble;
use pd_base::{Direction, Kind, Rules};

/// A transition and a kind of test.
#[derive(Clone, Copy)]
pub struct Fault {
    /// The transition at the source.
    pub direction: Direction,
    /// The conditions that are asked for.
    pub kind: Kind,
}

/// The same under rules for pairs.
#[derive(Clone, Copy)]
pub struct RuledFault<'r> {
    /// The rules.
    pub rules: &'r Rules,
    /// The transition and the kind of test.
    pub fault: Fault,
}

/// The number, transition and kind that a row begins with, and what stands behind them.
pub fn numbered_fault_of(row: &str) -> Result<(u32, Fault, &str), Trouble> {
    let (number, row) = parted(row)?;
    let number = number_of(number)?;
    let (fault, rest) = fault_of(row)?;
    Ok((number, fault, rest))
}

/// The transition and the kind that a row begins with, and what stands behind them.
pub fn fault_of(row: &str) -> Result<(Fault, &str), Trouble> {
    let (direction, rest) = parted(row)?;
    let (kind, rest) = parted(rest)?;
    let fault = Fault {
        direction: direction_of(direction)?,
        kind: kind_of(kind)?,
    };
    Ok((fault, rest))
}

// The transition of this name.
fn direction_of(name: &str) -> Result<Direction, Trouble> {
    match name {
        "rise" => Ok(Direction::Rise),
        "fall" => Ok(Direction::Fall),
        _ => Err(Trouble::NoRow),
    }
}

// The kind of test of this name.
fn kind_of(name: &str) -> Result<Kind, Trouble> {
    match name {
        "robust" => Ok(Kind::Robust),
        "nonrobust" => Ok(Kind::Nonrobust),
        _ => Err(Trouble::NoRow),
    }
}
