// What lines have: their values, their steadiness, and who stands in whose fan-in. The calls of functions with long contracts
// stand alone, in functions that promise little, so that the answers are not proved over again under these contracts.
ghost use Rattle.std.specs.Prelude.{◌≡◌, ◌<◌, length};
ghost use Rattle.netlist.specs.Circuit.{line_count, source_count};

use crate::circuits::{pair, vector};
use crate::text::Text;
use crate::texts::{number_of, parted};
use crate::trouble::Trouble;
use cones::support;
use logic_values::{Steady, evaluate, steady};
use netlist::Netlist;
use pd_base::{LineId, Pair};
use std::alloc::{AllocError, Global};

/// Adds the values of all lines under a vector, by line number.
pub fn values(alloc: Global, net: &Netlist, bits: &str, answer: &mut Text) -> Result<(), Trouble> {
    let vector = vector(alloc, net, bits)?;
    let values = values_under(alloc, net, vector.as_slice())?;
    answer.add_bits_line(values.as_slice());
    Ok(())
}

// The values of all lines under a vector.
fn values_under(alloc: Global, net: &Netlist, vector: &[bool]) -> Result<Vec<bool>, AllocError>
    requires { length vector.now ≡ source_count net.now }
{
    let mut values = vec![in alloc; false; net.lines() as usize]?;
    evaluate(net, vector, values.as_mut_slice());
    Ok(values)
}

/// Adds which lines stand in the transitive fan-in of the line of a number, by line number.
pub fn support_of(
    alloc: Global,
    net: &Netlist,
    number: &str,
    answer: &mut Text,
) -> Result<(), Trouble> {
    let line = number_of(number)?;
    if line >= net.lines() {
        return Err(Trouble::NoRow);
    }
    let cone = cone_of(alloc, net, LineId(line))?;
    answer.add_bits_line(cone.as_slice());
    Ok(())
}

// For each line whether it stands in the transitive fan-in of this one.
fn cone_of(alloc: Global, net: &Netlist, line: LineId) -> Result<Vec<bool>, AllocError>
    requires { line.0 < line_count net.now }
{
    let mut cone = vec![in alloc; true; net.lines() as usize]?;
    support(net, line, cone.as_mut_slice());
    Ok(cone)
}

/// Adds at which values all lines are steady under a pair of vectors, by line number; `x` where one is not.
pub fn steadiness(
    alloc: Global,
    net: &Netlist,
    vectors: &str,
    answer: &mut Text,
) -> Result<(), Trouble> {
    let (first, second) = parted(vectors)?;
    let pair = pair(alloc, net, first, second)?;
    let steadiness = steadiness_under(alloc, net, &pair)?;
    add_steadiness(steadiness.as_slice(), answer);
    Ok(())
}

// A sign for each line.
fn add_steadiness(steadiness: &[Steady], answer: &mut Text) {
    answer.add("  ");
    for found in steadiness {
        answer.add(sign_of(*found));
    }
    answer.add("\n");
}

// The steadiness of all lines under a pair.
fn steadiness_under(alloc: Global, net: &Netlist, pair: &Pair) -> Result<Vec<Steady>, AllocError>
    requires { length pair.now.first ≡ source_count net.now }
{
    let mut steadiness = vec![in alloc; Steady::Moving; net.lines() as usize]?;
    steady(net, pair, steadiness.as_mut_slice());
    Ok(steadiness)
}

// How the steadiness of a line is shown.
fn sign_of(found: Steady) -> &'static str {
    match found {
        Steady::Zero => "0",
        Steady::One => "1",
        Steady::Moving => "x",
    }
}
