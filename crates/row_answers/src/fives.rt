// The five values of the lines of a netlist.
ghost use Rattle.std.specs.Prelude.{◌≡◌, length, vec_len, IfOk};
ghost use Rattle.netlist.specs.Circuit.{source_count};

use crate::text::Text;
use crate::trouble::Trouble;
use five_valued::{Five, simulate};
use netlist::Netlist;
use std::alloc::{AllocError, Global};

/// Adds the values of all lines, by line number, where the sources have those that the words spell, in their order.
pub fn five_values(
    alloc: Global,
    net: &Netlist,
    words: &str,
    answer: &mut Text,
) -> Result<(), Trouble> {
    let partial = sources(alloc, net, words)?;
    add_values_under(alloc, net, partial.as_slice(), answer)
}

// The values of all lines under these of the sources.
fn add_values_under(
    alloc: Global,
    net: &Netlist,
    partial: &[Five],
    answer: &mut Text,
) -> Result<(), Trouble>
    requires { length partial.now ≡ source_count net.now }
{
    let values = simulated(alloc, net, partial)?;
    add_values(values.as_slice(), answer);
    Ok(())
}

// The words of these values.
fn add_values(values: &[Five], answer: &mut Text) {
    answer.add(" ");
    for value in values {
        answer.add(" ");
        answer.add(word_of(*value));
    }
    answer.add("\n");
}

// The values of all lines. It promises nothing, so that the answers are not proved over again under the contract of `simulate`.
fn simulated(alloc: Global, net: &Netlist, partial: &[Five]) -> Result<Vec<Five>, AllocError>
    requires { length partial.now ≡ source_count net.now }
{
    let mut values = vec![in alloc; Five::XX; net.lines() as usize]?;
    simulate(net, partial, values.as_mut_slice());
    Ok(values)
}

// One value for each source.
fn sources(alloc: Global, net: &Netlist, words: &str) -> Result<Vec<Five>, Trouble>
    ensures { IfOk result (λ values. vec_len values ≡ source_count net.now) }
{
    let values = values_of(alloc, words)?;
    if values.len() == net.sources() as usize {
        Ok(values)
    } else {
        Err(Trouble::NoRow)
    }
}

// The values that words spell.
fn values_of(alloc: Global, words: &str) -> Result<Vec<Five>, Trouble> {
    let mut values = Vec::new(alloc);
    for word in words.split(' ') {
        values.push(value_of(word)?)?;
    }
    Ok(values)
}

// The value that a word spells.
fn value_of(word: &str) -> Result<Five, Trouble> {
    match word {
        "S0" => Ok(Five::S0),
        "S1" => Ok(Five::S1),
        "U0" => Ok(Five::U0),
        "U1" => Ok(Five::U1),
        "XX" => Ok(Five::XX),
        _ => Err(Trouble::NoRow),
    }
}

// The word of a value.
fn word_of(value: Five) -> &'static str {
    match value {
        Five::S0 => "S0",
        Five::S1 => "S1",
        Five::U0 => "U0",
        Five::U1 => "U1",
        Five::XX => "XX",
    }
}
