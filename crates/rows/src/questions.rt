// The rows that are questions to the last netlist.
use crate::searches;
use crate::subject::Subject;
use netlist::Netlist;
use row_answers::{Text, Trouble};
use std::alloc::Global;

/// Adds what came of a question. In those about cones, hulls, trees and searches the word linked and the links may stand first, for rules
/// with these, or in all but the first the word two, for rules Two.
pub fn asked(
    alloc: Global,
    subject: &Subject,
    word: &str,
    row: &str,
    answer: &mut Text,
) -> Result<(), Trouble> {
    let Some(net) = &subject.net else {
        return Err(Trouble::NoRow);
    };
    let delays = subject.delay_text();
    let prefix = subject.prefix.as_str();
    match word {
        // the values of all lines under a vector
        "values" => row_answers::values(alloc, net, row, answer),
        // their steadiness under two vectors
        "steady" => row_answers::steadiness(alloc, net, row, answer),
        // which lines stand in the transitive fan-in of the line of this number
        "support" => row_answers::support_of(alloc, net, row, answer),
        // the cones of lines that are asked for in turn: their names
        "cones" => row_answers::cones_in_turn(alloc, net, row, answer),
        // the delays of the gates' pins, or why the delay file is refused
        "delays" => row_answers::delays_text(alloc, net, delays, answer),
        // the first paths, so many
        "paths" => row_answers::listing(alloc, net, delays, row, answer),
        // whether this is a path, and how long it is
        "path" => row_answers::path_facts(alloc, net, delays, row, answer),
        // how two paths compare, between which a slash stands
        "compare" => row_answers::comparison(alloc, net, delays, row, answer),
        // whether a pair is a test: transition, kind, both vectors, and the path
        "meets" => row_answers::verdict(alloc, net, row, answer),
        // whether a pair keeps the links of linked rules: these, and both vectors
        "keeps" => row_answers::keeps(alloc, net, row, answer),
        // the bits that load a pair into scan chains: the text of the scan file, and both vectors
        "load" => row_answers::loaded(alloc, net, row, answer),
        // the waves of all lines under two vectors
        "waves" => row_answers::waves(alloc, net, delays, row, answer),
        // what a pin with a delay sees of a line: the delay, both vectors, and the line
        "pin" => row_answers::seen_by_pin(alloc, net, delays, row, answer),
        // what the observed lines have: the time, and both vectors
        "sample" => row_answers::samples(alloc, net, delays, row, answer),
        // whether the sides of a path have settled: the time, both vectors, and the path
        "settled" => row_answers::sides(alloc, net, delays, row, answer),
        // the five values of all lines where the sources have these
        "five" => row_answers::five_values(alloc, net, row, answer),
        _ => asked_of_trees(alloc, net, delays, prefix, word, row, answer),
    }
}

// Adds what came of a question about hulls and trees, or of one about searches.
fn asked_of_trees(
    alloc: Global,
    net: &Netlist,
    delays: Option<&str>,
    prefix: &str,
    word: &str,
    row: &str,
    answer: &mut Text,
) -> Result<(), Trouble> {
    match word {
        // the hull below these halves: transition, kind, and for each half a split, as in a tree, and behind a dot 1 or 2
        "hull" => row_answers::hull_at(alloc, net, prefix, row, answer),
        // whether a tree refutes: transition, kind, and its nodes
        "refutes" => row_answers::refutes(alloc, net, prefix, row, answer),
        // whether a tree spent a budget: the budget, transition, kind, and the nodes
        "spent" => row_answers::spent(alloc, net, prefix, row, answer),
        // whether a tree of so many splits refutes, each in the first half of the one before: the number, transition, kind
        "deep" => row_answers::deep(alloc, net, prefix, row, answer),
        _ => searches::asked(alloc, net, delays, prefix, word, row, answer),
    }
}
