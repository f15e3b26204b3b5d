// The rows about searches.
use crate::claims;
use netlist::Netlist;
use row_answers::{Text, Trouble};
use std::alloc::Global;

/// Adds what came of a question about the search for tests of a path, or about what it stands on.
pub fn asked(
    alloc: Global,
    net: &Netlist,
    delays: Option<&str>,
    path: &str,
    word: &str,
    row: &str,
    answer: &mut Text,
) -> Result<(), Trouble> {
    match word {
        // what a search for a test of the path ends with: transition, kind and budget
        "search" => search_answers::searched(alloc, net, path, row, answer),
        // whether sweeps over all gates and the worklist end alike on the path
        "alike" => search_answers::ends_alike(alloc, net, path, answer),
        // the labels when a transition is launched, and what comes of the path's first pin: transition, kind; no links may stand first
        "launch" => search_answers::launched(alloc, net, path, row, answer),
        // how a scope stands as it begins, enters the path, assumes halves and goes back: the rules, transition, kind, and the halves
        "scope" => search_answers::staged(alloc, net, path, row, answer),
        // sets of states narrowed along a link: a source and its states, a line and its states, and > between
        "narrow" => search_answers::narrowed(alloc, net, row, answer),
        // how many prefixes the first paths have, so many
        "walk" => search_answers::walked(alloc, net, delays, row, answer),
        // what writes to a list are undone to: values, writes, and writes that are undone, bars between them
        "undo" => search_answers::undone(alloc, row, answer),
        // what is read of a file of a run, or no question
        _ => claims::read(alloc, net, word, row, answer),
    }
}
