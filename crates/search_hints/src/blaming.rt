// The sources to blame for a line whose state is not in its label, or for a condition that fails: those behind that line, found
// backward through lines that have more than one state left. They are assumed first, since a conflict comes from them. Which ones are
// found is a hint alone.
ghost use Rattle.std.specs.Prelude.{◌≡◌, ◌<◌, ◌≤◌, ◌⊎◌, ℕ, [], length, vec_capacity, All, Contains, IfOk, IfSome, IsTrue};
ghost use Rattle.netlist.specs.Circuit.{HasLines, line_count};
ghost use Rattle.search_hints.specs.Blamed.{AreBlamed, AreBehind, IsSomeLine};

use crate::picking::has_two;
use cones::{FoundLines, find_reads};
use netlist::Netlist;
use pd_base::{LineId, OutOfMemory};
use state_sets::StateSet;
use std::alloc::Global;
use std::marker::Model;

/// Sources that are blamed for a failure, with room for those of any.
#[derive(Drop)]
pub struct Blame {
    found: FoundLines,
    sources: Vec<LineId>,
}

impl Model for Blame {
    ghost use Rattle.std.specs.Prelude.{◌≤◌, vec_capacity};
    ghost use Rattle.search_hints.specs.Blamed.{BlamedSources};

    ghost Value = { BlamedSources };

    ghost view = { λ b. record { room = b.found.room; sources = b.sources.items } };

    ghost invariant = { λ b. b.found.room ≤ vec_capacity b.sources };
}

impl Blame {
    /// No source yet, with room for this netlist. The one error is that memory ran out.
    pub fn new(alloc: Global, net: &Netlist) -> Result<Blame, OutOfMemory>
        ensures { IfOk result (λ blame. blame ≡ record { room = line_count net.now; sources = [] }) }
    {
        let lines = net.lines() as usize;
        let sources = Vec::with_capacity(alloc, lines)?;
        let found = FoundLines::new(alloc, lines)?;
        Ok(Blame { found, sources })
    }

    /// Blames the sources behind this line, and behind the other one if there is one, that have more than one state in their labels.
    /// Takes no memory.
    pub fn set_failure(
        &mut self,
        net: &Netlist,
        labels: &[StateSet],
        line: LineId,
        side: Option<LineId>,
    )
        requires room { self.old.room ≡ line_count net.now }
        requires labels { length labels.now ≡ line_count net.now }
        requires line { line.0 < line_count net.now }
        requires side { IfSome side (λ other. other.0 < line_count net.now) }
        ensures room { self.new.room ≡ self.old.room }
        ensures blamed { AreBlamed net.now line side self.new.sources }
    {
        find_failing(line, side, &mut self.found);
        spread(net, labels, &mut self.found);
        list_open(net.sources(), labels, self.found.lines(), &mut self.sources);
    }

    /// The sources that are blamed.
    pub fn sources(&self) -> &[LineId]
        ensures { result.now ≡ self.now.sources }
    {
        self.sources.as_slice()
    }
}

// Finds the lines of a failure alone.
fn find_failing(line: LineId, side: Option<LineId>, found: &mut FoundLines)
    requires line { line.0 < found.old.room }
    requires side { IfSome side (λ other. other.0 < found.old.room) }
    ensures room { found.new.room ≡ found.old.room }
    ensures only { (other : ℕ) → Contains found.new.lines (record { 0 = other }) → (line.0 ≡ other) ⊎ IsSomeLine other side }
{
    found.clear();
    found.add(line);
    if let Some(other) = side {
        found.add(other);
    }
}

// Finds the lines behind those that were found, through lines that have more than one state left.
fn spread(net: &Netlist, labels: &[StateSet], found: &mut FoundLines)
    requires room { found.old.room ≡ line_count net.now }
    requires labels { length labels.now ≡ line_count net.now }
    requires lines { HasLines net.now found.old.lines }
    ensures room { found.new.room ≡ found.old.room }
    ensures behind { AreBehind net.now found.old.lines found.new.lines }
{
    // A netlist knows itself as a circuit.
    let few = net.sources() as usize <= labels.len();
    prove!(few);
    let first = found.lines().len();
    let mut place = 0;
    while place < found.lines().len() {
        let line = found.lines()[place];
        if leads_on(place, first, labels[line.0 as usize]) {
            find_reads(net, line, found);
        }
        place += 1;
    }
}

// The sources among these lines that have more than one state left.
fn list_open(sources: u32, labels: &[StateSet], lines: &[LineId], list: &mut Vec<LineId>)
    requires labels { All (λ line. line.0 < length labels.now) lines.now }
    requires room { length lines.now ≤ vec_capacity list.old }
    ensures capacity { vec_capacity list.new ≡ vec_capacity list.old }
    ensures sources { All (λ source. source.0 < sources) list.new.items }
    ensures among { All (Contains lines.now) list.new.items }
{
    list.clear();
    for line in lines {
        if is_open(*line, sources, labels[line.0 as usize]) {
            list.push_reserved(*line);
        }
    }
}

// Whether a line with this label is a source that has more than one state left.
fn is_open(line: LineId, sources: u32, set: StateSet) -> bool
    ensures { IsTrue result → line.0 < sources }
{
    line.0 < sources && has_two(set)
}

// Whether the search goes on behind the line at this place: it does behind the first ones, whatever their labels are.
fn leads_on(place: usize, first: usize, set: StateSet) -> bool {
    place < first || has_two(set)
}
