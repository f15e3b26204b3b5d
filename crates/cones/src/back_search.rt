// The lines behind some ends: a list of lines that is read from a place on, and to which the lines that a gate reads, and the line to which
// a source is linked, are added where their own line's turn comes. The list is as long as the cone, so this costs the cone and not the
// circuit.
ghost use Rattle.std.specs.Prelude.{◌≡◌, ◌<◌, ◌↔◌, ℕ, All, Contains};
ghost use Rattle.netlist.specs.Circuit.{line_count};
ghost use Rattle.netlist.specs.LinkedPairs.{AreLinksOf, IsSupported};
ghost use Rattle.cones.specs.Ends.{IsBehind};
ghost use Rattle.cones.specs.FoundLines.{FindsMore, FindsBehind, reads_of};

use crate::found_lines::FoundLines;
use crate::source_links::SourceLinks;
use netlist::Netlist;
use pd_base::LineId;

// Finds the lines in the support of one end.
pub(crate) fn find_cone(net: &Netlist, links: &SourceLinks, end: LineId, found: &mut FoundLines)
    requires links { AreLinksOf net.now links.now }
    requires end { end.0 < line_count net.now }
    requires room { found.old.room ≡ line_count net.now }
    ensures room { found.new.room ≡ found.old.room }
    ensures exactly { (line : ℕ) → Contains found.new.lines (record { 0 = line }) ↔ IsSupported net.now links.now end.0 line }
{
    find_back(net, links, &[end], found);
}

/// Finds the lines in the support of some ends under links, and no others: without links their transitive fan-in. What was found before
/// does not matter. There is room for all lines of the netlist. This costs what is found and what was found before; it takes no memory.
pub fn find_back(net: &Netlist, links: &SourceLinks, ends: &[LineId], found: &mut FoundLines)
    requires links { AreLinksOf net.now links.now }
    requires ends { All (λ end. end.0 < line_count net.now) ends.now }
    requires room { found.old.room ≡ line_count net.now }
    ensures room { found.new.room ≡ found.old.room }
    ensures exactly { (line : ℕ) → Contains found.new.lines (record { 0 = line }) ↔ IsBehind net.now links.now ends.now line }
{
    // A netlist knows itself as a circuit.
    let has_room = found.marks().len() == net.lines() as usize;
    prove!(has_room);
    found.clear();
    found.add_all(ends);
    let mut place = 0;
    while place < found.lines().len() {
        let line = found.lines()[place];
        find_behind(net, links, line, found);
        place += 1;
    }
}

// Finds what stands next behind a line.
fn find_behind(net: &Netlist, links: &SourceLinks, line: LineId, found: &mut FoundLines)
    requires links { AreLinksOf net.now links.now }
    requires line { line.0 < line_count net.now }
    requires room { found.old.room ≡ line_count net.now }
    ensures { FindsBehind net.now links.now line.0 found.old found.new }
{
    find_reads(net, line, found);
    if let Some(other) = links.line_of(line) {
        found.add(other);
    }
}

/// Finds the lines that the gate of a line reads, if it is one of a gate. Takes no memory.
pub fn find_reads(net: &Netlist, line: LineId, found: &mut FoundLines)
    requires line { line.0 < line_count net.now }
    requires room { found.old.room ≡ line_count net.now }
    ensures { FindsMore (reads_of net.now line.0) found.old found.new }
{
    if let Some(gate) = net.gate_of(line) {
        found.add_all(net.pins(gate));
    }
}
