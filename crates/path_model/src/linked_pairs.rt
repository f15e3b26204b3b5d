// Pairs under linked rules: the links of launch on capture, and whether a pair keeps links. What a pair shows of a path stands in
// test_conditions.rt, whose room it uses.
ghost use Rattle.std.specs.Prelude.{◌≡◌, ◌<◌, ◌↔◌, IfOk, IsTrue, All, length};
ghost use Rattle.netlist.specs.Circuit.{source_count, line_count};
ghost use Rattle.netlist.specs.LinkedPairs.{AreLinksOf, KeepsLinks};
ghost use Rattle.netlist.specs.Values.{bit_of};
ghost use Rattle.logic_values.specs.Known.{bit_at};

use crate::test_conditions::Scratch;
use logic_values::evaluate;
use netlist::Netlist;
use pd_base::{LineId, Links, OutOfMemory, Pair};
use std::alloc::Global;

/// The links of pairs that are launched on capture (broadside): each flip-flop is linked to its data line, in the order of the
/// netlist, so that its second bit is what the circuit computes from the first vector. They fit the circuit. The one error is that
/// memory ran out.
pub fn broadside_links(alloc: Global, net: &Netlist) -> Result<Links, OutOfMemory>
    ensures links { IfOk result (λ links. links.pairs ≡ net.now.flops) }
    ensures fit { IfOk result (λ links. AreLinksOf net.now links.pairs) }
{
    // A netlist knows itself as a circuit.
    let flops = net.flops();
    let one_each = flops.len() <= net.sources() as usize;
    prove!(one_each);
    Links::new(alloc, flops)
}

/// Whether the pair keeps the links: at each linked source the bit of the second vector is the value that its line has under the
/// first. The links are of this circuit, the pair has one bit per source in the order of the sources, and the scratch was made for
/// this circuit; it serves any further call for it. Takes no memory.
pub fn linked(net: &Netlist, links: &Links, pair: &Pair, scratch: &mut Scratch) -> bool
    requires links { AreLinksOf net.now links.now.pairs }
    requires bits { length pair.now.first ≡ source_count net.now }
    requires scratch { scratch.old ≡ line_count net.now }
    ensures kept { IsTrue result ↔ KeepsLinks net.now links.now.pairs pair.now }
    ensures scratch { scratch.new ≡ scratch.old }
{
    let Scratch { values, .. } = scratch;
    keeps_links(net, links, pair, values.as_mut_slice())
}

// Whether the pair keeps the links. The values of the lines under its first vector stay in the slice.
fn keeps_links(net: &Netlist, links: &Links, pair: &Pair, values: &mut [bool]) -> bool
    requires links { AreLinksOf net.now links.now.pairs }
    requires bits { length pair.now.first ≡ source_count net.now }
    requires values { length values.old ≡ line_count net.now }
    ensures { IsTrue result ↔ KeepsLinks net.now links.now.pairs pair.now }
{
    evaluate(net, pair.first(), values);
    has_link_bits(links.pairs(), pair.second(), values)
}

// Whether each linked source has in this vector the value of its line.
fn has_link_bits(links: &[(LineId, LineId)], vector: &[bool], values: &[bool]) -> bool
    requires sources { All (λ link. link.0.0 < length vector.now) links.now }
    requires lines { All (λ link. link.1.0 < length values.now) links.now }
    ensures { IsTrue result ↔ All (λ link. bit_of vector.now link.0.0 ≡ bit_at values.now link.1.0) links.now }
{
    for link in links {
        if vector[link.0.0 as usize] != values[link.1.0 as usize] {
            return false;
        }
    }
    true
}
