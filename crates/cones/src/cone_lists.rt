// The sources and the gates among the lines of a cone, in order. Where these are few, their numbers and their places in rank order are
// sorted; where they are many, a pass over all sources and gates takes those whose lines have marks.
ghost use Rattle.std.specs.Prelude.{◌≡◌, ◌+◌, ◌<◌, ◌≤◌, ◌^◌, ◌↔◌, ℕ, false, map, filter, length, slice_index_or, vec_capacity, All, AllPairs, Contains};
ghost use Rattle.netlist.specs.Circuit.{gate_count, line_count};
ghost use Rattle.cones.specs.FoundLines.{HasMark};
ghost use Rattle.cones.specs.KeptCones.{IsRankAmong};
ghost use Rattle.cones.specs.Ranks.{ranked_gate};

use netlist::Netlist;
use pd_base::{GateId, LineId};

// The numbers of the sources among these lines, in rising order.
pub(crate) fn number_sources(sources: u32, lines: &[LineId], numbers: &mut Vec<usize>)
    requires room { length lines.now ≤ vec_capacity numbers.old }
    ensures capacity { vec_capacity numbers.new ≡ vec_capacity numbers.old }
    ensures few { length numbers.new.items ≤ length lines.now }
    ensures rising { AllPairs (λ a b. a < b) numbers.new.items }
    ensures exactly { (source : ℕ) → Contains numbers.new.items source ↔ ((source < sources) × Contains lines.now (record { 0 = source })) }
{
    numbers.clear();
    for line in lines {
        if line.0 < sources {
            numbers.push_reserved(line.0 as usize);
        }
    }
    numbers.sort_unstable();
    // Each line was found once, so no number goes.
    numbers.dedup();
}

// The sources with these numbers.
pub(crate) fn list_sources(numbers: &[usize], sources: &mut Vec<LineId>)
    requires numbers { All (λ number. number < 2 ^ 32) numbers.now }
    requires room { length numbers.now ≤ vec_capacity sources.old }
    ensures capacity { vec_capacity sources.new ≡ vec_capacity sources.old }
    ensures sources { sources.new.items ≡ map (λ number. record { 0 = number }) numbers.now }
{
    sources.clear();
    for number in numbers {
        sources.push_reserved(LineId(*number as u32));
    }
}

// The places in rank order of the gates among these lines, in rising order.
pub(crate) fn rank_gates(net: &Netlist, lines: &[LineId], ranks: &[usize], numbers: &mut Vec<usize>)
    requires lines { All (λ line. line.0 < line_count net.now) lines.now }
    requires ranks { length ranks.now ≡ gate_count net.now }
    requires room { length lines.now ≤ vec_capacity numbers.old }
    ensures capacity { vec_capacity numbers.new ≡ vec_capacity numbers.old }
    ensures few { length numbers.new.items ≤ length lines.now }
    ensures rising { AllPairs (λ a b. a < b) numbers.new.items }
    ensures exactly { (rank : ℕ) → Contains numbers.new.items rank ↔ IsRankAmong net.now lines.now ranks.now rank }
{
    numbers.clear();
    for line in lines {
        match net.gate_of(*line) {
            Some(gate) => numbers.push_reserved(ranks[gate.0 as usize]),
            None => {}
        }
    }
    numbers.sort_unstable();
    // Each gate has a place of its own, and its line was found once, so no number goes.
    numbers.dedup();
}

// The gates at these places of an order.
pub(crate) fn list_gates(numbers: &[usize], order: &[GateId], gates: &mut Vec<GateId>)
    requires places { All (λ number. number < length order.now) numbers.now }
    requires room { length numbers.now ≤ vec_capacity gates.old }
    ensures capacity { vec_capacity gates.new ≡ vec_capacity gates.old }
    ensures gates { gates.new.items ≡ map (ranked_gate order.now) numbers.now }
{
    gates.clear();
    for number in numbers {
        gates.push_reserved(order[*number]);
    }
}

// The sources that have marks, in rising order.
pub(crate) fn scan_sources(sources: u32, marks: &[bool], list: &mut Vec<LineId>)
    requires marks { sources ≤ length marks.now }
    requires room { sources ≤ vec_capacity list.old }
    ensures capacity { vec_capacity list.new ≡ vec_capacity list.old }
    ensures rising { AllPairs (λ a b. a.0 < b.0) list.new.items }
    ensures exactly { (source : ℕ) → Contains list.new.items (record { 0 = source }) ↔ ((source < sources) × HasMark marks.now source) }
{
    list.clear();
    for source in 0..sources {
        if marks[source as usize] {
            list.push_reserved(LineId(source));
        }
    }
}

// The gates of an order whose lines have marks, in that order.
pub(crate) fn scan_gates(sources: u32, order: &[GateId], marks: &[bool], gates: &mut Vec<GateId>)
    requires lines { All (λ gate. sources + gate.0 < length marks.now) order.now }
    requires room { length order.now ≤ vec_capacity gates.old }
    ensures capacity { vec_capacity gates.new ≡ vec_capacity gates.old }
    ensures gates { gates.new.items ≡ filter (λ gate. slice_index_or marks.now (sources + gate.0) false) order.now }
{
    gates.clear();
    for gate in order {
        if marks[sources as usize + gate.0 as usize] {
            gates.push_reserved(*gate);
        }
    }
}
