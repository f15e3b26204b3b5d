// The cone of a line: the lines of its support under links, with the sources and the gates among them in order. One cone is at hand at a
// time. To find another costs its lines and those of the cone whose place it takes, and not the circuit, but where it is a good part of
// that. How they are listed stands in cone_lists.rt. The last ones at hand are kept aside (end_cone.rt), and cost nothing where they are
// asked for again.
ghost use Rattle.std.specs.Prelude.{◌≡◌, ◌<◌, ◌↔◌, ℕ, length, Some, IfOk, IsTrue, Contains};
ghost use Rattle.netlist.specs.Circuit.{Circuit, line_count};
ghost use Rattle.netlist.specs.LinkedPairs.{AreLinksOf, IsSupported};
ghost use Rattle.cones.specs.FoundLines.{HasMark};
ghost use Rattle.cones.specs.KeptCones.{IsConeFor, IsConeAt, IsConeOfNone, IsPlaceOf};

use crate::back_search::find_cone;
use crate::cone_lists::{
    list_gates, list_sources, number_sources, rank_gates, scan_gates, scan_sources,
};
use crate::end_cone::{EndCone, most_others, no_cones, place_of};
use crate::ranks::ranks_of;
use crate::source_links::SourceLinks;
use netlist::Netlist;
use pd_base::{GateId, LineId, OutOfMemory};
use std::alloc::Global;
use std::marker::Model;
use std::mem;

// A cone is large where the circuit has fewer than so many gates for each of its lines: one pass over all gates then costs less than a
// sort.
const GATES_PER_LINE: usize = 16;

/// The cone of one line at a time, with room for that of any line of the netlist that it was made for, and for those of some lines that
/// were asked for before.
#[derive(Drop)]
pub struct Cone {
    current: EndCone,
    others: Vec<EndCone>,
    // the place among the others that is next in turn
    next: usize,
    links: SourceLinks,
    order: Vec<GateId>,
    ranks: Vec<usize>,
    numbers: Vec<usize>,
}

impl Model for Cone {
    ghost use Rattle.std.specs.Prelude.{vec_capacity};
    ghost use Rattle.cones.specs.KeptCones.{KeptCone, AllHaveRoom};

    ghost Value = { KeptCone };

    ghost view = { λ c. record { end = c.current.end; found = c.current.found; sources = c.current.sources.items; gates = c.current.gates.items; links = c.links; order = c.order.items; ranks = c.ranks.items; others = c.others.items } };

    ghost invariant = { λ c. AllHaveRoom (vec_capacity c.numbers) c.current c.others.items };
}

impl Cone {
    /// The cone of no line yet, under these links. The one error is that memory ran out.
    pub fn new(
        alloc: Global,
        net: &Netlist,
        links: &[(LineId, LineId)],
    ) -> Result<Cone, OutOfMemory>
        requires links { AreLinksOf net.now links.now }
        ensures made { IfOk result (IsConeFor net.now) }
        ensures links { IfOk result (λ cone. cone.links ≡ links.now) }
    {
        let order = Vec::from_slice(alloc, net.order())?;
        let ranks = ranks_of(alloc, net.gates() as usize, order.as_slice())?;
        let links = SourceLinks::new(alloc, net.sources() as usize, links)?;
        Cone::with_room(alloc, net.lines() as usize, links, order, ranks)
    }

    // The cone of no line yet, with room for so many lines.
    fn with_room(
        alloc: Global,
        lines: usize,
        links: SourceLinks,
        order: Vec<GateId>,
        ranks: Vec<usize>,
    ) -> Result<Cone, OutOfMemory>
        ensures { IfOk result (IsConeOfNone lines links order.items ranks.items) }
    {
        let others = no_cones(alloc, lines, most_others(lines))?;
        let numbers = Vec::with_capacity(alloc, lines)?;
        Ok(Cone {
            current: EndCone::new(alloc, lines)?,
            others,
            next: 0,
            links,
            order,
            ranks,
            numbers,
        })
    }

    /// Has the cone of this line at hand, and that of the line before no longer. Takes no memory, and no time where the cone is at hand
    /// already or was so not long ago.
    pub fn set_end(&mut self, net: &Netlist, end: LineId)
        requires made { IsConeFor net.now self.old }
        requires end { end.0 < line_count net.now }
        ensures made { IsConeFor net.now self.new }
        ensures links { self.new.links ≡ self.old.links }
        ensures cone { IsConeAt net.now end.0 self.new }
    {
        if self.is_at(end) {
            return;
        }
        match place_of(self.others.as_slice(), end) {
            Some(place) => self.exchange(place),
            None => {
                self.put_aside();
                self.find(net, end);
            }
        }
    }

    // Whether the cone at hand is that of this line.
    fn is_at(&self, end: LineId) -> bool
        ensures { IsTrue result → self.now.end ≡ Some end }
    {
        self.current.is_of(end)
    }

    // Has the cone at this place of the others at hand, and puts the one that was at hand aside there.
    fn exchange(&mut self, place: usize)
        requires { place < length self.old.others }
        ensures made { (c : Circuit) → IsConeFor c self.old → IsConeFor c self.new }
        ensures links { self.new.links ≡ self.old.links }
        ensures cone { (c : Circuit) (end : LineId) → IsConeFor c self.old → IsPlaceOf end place self.old.others
            → IsConeAt c end.0 self.new }
    {
        mem::swap(&mut self.current, &mut self.others[place]);
    }

    // Puts the cone at hand aside, in the place that is next in turn.
    fn put_aside(&mut self)
        ensures made { (c : Circuit) → IsConeFor c self.old → IsConeFor c self.new }
        ensures links { self.new.links ≡ self.old.links }
    {
        let place = if self.next < self.others.len() {
            self.next
        } else {
            0
        };
        if place < self.others.len() {
            self.exchange(place);
            self.next = place + 1;
        }
    }

    // Finds the cone of a line.
    fn find(&mut self, net: &Netlist, end: LineId)
        requires made { IsConeFor net.now self.old }
        requires end { end.0 < line_count net.now }
        ensures made { IsConeFor net.now self.new }
        ensures links { self.new.links ≡ self.old.links }
        ensures cone { IsConeAt net.now end.0 self.new }
    {
        self.current.end = None;
        find_cone(net, &self.links, end, &mut self.current.found);
        if self.is_large() {
            self.list_by_marks(net, end);
        } else {
            self.list_by_places(net, end);
        }
    }

    // Whether so many lines were found that one pass over the circuit costs less than a sort.
    fn is_large(&self) -> bool {
        self.current.found.lines().len() > self.order.len() / GATES_PER_LINE
    }

    // Lists the sources and the gates of the lines that were found, which are the cone of this end: those that have marks.
    fn list_by_marks(&mut self, net: &Netlist, end: LineId)
        requires made { IsConeFor net.now self.old }
        requires found { (line : ℕ) → Contains self.old.found.lines (record { 0 = line }) ↔ IsSupported net.now self.old.links end.0 line }
        ensures made { IsConeFor net.now self.new }
        ensures links { self.new.links ≡ self.old.links }
        ensures cone { IsConeAt net.now end.0 self.new }
    {
        scan_sources(
            net.sources(),
            self.current.found.marks(),
            &mut self.current.sources,
        );
        scan_gates(
            net.sources(),
            self.order.as_slice(),
            self.current.found.marks(),
            &mut self.current.gates,
        );
        self.current.end = Some(end);
    }

    // The same by their numbers and by their places in rank order, which are sorted.
    fn list_by_places(&mut self, net: &Netlist, end: LineId)
        requires made { IsConeFor net.now self.old }
        requires end { end.0 < line_count net.now }
        requires found { (line : ℕ) → Contains self.old.found.lines (record { 0 = line }) ↔ IsSupported net.now self.old.links end.0 line }
        ensures made { IsConeFor net.now self.new }
        ensures links { self.new.links ≡ self.old.links }
        ensures cone { IsConeAt net.now end.0 self.new }
    {
        number_sources(net.sources(), self.current.found.lines(), &mut self.numbers);
        list_sources(self.numbers.as_slice(), &mut self.current.sources);
        rank_gates(
            net,
            self.current.found.lines(),
            self.ranks.as_slice(),
            &mut self.numbers,
        );
        list_gates(
            self.numbers.as_slice(),
            self.order.as_slice(),
            &mut self.current.gates,
        );
        self.current.end = Some(end);
    }

    /// The links that stand.
    pub fn links(&self) -> &SourceLinks
        ensures { result.now ≡ self.now.links }
    {
        &self.links
    }

    /// A mark for each line of the netlist, true at the lines of the cone.
    pub fn marks(&self) -> &[bool]
        ensures places { length result.now ≡ self.now.found.room }
        ensures exactly { (line : ℕ) → HasMark result.now line ↔ Contains self.now.found.lines (record { 0 = line }) }
    {
        self.current.found.marks()
    }

    /// The lines of the cone, in no order that matters.
    pub fn lines(&self) -> &[LineId]
        ensures { result.now ≡ self.now.found.lines }
    {
        self.current.found.lines()
    }

    /// The sources of the cone, in rising order.
    pub fn sources(&self) -> &[LineId]
        ensures { result.now ≡ self.now.sources }
    {
        self.current.sources.as_slice()
    }

    /// The gates of the cone in rank order, so that each stands behind those whose lines it reads.
    pub fn gates(&self) -> &[GateId]
        ensures { result.now ≡ self.now.gates }
    {
        self.current.gates.as_slice()
    }
}
