// The two frames of a path's end under links. The second one is the transitive fan-in of the end: of its lines the states count. The
// first one is that of the lines to which its sources are linked: of those of its lines that are not in the second one too, the first
// values count alone, since they count as far as they give last values. What stands behind the first frame gives no value that counts.
// Without links there is the second frame alone, which is the cone, and nothing is kept.
ghost use Rattle.std.specs.Prelude.{◌≡◌, ◌<◌, [], length, All, IfOk, IfSome};
ghost use Rattle.netlist.specs.Circuit.{line_count, HasLines};
ghost use Rattle.search_hints.specs.Drafts.{IsConeIn};

use crate::link_ends::LinkEnds;
use cones::{Cone, FoundLines, SourceLinks, find_back};
use netlist::Netlist;
use pd_base::{GateId, LineId, OutOfMemory};
use std::alloc::Global;
use std::marker::Model;
use std::mem;

// The most ends whose frames are kept beside those at hand, and the most lines of these together.
const MOST_OTHERS: usize = 64;

const MOST_ROOM: usize = 4_194_304;

// The frames of one end. Contracts see for how many lines there is room.
#[derive(Drop)]
struct Frame {
    end: Option<LineId>,
    second: FoundLines,
    // the lines of the first frame, and in the end those of the second one too
    both: FoundLines,
    // the sources of the second frame, and those of the first one
    sources: Vec<LineId>,
    first_sources: Vec<LineId>,
    // the gates of the first frame that are not in the second one, those of the second one, and all of the first one, in rank order
    first_alone: Vec<GateId>,
    second_gates: Vec<GateId>,
    first_gates: Vec<GateId>,
}

impl Model for Frame {
    ghost use Rattle.std.specs.Prelude.{ℕ};
    ghost use Rattle.search_hints.specs.Drafts.{AreFrames};

    ghost Value = { ℕ };

    ghost view = { λ f. f.second.room };

    ghost invariant = { λ f. AreFrames f.second.room f.both.room f.sources.items f.first_sources.items };
}

impl Frame {
    // Those of no end yet.
    fn new(alloc: Global, lines: usize) -> Result<Frame, OutOfMemory>
        ensures { IfOk result (λ frame. frame ≡ lines) }
    {
        let both = FoundLines::new(alloc, lines)?;
        let second = FoundLines::new(alloc, lines)?;
        Ok(Frame {
            end: None,
            second,
            both,
            sources: Vec::new(alloc),
            first_sources: Vec::new(alloc),
            first_alone: Vec::new(alloc),
            second_gates: Vec::new(alloc),
            first_gates: Vec::new(alloc),
        })
    }

    // For how many lines there is room.
    fn room(&self) -> usize
        ensures { result ≡ self.now }
    {
        self.second.marks().len()
    }

    // Whether these are the frames of this end.
    fn is_of(&self, end: LineId) -> bool {
        match self.end {
            Some(own) => own.0 == end.0,
            None => false,
        }
    }

    // Finds the frames of an end, whose cone is at hand. The list is room for the lines to which sources are linked.
    fn find(
        &mut self,
        net: &Netlist,
        links: &LinkEnds,
        no_links: &SourceLinks,
        cone: &Cone,
        end: LineId,
        linked: &mut Vec<LineId>,
    ) -> Result<(), OutOfMemory>
        requires room { self.old ≡ line_count net.now }
        requires unlinked { no_links.now ≡ [] }
        requires cone { IsConeIn net.now cone.now }
        requires end { end.0 < line_count net.now }
        ensures { self.new ≡ self.old }
    {
        self.end = None;
        find_back(net, no_links, &[end], &mut self.second);
        list_sources(cone.sources(), self.second.marks(), &mut self.sources)?;
        list_linked(net, links, self.sources.as_slice(), linked)?;
        find_back(net, no_links, linked.as_slice(), &mut self.both);
        list_sources(cone.sources(), self.both.marks(), &mut self.first_sources)?;
        self.list_gates(net, cone)?;
        self.both.add_all(self.second.lines());
        self.end = Some(end);
        Ok(())
    }

    // Lists the gates of the frames that were found.
    fn list_gates(&mut self, net: &Netlist, cone: &Cone) -> Result<(), OutOfMemory>
        requires room { self.old ≡ line_count net.now }
        requires cone { IsConeIn net.now cone.now }
        ensures { self.new ≡ self.old }
    {
        let first = self.both.marks();
        let second = self.second.marks();
        list_gates(net, cone.gates(), first, second, &mut self.first_alone)?;
        list_gates(net, cone.gates(), second, &[], &mut self.second_gates)?;
        list_gates(net, cone.gates(), first, &[], &mut self.first_gates)
    }
}

// The frames of one end at a time, with those of some ends before it, since searches come back to an end. Contracts see for how many
// lines there is room.
#[derive(Drop)]
pub(crate) struct Frames {
    current: Frame,
    others: Vec<Frame>,
    // how many others there may be, and which of them leaves next
    most: usize,
    next: usize,
    no_links: SourceLinks,
    linked: Vec<LineId>,
}

impl Model for Frames {
    ghost use Rattle.std.specs.Prelude.{ℕ};
    ghost use Rattle.search_hints.specs.Drafts.{AreFramesAlike};

    ghost Value = { ℕ };

    ghost view = { λ f. f.current };

    ghost invariant = { λ f. AreFramesAlike f.current f.others.items f.no_links };
}

impl Frames {
    // Those of no end yet.
    pub(crate) fn new(alloc: Global, net: &Netlist) -> Result<Frames, OutOfMemory>
        ensures { IfOk result (λ frames. frames ≡ line_count net.now) }
    {
        let no_links = SourceLinks::new(alloc, net.sources() as usize, &[])?;
        let lines = net.lines() as usize;
        let current = Frame::new(alloc, lines)?;
        Ok(Frames {
            current,
            others: Vec::new(alloc),
            most: most_others(lines),
            next: 0,
            no_links,
            linked: Vec::new(alloc),
        })
    }

    // Keeps the frames of an end, whose cone is at hand. This takes no time where they are kept already.
    pub(crate) fn set_end(
        &mut self,
        alloc: Global,
        net: &Netlist,
        links: &LinkEnds,
        cone: &Cone,
        end: LineId,
    ) -> Result<(), OutOfMemory>
        requires room { self.old ≡ line_count net.now }
        requires cone { IsConeIn net.now cone.now }
        requires end { end.0 < line_count net.now }
        ensures { self.new ≡ self.old }
    {
        if self.current.is_of(end) {
            return Ok(());
        }
        if let Some(place) = place_of(self.others.as_slice(), end) {
            self.exchange(place);
            return Ok(());
        }
        self.put_aside(alloc)?;
        let Frames {
            current,
            no_links,
            linked,
            ..
        } = self;
        current.find(net, links, no_links, cone, end, linked)
    }

    // Takes the frames of another end, if some stand at this place, and puts those at hand in their place.
    #[tactic(auto, using(crate::proofs::FramesAlike::alike_exchanged))]
    fn exchange(&mut self, place: usize)
        ensures { self.new ≡ self.old }
    {
        if place >= self.others.len() {
            return;
        }
        mem::swap(&mut self.current, &mut self.others[place]);
    }

    // Puts the frames that are at hand aside, and takes others in their place that are to be found anew.
    fn put_aside(&mut self, alloc: Global) -> Result<(), OutOfMemory>
        ensures { self.new ≡ self.old }
    {
        let count = self.others.len();
        if count < self.most {
            self.add(alloc)?;
            self.exchange(count);
            return Ok(());
        }
        let place = self.next;
        self.exchange(place);
        self.next = if place < count && count - place > 1 {
            place + 1
        } else {
            0
        };
        Ok(())
    }

    // Adds frames that are to be found.
    fn add(&mut self, alloc: Global) -> Result<(), OutOfMemory>
        ensures { self.new ≡ self.old }
    {
        let fresh = Frame::new(alloc, self.current.room())?;
        self.others.push(fresh)?;
        Ok(())
    }

    // A mark for each line, true at those of the second frame.
    pub(crate) fn second_marks(&self) -> &[bool]
        ensures { length result.now ≡ self.now }
    {
        self.current.second.marks()
    }

    // A mark for each line, true at those of the two frames.
    pub(crate) fn marks(&self) -> &[bool]
        ensures { length result.now ≡ self.now }
    {
        self.current.both.marks()
    }

    // The lines of the second frame.
    pub(crate) fn second_lines(&self) -> &[LineId]
        ensures { All (λ line. line.0 < self.now) result.now }
    {
        self.current.second.lines()
    }

    // The lines of the two frames.
    pub(crate) fn lines(&self) -> &[LineId]
        ensures { All (λ line. line.0 < self.now) result.now }
    {
        self.current.both.lines()
    }

    // The sources of the second frame.
    pub(crate) fn sources(&self) -> &[LineId]
        ensures { All (λ source. source.0 < self.now) result.now }
    {
        self.current.sources.as_slice()
    }

    // The sources of the first frame.
    pub(crate) fn first_sources(&self) -> &[LineId]
        ensures { All (λ source. source.0 < self.now) result.now }
    {
        self.current.first_sources.as_slice()
    }

    // The gates of the first frame that are not in the second one, in rank order.
    pub(crate) fn first_alone(&self) -> &[GateId] {
        self.current.first_alone.as_slice()
    }

    // The gates of the second frame, in rank order.
    pub(crate) fn second_gates(&self) -> &[GateId] {
        self.current.second_gates.as_slice()
    }

    // The gates of the first frame, in rank order.
    pub(crate) fn first_gates(&self) -> &[GateId] {
        self.current.first_gates.as_slice()
    }
}

// Where the frames of an end stand among others, if they do.
fn place_of(frames: &[Frame], end: LineId) -> Option<usize>
    ensures { IfSome result (λ place. place < length frames.now) }
{
    for place in 0..frames.len() {
        if frames[place].is_of(end) {
            return Some(place);
        }
    }
    None
}

// Of how many ends frames are kept beside, in a netlist of so many lines: of fewer where they take more room.
fn most_others(lines: usize) -> usize {
    if lines == 0 {
        return 0;
    }
    let few = MOST_ROOM / lines;
    if few < MOST_OTHERS { few } else { MOST_OTHERS }
}

// Lists those of these sources that have marks.
fn list_sources(
    sources: &[LineId],
    marks: &[bool],
    list: &mut Vec<LineId>,
) -> Result<(), OutOfMemory>
    ensures { All (λ source. source.0 < length marks.now) list.new.items }
{
    list.clear();
    for source in sources {
        let at = source.0 as usize;
        if at < marks.len() && marks[at] {
            list.push(*source)?;
        }
    }
    Ok(())
}

// Lists those of these gates whose lines have marks, but no marks of the others.
fn list_gates(
    net: &Netlist,
    gates: &[GateId],
    marks: &[bool],
    others: &[bool],
    list: &mut Vec<GateId>,
) -> Result<(), OutOfMemory> {
    list.clear();
    for gate in gates {
        if gate.0 < net.gates() {
            let at = net.line_of(*gate).0 as usize;
            let is_other = at < others.len() && others[at];
            if at < marks.len() && marks[at] && !is_other {
                list.push(*gate)?;
            }
        }
    }
    Ok(())
}

// Lists the lines to which these sources are linked.
fn list_linked(
    net: &Netlist,
    links: &LinkEnds,
    sources: &[LineId],
    list: &mut Vec<LineId>,
) -> Result<(), OutOfMemory>
    ensures { IfOk result (λ done. HasLines net.now list.new.items) }
{
    list.clear();
    for source in sources {
        if let Some(line) = links.line_of(*source)
            && line.0 < net.lines()
        {
            list.push(line)?;
        }
    }
    Ok(())
}
