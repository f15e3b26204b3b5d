// On which decisions a conflict rests, by the trail: from the last change back, a change of a line that matters is a decision, or
// comes from the lines of a gate or of a link, which then matter too.
ghost use Rattle.std.specs.Prelude.{◌≡◌, ◌<◌, All, IfOk};
ghost use Rattle.netlist.specs.Circuit.{gate_count, line_count};

use crate::activity::Activity;
use crate::changes::{Cause, Change};
use crate::link_ends::LinkEnds;
use cones::FoundLines;
use netlist::Netlist;
use pd_base::{GateId, LineId, OutOfMemory};
use std::alloc::Global;
use std::marker::Model;

// The decisions on which a conflict rests. Contracts see how many lines there are.
#[derive(Drop)]
pub(crate) struct Culprits {
    // The lines that matter.
    matters: FoundLines,
    // By place of a decision, whether the conflict rests on it.
    flags: Vec<bool>,
}

impl Model for Culprits {
    ghost use Rattle.std.specs.Prelude.{ℕ};

    ghost Value = { ℕ };

    ghost view = { λ c. c.matters.room };
}

impl Culprits {
    // No conflict yet.
    pub(crate) fn new(alloc: Global, net: &Netlist) -> Result<Culprits, OutOfMemory>
        ensures { IfOk result (λ c. c ≡ line_count net.now) }
    {
        let matters = FoundLines::new(alloc, net.lines() as usize)?;
        Ok(Culprits {
            matters,
            flags: Vec::new(alloc),
        })
    }

    // Finds the decisions, of so many, on which the conflict at a gate or a link rests, and makes the lines more active that matter.
    pub(crate) fn blame(
        &mut self,
        net: &Netlist,
        links: &LinkEnds,
        changes: &[Change],
        cause: Cause,
        decisions: usize,
        activity: &mut Activity,
    ) -> Result<(), OutOfMemory>
        requires lines { self.old ≡ line_count net.now }
        requires changes { All (λ change. change.line.0 < line_count net.now) changes.now }
        ensures { self.new ≡ self.old }
    {
        lower_all(&mut self.flags, decisions)?;
        self.mark_cause(net, links, cause);
        for change in changes.iter().rev() {
            self.follow(net, links, change);
        }
        if !links.is_empty() {
            activity.rest_on(self.matters.lines());
        }
        self.matters.clear();
        Ok(())
    }

    // Follows a change back to its cause, if its line matters.
    fn follow(&mut self, net: &Netlist, links: &LinkEnds, change: &Change)
        requires lines { self.old ≡ line_count net.now }
        requires line { change.now.line.0 < line_count net.now }
        ensures { self.new ≡ self.old }
    {
        if self.matters.marks()[change.line.0 as usize] {
            self.mark_cause(net, links, change.cause);
        }
    }

    // From now on the decision matters, or the lines of the gate or of the link.
    fn mark_cause(&mut self, net: &Netlist, links: &LinkEnds, cause: Cause)
        requires { self.old ≡ line_count net.now }
        ensures { self.new ≡ self.old }
    {
        match cause {
            Cause::Decision(place) => self.put(place),
            Cause::Gate(gate) => self.mark_lines(net, gate),
            Cause::Link(source) => {
                self.mark(net, source);
                if let Some(line) = links.line_of(source) {
                    self.mark(net, line);
                }
            }
        }
    }

    // From now on a line matters, if it is one of the netlist.
    fn mark(&mut self, net: &Netlist, line: LineId)
        requires { self.old ≡ line_count net.now }
        ensures { self.new ≡ self.old }
    {
        if line.0 < net.lines() {
            self.matters.add(line);
        }
    }

    // From now on the lines of a gate matter. A gate past the last has none.
    fn mark_lines(&mut self, net: &Netlist, gate: GateId)
        requires { self.old ≡ line_count net.now }
        ensures { self.new ≡ self.old }
    {
        if gate.0 >= net.gates() {
            return;
        }
        add_lines(net, gate, &mut self.matters);
    }

    // The conflict rests on the decision at a place, if there is one.
    pub(crate) fn put(&mut self, place: usize)
        ensures { self.new ≡ self.old }
    {
        if place < self.flags.len() {
            self.flags[place] = true;
        }
    }

    // Whether the conflict rests on the decision at a place, which is then left out.
    pub(crate) fn take(&mut self, place: usize) -> bool
        ensures { self.new ≡ self.old }
    {
        if place >= self.flags.len() {
            return false;
        }
        let found = self.flags[place];
        self.flags[place] = false;
        found
    }

    // Adds the places of the decisions on which it rests to a list.
    pub(crate) fn list(&self, places: &mut Vec<usize>) -> Result<(), OutOfMemory> {
        for (place, found) in self.flags.iter().enumerate() {
            if *found {
                places.push(place)?;
            }
        }
        Ok(())
    }
}

// Adds the lines of a gate: its own, and those that it reads. Inlined, and the two of most gates without a loop, since it is asked at each
// change on which a conflict rests.
#[inline(always)]
pub(crate) fn add_lines(net: &Netlist, gate: GateId, found: &mut FoundLines)
    requires gate { gate.0 < gate_count net.now }
    requires room { found.old.room ≡ line_count net.now }
    ensures { found.new.room ≡ found.old.room }
{
    found.add(net.line_of(gate));
    let pins = net.pins(gate);
    if let [first, second] = pins {
        found.add(*first);
        found.add(*second);
        return;
    }
    found.add_all(pins);
}

// So many flags, all of them down.
fn lower_all(flags: &mut Vec<bool>, count: usize) -> Result<(), OutOfMemory> {
    flags.clear();
    for _ in 0..count {
        flags.push(false)?;
    }
    Ok(())
}
