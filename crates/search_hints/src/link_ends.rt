// Links of sources and lines, to be followed both ways: the line to which a source is linked, and the sources that are linked to a line,
// one after another. Where there are no links, nothing is kept.
use netlist::Netlist;
use pd_base::{LineId, OutOfMemory};
use std::alloc::Global;

// What is kept of a line.
#[derive(Clone, Copy)]
struct LinkEnd {
    // of a source: one more than the number of the line to which it is linked, or 0
    line: u32,
    // one more than the number of the last source that is linked to the line, or 0
    head: u32,
    // of a source: one more than the number of the one before it at the same line, or 0
    next: u32,
}

/// The links of a netlist, none of whose sources has two.
#[derive(Drop)]
pub(crate) struct LinkEnds {
    ends: Vec<LinkEnd>,
}

impl LinkEnds {
    // These links.
    pub(crate) fn new(
        alloc: Global,
        net: &Netlist,
        links: &[(LineId, LineId)],
    ) -> Result<LinkEnds, OutOfMemory> {
        let room = if links.is_empty() {
            0
        } else {
            net.lines() as usize
        };
        let no_end = LinkEnd {
            line: 0,
            head: 0,
            next: 0,
        };
        let mut ends = LinkEnds {
            ends: vec![in alloc; no_end; room]?,
        };
        for link in links {
            ends.add(link.0, link.1);
        }
        Ok(ends)
    }

    // Adds a link, where both are lines of the netlist.
    fn add(&mut self, source: LineId, line: LineId) {
        let from = source.0 as usize;
        let to = line.0 as usize;
        if from < self.ends.len() && to < self.ends.len() {
            self.ends[from].line = line.0.wrapping_add(1);
            self.ends[from].next = self.ends[to].head;
            self.ends[to].head = source.0.wrapping_add(1);
        }
    }

    // Whether there is no link.
    pub(crate) fn is_empty(&self) -> bool {
        self.ends.is_empty()
    }

    // For how many lines something is kept: for all, or for none where there is no link.
    pub(crate) fn room(&self) -> usize {
        self.ends.len()
    }

    // Whether a link has this line among its two.
    pub(crate) fn touch(&self, line: LineId) -> bool {
        let at = line.0 as usize;
        at < self.ends.len() && (self.ends[at].line != 0 || self.ends[at].head != 0)
    }

    // The line to which a source is linked, if it is.
    pub(crate) fn line_of(&self, source: LineId) -> Option<LineId> {
        let end = self.at(source)?;
        line_below(end.line)
    }

    // The last source that is linked to a line, if one is.
    pub(crate) fn source_of(&self, line: LineId) -> Option<LineId> {
        let end = self.at(line)?;
        line_below(end.head)
    }

    // The source before another one that is linked to the same line.
    pub(crate) fn source_before(&self, source: LineId) -> Option<LineId> {
        let end = self.at(source)?;
        line_below(end.next)
    }

    // What is kept of a line, if anything is.
    fn at(&self, line: LineId) -> Option<LinkEnd> {
        let at = line.0 as usize;
        if at < self.ends.len() {
            Some(self.ends[at])
        } else {
            None
        }
    }
}

// The line whose number is one less, if there is one.
fn line_below(number: u32) -> Option<LineId> {
    if number == 0 {
        None
    } else {
        Some(LineId(number - 1))
    }
}
