// On which lines late conflicts of proposals rested: each conflict makes the lines heavier on which it rests, and a later one by more than
// an earlier one; the last lines that were so are kept, each once, the oldest one leaving for a new one. A hint alone.
ghost use Rattle.std.specs.Prelude.{◌≡◌, ◌<◌, length, IfSome};
ghost use Rattle.netlist.specs.Circuit.{line_count};

use crate::decisions::is_open_inside;
use crate::region::Region;
use crate::weights::Weights;
use pd_base::{LineId, OutOfMemory};
use state_sets::{Algebra, StateSet};
use std::alloc::Global;

// How many lines are kept.
const MOST_LATE: usize = 128;
// How many of one conflict come to these at most.
const MOST_OF_ONE: u32 = 64;
// A conflict adds more than the one before it by this part.
const GROWTH_PART: u64 = 20;

// Where a line was found not to be open: its label, and how many changes led there. As long as none of these is taken back, and the
// line keeps its label, it is not open, since the labels of other lines lose states alone.
#[derive(Clone, Copy)]
struct Closed {
    label: StateSet,
    changes: usize,
}

// A late line.
#[derive(Clone, Copy)]
struct Late {
    line: LineId,
    closed: Option<Closed>,
}

impl Late {
    // Whether the line is known not to be open, if this is its label.
    fn is_closed_at(&self, label: StateSet) -> bool {
        match self.closed {
            Some(closed) => closed.label == label,
            None => false,
        }
    }

    // So many changes are left, and nothing is known that came of others.
    fn go_back(&mut self, changes: usize) {
        if let Some(closed) = self.closed {
            if closed.changes > changes {
                self.closed = None;
            }
        }
    }
}

/// The weights of the lines of one netlist, and which of them are late.
#[derive(Drop)]
pub(crate) struct Activity {
    weights: Weights,
    // the lines that are late; one past the last stands for none
    late: Vec<Late>,
    // by line, whether it is late
    is_late: Vec<bool>,
    // the place of the next one that leaves
    place: usize,
}

impl Activity {
    // No conflict yet, with room for so many lines.
    pub(crate) fn new(alloc: Global, lines: usize) -> Result<Activity, OutOfMemory> {
        let weights = Weights::new(alloc, lines, GROWTH_PART)?;
        let nowhere = Late {
            line: LineId(4_294_967_295),
            closed: None,
        };
        let late = vec![in alloc; nowhere; MOST_LATE]?;
        let is_late = vec![in alloc; false; lines]?;
        Ok(Activity {
            weights,
            late,
            is_late,
            place: 0,
        })
    }

    // The most active of the late lines that is in the cone and open under these labels, to which so many changes led.
    pub(crate) fn most_active<A: Algebra>(
        &mut self,
        region: &Region,
        labels: &[StateSet],
        changes: usize,
    ) -> Option<LineId>
        requires { length labels.now ≡ line_count region.now.net.now }
        ensures { IfSome result (λ line. line.0 < line_count region.now.net.now) }
    {
        let mut best = None;
        let mut most = 0;
        for place in 0..self.late.len() {
            let line = self.late[place].line;
            let weight = self.weights.of(line);
            if weight > most
                && line.0 < region.net.lines()
                && is_late_open::<A>(region, labels, &mut self.late[place], changes)
            {
                most = weight;
                best = Some(line);
            }
        }
        best
    }

    // So many changes are left.
    pub(crate) fn go_back(&mut self, changes: usize) {
        for late in self.late.iter_mut() {
            late.go_back(changes);
        }
    }

    // Other labels are looked at.
    pub(crate) fn forget_closed(&mut self) {
        for late in self.late.iter_mut() {
            late.closed = None;
        }
    }

    // A conflict rests on these lines.
    pub(crate) fn rest_on(&mut self, lines: &[LineId]) {
        for line in lines {
            self.weights.raise(*line);
        }
        self.weights.grow();
        self.keep(lines);
    }

    // Keeps so many of these lines as one conflict may add.
    fn keep(&mut self, lines: &[LineId]) {
        let mut left = MOST_OF_ONE;
        for line in lines {
            if left == 0 {
                return;
            }
            if self.enter(*line) {
                left -= 1;
            }
        }
    }

    // Keeps a line in place of the oldest one, unless it is kept. Whether it came to them.
    fn enter(&mut self, line: LineId) -> bool {
        let at = line.0 as usize;
        if at >= self.is_late.len() || self.is_late[at] || self.place >= self.late.len() {
            return false;
        }
        let oldest = self.late[self.place].line.0 as usize;
        if oldest < self.is_late.len() {
            self.is_late[oldest] = false;
        }
        self.late[self.place] = Late { line, closed: None };
        self.is_late[at] = true;
        self.place = (self.place + 1) % MOST_LATE;
        true
    }
}

// Whether a late line is in the cone and open under these labels, to which so many changes led. Notes if it is not.
fn is_late_open<A: Algebra>(
    region: &Region,
    labels: &[StateSet],
    late: &mut Late,
    changes: usize,
) -> bool
    requires labels { length labels.now ≡ line_count region.now.net.now }
    requires line { late.old.line.0 < line_count region.now.net.now }
{
    let label = labels[late.line.0 as usize];
    if late.is_closed_at(label) {
        return false;
    }
    let is_open = is_open_inside::<A>(region, labels, late.line);
    if !is_open {
        late.closed = Some(Closed { label, changes });
    }
    is_open
}
