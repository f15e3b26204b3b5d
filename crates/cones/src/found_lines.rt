// Lines that are found one after another, each once. A mark by line tells whether it was found, and the list of those that were lets
// the marks be taken away without a pass over all lines.
ghost use Rattle.std.specs.Prelude.{◌≡◌, ◌<◌, ◌≤◌, ◌↔◌, ◌∷◌, [], ℕ, length, All, IfOk, IsTrue, Contains};
ghost use Rattle.cones.specs.FoundLines.{HasMark, FindsMore};

use pd_base::{LineId, OutOfMemory};
use std::alloc::Global;
use std::marker::Model;

/// Lines of a circuit, each once, in the order of finding.
#[derive(Drop)]
pub struct FoundLines {
    marks: Vec<bool>,
    lines: Vec<LineId>,
}

impl Model for FoundLines {
    ghost use Rattle.std.specs.Prelude.{length, vec_capacity};
    ghost use Rattle.cones.specs.FoundLines.{FoundSet, AreMarked};

    ghost Value = { FoundSet };

    ghost view = { λ f. record { room = length f.marks.items; lines = f.lines.items } };

    ghost invariant = { λ f. AreMarked f.marks.items f.lines.items (vec_capacity f.lines) };
}

impl FoundLines {
    /// No line, with room for so many. The one error is that memory ran out.
    pub fn new(alloc: Global, room: usize) -> Result<FoundLines, OutOfMemory>
        ensures { IfOk result (λ found. found ≡ record { room = room; lines = [] }) }
    {
        let marks = vec![in alloc; false; room]?;
        let lines = Vec::with_capacity(alloc, room)?;
        Ok(FoundLines { marks, lines })
    }

    /// The lines that were found, in the order of finding.
    pub fn lines(&self) -> &[LineId]
        ensures lines { result.now ≡ self.now.lines }
        ensures in_range { All (λ line. line.0 < self.now.room) result.now }
        ensures few { length result.now ≤ self.now.room }
    {
        self.lines.as_slice()
    }

    /// A mark for each line that there may be, true at those that were found.
    pub fn marks(&self) -> &[bool]
        ensures places { length result.now ≡ self.now.room }
        ensures exactly { (line : ℕ) → HasMark result.now line ↔ Contains self.now.lines (record { 0 = line }) }
    {
        self.marks.as_slice()
    }

    /// Finds a line, if it was not found yet. Takes no memory.
    pub fn add(&mut self, line: LineId)
        requires { line.0 < self.old.room }
        ensures { FindsMore (line ∷ []) self.old self.new }
    {
        let at = line.0 as usize;
        if self.marks[at] {
            return;
        }
        self.marks[at] = true;
        self.lines.push_reserved(line);
    }

    /// Finds these lines, as far as they were not found yet. Takes no memory.
    pub fn add_all(&mut self, lines: &[LineId])
        requires { All (λ line. line.0 < self.old.room) lines.now }
        ensures { FindsMore lines.now self.old self.new }
    {
        for line in lines {
            self.add(*line);
        }
    }

    /// No line is found any more. This costs the lines that were found alone.
    pub fn clear(&mut self)
        ensures { self.new ≡ record self.old { lines = [] } }
    {
        clear_marks(self.lines.as_slice(), self.marks.as_mut_slice());
        self.lines.clear();
    }
}

// Takes the marks of these lines away, which are all that there are.
fn clear_marks(lines: &[LineId], marks: &mut [bool])
    requires places { All (λ line. line.0 < length marks.old) lines.now }
    requires all { (line : ℕ) → HasMark marks.old line → Contains lines.now (record { 0 = line }) }
    ensures places { length marks.new ≡ length marks.old }
    ensures none { (line : ℕ) → ¬ HasMark marks.new line }
{
    for line in lines {
        marks[line.0 as usize] = false;
    }
}
