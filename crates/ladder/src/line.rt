// The lines of a ladder, and their names.
ghost use Rattle.std.specs.Prelude.{◌≡◌, IfOk};
ghost use Rattle.netlist.specs.Names.{IsName};
ghost use Rattle.ladder.specs.Ladder.{ladder_name, letter_byte};

use pd_base::{OutOfMemory, push_decimal};
use std::alloc::Global;

/// The lines of a stage, by the letters of their names.
#[derive(Clone, Copy)]
pub(crate) enum Letter {
    /// The line that leaves the stage. That of stage 0 is the source before the first stage.
    X,
    /// The source at the first branch.
    P,
    /// The source at the second branch.
    Q,
    /// The first branch.
    U,
    /// The second branch.
    V,
}

impl Letter {
    // The byte that stands for it in a name.
    fn byte(self) -> u8
        ensures { result ≡ letter_byte self }
    {
        match self {
            Letter::X => b'x',
            Letter::P => b'p',
            Letter::Q => b'q',
            Letter::U => b'u',
            Letter::V => b'v',
        }
    }
}

/// A line of a ladder.
#[derive(Clone, Copy)]
pub(crate) struct LadderLine {
    pub(crate) letter: Letter,
    /// The number of its stage.
    pub(crate) stage: u32,
}

impl LadderLine {
    // The line of this letter at a stage.
    pub(crate) fn new(letter: Letter, stage: u32) -> LadderLine
        ensures { result ≡ record { letter = letter; stage = stage } }
    {
        LadderLine { letter, stage }
    }

    // The name of the line: its letter and the number of its stage.
    pub(crate) fn name(self, alloc: Global) -> Result<Vec<u8>, OutOfMemory>
        ensures bytes { IfOk result (λ name. name.items ≡ ladder_name self.letter self.stage) }
        ensures lawful { IfOk result (λ name. IsName name.items) }
    {
        let mut name = Vec::new(alloc);
        name.push(self.letter.byte())?;
        push_decimal(&mut name, u64::from(self.stage))?;
        Ok(name)
    }
}
