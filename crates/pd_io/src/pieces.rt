// Texts that are made piece by piece, so that none has to stand whole in memory.
ghost use Rattle.std.specs.Prelude.{◌≡◌, ℕ, ◌+◌, ◌<◌, List, [], ◌++◌, IfOk, OnOk};

use pd_base::OutOfMemory;
use std::alloc::Global;

/// A text that is made piece by piece: a head, and behind it one item after another.
pub trait Pieces {
    /// What the text asks of what it spells.
    ghost can_spell: { Self → Type 0 };

    /// The whole text.
    ghost text: { Self → List ℕ };

    /// How many items the text has.
    ghost total: { Self → ℕ };

    /// The bytes of the item of this number, from 0, and of all items behind it.
    ghost left: { Self → ℕ → List ℕ };

    /// How many items the text has behind its head.
    fn count(&self) -> usize
        ensures count { result ≡ total self.now }
        ensures end { left self.now result ≡ [] };

    /// Appends the head. If memory runs out, a part of it may have been appended; so too below.
    fn push_head(&self, out: &mut Vec<u8>) -> Result<(), OutOfMemory>
        requires { can_spell self.now }
        ensures { OnOk result (out.new.items ++ left self.now 0 ≡ out.old.items ++ text self.now) };

    /// Appends the item of this number, from 0.
    fn push_item(&self, index: usize, out: &mut Vec<u8>) -> Result<(), OutOfMemory>
        requires spelled { can_spell self.now }
        requires within { index < total self.now }
        ensures { OnOk result
            (out.new.items ++ left self.now (index + 1) ≡ out.old.items ++ left self.now index) };
}

/// The whole text of pieces. It fails only where memory runs out.
pub fn whole_text<P: Pieces>(alloc: Global, pieces: &P) -> Result<Vec<u8>, OutOfMemory>
    requires { P.can_spell pieces.now }
    ensures { IfOk result (λ text. text.items ≡ P.text pieces.now) }
{
    let mut text = Vec::new(alloc);
    pieces.push_head(&mut text)?;
    for index in 0..pieces.count() {
        pieces.push_item(index, &mut text)?;
    }
    Ok(text)
}
