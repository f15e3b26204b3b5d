// The numbers of proofs: each gets the next one when it is first cited, and keeps it. A proof that nobody cites has none.
ghost use Rattle.std.specs.Prelude.{◌≡◌, ◌+◌, ◌<◌, ◌^◌, [], length, map, Some, IfOk, All};
ghost use Rattle.prefix_sensitize.specs.Numbering.{AreCited, Cites, HaveOneNumber};

use pd_base::OutOfMemory;
use runs::Proof;
use std::alloc::Global;
use std::marker::Model;

/// The numbers that were given to some of the proofs that were found, which it knows by their indices.
#[derive(Drop)]
pub(crate) struct Numbering {
    // by index
    numbers: Vec<Option<u32>>,
    // by number
    cited: Vec<usize>,
}

impl Model for Numbering {
    ghost use Rattle.std.specs.Prelude.{length};
    ghost use Rattle.prefix_sensitize.specs.Numbering.{AreKeptNumbers, Citations};

    ghost Value = { Citations };

    ghost view = { λ n. record { found = length n.numbers.items; cited = n.cited.items } };

    ghost invariant = { λ n. AreKeptNumbers n.cited.items n.numbers.items };
}

impl Numbering {
    /// No proof of so many has a number yet.
    pub(crate) fn new(alloc: Global, found: usize) -> Result<Numbering, OutOfMemory>
        ensures { IfOk result (λ numbering. numbering ≡ record { found = found; cited = [] }) }
    {
        Ok(Numbering {
            numbers: vec![in alloc; None; found]?,
            cited: Vec::new(alloc),
        })
    }

    /// The number of the proof of this index, which gets the next one if it was not cited before.
    pub(crate) fn cite(&mut self, index: usize) -> Result<u32, OutOfMemory>
        requires found { index < self.old.found }
        requires few { length self.old.cited + 1 < 2 ^ 32 }
        ensures cites { IfOk result (λ number. Cites self.old.cited self.new.cited index number) }
        ensures found { self.new.found ≡ self.old.found }
    {
        match self.numbers[index] {
            Some(number) => Ok(number),
            None => {
                self.cited.push(index)?;
                let number = self.cited.len() as u32;
                self.numbers[index] = Some(number);
                Ok(number)
            }
        }
    }

    /// The indices of the cited proofs, in the order of their numbers.
    pub(crate) fn cited(&self) -> &[usize]
        ensures { result.now ≡ self.now.cited }
    {
        self.cited.as_slice()
    }
}

/// The cited ones of these proofs, in the order of their numbers.
pub(crate) fn cited_proofs(
    alloc: Global,
    cited: &[usize],
    found: Vec<Proof>,
) -> Result<Vec<Proof>, OutOfMemory>
    requires found { All (λ index. index < length found.items) cited.now }
    requires once { HaveOneNumber cited.now }
    ensures { IfOk result (λ written. AreCited cited.now found.items written.items) }
{
    let mut left = left_of(alloc, found)?;
    let mut written = Vec::with_capacity(alloc, cited.len())?;
    for index in cited {
        match left[*index].take() {
            Some(proof) => written.push(proof)?,
            None => unreachable!(),
        }
    }
    Ok(written)
}

// All of these, each to be taken out once.
fn left_of(alloc: Global, found: Vec<Proof>) -> Result<Vec<Option<Proof>>, OutOfMemory>
    ensures { IfOk result (λ left. left.items ≡ map Some found.items) }
{
    let mut left = Vec::with_capacity(alloc, found.len())?;
    for proof in found {
        left.push(Some(proof))?;
    }
    Ok(left)
}
