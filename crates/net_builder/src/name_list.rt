// A list of names in one text: a netlist has many short names, and a vector for each would take more room than its bytes. The end of each
// name is kept in four bytes: names of 2^32 bytes together count as want of memory, and a text that is read, of at most 33,554,432 bytes,
// is far from it.
ghost use Rattle.std.specs.Prelude.{◌≡◌, ◌+◌, ◌^◌, ◌<◌, ◌≤◌, List, ℕ, [], ◌∷◌, ◌++◌, length, map, slice_index_or, MatchOption, OnOk, OnErr};
ghost use Rattle.netlist.specs.NameTexts.{bytes_of};
ghost use Rattle.net_builder.specs.NameLists.{HasMoreNames, parts, Reach};

use pd_base::{Items, OutOfMemory};
use std::alloc::Global;
use std::marker::Model;

/// A list that names are only put behind. Contracts see it as the list of the names. They stand in the text one after
/// another, with nothing between, so the end of each is kept alone. All of them have less than 2^32 bytes.
#[derive(Drop)]
pub(crate) struct NameList {
    text: Vec<u8>,
    ends: Vec<u32>,
}

impl Model for NameList {
    ghost use Rattle.std.specs.Prelude.{List, ℕ};

    ghost Value = { List (List ℕ) };

    ghost use Rattle.net_builder.specs.NameLists.{names_in, AreEnds};

    ghost view = { names_in };

    ghost invariant = { AreEnds };
}

impl NameList {
    /// No names.
    pub(crate) fn new(alloc: Global) -> NameList
        ensures { result ≡ [] }
    {
        NameList {
            text: Vec::new(alloc),
            ends: Vec::new(alloc),
        }
    }

    /// The number of names.
    pub(crate) fn len(&self) -> usize
        ensures { result ≡ length self.now }
    {
        self.ends.len()
    }

    /// The name at a place.
    pub(crate) fn get(&self, place: usize) -> &[u8]
        requires { place < length self.now }
        ensures { result.now ≡ slice_index_or self.now place [] }
    {
        part_at(self.text.as_slice(), self.ends.as_slice(), place)
    }

    /// The name that stands so many places behind another place.
    pub(crate) fn get_behind(&self, place: usize, count: usize) -> &[u8]
        requires { place + count < length self.now }
        ensures { result.now ≡ slice_index_or self.now (place + count) [] }
    {
        part_at(self.text.as_slice(), self.ends.as_slice(), place + count)
    }

    /// Puts a name last. Where memory runs out, or the text would have 2^32 bytes, the list is as before.
    pub(crate) fn push(&mut self, name: &[u8]) -> Result<(), OutOfMemory>
        ensures pushed { OnOk result (self.new ≡ self.old ++ name.now ∷ []) }
        ensures kept { OnErr result (self.new ≡ self.old) }
    {
        let Some(end) = end_of(self.text.len(), name.len()) else {
            return Err(OutOfMemory::of_size(self.text.len() + name.len(), 1));
        };
        self.ends.reserve(1)?;
        self.text.extend_from_slice(name)?;
        self.ends.push(end).unwrap();
        Ok(())
    }

    /// Puts these names last. Where memory runs out some of them may stand there.
    pub(crate) fn push_all(&mut self, names: &[&[u8]]) -> Result<(), OutOfMemory>
        ensures pushed { OnOk result (self.new ≡ self.old ++ bytes_of names.now) }
        ensures grown { HasMoreNames self.old self.new }
    {
        for name in names {
            self.push(name)?;
        }
        Ok(())
    }

    /// Puts these names last. Where memory runs out some of them may stand there.
    pub(crate) fn push_items(&mut self, names: &[Items<u8>]) -> Result<(), OutOfMemory>
        ensures pushed { OnOk result (self.new ≡ self.old ++ names.now) }
        ensures grown { HasMoreNames self.old self.new }
    {
        for name in names {
            self.push(name.as_slice())?;
        }
        Ok(())
    }
}

#[tactic(auto, using(crate::proofs::NameParts::begins_before, crate::proofs::NameParts::ends_within,))]
// The part of the text that ends at the end at this place, and begins where the one before it ended.
fn part_at<'t>(text: &'t [u8], ends: &[u32], place: usize) -> &'t [u8]
    requires place { place < length ends.now }
    requires ends { Reach 0 ends.now (length text.now) }
    ensures { result.now ≡ slice_index_or (parts text.now 0 ends.now) place [] }
{
    let start = start_of(ends, place);
    &text[start..ends[place] as usize]
}

// Where the part begins that ends at the end at this place: at the end before it.
fn start_of(ends: &[u32], place: usize) -> usize
    requires { place < length ends.now }
    ensures { result ≡ slice_index_or (0 ∷ ends.now) place 0 }
{
    if place == 0 {
        0
    } else {
        ends[place - 1] as usize
    }
}

// Where a name of this length ends behind a text of that length, if that is below 2^32.
fn end_of(text: usize, name: usize) -> Option<u32>
    ensures { MatchOption result (2 ^ 32 ≤ text + name) (λ end. end ≡ text + name) }
{
    u32::try_from(text.checked_add(name)?).ok()
}
