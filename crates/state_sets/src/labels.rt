// A set of states for each line.
ghost use Rattle.std.specs.Prelude.{◌≡◌, ◌<◌, ◌++◌, ℕ, bit_and, length, take, drop, slice_set, IfOk, IsTrue, replicate};
ghost use Rattle.std.specs.Borrow.{sem, Lends, Array};
ghost use Rattle.netlist.specs.Circuit.{line_count};
ghost use Rattle.state_sets.specs.States.{all_states, both_sets};
ghost use Rattle.state_sets.specs.Labellings.{label_at};

use crate::algebra::every_state;
use crate::{Algebra, StateSet};
use netlist::Netlist;
use pd_base::{LineId, OutOfMemory};
use std::alloc::Global;
use std::marker::{Model, PhantomData};

/// The labels of all lines, by line number. Contracts see the list of the sets.
#[derive(Drop)]
pub struct Labels<A: Algebra> {
    sets: Vec<StateSet>,
    of: PhantomData<A>,
}

impl<A: Algebra> Model for Labels<A> {
    ghost use Rattle.std.specs.Prelude.{List};
    ghost use Rattle.state_sets.specs.declared.state.StateSet.{StateSet};

    ghost Value = { List StateSet };

    ghost view = { λ l. l.sets.items };
}

impl<A: Algebra> Labels<A> {
    ghost use Rattle.state_sets.specs.contracts.labels.Labels.{the_row};
    ghost use Rattle.state_sets.specs.contracts.state.StateSet.{the_row as state_set};

    /// All states at each line of the netlist.
    pub fn full(alloc: Global, net: &Netlist) -> Result<Labels<A>, OutOfMemory>
        ensures { IfOk result (λ l. l ≡ replicate (line_count net.now) (all_states A.algebra.count)) }
    {
        let sets = vec![in alloc; every_state::<A>(); net.lines() as usize]?;
        Ok(Labels {
            sets,
            of: PhantomData,
        })
    }

    /// The set of a line.
    pub fn get(&self, line: LineId) -> StateSet
        requires { line.0 < length self.now }
        ensures { result ≡ label_at self.now line.0 }
    {
        self.sets[line.0 as usize]
    }

    /// The sets of all lines, by line number.
    pub fn as_slice(&self) -> &[StateSet]
        ensures { result.now ≡ self.now }
    {
        self.sets.as_slice()
    }

    /// Cuts the set of a line down to the states that it shares with another set.
    pub fn cut(&mut self, line: LineId, to: StateSet)
        requires { line.0 < length self.old }
        ensures { self.new ≡ slice_set self.old line.0 (both_sets (label_at self.old line.0) to) }
    {
        let at = line.0 as usize;
        self.sets[at] = self.sets[at].intersect(to);
    }

    /// Lends the sets of all lines, by line number. What is written there is in the labels afterwards.
    pub fn as_mut_slice(&mut self) -> &mut [StateSet]
        ensures* writes_back { sem 𝓛 (Lends (the_row A.row A.Algebra) (Array state_set 0) self.entry result (λ written. take (length self.old) (written ++ drop (length written) self.old))) }
        ensures value { result.now ≡ self.old }
    {
        self.sets.as_mut_slice()
    }
}
