// The tree that a search grows: its nodes in preorder, and the places behind them at which trees are still due.
ghost use Rattle.std.specs.Prelude.{◌≡◌, ◌-◌, ◌<◌, ◌^◌, ◌∷◌, [], IfOk};
ghost use Rattle.justify.specs.Growths.{root_place, IsSplitAt, IsHalfPlace};

use crate::closers::Closers;
use hulls::half_states;
use implication::ScopeMark;
use pd_base::{LineId, OutOfMemory};
use search_hints::Frontier;
use state_laws::Split;
use state_sets::{Algebra, StateSet, every_state};
use std::alloc::Global;
use trees::Node;

/// How far it was looked in vain at the node above. Below it labels have no more states, so there is nothing to find there either, and it
/// is looked first from there on. These are hints, of which nothing is proved: whatever they are, what is found is right.
#[derive(Clone, Copy)]
pub(crate) struct Sought {
    /// How far nothing was open.
    pub frontier: Frontier,
    /// So many sources of the cone, from the first one on, could not be split.
    pub sources: usize,
}

/// A place at which a tree is due: the scope goes back to the mark, and a set is assumed of a source.
#[derive(Clone, Copy)]
pub(crate) struct Place {
    /// What stood where the node above was split.
    pub mark: ScopeMark,
    /// The source of the split.
    pub source: LineId,
    /// The states that the source may be in at this place.
    pub set: StateSet,
    /// How far nothing was found at the node above.
    pub sought: Sought,
    /// What closed the trial of that node, if it is kept.
    pub closers: Option<Closers>,
}

/// The tree that a search grows.
#[derive(Drop)]
pub(crate) struct Growth {
    /// The nodes so far, in preorder.
    pub nodes: Vec<Node>,
    /// The places at which trees are still due, the next one last.
    pub places: Vec<Place>,
    /// How many of the nodes are splits.
    pub splits: u32,
}

impl Growth {
    /// At first there is the place of the root, at which nothing new is assumed: every state of a source. The one error is that memory
    /// ran out.
    pub(crate) fn new<A: Algebra>(
        alloc: Global,
        mark: ScopeMark,
        source: LineId,
    ) -> Result<Growth, OutOfMemory>
        ensures nodes { IfOk result (λ growth. growth.nodes.items ≡ []) }
        ensures places { IfOk result (λ growth. growth.places.items
            ≡ root_place A.algebra.count mark source ∷ []) }
        ensures splits { IfOk result (λ growth. growth.splits ≡ 0) }
    {
        let mut places = Vec::new(alloc);
        places.push(Place {
            mark,
            source,
            set: every_state::<A>(),
            sought: Sought {
                frontier: Frontier {
                    steps: 0,
                    begun_lines: 0,
                    changes: 0,
                },
                sources: 0,
            },
            closers: None,
        })?;
        Ok(Growth {
            nodes: Vec::new(alloc),
            places,
            splits: 0,
        })
    }

    // Adds a split, and the places of its two halves, the first half next.
    pub(crate) fn split<A: Algebra>(
        &mut self,
        split: Split,
        mark: ScopeMark,
        sought: Sought,
        closers: &Option<Closers>,
    ) -> Result<(), OutOfMemory>
        requires { self.old.splits < 2 ^ 32 - 1 }
        ensures { IfOk result (λ done. IsSplitAt A.algebra split mark closers.now self.old self.new) }
    {
        self.nodes.push(Node::Split(split))?;
        self.places
            .push(half_place::<A>(split, mark, sought, *closers, true))?;
        self.places
            .push(half_place::<A>(split, mark, sought, *closers, false))?;
        self.splits += 1;
        Ok(())
    }
}

// The place of a half of a split.
fn half_place<A: Algebra>(
    split: Split,
    mark: ScopeMark,
    sought: Sought,
    closers: Option<Closers>,
    second: bool,
) -> Place
    ensures { IsHalfPlace A.algebra split mark closers second result }
{
    Place {
        mark,
        source: split.line,
        set: half_states::<A>(split.kind, second),
        sought,
        closers,
    }
}
