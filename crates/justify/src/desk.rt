// The buffers of searches: the cone of one path's end, the states in which its sources were judged last, and what the last trial and
// the last test were. A search takes memory for these only where lists of what it tried and decided grow, and under links for frames of
// ends; it clears no more than the cones before and after. But each tree by weights copies the labels of all lines once, where it begins.
ghost use Rattle.std.specs.Prelude.{◌≡◌, ◌<◌, IfOk};
ghost use Rattle.netlist.specs.LinkedPairs.{FitRules};
ghost use Rattle.trees.specs.Algebras.{algebra_of};
ghost use Rattle.pair_judging.specs.ConeStates.{AreStates};
ghost use Rattle.justify.specs.Desks.{IsDeskFor, IsSameDesk};

use crate::closers::Closers;
use crate::trial::Tried;
use cones::Cone;
use netlist::Netlist;
use pair_judging::ConeJudge;
use pd_base::{OutOfMemory, Rules};
use search_hints::{Blame, Justifier};
use state_sets::{Algebra, State, StateSet, every_state};
use std::alloc::Global;

/// The buffers of searches on one netlist. One desk serves them all, one after another.
#[derive(Drop)]
pub struct Desk {
    pub(crate) cone: Cone,
    // by line; those of the cone's sources tell the pair that is judged
    pub(crate) states: Vec<State>,
    pub(crate) blame: Blame,
    // what was tried last through a scope
    pub(crate) tried: Vec<Tried>,
    // what was tried at other nodes, in the least states of the node at hand
    pub(crate) renewed: Vec<Tried>,
    // what closed the last trial that was gone through, if it is kept
    pub(crate) closers: Option<Closers>,
    // by line; what it is liked to be in: the states with the last value that the last test gave it, or all
    pub(crate) liked: Vec<StateSet>,
    pub(crate) justifier: Justifier,
    // judges proposals under links
    pub(crate) judge: ConeJudge,
}

impl Desk {
    /// A desk for searches on this netlist under these rules, with the kind of states that is theirs. The one error is that memory ran
    /// out.
    pub fn new<A: Algebra>(alloc: Global, net: &Netlist, rules: &Rules) -> Result<Desk, OutOfMemory>
        requires states { A.algebra ≡ algebra_of rules.now }
        requires fit { FitRules net.now rules.now }
        ensures { IfOk result (IsDeskFor A.algebra net.now rules.now) }
    {
        // What has most parts is made last, since each refusal drops what was made before.
        let lines = net.lines() as usize;
        let states = vec![in alloc; State(0); lines]?;
        let liked = vec![in alloc; every_state::<A>(); lines]?;
        let blame = Blame::new(alloc, net)?;
        let cone = Cone::new(alloc, net, rules.links())?;
        let judge = ConeJudge::new(alloc, net)?;
        let justifier = Justifier::new::<A>(alloc, net, rules.links())?;
        Ok(Desk {
            cone,
            states,
            blame,
            tried: Vec::new(alloc),
            renewed: Vec::new(alloc),
            closers: None,
            liked,
            justifier,
            judge,
        })
    }

    // From now on the lines of the two frames are liked to be as the proposal has them that was made last.
    pub(crate) fn like<A: Algebra>(&mut self)
        ensures { IsSameDesk self.old self.new }
    {
        self.justifier.like::<A>(self.liked.as_mut_slice());
    }

    // From now on each line of the cone is liked to have the last value that it has now, and under links the first one too.
    pub(crate) fn keep<A: Algebra>(&mut self)
        requires { AreStates A.algebra.count self.old.states.items }
        ensures { IsSameDesk self.old self.new }
    {
        let Desk {
            cone,
            states,
            liked,
            justifier,
            ..
        } = self;
        for line in cone.lines() {
            let at = line.0 as usize;
            if at < liked.len() && at < states.len() {
                liked[at] = justifier.liked::<A>(states[at]);
            }
        }
    }
}
