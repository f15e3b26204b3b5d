// What an engine is made of: a board with what narrows it, idle as it is made, and the lists of what is assumed, each made by itself, so
// that few values stand at once where memory may run out.
//
// The lists have room for all that can stand at once: for each state of each line, and for each level, an assumption of 12 bytes and what
// stood before it of 16; and a byte for each line. Under six states these are 169 bytes for a line and 28 for a level, so 44 million at the
// most lines and levels.
ghost use Rattle.std.specs.Prelude.{◌≡◌, ◌<◌, ◌≤◌, ◌+◌, ◌++◌, true, [], length, replicate, vec_capacity, IfOk};
ghost use Rattle.pd_base.specs.declared.fault.Kind.TheVariants.{Robust};
ghost use Rattle.netlist.specs.Circuit.{gate_count, line_count};
ghost use Rattle.netlist.specs.LinkedPairs.{AreLinksOf};
ghost use Rattle.netlist.specs.Lawful.{IsCircuit};
ghost use Rattle.netlist.specs.Levels.{greatest_level};
ghost use Rattle.state_sets.specs.States.{all_states};
ghost use Rattle.state_laws.specs.Cones.{IsClosedBack};
ghost use Rattle.hulls.specs.Awaiting.{is_inside};
ghost use Rattle.implication.specs.Idling.{IsIdleBoard};
ghost use Rattle.implication.specs.Kept.{most_assumptions};

use crate::Assumption;
use crate::before::Before;
use crate::idle::IdleLabels;
use hulls::{Board, Conditions, NarrowScratch};
use netlist::Netlist;
use pd_base::{Kind, LineId, OutOfMemory, Rules};
use state_sets::{Algebra, StateSet, count_states, every_state};
use std::alloc::Global;

// A board, what it gets back when no scope is open, and what narrows it.
#[derive(Drop)]
pub(crate) struct BoardParts<A: Algebra> {
    pub(crate) board: Board<A>,
    pub(crate) idle: IdleLabels,
    pub(crate) conditions: Conditions,
    pub(crate) scratch: NarrowScratch,
}

impl<A: Algebra> BoardParts<A> {
    // An idle board, with these gates and links inside. It fails only where memory runs out.
    pub(crate) fn new(
        alloc: Global,
        net: &Netlist,
        rules: &Rules,
        inside: Vec<bool>,
        links: &[(LineId, LineId)],
    ) -> Result<BoardParts<A>, OutOfMemory>
        requires gates { length inside.items ≡ gate_count net.now }
        requires closed { IsClosedBack net.now (is_inside inside.items) }
        requires of { AreLinksOf net.now links.now }
        ensures idle { IfOk result (λ parts. IsIdleBoard A.algebra net.now rules.now parts.idle parts.board) }
        ensures inside { IfOk result (λ parts. parts.board.inside ≡ inside.items ++ replicate (length links.now) true) }
        ensures links { IfOk result (λ parts. parts.board.links ≡ links.now) }
        ensures conditions { IfOk result (λ parts. parts.conditions
            ≡ record { kind = Robust; gates = gate_count net.now; room = greatest_level net.now; steps = [] }) }
    {
        let conditions = Conditions::new(alloc, net, Kind::Robust)?;
        let mut scratch = NarrowScratch::new();
        let mut board = Board::within(alloc, net, inside, &[])?;
        let idle = IdleLabels::new(alloc, net, rules, &mut board, &conditions, &mut scratch)?;
        // the idle labels are computed before the links stand
        let board = board.with_links(alloc, net, links)?;
        Ok(BoardParts {
            board,
            idle,
            conditions,
            scratch,
        })
    }
}

// The lists of assumptions and of what stood before each, both empty, and what is left of each line, all states.
#[derive(Drop)]
pub(crate) struct Lists {
    pub(crate) assumptions: Vec<Assumption>,
    /// What stood before each assumption.
    pub(crate) befores: Vec<Before>,
    /// What is left of each line.
    pub(crate) left: Vec<StateSet>,
}

impl Lists {
    // With room for every list of assumptions. It fails only where memory runs out.
    pub(crate) fn new<A: Algebra>(alloc: Global, net: &Netlist) -> Result<Lists, OutOfMemory>
        ensures circuit { IsCircuit net.now }
        ensures none_assumed { IfOk result (λ lists. lists.assumptions.items ≡ []) }
        ensures none_before { IfOk result (λ lists. lists.befores.items ≡ []) }
        ensures left { IfOk result (λ lists. lists.left.items ≡ replicate (line_count net.now) (all_states A.algebra.count)) }
        ensures room { IfOk result (λ lists. most_assumptions A.algebra.count net.now ≤ vec_capacity lists.assumptions) }
        ensures befores_room { IfOk result (λ lists. most_assumptions A.algebra.count net.now ≤ vec_capacity lists.befores) }
    {
        let most = most_assumptions::<A>(net);
        let assumptions = Vec::with_capacity(alloc, most)?;
        let befores = Vec::with_capacity(alloc, most)?;
        let left = vec![in alloc; every_state::<A>(); net.lines() as usize]?;
        Ok(Lists {
            assumptions,
            befores,
            left,
        })
    }
}

// The most assumptions that can stand at once: of each line as many sets as there are states, since each takes some state away,
// and as many pins as there are levels.
fn most_assumptions<A: Algebra>(net: &Netlist) -> usize
    ensures room { most_assumptions A.algebra.count net.now ≤ result }
    ensures circuit { IsCircuit net.now }
{
    count_states::<A>() as usize * net.lines() as usize + net.levels() as usize
}
