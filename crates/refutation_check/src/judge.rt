// The judge of trees: an engine within the ends that it is made for, which judges one tree after another, and under links one of near
// gates, where these are few (near.rt). What is asked of the nodes stands in refutation.rt and spent.rt.
ghost use Rattle.std.specs.Prelude.{◌≡◌, ◌<◌, ◌↔◌, All, false, Some, Ok, IfOk, Contains, IsTrue};
ghost use Rattle.pd_base.specs.Links.{links_of};
ghost use Rattle.pd_base.specs.Target.{target_of};
ghost use Rattle.pd_base.specs.Pair.{Vectors};
ghost use Rattle.pd_base.specs.Route.{Route};
ghost use Rattle.netlist.specs.Circuit.{line_count};
ghost use Rattle.netlist.specs.Conditions.{Meets};
ghost use Rattle.netlist.specs.LinkedPairs.{FitRules, IsOfRules};
ghost use Rattle.netlist.specs.Paths.{IsPrefix, IsPrefixOf, end_of};
ghost use Rattle.state_laws.specs.Steadied.{steadied};
ghost use Rattle.implication.specs.Standing.{told_ends, IsToldBy};
ghost use Rattle.trees.specs.declared.tree.Node.{Node};
ghost use Rattle.trees.specs.Algebras.{algebra_of};
ghost use Rattle.trees.specs.Faults.{IsRightInRefutation, IsRightInSpent};
ghost use Rattle.trees.specs.Refutations.{IsRefutation};
ghost use Rattle.trees.specs.Spent.{IsSpent};
ghost use Rattle.trees.specs.Bounds.{IsBelowBound};
ghost use Rattle.trees.specs.Tried.{ShowsFailures};
ghost use Rattle.refutation_check.specs.Answers.{TellsOfNodes, TellsOfRefutation, TellsOfSpent};
ghost use Rattle.pair_judging.specs.Targets.{seen_target};

use crate::TreeCheck;
use crate::near::spends_near;
use crate::refutation::refutes;
use crate::spent::spends;
use crate::split_ends::{refutes_apart, tells_splits};
use crate::trial::TrialRoom;
use crate::walk::Pending;
use implication::{Engine, RuledNetlist};
use netlist::Netlist;
use pair_judging::Target;
use pd_base::{Direction, Kind, LineId, OutOfMemory, Path, Rules};
use state_sets::Algebra;
use std::alloc::Global;
use std::marker::Model;
use trees::{Node, Tree};

/// A judge of trees of cases for prefixes of paths in one netlist, with the kind of states that its rules choose. One serves for any number
/// of trees, one after another: each costs what the walk over it changes in the cone of its prefix's end, and not the circuit. Only a tree
/// that splits a line outside the cone of the judge's ends, and no source without a link, is judged on an engine of its own, which may cost
/// the circuit; and a spent tree may be walked twice.
///
/// Contracts see for what it is made: the circuit, the rules under which the trees were grown, and the lines in whose support the
/// prefixes end that it can judge.
// No Debug: it would print the labels of all lines, and all private types within would need it.
#[derive(Drop)]
pub struct TreeJudge<'n, A: Algebra> {
    alloc: Global,
    engine: Engine<A, RuledNetlist<'n>>,
    // one of near gates, under links where these are few
    near: Option<Engine<A, RuledNetlist<'n>>>,
    // the second halves that the walk over a tree has put off
    pending: Vec<Pending>,
    room: TrialRoom,
}

impl<'n, A: Algebra> Model for TreeJudge<'n, A> {
    ghost use Rattle.refutation_check.specs.Judges.{MadeFor, IsJudgeReady};

    ghost Value = { MadeFor };

    ghost view = { λ j. record { net = j.engine.net; rules = j.engine.rules; ends = j.engine.ends } };

    ghost invariant = { λ j. IsJudgeReady A.algebra j.engine j.near j.room };
}

impl<'n, A: Algebra> TreeJudge<'n, A> {
    /// A judge for trees under these rules, for the prefixes that end in the support of one of these lines, with the kind of states that
    /// the rules choose. It costs the circuit once, and fails only where memory runs out.
    pub fn new(
        alloc: Global,
        net: &'n Netlist,
        rules: &'n Rules,
        ends: &[LineId],
    ) -> Result<TreeJudge<'n, A>, OutOfMemory>
        requires chosen { A.algebra ≡ algebra_of rules.now }
        requires fit { FitRules net.now rules.now }
        requires ends { All (λ end. end.0 < line_count net.now) ends.now }
        ensures { IfOk result (λ judge. judge ≡ record { net = net.now; rules = rules.now; ends = Some (told_ends ends.now false) }) }
    {
        let room = TrialRoom::new::<A>(alloc, net, rules)?;
        let near = Engine::near_if_few(alloc, RuledNetlist { net, rules }, ends)?;
        let engine = Engine::within(alloc, RuledNetlist { net, rules }, ends)?;
        Ok(TreeJudge {
            alloc,
            engine,
            near,
            pending: Vec::new(alloc),
            room,
        })
    }

    /// Whether a tree refutes the conditions of a kind of test for a prefix and a transition. No names the first node in preorder that is
    /// at fault: an open leaf, a closed leaf whose node does not close, or a split that the rules do not have: under rules One it is at a
    /// source, else at any line, and it is by first values under linked rules alone. It fails only where memory runs out. Of that it takes
    /// some bytes for each half above a node, and as much as an engine for a tree that splits a line outside the cone of the judge's ends,
    /// which is judged on an engine of its own; splits at sources without a link are not such. The judge serves on, whatever the answer.
    pub fn check_tree(
        &mut self,
        prefix: &Path,
        dir: Direction,
        kind: Kind,
        tree: &Tree,
    ) -> Result<TreeCheck, OutOfMemory>
        requires prefix { IsPrefix self.old.net prefix.now }
        requires told { IsToldBy self.old.net (links_of self.old.rules) self.old.ends (end_of self.old.net prefix.now) }
        ensures same { self.new ≡ self.old }
        ensures tells { IfOk result (TellsOfRefutation self.old.net self.old.rules (target_of prefix.now dir kind) tree.now) }
        ensures exactly { IfOk result (λ check.
            (check ≡ TreeCheck.Yes) ↔ IsRefutation self.old.net self.old.rules (target_of prefix.now dir kind) tree.now) }

        // no pair of the rules meets the conditions of a refuted prefix, nor those of a path with this prefix
        ensures excludes { result ≡ Ok TreeCheck.Yes → (path : Route) → IsPrefix self.old.net path → IsPrefixOf prefix.now path
            → (pair : Vectors) → IsOfRules self.old.net self.old.rules pair → ¬ Meets self.old.net (target_of path dir kind) pair }
        // steadying a pair at the other sources, as rules Two ask, loses no test
        ensures steadied { (pair : Vectors) → Meets self.old.net (target_of prefix.now dir kind) pair
            → Meets self.old.net (target_of prefix.now dir kind) (steadied self.old.net prefix.now.source.0 pair) }
    {
        // a netlist knows itself as a circuit
        let _ = self.engine.net().sources();
        let target = Target {
            path: prefix,
            direction: dir,
            kind,
        };
        self.refutes_on(&target, tree)
    }

    // What the nodes of a tree tell, on the judge's engine, or where that does not tell the lines that the tree splits, on one that does.
    fn refutes_on(&mut self, target: &Target, tree: &Tree) -> Result<TreeCheck, OutOfMemory>
        requires prefix { IsPrefix self.old.net target.now.path.now }
        requires told { IsToldBy self.old.net (links_of self.old.rules) self.old.ends (end_of self.old.net target.now.path.now) }
        ensures same { self.new ≡ self.old }
        ensures fit { FitRules self.old.net self.old.rules }
        ensures tells { IfOk result (TellsOfNodes (IsRightInRefutation self.old.net self.old.rules (seen_target target.now)) tree.now) }
    {
        if tells_splits(&self.engine, tree.nodes()) {
            return refutes(&mut self.engine, &mut self.pending, target, tree);
        }
        refutes_apart::<A>(
            self.alloc,
            self.engine.net(),
            self.engine.rules(),
            &mut self.pending,
            target,
            tree,
        )
    }

    /// Whether a tree shows that a budget was spent on a path and a transition under the conditions of a kind of test. No(0) where it has
    /// more or fewer splits than the budget, or no open leaf. Else No names the first node in preorder that is at fault: a closed leaf
    /// whose node does not close; an open leaf or a split whose node closes, or whose trial does not; a split at a line that is no source
    /// of the support, one by first values, or one whose source has no state of some half in the hull. After Yes the budget is below four
    /// to the power of one less than the number of sources in the support, or below two to that power where the other sources are held
    /// steady. It fails only where memory runs out, of which it takes some bytes for each half above a node; the judge serves on, whatever
    /// the answer.
    pub fn check_spent(
        &mut self,
        path: &Path,
        dir: Direction,
        kind: Kind,
        budget: u32,
        tree: &Tree,
    ) -> Result<TreeCheck, OutOfMemory>
        requires prefix { IsPrefix self.old.net path.now }
        requires told { IsToldBy self.old.net (links_of self.old.rules) self.old.ends (end_of self.old.net path.now) }
        ensures same { self.new ≡ self.old }
        ensures tells { IfOk result (TellsOfSpent self.old.net self.old.rules (target_of path.now dir kind) budget tree.now) }
        ensures exactly { IfOk result (λ check.
            (check ≡ TreeCheck.Yes) ↔ IsSpent self.old.net self.old.rules (target_of path.now dir kind) budget tree.now) }
        ensures bound { result ≡ Ok TreeCheck.Yes → IsBelowBound self.old.net self.old.rules path.now budget }
        // at each split and each open leaf there is a pair with the least states, and it is no test
        ensures shows { result ≡ Ok TreeCheck.Yes
            → ShowsFailures self.old.net self.old.rules (target_of path.now dir kind) tree.now }
    {
        // a netlist knows itself as a circuit
        let _ = self.engine.net().sources();
        if tree.splits() != budget || !has_open(tree.nodes()) {
            return Ok(TreeCheck::No(0));
        }
        let target = Target {
            path,
            direction: dir,
            kind,
        };
        if self.spends_near(&target, tree)? {
            return Ok(TreeCheck::Yes);
        }
        spends(
            &mut self.engine,
            &mut self.pending,
            &mut self.room,
            &target,
            tree,
        )
    }

    // Whether each node of a tree is as a tree asks that spent its budget, as far as the engine of near gates shows it, if there is one.
    // False tells nothing.
    fn spends_near(&mut self, target: &Target, tree: &Tree) -> Result<bool, OutOfMemory>
        requires prefix { IsPrefix self.old.net target.now.path.now }
        ensures same { self.new ≡ self.old }
        ensures fit { FitRules self.old.net self.old.rules }
        ensures right { IfOk result (λ right. IsTrue right
            → TellsOfNodes (IsRightInSpent self.old.net self.old.rules (seen_target target.now)) tree.now TreeCheck.Yes) }
    {
        match &mut self.near {
            Some(near) => spends_near(near, &mut self.pending, &mut self.room, target, tree),
            None => Ok(false),
        }
    }
}

// Whether some leaf is open.
fn has_open(nodes: &[Node]) -> bool
    ensures { IsTrue result ↔ Contains nodes.now Node.Waiting }
{
    nodes.contains(&Node::Waiting)
}
