// Judges finished pairs of vectors, one path at a time, within the cone of the path's end: its lines are put into their states under the
// pair, and the path's conditions are read on them. And reads off states at the sources of a cone the pair that keeps links.
ghost use Rattle.std.specs.Prelude.{◌≡◌, ◌↔◌, ◌<◌, ℕ, length, All, IfOk, IsTrue, []};
ghost use Rattle.cones.specs.FoundLines.{HasMark};
ghost use Rattle.cones.specs.KeptCones.{IsConeFor, IsConeAt};
ghost use Rattle.netlist.specs.Circuit.{source_count, line_count};
ghost use Rattle.netlist.specs.Conditions.{Meets};
ghost use Rattle.netlist.specs.LinkedPairs.{AreLinksOf};
ghost use Rattle.netlist.specs.Paths.{IsPrefix, end_of};
ghost use Rattle.netlist.specs.Values.{value};
ghost use Rattle.pair_judging.specs.ConeStates.{AreSourceStates, HasConeStates, IsLinkedFrom};
ghost use Rattle.pair_judging.specs.Judges.{IsJudgeOf};
ghost use Rattle.pair_judging.specs.SourceBits.{HasStateBits, AreLinkBits};
ghost use Rattle.pair_judging.specs.Targets.{seen_target};

use crate::judging::{Judgement, compute_all};
use crate::line_values::LineValues;
use crate::path_ends::end_of;
use crate::path_states::judge_steps;
use crate::source_bits::{give_first_bits, take_pair, write_bits, write_links};
use crate::target::Target;
use cones::{Cone, SourceLinks};
use netlist::Netlist;
use pd_base::{OutOfMemory, Pair, Path};
use state_sets::{Algebra, FourStates, State};
use std::alloc::Global;
use std::marker::Model;

/// A judge of pairs of vectors on one netlist, which serves any number of paths.
#[derive(Drop)]
pub struct ConeJudge {
    cone: Cone,
    // by line; those of the cone are the ones under the pair that was judged last
    states: Vec<State>,
    // of all lines, under the first vector of the last pair that was read where a source is linked to a gate's line
    values: LineValues,
}

impl Model for ConeJudge {
    ghost use Rattle.pair_judging.specs.Judges.{KeptJudge};

    ghost Value = { KeptJudge };

    ghost view = { λ j. record { cone = j.cone; states = j.states.items; values = j.values } };
}

impl ConeJudge {
    /// A judge for this netlist. The one error is that memory ran out.
    pub fn new(alloc: Global, net: &Netlist) -> Result<ConeJudge, OutOfMemory>
        ensures { IfOk result (IsJudgeOf 4 net.now) }
    {
        let states = vec![in alloc; State(0); net.lines() as usize]?;
        let values = LineValues::new(alloc, net)?;
        let cone = Cone::new(alloc, net, &[])?;
        Ok(ConeJudge {
            cone,
            states,
            values,
        })
    }

    /// Whether the pair is a test for this target. The pair has one bit per
    /// source, and the judge was made for this netlist, for which it serves any further call. What a test shows of the path is said at
    /// `meets` of path_model, which gives the same answer at the cost of the circuit. Takes no memory.
    pub fn meets(&mut self, net: &Netlist, target: &Target, pair: &Pair) -> bool
        requires judge { IsJudgeOf 4 net.now self.old }
        requires prefix { IsPrefix net.now target.now.path.now }
        requires bits { length pair.now.first ≡ source_count net.now }
        ensures judge { IsJudgeOf 4 net.now self.new }
        ensures meets { IsTrue result ↔ Meets net.now (seen_target target.now) pair.now }
    {
        self.take_states::<FourStates>(net, target.path, pair);
        match judge_steps::<FourStates>(net, target, self.states.as_slice()) {
            Judgement::IsTest => true,
            Judgement::FailsAt(_, _) => false,
        }
    }

    // Puts the lines of the cone of a path's end into their states under a pair.
    fn take_states<A: Algebra>(&mut self, net: &Netlist, path: &Path, pair: &Pair)
        requires judge { IsJudgeOf A.algebra.count net.now self.old }
        requires prefix { IsPrefix net.now path.now }
        requires bits { length pair.now.first ≡ source_count net.now }
        ensures judge { IsJudgeOf A.algebra.count net.now self.new }
        ensures states { HasConeStates A.algebra net.now (end_of net.now path.now) self.new.states pair.now }
    {
        let end = end_of(net, path);
        self.cone.set_end(net, end);
        let ConeJudge { cone, states, .. } = self;
        let states = states.as_mut_slice();
        take_pair::<A>(cone.sources(), pair, states);
        compute_all::<A>(net, cone.gates(), states);
    }

    /// The pair that has the first values of these states at the sources of a cone, and keeps the links; a source of the cone without a
    /// link has the last value of its state too. At the other sources its first vector is 0, and the second where no link tells its bit.
    /// The cone is another than the one that the judge keeps. The one error is that memory ran out, and the judge serves any further call
    /// then too.
    pub fn read_linked<A: Algebra>(
        &mut self,
        alloc: Global,
        net: &Netlist,
        cone: &Cone,
        states: &[State],
    ) -> Result<Pair, OutOfMemory>
        requires judge { IsJudgeOf 4 net.now self.old }
        requires made { IsConeFor net.now cone.now }
        requires sources { All (λ source. source.0 < source_count net.now) cone.now.sources }
        requires places { length states.now ≡ line_count net.now }
        requires states { AreSourceStates A.algebra cone.now.sources states.now }
        ensures judge { IsJudgeOf 4 net.now self.new }
        ensures linked { IfOk result (λ pair. (end : ℕ) → IsConeAt net.now end cone.now → IsLinkedFrom net.now cone.now.links end pair) }
        ensures bits { IfOk result (λ pair. (end : ℕ) → IsConeAt net.now end cone.now
            → HasStateBits A.algebra net.now cone.now.links end states.now pair) }
    {
        let places = net.sources() as usize;
        let mut first = vec![in alloc; false; places]?;
        let mut second = vec![in alloc; false; places]?;
        write_bits::<A>(
            cone.sources(),
            states,
            first.as_mut_slice(),
            second.as_mut_slice(),
        );
        self.give_link_bits(net, cone.links(), first.as_slice(), second.as_mut_slice());
        Ok(Pair::new(first, second))
    }

    // Gives each linked source the first value of its line as its second bit: where a line is a gate's, by the values of all lines under
    // the first vector.
    fn give_link_bits(
        &mut self,
        net: &Netlist,
        links: &SourceLinks,
        first: &[bool],
        second: &mut [bool],
    )
        requires judge { IsJudgeOf 4 net.now self.old }
        requires links { AreLinksOf net.now links.now }
        requires first { length first.now ≡ source_count net.now }
        requires second { length second.old ≡ source_count net.now }
        ensures judge { IsJudgeOf 4 net.now self.new }
        ensures places { length second.new ≡ length second.old }
        ensures linked { AreLinkBits (value net.now first.now) links.now (HasMark []) second.old second.new }
    {
        if give_first_bits(net, links, &[], first, second) {
            return;
        }
        self.values.set(net, first);
        write_links(links.pairs(), &[], self.values.values(), second);
    }
}
