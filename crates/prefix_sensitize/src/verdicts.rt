// Gives the verdicts: each fault gets its test, or the numbers of the proofs that it needs, fault by fault in the order of the report.
ghost use Rattle.std.specs.Prelude.{◌≡◌, ◌+◌, ◌-◌, ◌<◌, ◌^◌, ◌↔◌, [], length, IfOk, IsTrue, All};
ghost use Rattle.pd_base.specs.Target.{target_of};
ghost use Rattle.netlist.specs.Circuit.{source_count};
ghost use Rattle.netlist.specs.Conditions.{Meets};
ghost use Rattle.netlist.specs.Lawful.{IsCircuit};
ghost use Rattle.netlist.specs.Paths.{IsPrefix};
ghost use Rattle.pair_judging.specs.Judges.{IsJudgeOf};
ghost use Rattle.good_runs.specs.Faults.{HasProof};
ghost use Rattle.justify.specs.Tests.{IsFitTest};
ghost use Rattle.prefix_sensitize.specs.Outcomes.{IsOutcome};
ghost use Rattle.prefix_sensitize.specs.Searches.{AreFaultOutcomes, Searches};
ghost use Rattle.prefix_sensitize.specs.Numbering.{AreCited, HaveOneNumber};
ghost use Rattle.prefix_sensitize.specs.Answers.{AddsTest, IsAnswered, IsAsked, IsWriterFor, written_by};

use crate::all_outcomes::FaultOutcomes;
use crate::numbering::{Numbering, cited_proofs};
use crate::outcome::RowOutcome;
use netlist::Netlist;
use pair_judging::{ConeJudge, Target};
use pd_base::{Direction, Items, Kind, OutOfMemory, Pair, Path, Test};
use runs::{Proof, Verdict};
use std::alloc::Global;

/// A fault of a listed path: the number of the path among those that are listed, from 1 on, the path, and the transition at its source.
#[derive(Clone, Copy)]
pub(crate) struct ListedFault<'p> {
    pub(crate) number: u32,
    pub(crate) path: &'p Path,
    pub(crate) direction: Direction,
}

/// What is written of a run so far, and the proofs that were found.
#[derive(Drop)]
pub(crate) struct Writer {
    alloc: Global,
    judge: ConeJudge,
    /// The proofs, in the order of finding.
    pub(crate) found: Vec<Proof>,
    /// The numbers of those that were cited.
    pub(crate) numbering: Numbering,
    /// The tests, in the order of their numbers. They expect no bits yet.
    pub(crate) tests: Vec<Test>,
}

impl Writer {
    /// Nothing is written yet.
    pub(crate) fn new(
        alloc: Global,
        net: &Netlist,
        found: Vec<Proof>,
    ) -> Result<Writer, OutOfMemory>
        ensures nothing { IfOk result (λ writer. written_by writer ≡ record { tests = []; cited = [] }) }
        ensures judge { IfOk result (λ writer. IsJudgeOf 4 net.now writer.judge) }
        ensures found { IfOk result (λ writer. writer.found ≡ found) }
        ensures numbers { IfOk result (λ writer. writer.numbering.found ≡ length found.items) }
        ensures circuit { IfOk result (λ _. IsCircuit net.now) }
    {
        // a netlist is a circuit
        let _ = net.sources();
        let numbering = Numbering::new(alloc, found.len())?;
        let judge = ConeJudge::new(alloc, net)?;
        Ok(Writer {
            alloc,
            judge,
            numbering,
            found,
            tests: Vec::new(alloc),
        })
    }

    /// The verdict on the fault of the listed path of this number and this direction. A fault is robust where a search gave a robust
    /// test, or a nonrobust one that is robust after all; nonrobust where one gave a test that is nonrobust only; untestable where the
    /// nonrobust conditions are refuted; and aborted where the budget was spent.
    pub(crate) fn answer(
        &mut self,
        net: &Netlist,
        fault: &ListedFault,
        outcomes: FaultOutcomes,
    ) -> Result<Verdict, OutOfMemory>
        ghost searches: { Searches }
        requires asked { IsAsked net.now searches fault.now.number fault.now.path.now self.old }
        requires outcomes { AreFaultOutcomes net.now searches.rules searches.routes searches.proofs (fault.now.number - 1) fault.now.direction fault.now.path.now outcomes }
        ensures answered { IfOk result (λ verdict. IsAnswered net.now searches fault.now.number fault.now.direction fault.now.path.now (written_by self.old) (written_by self.new) verdict) }
        ensures writer { IfOk result (λ _. IsWriterFor net.now searches self.new) }
    {
        let FaultOutcomes { robust, nonrobust } = outcomes;
        match robust {
            RowOutcome::Unsearched => unreachable!(),
            RowOutcome::Tested(pair) => {
                let test = add_test(self.alloc, &mut self.tests, fault, Kind::Robust, pair)?;
                Ok(Verdict::Robust { test })
            }
            RowOutcome::Proved(proof) => { self.not_robust(net, fault, proof, nonrobust) }
        }
    }

    // The verdict where the proof of this index shows that no robust test was found.
    fn not_robust(
        &mut self,
        net: &Netlist,
        fault: &ListedFault,
        proof: usize,
        nonrobust: RowOutcome,
    ) -> Result<Verdict, OutOfMemory>
        ghost searches: { Searches }
        requires asked { IsAsked net.now searches fault.now.number fault.now.path.now self.old }
        requires robust { HasProof searches.routes searches.proofs fault.now.number (target_of fault.now.path.now fault.now.direction Kind.Robust) (proof + 1) }
        requires nonrobust { IsOutcome net.now searches.rules searches.routes searches.proofs (fault.now.number - 1) (target_of fault.now.path.now fault.now.direction Kind.Nonrobust) nonrobust }
        ensures answered { IfOk result (λ verdict. IsAnswered net.now searches fault.now.number fault.now.direction fault.now.path.now (written_by self.old) (written_by self.new) verdict) }
        ensures writer { IfOk result (λ _. IsWriterFor net.now searches self.new) }
    {
        match nonrobust {
            RowOutcome::Unsearched => unreachable!(),
            RowOutcome::Tested(pair) => self.by_pair(net, fault, proof, pair),
            RowOutcome::Proved(index) => {
                if self.found[index].spent {
                    let robust = self.numbering.cite(proof)?;
                    let nonrobust = self.numbering.cite(index)?;
                    Ok(Verdict::Aborted { robust, nonrobust })
                } else {
                    let proof = self.numbering.cite(index)?;
                    Ok(Verdict::Untestable { proof })
                }
            }
        }
    }

    // The verdict by the pair that the nonrobust search gave, where the proof of this index shows that the robust one gave none.
    fn by_pair(
        &mut self,
        net: &Netlist,
        fault: &ListedFault,
        proof: usize,
        pair: Pair,
    ) -> Result<Verdict, OutOfMemory>
        ghost searches: { Searches }
        requires asked { IsAsked net.now searches fault.now.number fault.now.path.now self.old }
        requires robust { HasProof searches.routes searches.proofs fault.now.number (target_of fault.now.path.now fault.now.direction Kind.Robust) (proof + 1) }
        requires nonrobust { IsFitTest net.now searches.rules (target_of fault.now.path.now fault.now.direction Kind.Nonrobust) pair }
        ensures answered { IfOk result (λ verdict. IsAnswered net.now searches fault.now.number fault.now.direction fault.now.path.now (written_by self.old) (written_by self.new) verdict) }
        ensures writer { IfOk result (λ _. IsWriterFor net.now searches self.new) }
    {
        // a netlist is a circuit
        let _ = net.sources();
        let refuted = !self.found[proof].spent;
        if is_robust(net, fault, refuted, &pair, &mut self.judge) {
            let test = add_test(self.alloc, &mut self.tests, fault, Kind::Robust, pair)?;
            return Ok(Verdict::Robust { test });
        }
        let proof = self.numbering.cite(proof)?;
        let test = add_test(self.alloc, &mut self.tests, fault, Kind::Nonrobust, pair)?;
        Ok(Verdict::Nonrobust { test, proof })
    }

    /// The tests, and the cited proofs, each in the order of their numbers.
    pub(crate) fn into_parts(self) -> Result<(Vec<Test>, Vec<Proof>), OutOfMemory>
        requires found { All (λ index. index < length self.found.items) self.numbering.cited }
        requires once { HaveOneNumber self.numbering.cited }
        ensures tests { IfOk result (λ parts. parts.0 ≡ self.tests) }
        ensures proofs { IfOk result (λ parts. AreCited self.numbering.cited self.found.items parts.1.items) }
    {
        let Writer {
            alloc,
            judge: _,
            found,
            numbering,
            tests,
        } = self;
        let proofs = cited_proofs(alloc, numbering.cited(), found)?;
        Ok((tests, proofs))
    }
}

// Whether the pair that a nonrobust search gave is a robust test. Where the robust conditions are refuted none is, and the pair need
// not be judged.
fn is_robust(
    net: &Netlist,
    fault: &ListedFault,
    refuted: bool,
    pair: &Pair,
    judge: &mut ConeJudge,
) -> bool
    requires prefix { IsPrefix net.now fault.now.path.now }
    requires refuted { IsTrue refuted → ¬ Meets net.now (target_of fault.now.path.now fault.now.direction Kind.Robust) pair.now }
    requires bits { length pair.now.first ≡ source_count net.now }
    requires judge { IsJudgeOf 4 net.now judge.old }
    ensures robust { IsTrue result ↔ Meets net.now (target_of fault.now.path.now fault.now.direction Kind.Robust) pair.now }
    ensures judge { IsJudgeOf 4 net.now judge.new }
{
    if refuted {
        return false;
    }
    let robust = Target {
        path: fault.path,
        direction: fault.direction,
        kind: Kind::Robust,
    };
    judge.meets(net, &robust, pair)
}

// Adds a test under the next number. It expects no bits yet.
fn add_test(
    alloc: Global,
    tests: &mut Vec<Test>,
    fault: &ListedFault,
    kind: Kind,
    pair: Pair,
) -> Result<u32, OutOfMemory>
    requires { length tests.old.items + 1 < 2 ^ 32 }
    ensures { IfOk result (λ number. AddsTest tests.old.items tests.new.items fault.now.number fault.now.direction kind pair number) }
{
    tests.push(Test {
        path: fault.number,
        dir: fault.direction,
        kind,
        pair,
        expected: Items::new(Vec::new(alloc)),
    })?;
    Ok(tests.len() as u32)
}
