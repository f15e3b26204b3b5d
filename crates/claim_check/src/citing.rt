// Whether a verdict cites the proofs that it has to: the refutation of the least number that applies, or, where none does, a proof that the
// budget was spent.
ghost use Rattle.std.specs.Prelude.{◌≡◌, ◌↔◌, IsTrue, Some};
ghost use Rattle.pd_base.specs.Target.{target_of};
ghost use Rattle.good_runs.specs.Faults.{CitesSpent, routes_of};
ghost use Rattle.good_runs.specs.GoodRun.{HasNonrobustProof, HasRobustProof};
ghost use Rattle.claim_check.specs.FaultsInRows.{SaysSpentOn};
ghost use Rattle.claim_check.specs.Prefixes.{IsLeastRefutation};
ghost use Rattle.claim_check.specs.Right.{CitesItsProofs};

use crate::fault::Fault;
use crate::numbered::numbered;
use pd_base::{Direction, Kind};
use runs::{Proof, Run, Verdict};

// Whether the verdict on a fault cites the proofs that it has to.
pub(crate) fn shares_proofs(run: &Run, fault: &Fault) -> bool
    requires robust { IsLeastRefutation (routes_of run.now) run.now.proofs (target_of fault.now.path.now fault.now.direction Kind.Robust) fault.now.robust }
    requires nonrobust { IsLeastRefutation (routes_of run.now) run.now.proofs (target_of fault.now.path.now fault.now.direction Kind.Nonrobust) fault.now.nonrobust }
    ensures { IsTrue result ↔ CitesItsProofs run.now fault.now.number fault.now.direction fault.now.path.now fault.now.verdict }
{
    match fault.verdict {
        Verdict::Robust { .. } => true,
        Verdict::Nonrobust { proof, .. } => has_robust_proof(run, fault, proof),
        Verdict::Untestable { proof } => is_number(fault.nonrobust, proof),
        Verdict::Aborted { robust, nonrobust } => {
            has_robust_proof(run, fault, robust) && has_nonrobust_proof(run, fault, nonrobust)
        }
    }
}

// Whether a number is this one.
fn is_number(found: Option<u32>, number: u32) -> bool
    ensures { IsTrue result ↔ (found ≡ Some number) }
{
    match found {
        Some(other) => other == number,
        None => false,
    }
}

// Whether the proof of this number shows that the fault was given no robust test.
fn has_robust_proof(run: &Run, fault: &Fault, proof: u32) -> bool
    requires { IsLeastRefutation (routes_of run.now) run.now.proofs (target_of fault.now.path.now fault.now.direction Kind.Robust) fault.now.robust }
    ensures { IsTrue result ↔ HasRobustProof run.now fault.now.number fault.now.direction fault.now.path.now proof }
{
    match fault.robust {
        Some(least) => proof == least,
        None => cites_spent(
            run.proofs.as_slice(),
            Kind::Robust,
            fault.direction,
            fault.number,
            proof,
        ),
    }
}

// Whether the proof of this number spent the budget on a nonrobust test, and no refutation applies.
fn has_nonrobust_proof(run: &Run, fault: &Fault, proof: u32) -> bool
    requires { IsLeastRefutation (routes_of run.now) run.now.proofs (target_of fault.now.path.now fault.now.direction Kind.Nonrobust) fault.now.nonrobust }
    ensures { IsTrue result ↔ HasNonrobustProof run.now fault.now.number fault.now.direction fault.now.path.now proof }
{
    match fault.nonrobust {
        Some(_) => false,
        None => cites_spent(
            run.proofs.as_slice(),
            Kind::Nonrobust,
            fault.direction,
            fault.number,
            proof,
        ),
    }
}

// Whether the proof of this number says that the budget was spent on the listed path of another number.
fn cites_spent(proofs: &[Proof], kind: Kind, direction: Direction, path: u32, number: u32) -> bool
    ensures { IsTrue result ↔ CitesSpent proofs.now kind direction path number }
{
    match numbered(proofs, number) {
        Some(proof) => is_spent_on(proof, kind, direction, path),
        None => false,
    }
}

// Whether a proof says that the budget was spent on a listed path.
fn is_spent_on(proof: &Proof, kind: Kind, direction: Direction, path: u32) -> bool
    ensures { IsTrue result ↔ SaysSpentOn kind direction path proof.now }
{
    proof.spent && proof.kind == kind && proof.dir == direction && proof.path == path
}
