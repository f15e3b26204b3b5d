// The verdict that the fields of a line of the report spell, by what the lines before it named.
ghost use Rattle.std.specs.Prelude.{◌≡◌, ◌≤◌, ◌+◌, ◌↔◌, IsTrue, codes, decimal};
ghost use Rattle.runs.specs.Lawful.{IsProofNumber, NamesOn, named_with};
ghost use Rattle.text_pieces.specs.Tokens.{comma};
ghost use Rattle.text_pieces.specs.Cuts.{pieces_left};
ghost use Rattle.text_pieces.specs.Reads.{Reads};
ghost use Rattle.run_files.specs.ReportForm.{IsNextVerdict};
ghost use Rattle.run_files.specs.ReportReading.{four_fields, named_by, verdict_lent};
ghost use Rattle.run_files.specs.ReportText.{nothing, verdict_fields};

use crate::report_fields::{VerdictFields, read_verdict_fields};
use runs::Verdict;
use text_pieces::{is_number, read_number};

/// What the verdicts of the lines so far have named: so many tests, and proofs up to this number.
#[derive(Clone, Copy)]
pub(crate) struct NamedSoFar {
    pub(crate) tests: u32,
    pub(crate) proofs: u32,
}

/// The verdict that the fields left spell.
pub(crate) fn read_verdict(named: NamedSoFar, left: Option<&[u8]>) -> Option<Verdict>
    requires tests { named.tests + 1 ≤ u32.MAX }
    requires proofs { named.proofs + 2 ≤ u32.MAX }
    ensures { Reads verdict_fields (IsNextVerdict (named_by named)) (pieces_left comma left.entry) result }
{
    let fields = read_verdict_fields(left)?;
    verdict_of(named, fields)
}

/// What is named with one verdict more.
pub(crate) fn named_with(named: NamedSoFar, verdict: Verdict) -> NamedSoFar
    requires tests { named.tests + 1 ≤ u32.MAX }
    requires names { NamesOn (named_by named) verdict }
    ensures named { named_by result ≡ named_with (named_by named) verdict }
    ensures tests { result.tests ≤ named.tests + 1 }
    ensures proofs { result.proofs ≤ named.proofs + 2 }
{
    match verdict {
        Verdict::Robust { .. } => NamedSoFar {
            tests: named.tests + 1,
            ..named
        },
        Verdict::Nonrobust { proof, .. } => NamedSoFar {
            tests: named.tests + 1,
            proofs: named.proofs.max(proof),
        },
        Verdict::Untestable { proof } => NamedSoFar {
            proofs: named.proofs.max(proof),
            ..named
        },
        Verdict::Aborted { robust, nonrobust } => NamedSoFar {
            proofs: named.proofs.max(robust).max(nonrobust),
            ..named
        },
    }
}

// The verdict of these fields.
fn verdict_of(named: NamedSoFar, fields: VerdictFields) -> Option<Verdict>
    requires tests { named.tests + 1 ≤ u32.MAX }
    requires proofs { named.proofs + 2 ≤ u32.MAX }
    ensures { Reads verdict_fields (IsNextVerdict (named_by named)) (four_fields (verdict_lent fields.entry)) result }
{
    if fields.word == b"robust".as_slice() {
        robust_of(named, fields)
    } else if fields.word == b"nonrobust".as_slice() {
        nonrobust_of(named, fields)
    } else if fields.word == b"untestable".as_slice() {
        untestable_of(named, fields)
    } else if fields.word == b"aborted".as_slice() {
        aborted_of(named, fields)
    } else {
        None
    }
}

// The verdict of a robust test, of which no proof is told.
fn robust_of(named: NamedSoFar, fields: VerdictFields) -> Option<Verdict>
    requires word { fields.word.now ≡ codes "robust" }
    requires tests { named.tests + 1 ≤ u32.MAX }
    ensures { Reads verdict_fields (IsNextVerdict (named_by named)) (four_fields (verdict_lent fields.entry)) result }
{
    if !is_nothing(fields.robust_proof) {
        return None;
    }
    if !is_nothing(fields.nonrobust_proof) {
        return None;
    }
    let test = named.tests + 1;
    if !is_number(fields.test, test) {
        return None;
    }
    Some(Verdict::Robust { test })
}

// The verdict of a nonrobust test, with the proof that there is no robust one.
fn nonrobust_of(named: NamedSoFar, fields: VerdictFields) -> Option<Verdict>
    requires word { fields.word.now ≡ codes "nonrobust" }
    requires tests { named.tests + 1 ≤ u32.MAX }
    requires proofs { named.proofs + 1 ≤ u32.MAX }
    ensures { Reads verdict_fields (IsNextVerdict (named_by named)) (four_fields (verdict_lent fields.entry)) result }
{
    if !is_nothing(fields.nonrobust_proof) {
        return None;
    }
    let test = named.tests + 1;
    if !is_number(fields.test, test) {
        return None;
    }
    let proof = read_proof_number(fields.robust_proof, named.proofs)?;
    Some(Verdict::Nonrobust { test, proof })
}

// The verdict of a refutation.
fn untestable_of(named: NamedSoFar, fields: VerdictFields) -> Option<Verdict>
    requires word { fields.word.now ≡ codes "untestable" }
    requires proofs { named.proofs + 1 ≤ u32.MAX }
    ensures { Reads verdict_fields (IsNextVerdict (named_by named)) (four_fields (verdict_lent fields.entry)) result }
{
    if !is_nothing(fields.test) {
        return None;
    }
    if !is_nothing(fields.robust_proof) {
        return None;
    }
    let proof = read_proof_number(fields.nonrobust_proof, named.proofs)?;
    Some(Verdict::Untestable { proof })
}

// The verdict of a spent budget, with the proof that there is no robust test before that.
fn aborted_of(named: NamedSoFar, fields: VerdictFields) -> Option<Verdict>
    requires word { fields.word.now ≡ codes "aborted" }
    requires proofs { named.proofs + 2 ≤ u32.MAX }
    ensures { Reads verdict_fields (IsNextVerdict (named_by named)) (four_fields (verdict_lent fields.entry)) result }
{
    if !is_nothing(fields.test) {
        return None;
    }
    let robust = read_proof_number(fields.robust_proof, named.proofs)?;
    let nonrobust = read_proof_number(fields.nonrobust_proof, named.proofs.max(robust))?;
    Some(Verdict::Aborted { robust, nonrobust })
}

// Whether a field says nothing.
fn is_nothing(field: &[u8]) -> bool
    ensures { IsTrue result ↔ (field.now ≡ nothing) }
{
    field == b"-".as_slice()
}

// The number of a proof that was named, up to the greatest one, or of the next.
fn read_proof_number(field: &[u8], greatest: u32) -> Option<u32>
    requires { greatest + 1 ≤ u32.MAX }
    ensures { Reads decimal (IsProofNumber greatest) field.now result }
{
    let number = read_number(field, greatest + 1)?;
    if number == 0 {
        return None;
    }
    Some(number)
}
