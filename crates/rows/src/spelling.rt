// The files of a run, spelled anew of what was read of them. The calls of the readers and writers stand alone, in functions that promise
// nothing, so that the answers are not proved over again under their contracts.
ghost use Rattle.std.specs.Prelude.{◌≡◌, ◌≤◌, IfOk, length};
ghost use Rattle.pd_base.specs.declared.limits.TheConstants.{MOST_BYTES};
ghost use Rattle.runs.specs.Lawful.{AreLawfulProofs, AreLawfulTests, IsLawfulReport};

use netlist::Netlist;
use pd_base::{Items, Links, OutOfMemory, Rules, Test};
use row_answers::{Text, Trouble};
use run_files::{
    TextFault, proofs_text, read_proofs, read_report, read_tests, report_text, tests_text,
};
use runs::{ListedPath, Proof, Run};
use std::alloc::Global;

/// Adds a tests file, spelled anew.
pub fn add_tests(
    alloc: Global,
    net: &Netlist,
    text: &[u8],
    answer: &mut Text,
) -> Result<(), Trouble>
    requires { length text.now ≤ MOST_BYTES }
{
    add(tests_anew(alloc, net, text), answer)
}

/// Adds a report, spelled anew.
pub fn add_report(
    alloc: Global,
    net: &Netlist,
    text: &[u8],
    answer: &mut Text,
) -> Result<(), Trouble>
    requires { length text.now ≤ MOST_BYTES }
{
    add(report_anew(alloc, net, text), answer)
}

/// Adds a proofs file, spelled anew.
pub fn add_proofs(
    alloc: Global,
    net: &Netlist,
    text: &[u8],
    answer: &mut Text,
) -> Result<(), Trouble>
    requires { length text.now ≤ MOST_BYTES }
{
    add(proofs_anew(alloc, net, text), answer)
}

// Adds a text that was spelled, if it was.
fn add(spelled: Result<Vec<u8>, TextFault>, answer: &mut Text) -> Result<(), Trouble> {
    match spelled {
        Ok(text) => {
            answer.add("  ");
            answer.add_shown(text.as_slice());
            answer.add("\n");
            Ok(())
        }
        Err(_) => Err(Trouble::NoRow),
    }
}

// A tests file, spelled anew.
fn tests_anew(alloc: Global, net: &Netlist, text: &[u8]) -> Result<Vec<u8>, TextFault>
    requires { length text.now ≤ MOST_BYTES }
{
    let tests = tests_in(alloc, net, text)?;
    Ok(tests_text(alloc, net, tests.as_slice())?)
}

// The tests of a tests file.
#[tactic(auto, using(crate::proofs::Spelled::lawful_tests))]
fn tests_in(alloc: Global, net: &Netlist, text: &[u8]) -> Result<Vec<Test>, TextFault>
    requires { length text.now ≤ MOST_BYTES }
    ensures { IfOk result (λ tests. AreLawfulTests net.now tests.items) }
{
    read_tests(alloc, net, text)
}

// A report, spelled anew.
#[tactic(auto, using(commands::proofs::GenTexts::has_plain_names))]
fn report_anew(alloc: Global, net: &Netlist, text: &[u8]) -> Result<Vec<u8>, TextFault>
    requires { length text.now ≤ MOST_BYTES }
{
    // A netlist knows itself as a circuit.
    net.sources();
    let paths = paths_in(alloc, net, text)?;
    let run = run_of(alloc, Rules::One, paths, Vec::new(alloc));
    Ok(report_text(alloc, net, &run)?)
}

// The paths of a report.
#[tactic(auto, using(crate::proofs::Spelled::lawful_report))]
fn paths_in(alloc: Global, net: &Netlist, text: &[u8]) -> Result<Vec<ListedPath>, TextFault>
    requires { length text.now ≤ MOST_BYTES }
    ensures { IfOk result (λ paths. IsLawfulReport net.now paths.items) }
{
    read_report(alloc, net, text)
}

// A proofs file, spelled anew in the version of its rules and its trees.
fn proofs_anew(alloc: Global, net: &Netlist, text: &[u8]) -> Result<Vec<u8>, TextFault>
    requires { length text.now ≤ MOST_BYTES }
{
    let (version, proofs) = proofs_in(alloc, net, text)?;
    let run = run_of(alloc, rules_of(alloc, version)?, Vec::new(alloc), proofs);
    Ok(proofs_text(alloc, net, &run)?)
}

// The version and the proofs of a proofs file.
#[tactic(auto, using(crate::proofs::Spelled::lawful_proofs))]
fn proofs_in(alloc: Global, net: &Netlist, text: &[u8]) -> Result<(u32, Vec<Proof>), TextFault>
    requires { length text.now ≤ MOST_BYTES }
    ensures { IfOk result (λ read. AreLawfulProofs read.1.items) }
{
    read_proofs(alloc, net, text)
}

// Rules of which the proofs files have this version.
fn rules_of(alloc: Global, version: u32) -> Result<Rules, OutOfMemory> {
    match version {
        1 => Ok(Rules::One),
        2 | 4 => Ok(Rules::Two),
        _ => Ok(Rules::Linked(Links::new(alloc, &[])?)),
    }
}

// A run with these paths or proofs.
fn run_of(alloc: Global, rules: Rules, paths: Vec<ListedPath>, proofs: Vec<Proof>) -> Run
    ensures paths { result.paths ≡ paths.items }
    ensures proofs { result.proofs ≡ proofs.items }
{
    Run {
        rules,
        paths: Items::new(paths),
        tests: Items::new(Vec::new(alloc)),
        proofs: Items::new(proofs),
    }
}
