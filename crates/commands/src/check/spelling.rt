// The run that three claim files spell.
ghost use Rattle.std.specs.Prelude.{IfErr, IfOk};
ghost use Rattle.pd_io.specs.Seen.{files_seen};
ghost use Rattle.runs.specs.Lawful.{IsLawfulRun};
ghost use Rattle.netlist.specs.Lawful.{IsCircuit};
ghost use Rattle.netlist.specs.LinkedPairs.{FitRules};
ghost use Rattle.command_line.specs.Commands.{run_call_of};
ghost use Rattle.commands.specs.Inside.Checking.{AreWithinLimit, FailsToSpell, ReadsRun};
ghost use Rattle.commands.specs.ModeRules.{FitsLaunch};
ghost use Rattle.commands.specs.SpelledRuns.{SpellsRun};

use crate::check::reading::{ClaimTexts, claim_texts};
use crate::inputs::{proofs_in, report_in, tests_in};
use crate::launch::Launch;
use crate::mode_rules::judged_rules;
use calls::Ending;
use command_line::RunCommand;
use netlist::Netlist;
use pd_base::Items;
use pd_io::Files;
use runs::Run;
use std::alloc::Global;

// Reads the three files, and gives the run that they spell.
pub(crate) fn run_from<F: Files>(
    alloc: Global,
    command: &RunCommand,
    net: &Netlist,
    launch: &Launch,
    files: &mut F,
) -> Result<Run, Ending>
    requires circuit { IsCircuit net.now }
    requires fits { FitsLaunch net.now launch.now }
    ensures lawful { IfOk result (IsLawfulRun net.now) }
    ensures fit { IfOk result (λ run. FitRules net.now run.rules) }
    ensures reads { ReadsRun (run_call_of command.now) net.now launch.now result
        (files_seen F.Files files.old) (files_seen F.Files files.new) }
{
    let texts = claim_texts(alloc, command, files)?;
    run_in(alloc, net, launch, &texts)
}

// The run that the three texts spell for pairs that are launched so. They are refused exactly where they spell none: the first of them that
// has not its form, and last the proofs for a version that such runs don't have.
fn run_in(alloc: Global, net: &Netlist, launch: &Launch, texts: &ClaimTexts) -> Result<Run, Ending>
    requires circuit { IsCircuit net.now }
    requires fits { FitsLaunch net.now launch.now }
    requires within { AreWithinLimit texts.now }
    ensures fit { IfOk result (λ run. FitRules net.now run.rules) }
    ensures spells { IfOk result (SpellsRun launch.now net.now texts.now.tests.items texts.now.report.items texts.now.proofs.items) }
    ensures fails { IfErr result (FailsToSpell launch.now net.now texts.now) }
{
    let tests = tests_in(alloc, b"check", net, texts.tests.as_slice())?;
    let paths = report_in(alloc, b"check", net, texts.report.as_slice())?;
    let versioned = proofs_in(alloc, b"check", net, texts.proofs.as_slice())?;
    let rules = judged_rules(alloc, net, launch, versioned.version)?;
    Ok(Run {
        rules,
        paths: Items::new(paths),
        tests: Items::new(tests),
        proofs: Items::new(versioned.proofs),
    })
}
