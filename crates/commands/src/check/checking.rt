// The command `check`: its stages in their order, and then the one word on out.
ghost use Rattle.std.specs.Prelude.{⊤};
ghost use Rattle.pd_io.specs.Seen.{files_seen, seen};
ghost use Rattle.command_line.specs.Commands.{run_call_of};
ghost use Rattle.command_line.specs.Words.{HasRunNumbers};
ghost use Rattle.calls.specs.Calls.{Performs};
ghost use Rattle.calls.specs.Preparing.{Prepares};
ghost use Rattle.delay_annotation.specs.Annotation.{Fits, delays_of};
ghost use Rattle.netlist.specs.Lawful.{IsCircuit};
ghost use Rattle.commands.specs.Check.{check_work, good_products};
ghost use Rattle.commands.specs.Inside.Checking.{JudgesClaims};
ghost use Rattle.commands.specs.ModeRules.{FitsLaunch};

use crate::check::judging::judge_run;
use crate::check::spelling::run_from;
use crate::inputs::require_short_texts;
use crate::run_inputs::{RunInputs, run_inputs_from};
use calls::{Ending, print};
use command_line::RunCommand;
use pd_io::{Files, Sink};
use std::alloc::Global;

/// Does the work of `check`, and tells how it ended. No file is written, and out is not touched before the run is judged.
pub(crate) fn check<F: Files, O: Sink>(
    alloc: Global,
    command: &RunCommand,
    files: &mut F,
    out: &mut O,
) -> Ending
    requires { HasRunNumbers (run_call_of command.now) }
    ensures { Performs (check_work (run_call_of command.now)) result
        (seen F.Files O.Sink files.old out.old) (seen F.Files O.Sink files.new out.new) }
{
    match judge_files(alloc, command, files) {
        Ok(()) => print(b"good\n", out),
        Err(ending) => ending,
    }
}

// Reads and judges all files.
fn judge_files<F: Files>(alloc: Global, command: &RunCommand, files: &mut F) -> Result<(), Ending>
    requires { HasRunNumbers (run_call_of command.now) }
    ensures { Prepares (λ (done : ⊤). good_products) (check_work (run_call_of command.now)) result
        (files_seen F.Files files.old) (files_seen F.Files files.new) }
{
    let inputs = run_inputs_from(alloc, files, command)?;
    judge_claims(alloc, command, &inputs, files)
}

// Requires that texts for so many paths are short, reads the three claim files, and judges the run that they spell.
fn judge_claims<F: Files>(
    alloc: Global,
    command: &RunCommand,
    inputs: &RunInputs,
    files: &mut F,
) -> Result<(), Ending>
    requires circuit { IsCircuit inputs.now.net }
    requires fits { Fits inputs.now.net inputs.now.delays }
    requires launch { FitsLaunch inputs.now.net inputs.now.launch }
    requires numbers { HasRunNumbers (run_call_of command.now) }
    ensures { JudgesClaims (run_call_of command.now) inputs.now.net (delays_of inputs.now.net inputs.now.delays) inputs.now.launch result
        (files_seen F.Files files.old) (files_seen F.Files files.new) }
{
    let RunInputs {
        net,
        delays,
        launch,
    } = inputs;
    require_short_texts(net, command.paths)?;
    let run = run_from(alloc, command, net, launch, files)?;
    judge_run(alloc, command, net, delays, &run)
}
