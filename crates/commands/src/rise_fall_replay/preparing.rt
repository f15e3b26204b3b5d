// The stages of `rfreplay` in their order, up to the text that is to be printed. Nothing is written here.
ghost use Rattle.std.specs.Prelude.{◌<◌, ◌^◌, length, IfOk, IfErr};
ghost use Rattle.pd_io.specs.Seen.{FilesSeen, files_seen};
ghost use Rattle.runs.specs.Lawful.{AreLawfulTests};
ghost use Rattle.command_line.specs.RiseFallReplayForm.{rise_fall_replay_call_of};
ghost use Rattle.command_line.specs.Words.{HasRiseFallReplayNumbers};
ghost use Rattle.calls.specs.Preparing.{Prepares};
ghost use Rattle.commands.specs.Inside.InputJudging.{GivesNet};
ghost use Rattle.commands.specs.Inside.ReplayEndings.{FailsReplayOf};
ghost use Rattle.commands.specs.Inside.RiseFallReplaying.{CanSample, sampled_waves, sampling_of};
ghost use Rattle.commands.specs.Printed.{printed_text};
ghost use Rattle.commands.specs.RiseFallReplay.{rise_fall_replay_work};
ghost use Rattle.commands.specs.RiseFallReplayText.{IsRiseFallText};
ghost use Rattle.commands.specs.TestChanges.{HaveFewOf};

use crate::inputs::{netlist_from, rise_fall_from, tests_and_paths_in, tests_and_report_from};
use crate::replay::over::ending_for;
use crate::rise_fall_replay::sampling::Sampling;
use crate::rise_fall_replay::text::rise_fall_text;
use calls::Ending;
use command_line::RiseFallReplayCommand;
use netlist::Netlist;
use pd_base::Test;
use pd_io::Files;
use std::alloc::Global;

/// Reads NET, which has to have a circuit, DELAYS, which has to give a rise and a fall delay to its pins, then TESTS and REPORT, which both
/// have to be well formed; and makes the text of the replay, if no test's lines change too often. Nothing is written.
pub(crate) fn prepare_rise_fall_replay<F: Files>(
    alloc: Global,
    command: &RiseFallReplayCommand,
    files: &mut F,
) -> Result<Vec<u8>, Ending>
    requires { HasRiseFallReplayNumbers (rise_fall_replay_call_of command.now) }
    ensures { Prepares printed_text (rise_fall_replay_work (rise_fall_replay_call_of command.now)) result
        (files_seen F.Files files.old) (files_seen F.Files files.new) }
{
    let net = netlist_from(alloc, files, command.net)?;
    prepare_behind_net(alloc, command, &net, files)
}

// Goes on behind NET, which gave this netlist.
fn prepare_behind_net<F: Files>(
    alloc: Global,
    command: &RiseFallReplayCommand,
    net: &Netlist,
    files: &mut F,
) -> Result<Vec<u8>, Ending>
    requires { HasRiseFallReplayNumbers (rise_fall_replay_call_of command.now) }
    ensures { (begun : FilesSeen) → GivesNet command.now.net.now net.now begun (files_seen F.Files files.old)
        → Prepares printed_text (rise_fall_replay_work (rise_fall_replay_call_of command.now)) result begun
        (files_seen F.Files files.new) }
{
    let delays = rise_fall_from(alloc, files, net, command.delays)?;
    let texts = tests_and_report_from(alloc, files, command.tests, command.report)?;
    let listed = tests_and_paths_in(alloc, b"rfreplay", net, &texts)?;
    let at = Sampling {
        net,
        delays: &delays,
        paths: listed.paths.as_slice(),
        time: command.time,
    };
    text_at(alloc, &at, listed.tests.as_slice())
}

// The text of the replay of these tests, or how the call ends without it.
fn text_at(alloc: Global, at: &Sampling, tests: &[Test]) -> Result<Vec<u8>, Ending>
    requires can { CanSample at.now }
    requires lawful { AreLawfulTests at.now.net.now tests.now }
    requires numbers { length tests.now < 2 ^ 32 }
    ensures text { IfOk result (λ text. IsRiseFallText (sampling_of at.now) tests.now text.items) }
    ensures few { IfOk result (λ text. HaveFewOf at.now.net.now (sampled_waves at.now) tests.now) }
    ensures fails { IfErr result (FailsReplayOf at.now.net.now (sampled_waves at.now) tests.now) }
{
    match rise_fall_text(alloc, at, tests) {
        Ok(text) => Ok(text),
        Err(fault) => Err(ending_for(alloc, at.net, fault)),
    }
}
