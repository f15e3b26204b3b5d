// The stages of `replay` in their order, up to the text that is to be printed. Nothing is written here.
ghost use Rattle.std.specs.Prelude.{◌≡◌, ◌<◌, ◌^◌, length, IfOk, IfErr};
ghost use Rattle.pd_io.specs.Seen.{FilesSeen, files_seen};
ghost use Rattle.runs.specs.Lawful.{AreLawfulTests};
ghost use Rattle.delay_annotation.specs.Annotation.{Fits, delays_of};
ghost use Rattle.command_line.specs.Commands.{replay_call_of};
ghost use Rattle.command_line.specs.Words.{HasReplayNumbers};
ghost use Rattle.calls.specs.Preparing.{Prepares};
ghost use Rattle.commands.specs.Inside.InputJudging.{GivesNet};
ghost use Rattle.commands.specs.Printed.{printed_text};
ghost use Rattle.commands.specs.Replay.{replay_work};
ghost use Rattle.commands.specs.ReplayText.{replay_text};
ghost use Rattle.commands.specs.Inside.ReplayEndings.{FailsReplay};
ghost use Rattle.commands.specs.TestChanges.{HaveFewChanges};

use crate::inputs::{delays_from, netlist_from, tests_from};
use crate::replay::over::ending_for;
use crate::replay::text::replay_text;
use calls::Ending;
use command_line::ReplayCommand;
use delay_annotation::Delays;
use netlist::Netlist;
use pd_base::Test;
use pd_io::Files;
use std::alloc::Global;

/// Reads NET, which has to have a circuit, DELAYS, which has to give delays to its pins, and TESTS, which has to be well formed; and
/// makes the text of the replay, if no test's lines change too often. Nothing is written.
pub(crate) fn prepare_replay<F: Files>(
    alloc: Global,
    command: &ReplayCommand,
    files: &mut F,
) -> Result<Vec<u8>, Ending>
    requires { HasReplayNumbers (replay_call_of command.now) }
    ensures { Prepares printed_text (replay_work (replay_call_of command.now)) result
        (files_seen F.Files files.old) (files_seen F.Files files.new) }
{
    let net = netlist_from(alloc, files, command.net)?;
    prepare_behind_net(alloc, command, &net, files)
}

// Goes on behind NET, which gave this netlist.
fn prepare_behind_net<F: Files>(
    alloc: Global,
    command: &ReplayCommand,
    net: &Netlist,
    files: &mut F,
) -> Result<Vec<u8>, Ending>
    requires { HasReplayNumbers (replay_call_of command.now) }
    ensures { (begun : FilesSeen) → GivesNet command.now.net.now net.now begun (files_seen F.Files files.old)
        → Prepares printed_text (replay_work (replay_call_of command.now)) result begun (files_seen F.Files files.new) }
{
    let delays = delays_from(alloc, files, net, command.delays)?;
    let tests = tests_from(alloc, files, b"replay", net, command.tests)?;
    text_at(alloc, net, &delays, tests.as_slice(), command.time as i64)
}

// The text of the replay of these tests, or how the call ends without it.
fn text_at(
    alloc: Global,
    net: &Netlist,
    delays: &Delays,
    tests: &[Test],
    time: i64,
) -> Result<Vec<u8>, Ending>
    requires fits { Fits net.now delays.now }
    requires lawful { AreLawfulTests net.now tests.now }
    requires numbers { length tests.now < 2 ^ 32 }
    ensures text { IfOk result (λ text. text.items ≡ replay_text net.now (delays_of net.now delays.now) tests.now time) }
    ensures few { IfOk result (λ text. HaveFewChanges net.now (delays_of net.now delays.now) tests.now) }
    ensures fails { IfErr result (FailsReplay net.now (delays_of net.now delays.now) tests.now) }
{
    match replay_text(alloc, net, delays, tests, time) {
        Ok(text) => Ok(text),
        Err(fault) => Err(ending_for(alloc, net, fault)),
    }
}
