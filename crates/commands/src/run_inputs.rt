// What a run is of: the circuit, the delays of its pins, and how pairs are launched. `gen` and `check` read it alike.
ghost use Rattle.std.specs.Prelude.{IfErr, IfOk};
ghost use Rattle.pd_io.specs.Seen.{files_seen};
ghost use Rattle.command_line.specs.Commands.{run_call_of};
ghost use Rattle.delay_annotation.specs.Annotation.{Fits, delays_of};
ghost use Rattle.netlist.specs.Lawful.{IsCircuit};
ghost use Rattle.commands.specs.Inside.RunJudging.{FailsToGiveInputs, GivesInputs};
ghost use Rattle.commands.specs.ModeRules.{FitsLaunch};

use crate::inputs::{delays_from, netlist_from};
use crate::launch::{Launch, launch_from};
use calls::Ending;
use command_line::RunCommand;
use delay_annotation::Delays;
use netlist::Netlist;
use pd_io::Files;
use std::alloc::Global;

/// What a run is of.
#[derive(Drop)]
pub(crate) struct RunInputs {
    /// The netlist.
    pub(crate) net: Netlist,
    /// The delays of its pins.
    pub(crate) delays: Delays,
    /// How pairs are launched.
    pub(crate) launch: Launch,
}

/// Reads NET, which has to have a circuit, then DELAYS, which has to give delays to its pins, and then, for a skewed load, SCAN, which has
/// to give its chains: each is judged before the next one is read.
pub(crate) fn run_inputs_from<F: Files>(
    alloc: Global,
    files: &mut F,
    command: &RunCommand,
) -> Result<RunInputs, Ending>
    ensures circuit { IfOk result (λ inputs. IsCircuit inputs.net) }
    ensures fits { IfOk result (λ inputs. Fits inputs.net inputs.delays) }
    ensures launch { IfOk result (λ inputs. FitsLaunch inputs.net inputs.launch) }
    ensures gives { IfOk result (λ inputs. GivesInputs (run_call_of command.now) inputs.net (delays_of inputs.net inputs.delays) inputs.launch
        (files_seen F.Files files.old) (files_seen F.Files files.new)) }
    ensures fails { IfErr result (λ ending. FailsToGiveInputs (run_call_of command.now) ending
        (files_seen F.Files files.old) (files_seen F.Files files.new)) }
{
    let net = netlist_from(alloc, files, command.net)?;
    let delays = delays_from(alloc, files, &net, command.delays)?;
    let launch = launch_from(alloc, files, &net, command.mode)?;
    Ok(RunInputs {
        net,
        delays,
        launch,
    })
}
