// How the second vector of a pair is launched: the mode of a run, with what its scan file gives.
ghost use Rattle.std.specs.Prelude.{IfErr, IfOk};
ghost use Rattle.pd_io.specs.Seen.{files_seen};
ghost use Rattle.command_line.specs.Modes.{run_mode_of};
ghost use Rattle.commands.specs.Inside.RunJudging.{FailsToGiveLaunch, GivesLaunch};
ghost use Rattle.commands.specs.ModeRules.{FitsLaunch};

use crate::inputs::chains_from;
use calls::Ending;
use command_line::Mode;
use netlist::Netlist;
use pd_io::Files;
use scan_order::Chains;
use std::alloc::Global;

/// How a tester launches the second vector of a pair.
#[derive(Drop)]
pub(crate) enum Launch {
    /// Out of further latches (enhanced scan), so that it may be any.
    Enhanced,
    /// By one clock of the circuit (broadside).
    Broadside,
    /// By the last shift of these scan chains (skewed load).
    Skewed(Chains),
}

/// How pairs are launched in this mode. For a skewed load SCAN is read, within its limit, and has to give the chains of the circuit.
pub(crate) fn launch_from<F: Files>(
    alloc: Global,
    files: &mut F,
    net: &Netlist,
    mode: Mode,
) -> Result<Launch, Ending>
    ensures fits { IfOk result (FitsLaunch net.now) }
    ensures gives { IfOk result (λ launch. GivesLaunch (run_mode_of mode.entry) net.now launch
        (files_seen F.Files files.old) (files_seen F.Files files.new)) }
    ensures fails { IfErr result (λ ending. FailsToGiveLaunch (run_mode_of mode.entry) net.now ending
        (files_seen F.Files files.old) (files_seen F.Files files.new)) }
{
    match mode {
        Mode::Enhanced => Ok(Launch::Enhanced),
        Mode::Broadside => Ok(Launch::Broadside),
        Mode::Skewed(name) => Ok(Launch::Skewed(chains_from(alloc, files, net, name)?)),
    }
}
