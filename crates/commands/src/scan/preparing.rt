// The stages of `scan` in their order, up to the text that is to be printed. Nothing is written here.
ghost use Rattle.std.specs.Prelude.{◌≡◌, All, IfErr, IfOk};
ghost use Rattle.pd_io.specs.Seen.{files_seen};
ghost use Rattle.command_line.specs.ScanForm.{scan_call_of};
ghost use Rattle.calls.specs.Preparing.{Prepares};
ghost use Rattle.commands.specs.Inside.InputJudging.{FailsFor};
ghost use Rattle.commands.specs.Inside.ScanJudging.{HasBitsFor, HaveUnlaunchedPair, ShiftsInAll};
ghost use Rattle.commands.specs.Printed.{printed_text};
ghost use Rattle.commands.specs.Scan.{scan_work};
ghost use Rattle.commands.specs.ScanText.{load_text};

use crate::inputs::{chains_from, netlist_from, tests_from};
use crate::scan::launched::require_launched;
use crate::scan::text::load_text;
use calls::Ending;
use command_line::ScanCommand;
use pd_base::Test;
use pd_io::Files;
use scan_order::Chains;
use std::alloc::Global;

/// Reads NET, which has to have a circuit, SCAN, which has to give its chains, and TESTS, which has to be well formed; and makes the text, if
/// the last shift of the chains launches all pairs. Nothing is written.
pub(crate) fn prepare_scan<F: Files>(
    alloc: Global,
    command: &ScanCommand,
    files: &mut F,
) -> Result<Vec<u8>, Ending>
    ensures { Prepares printed_text (scan_work (scan_call_of command.now)) result
        (files_seen F.Files files.old) (files_seen F.Files files.new) }
{
    let net = netlist_from(alloc, files, command.net)?;
    let chains = chains_from(alloc, files, &net, command.scan)?;
    let tests = tests_from(alloc, files, b"scan", &net, command.tests)?;
    text_for(alloc, &chains, tests.as_slice())
}

// The text of these tests, or how the call ends without it.
fn text_for(alloc: Global, chains: &Chains, tests: &[Test]) -> Result<Vec<u8>, Ending>
    requires { All (λ test. HasBitsFor chains.now test.pair) tests.now }
    ensures shifts { IfOk result (λ text. All (ShiftsInAll chains.now) tests.now) }
    ensures text { IfOk result (λ text. text.items ≡ load_text chains.now tests.now) }
    ensures fails { IfErr result (FailsFor (HaveUnlaunchedPair chains.now tests.now)) }
{
    require_launched(chains, tests)?;
    Ok(load_text(alloc, chains, tests)?)
}
