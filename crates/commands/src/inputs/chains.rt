// SCAN, judged: the scan chains that its text gives the circuit. Which commands read it, and when, is said by their stages.
ghost use Rattle.std.specs.Prelude.{◌≤◌, length, IfErr, IfOk};
ghost use Rattle.pd_io.specs.Seen.{files_seen};
ghost use Rattle.scan_order.specs.ScanFile.{HasChains};
ghost use Rattle.commands.specs.declared.inputs.reading.TheConstants.{INPUT_LIMIT};
ghost use Rattle.commands.specs.Inside.InputJudging.{FailsChains, FailsToGiveChains, GivesChains};

use crate::inputs::reading::text_from;
use crate::inputs::scan_ending::scan_ending;
use calls::{Ending, Role};
use netlist::Netlist;
use pd_io::Files;
use scan_order::{Chains, read_scan};
use std::alloc::Global;

/// Reads SCAN, and gives the scan chains of NET that its text has. One over the limit is refused, and one that has none.
pub(crate) fn chains_from<F: Files>(
    alloc: Global,
    files: &mut F,
    net: &Netlist,
    name: &str,
) -> Result<Chains, Ending>
    ensures gives { IfOk result (λ chains. GivesChains name.now net.now chains
        (files_seen F.Files files.old) (files_seen F.Files files.new)) }
    ensures fails { IfErr result (λ ending. FailsToGiveChains name.now net.now ending
        (files_seen F.Files files.old) (files_seen F.Files files.new)) }
{
    let text = text_from(alloc, files, Role::Scan, name)?;
    chains_in(alloc, net, text.as_slice())
}

// The scan chains of NET that the text of SCAN has. A text is refused exactly where it has none.
fn chains_in(alloc: Global, net: &Netlist, scan: &[u8]) -> Result<Chains, Ending>
    requires { length scan.now ≤ INPUT_LIMIT }
    ensures chains { IfOk result (HasChains net.now scan.now) }
    ensures fails { IfErr result (FailsChains net.now scan.now) }
{
    match read_scan(alloc, net, scan) {
        Ok(chains) => Ok(chains),
        Err(fault) => Err(scan_ending(alloc, net, fault)),
    }
}
