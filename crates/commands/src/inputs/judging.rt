// NET and DELAYS: each read up to its limit, NET's circuit, and the delays of its pins.
ghost use Rattle.std.specs.Prelude.{◌≤◌, length, IfOk, IfErr};
ghost use Rattle.pd_io.specs.Seen.{files_seen};
ghost use Rattle.bench_reader.specs.Circuits.{HasCircuit};
ghost use Rattle.delay_annotation.specs.Annotation.{Fits, delays_of};
ghost use Rattle.delay_annotation.specs.RiseFall.{BothFit, rise_fall_of};
ghost use Rattle.delay_annotation.specs.DelayFile.{HasDelays, HasRiseFall};
ghost use Rattle.delay_annotation.specs.declared.setting.Columns.TheVariants.{Delay, RiseAndFall};
ghost use Rattle.commands.specs.declared.inputs.reading.TheConstants.{INPUT_LIMIT};
ghost use Rattle.commands.specs.Inside.InputJudging.{FailsDelays, FailsNet, FailsToGiveDelays, FailsToGiveNet, FailsToGiveRiseFall, GivesDelays, GivesNet, GivesRiseFall};

use crate::inputs::delays_ending::delays_ending;
use crate::inputs::netlist_ending::netlist_ending;
use crate::inputs::reading::text_from;
use bench_reader::read_bench;
use calls::{Ending, Role};
use delay_annotation::{Delays, RiseFall, read_delays, read_rise_fall};
use netlist::Netlist;
use pd_io::Files;
use std::alloc::Global;

/// Reads NET, and gives the netlist of the circuit that its text has. One over the limit is refused, and one that has no circuit.
pub(crate) fn netlist_from<F: Files>(
    alloc: Global,
    files: &mut F,
    name: &str,
) -> Result<Netlist, Ending>
    ensures gives { IfOk result (λ net. GivesNet name.now net
        (files_seen F.Files files.old) (files_seen F.Files files.new)) }
    ensures fails { IfErr result (λ ending. FailsToGiveNet name.now ending
        (files_seen F.Files files.old) (files_seen F.Files files.new)) }
{
    let text = text_from(alloc, files, Role::Net, name)?;
    netlist_of(alloc, text.as_slice())
}

/// Reads DELAYS, and gives the delays that its text gives to the pins of NET, one to each. One over the limit is refused, and one that gives
/// none.
pub(crate) fn delays_from<F: Files>(
    alloc: Global,
    files: &mut F,
    net: &Netlist,
    name: &str,
) -> Result<Delays, Ending>
    ensures fits { IfOk result (λ kept. Fits net.now kept) }
    ensures gives { IfOk result (λ kept. GivesDelays name.now net.now (delays_of net.now kept)
        (files_seen F.Files files.old) (files_seen F.Files files.new)) }
    ensures fails { IfErr result (λ ending. FailsToGiveDelays name.now net.now ending
        (files_seen F.Files files.old) (files_seen F.Files files.new)) }
{
    let text = text_from(alloc, files, Role::Delays, name)?;
    delays_in(alloc, net, text.as_slice())
}

/// The same where DELAYS gives each pin a rise and a fall delay.
pub(crate) fn rise_fall_from<F: Files>(
    alloc: Global,
    files: &mut F,
    net: &Netlist,
    name: &str,
) -> Result<RiseFall, Ending>
    ensures fits { IfOk result (λ kept. BothFit net.now kept) }
    ensures gives { IfOk result (λ kept. GivesRiseFall name.now net.now (rise_fall_of net.now kept)
        (files_seen F.Files files.old) (files_seen F.Files files.new)) }
    ensures fails { IfErr result (λ ending. FailsToGiveRiseFall name.now net.now ending
        (files_seen F.Files files.old) (files_seen F.Files files.new)) }
{
    let text = text_from(alloc, files, Role::Delays, name)?;
    rise_fall_in(alloc, net, text.as_slice())
}

// The netlist of the circuit that the text of NET has. A text is refused exactly where it has none.
fn netlist_of(alloc: Global, net: &[u8]) -> Result<Netlist, Ending>
    requires { length net.now ≤ INPUT_LIMIT }
    ensures circuit { IfOk result (HasCircuit net.now) }
    ensures fails { IfErr result (FailsNet net.now) }
{
    match read_bench(alloc, net) {
        Ok(netlist) => Ok(netlist),
        Err(fault) => Err(netlist_ending(fault)),
    }
}

// The delays that the text of DELAYS gives to the pins of NET. A text is refused exactly where it gives none.
fn delays_in(alloc: Global, net: &Netlist, delays: &[u8]) -> Result<Delays, Ending>
    requires { length delays.now ≤ INPUT_LIMIT }
    ensures fits { IfOk result (λ kept. Fits net.now kept) }
    ensures delays { IfOk result (λ kept. HasDelays net.now delays.now (delays_of net.now kept)) }
    ensures fails { IfErr result (FailsDelays Delay net.now delays.now) }
{
    match read_delays(alloc, net, delays) {
        Ok(kept) => Ok(kept),
        Err(fault) => Err(delays_ending(fault)),
    }
}

// The rise and fall delays that the text of DELAYS gives to the pins of NET. A text is refused exactly where it gives none.
fn rise_fall_in(alloc: Global, net: &Netlist, delays: &[u8]) -> Result<RiseFall, Ending>
    requires { length delays.now ≤ INPUT_LIMIT }
    ensures fits { IfOk result (λ kept. BothFit net.now kept) }
    ensures delays { IfOk result (λ kept. HasRiseFall net.now delays.now (rise_fall_of net.now kept)) }
    ensures fails { IfErr result (FailsDelays RiseAndFall net.now delays.now) }
{
    match read_rise_fall(alloc, net, delays) {
        Ok(kept) => Ok(kept),
        Err(fault) => Err(delays_ending(fault)),
    }
}
