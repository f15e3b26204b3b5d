// From the bytes of a delay file to the delays.
ghost use Rattle.std.specs.Prelude.{◌≤◌, [], length, IfErr, IfOk};
ghost use Rattle.pd_base.specs.declared.limits.TheConstants.{MOST_BYTES};
ghost use Rattle.delay_annotation.specs.Annotation.{delays_of, Fits};
ghost use Rattle.delay_annotation.specs.RiseFall.{BothFit, rise_fall_of};
ghost use Rattle.delay_annotation.specs.DelayFile.{HasDelays, HasRiseFall, RefusesDelays, RefusesRiseFall};
ghost use Rattle.delay_annotation.specs.LastRows.{HasRoomForRows, KeepsLast};

use crate::last::LastRows;
use crate::rows::take_rows;
use crate::setting::Columns;
use crate::settling::settle;
use crate::{DelayFault, Delays, RiseFall};
use netlist::Netlist;
use pd_base::Direction;
use std::alloc::Global;

/// Reads a delay file. The delays are those of the file exactly where it has some; else it is refused, at its first row that is,
/// by the first reason of that row in the order of `DelayFault`. A refusal asks nothing of the rows behind that one.
/// `NoMemory` may come in place of any answer. A file has at most 268,435,456 bytes.
pub fn read_delays(alloc: Global, net: &Netlist, bytes: &[u8]) -> Result<Delays, DelayFault>
    requires { length bytes.now ≤ MOST_BYTES }
    ensures fits { IfOk result (λ delays. Fits net.now delays) }
    ensures delays { IfOk result (λ delays. HasDelays net.now bytes.now (delays_of net.now delays)) }
    ensures refused { IfErr result (RefusesDelays net.now bytes.now) }
{
    let mut kept = LastRows::new(alloc, net)?;
    settled_rows(alloc, net, bytes, &mut kept)
}

/// Reads a delay file whose rows have a rise and a fall delay, under the titles `gate`, `pin`, `rise`, `fall`. All else is as in
/// `read_delays`; the fourth field is tried as the third is, after it.
pub fn read_rise_fall(alloc: Global, net: &Netlist, bytes: &[u8]) -> Result<RiseFall, DelayFault>
    requires { length bytes.now ≤ MOST_BYTES }
    ensures fits { IfOk result (λ delays. BothFit net.now delays) }
    ensures delays { IfOk result (λ delays. HasRiseFall net.now bytes.now (rise_fall_of net.now delays)) }
    ensures refused { IfErr result (RefusesRiseFall net.now bytes.now) }
{
    let mut kept = LastRows::new(alloc, net)?;
    settled_rises_and_falls(alloc, net, bytes, &mut kept)
}

// The delays by the rows of a file, of which none was taken yet. Those of rises are those of falls.
fn settled_rows(
    alloc: Global,
    net: &Netlist,
    bytes: &[u8],
    kept: &mut LastRows,
) -> Result<Delays, DelayFault>
    requires short { length bytes.now ≤ MOST_BYTES }
    requires places { HasRoomForRows net.now kept.old }
    requires none { KeepsLast net.now kept.old [] }
    ensures fits { IfOk result (λ delays. Fits net.now delays) }
    ensures delays { IfOk result (λ delays. HasDelays net.now bytes.now (delays_of net.now delays)) }
    ensures refused { IfErr result (RefusesDelays net.now bytes.now) }
{
    take_rows(alloc, net, Columns::Delay, bytes, kept)?;
    Ok(settle(alloc, net, kept, Direction::Rise)?)
}

// The rise and the fall delays by the rows of a file, of which none was taken yet.
fn settled_rises_and_falls(
    alloc: Global,
    net: &Netlist,
    bytes: &[u8],
    kept: &mut LastRows,
) -> Result<RiseFall, DelayFault>
    requires short { length bytes.now ≤ MOST_BYTES }
    requires places { HasRoomForRows net.now kept.old }
    requires none { KeepsLast net.now kept.old [] }
    ensures fits { IfOk result (λ delays. BothFit net.now delays) }
    ensures delays { IfOk result (λ delays. HasRiseFall net.now bytes.now (rise_fall_of net.now delays)) }
    ensures refused { IfErr result (RefusesRiseFall net.now bytes.now) }
{
    take_rows(alloc, net, Columns::RiseAndFall, bytes, kept)?;
    let rises = settle(alloc, net, kept, Direction::Rise)?;
    let falls = settle(alloc, net, kept, Direction::Fall)?;
    Ok(RiseFall::new(rises, falls))
}
