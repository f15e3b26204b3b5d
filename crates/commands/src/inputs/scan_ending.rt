// How a call ends whose scan file gives no chains: refused for a fault of the text, or for want of memory, also where that takes the name of a
// flip-flop.
ghost use Rattle.std.specs.Prelude.{◌≡◌};
ghost use Rattle.scan_order.specs.ScanRefusals.{NamesFlop};
ghost use Rattle.commands.specs.Inside.InputJudging.{EndsForScan};
ghost use Rattle.commands.specs.InputRefusals.{missing_flop, wrong_scan_line};

use crate::copied::copied;
use calls::{Cause, Ending, Part, Refusal};
use netlist::Netlist;
use pd_base::Items;
use scan_order::ScanFault;
use std::alloc::Global;

// How it ends for this fault.
pub(crate) fn scan_ending(alloc: Global, net: &Netlist, fault: ScanFault) -> Ending
    requires { NamesFlop net.now fault }
    ensures { EndsForScan net.now fault result }
{
    match fault {
        ScanFault::Unknown(place) => wrong_scan_line(place, b" unknown"),
        ScanFault::Twice(place) => wrong_scan_line(place, b" twice"),
        ScanFault::Missing(flop) => match copied(alloc, net.name(flop)) {
            Ok(name) => Ending::Refused(missing_flop(name)),
            Err(refused) => Ending::NoMemory(refused),
        },
        ScanFault::NoMemory(refused) => Ending::NoMemory(refused),
    }
}

// A line of the scan file, and what is wrong there.
fn wrong_scan_line(place: u32, reason: &'static [u8]) -> Ending
    ensures { result ≡ wrong_scan_line place reason.now }
{
    Ending::Refused(Refusal::new(
        Cause::Scan,
        &[
            Part::Words(b"scan: line "),
            Part::Number(u64::from(place)),
            Part::Words(reason),
        ],
    ))
}

// The refusal of a scan file in which the flip-flop of this name is missing.
fn missing_flop(name: Items<u8>) -> Refusal
    ensures { result ≡ missing_flop name }
{
    Refusal::naming(Cause::Scan, &[Part::Words(b"scan: missing ")], name)
}
