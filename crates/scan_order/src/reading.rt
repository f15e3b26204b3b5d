// The scan file, line by line. One line is taken in growing.rt.
ghost use Rattle.std.specs.Prelude.{◌≤◌, Some, IfErr, IfOk, length};
ghost use Rattle.pd_base.specs.declared.limits.TheConstants.{MOST_BYTES};
ghost use Rattle.text_pieces.specs.Reads.{Reads};
ghost use Rattle.scan_order.specs.Chains.{AreChainsOf};
ghost use Rattle.scan_order.specs.ScanFile.{scan_text};
ghost use Rattle.scan_order.specs.ScanRefusals.{NamesFlop, RefusesScan};

use crate::growing::Growing;
use crate::{Chains, ScanFault};
use netlist::Netlist;
use std::alloc::Global;

/// Reads a scan file: the chains of this circuit whose file the bytes are, and there are no others. Where they are the file of none, the
/// first line that fails is told, or else the first flip-flop that stands nowhere. `NoMemory` may come in place of any answer. A file has
/// at most 268,435,456 bytes.
pub fn read_scan(alloc: Global, net: &Netlist, bytes: &[u8]) -> Result<Chains, ScanFault>
    requires { length bytes.now ≤ MOST_BYTES }
    ensures chains { IfOk result (λ chains. Reads (scan_text net.now) (AreChainsOf net.now) bytes.now (Some chains)) }
    ensures refused { IfErr result (RefusesScan net.now bytes.now) }
    ensures named { IfErr result (NamesFlop net.now) }
{
    let mut growing = Growing::new(alloc, net)?;
    let mut rest = bytes;
    let mut number = 1;
    while !rest.is_empty() {
        rest = growing.take_line(alloc, net, number, rest)?;
        number += 1;
    }
    growing.into_chains(net)
}
