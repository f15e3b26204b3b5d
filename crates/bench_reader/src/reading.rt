// From the bytes of a text to the netlist.
ghost use Rattle.std.specs.Prelude.{◌≤◌, length, IfOk, IfErr};
ghost use Rattle.bench_reader.specs.Circuits.{HasCircuit};
ghost use Rattle.bench_reader.specs.Refusals.{MayRefuseText};
ghost use Rattle.pd_base.specs.declared.limits.TheConstants.{MOST_BYTES};

use crate::BenchFault;
use crate::statements::read_statements;
use net_builder::{BuildFault, build};
use netlist::Netlist;
use std::alloc::Global;

/// Reads a netlist. A text is refused exactly where it has no circuit: at its first line that is refused, by the first
/// reason of that line in the order of `BenchFault`; where each line has its form, by the first reason for which the
/// statements describe no circuit. `NoMemory` may come in place of any answer. A text has at most 268,435,456 bytes.
pub fn read_bench(alloc: Global, bytes: &[u8]) -> Result<Netlist, BenchFault>
    requires { length bytes.now ≤ MOST_BYTES }
    ensures circuit { IfOk result (HasCircuit bytes.now) }
    ensures refused { IfErr result (MayRefuseText bytes.now) }
{
    let raw = read_statements(alloc, bytes)?;
    match build(alloc, &raw) {
        Ok(net) => Ok(net),
        Err(BuildFault::NoMemory(refused)) => Err(BenchFault::NoMemory(refused)),
        Err(fault) => Err(BenchFault::Build(fault)),
    }
}
