// The ladder as a netlist.
ghost use Rattle.std.specs.Prelude.{◌≡◌, ◌≤◌, IfOk, IfErr};
ghost use Rattle.pd_base.specs.Memory.{out_of_memory};
ghost use Rattle.pd_base.specs.declared.limits.TheConstants.{MOST_STAGES};
ghost use Rattle.ladder.specs.Ladder.{ladder_circuit};

use crate::statements::ladder_statements;
use net_builder::{BuildFault, build};
use netlist::Netlist;
use pd_base::OutOfMemory;
use std::alloc::Global;

/// The ladder of so many stages, from 1 to `MOST_STAGES`: it has 5 lines and 6 pins a stage and one line more, and 2^stages paths from
/// its first source to its output. Its lines are named by a letter and the number of a stage.
pub fn ladder(alloc: Global, stages: u32) -> Result<Netlist, OutOfMemory>
    requires some { 1 ≤ stages }
    requires few { stages ≤ MOST_STAGES }
    ensures { IfOk result (λ net. net ≡ ladder_circuit stages) }
{
    // The statements of a ladder describe a circuit, so nothing but memory can be wanting.
    match built_ladder(alloc, stages) {
        Ok(net) => Ok(net),
        Err(BuildFault::NoMemory(refused)) => Err(refused),
        Err(_) => unreachable!(),
    }
}

// The same, with the answer of the builder, which never refuses the statements.
fn built_ladder(alloc: Global, stages: u32) -> Result<Netlist, BuildFault>
    requires some { 1 ≤ stages }
    requires few { stages ≤ MOST_STAGES }
    ensures circuit { IfOk result (λ net. net ≡ ladder_circuit stages) }
    ensures memory { IfErr result (λ fault. fault ≡ BuildFault.NoMemory out_of_memory) }
{
    let raw = ladder_statements(alloc, stages)?;
    build(alloc, &raw)
}
