// The place of each gate in rank order.
ghost use Rattle.std.specs.Prelude.{◌≡◌, ◌≢◌, ◌<◌, length, All, IfOk, AllPairs};
ghost use Rattle.cones.specs.Ranks.{AreRanks};

use pd_base::{GateId, OutOfMemory};
use std::alloc::Global;

/// The place of each of so many gates in an order of them, by gate. The one error is that memory ran out.
pub fn ranks_of(alloc: Global, gates: usize, order: &[GateId]) -> Result<Vec<usize>, OutOfMemory>
    requires places { All (λ gate. gate.0 < gates) order.now }
    requires once { AllPairs (λ a b. a.0 ≢ b.0) order.now }
    ensures one_each { IfOk result (λ ranks. length ranks.items ≡ gates) }
    ensures ranks { IfOk result (λ ranks. AreRanks order.now ranks.items) }
{
    let mut ranks = vec![in alloc; 0; gates]?;
    rank_all(order, ranks.as_mut_slice());
    Ok(ranks)
}

// Gives each gate its place in an order of gates.
fn rank_all(order: &[GateId], ranks: &mut [usize])
    requires places { All (λ gate. gate.0 < length ranks.old) order.now }
    requires once { AllPairs (λ a b. a.0 ≢ b.0) order.now }
    ensures one_each { length ranks.new ≡ length ranks.old }
    ensures ranks { AreRanks order.now ranks.new }
{
    for (place, gate) in order.iter().enumerate() {
        ranks[gate.0 as usize] = place;
    }
}
