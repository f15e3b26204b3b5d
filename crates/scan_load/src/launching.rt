// Whether the last shift launches a pair: what loads its first vector has to leave its second one after one shift more.
ghost use Rattle.std.specs.Prelude.{◌<◌, ◌↔◌, IsTrue, All, length};
ghost use Rattle.scan_load.specs.Shifting.{IsLoadable, ShiftsOn};

use pd_base::{LineId, Pair};
use scan_order::Chains;

/// Whether the last shift of these chains launches the pair: at each flip-flop but the first of its chain, the second vector has the bit that
/// the first has at the flip-flop before. It does so exactly where some bits load the pair into each chain. The vectors have bits for all
/// flip-flops. It takes no memory.
pub fn shifts_on_all(chains: &Chains, pair: &Pair) -> bool
    requires { All (λ chain. All (λ line. line.0 < length pair.now.first) chain) chains.now }
    ensures shifts { IsTrue result ↔ All (λ chain. ShiftsOn chain pair.now) chains.now }
    ensures loads { IsTrue result ↔ All (λ chain. IsLoadable chain pair.now) chains.now }
{
    for chain in chains.chains() {
        if !shifts_on(chain.as_slice(), pair) {
            return false;
        }
    }
    true
}

// Whether it does so in a chain.
fn shifts_on(chain: &[LineId], pair: &Pair) -> bool
    requires { All (λ line. line.0 < length pair.now.first) chain.now }
    ensures { IsTrue result ↔ ShiftsOn chain.now pair.now }
{
    let first = pair.first();
    let second = pair.second();
    for at in 1..chain.len() {
        if second[chain[at].0 as usize] != first[chain[at - 1].0 as usize] {
            return false;
        }
    }
    true
}
