// Scan chains as they are kept. Which chains are those of a circuit is said in specs/Chains.antt.
ghost use Rattle.std.specs.Prelude.{◌≡◌};
ghost use Rattle.scan_order.specs.Chains.{AreChains};

use pd_base::{Items, LineId};
use std::marker::Model;

/// The scan chains of a circuit, each with at least one flip-flop, and each flip-flop once. Contracts see them as the list of the
/// chains; a chain is the list of its flip-flops, the scan-in side first.
#[derive(Debug, Drop)]
pub struct Chains {
    chains: Items<Items<LineId>>,
}

impl Model for Chains {
    ghost use Rattle.std.specs.Prelude.{List};
    ghost use Rattle.pd_base.specs.declared.ids.LineId.{LineId};
    ghost use Rattle.scan_order.specs.Chains.{AreChains};

    ghost Value = { List (List LineId) };

    ghost view = { λ c. c.chains };

    ghost invariant = { λ c. AreChains c.chains };
}

impl Chains {
    // These chains. Takes no memory.
    pub(crate) fn new(chains: Vec<Items<LineId>>) -> Chains
        requires { AreChains chains.items }
        ensures { result ≡ chains.items }
    {
        Chains {
            chains: Items::new(chains),
        }
    }

    /// The chains, in the order of the file. Takes no memory.
    pub fn chains(&self) -> &[Items<LineId>]
        ensures chains { result.now ≡ self.now }
        ensures are { AreChains self.now }
    {
        self.chains.as_slice()
    }
}
