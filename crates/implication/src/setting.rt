// What an engine is made for: a netlist, and the rules under which its searches start. An engine that borrowed them by a lifetime of
// its own could not be lent to scopes in a way that their callers can follow, so the engine is generic in what gives them.
ghost use Rattle.std.specs.Prelude.{◌≡◌};

use netlist::Netlist;
use pd_base::Rules;

/// A netlist, and the rules under which tests are looked for in it.
pub trait Setting: Drop {
    ghost use Rattle.netlist.specs.Circuit.{Circuit};
    ghost use Rattle.pd_base.specs.declared.rules.Rules.{Rules};

    ghost circuit: { Self → Circuit };

    ghost rules: { Self → Rules };

    /// The netlist. Contracts see its circuit.
    fn netlist(&self) -> &Netlist
        ensures { result.now ≡ circuit self.now };

    /// The rules.
    fn rules(&self) -> &Rules
        ensures { result.now ≡ rules self.now };
}

/// A netlist and rules that others own.
#[derive(Clone, Copy)]
pub struct RuledNetlist<'n> {
    /// The netlist.
    pub net: &'n Netlist,
    /// The rules.
    pub rules: &'n Rules,
}

impl<'n> Setting for RuledNetlist<'n> {
    ghost circuit = { λ s. s.net.now };

    ghost rules = { λ s. s.rules.now };

    fn netlist(&self) -> &Netlist {
        self.net
    }

    fn rules(&self) -> &Rules {
        self.rules
    }
}
