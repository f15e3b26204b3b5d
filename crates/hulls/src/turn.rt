// Turns: what waits to be narrowed is a gate or a link, and one number tells which, so that a queue of both costs what one of gates does.
ghost use Rattle.std.specs.Prelude.{◌≡◌, ◌<◌, ◌+◌, ◌^◌};
ghost use Rattle.hulls.specs.Awaiting.{gate_turn};

use pd_base::GateId;

/// The turn of a gate or of a link to be narrowed: a gate's own number, or a link's own number behind those of all gates.
#[derive(Clone, Copy)]
pub struct Turn(pub u32);

impl Turn {
    /// The turn of a gate.
    pub fn of_gate(gate: GateId) -> Turn
        ensures { result ≡ gate_turn gate.0 }
    {
        Turn(gate.0)
    }

    /// The turn of the link of this number, behind so many gates.
    pub(crate) fn of_link(gates: u32, link: u32) -> Turn
        requires { gates + link < 2 ^ 32 }
        ensures { result ≡ record { 0 = gates + link } }
    {
        Turn(gates + link)
    }
}
