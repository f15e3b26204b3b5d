// The gates of a netlist in rank order, and the place of each there.
ghost use Rattle.std.specs.Prelude.{◌≡◌, ◌<◌, length, slice_index, IfOk};
ghost use Rattle.pair_judging.specs.RankedGates.{AreRankedGates};

use cones::ranks_of;
use netlist::Netlist;
use pd_base::{GateId, OutOfMemory};
use std::alloc::Global;
use std::marker::Model;

/// The gates of one netlist in rank order.
#[derive(Drop)]
pub(crate) struct RankedGates {
    order: Vec<GateId>,
    // by gate
    places: Vec<usize>,
}

impl Model for RankedGates {
    ghost use Rattle.pair_judging.specs.RankedGates.{RankedGates as Ranked};

    ghost Value = { Ranked };

    ghost view = { λ g. record { order = g.order.items; places = g.places.items } };
}

impl RankedGates {
    /// The gates of this netlist. The one error is that memory ran out.
    pub(crate) fn new(alloc: Global, net: &Netlist) -> Result<RankedGates, OutOfMemory>
        ensures { IfOk result (AreRankedGates net.now) }
    {
        let order = Vec::from_slice(alloc, net.order())?;
        let places = ranks_of(alloc, net.gates() as usize, order.as_slice())?;
        Ok(RankedGates { order, places })
    }

    /// The gates in rank order.
    pub(crate) fn order(&self) -> &[GateId]
        ensures { result.now ≡ self.now.order }
    {
        self.order.as_slice()
    }

    /// The place of a gate there.
    pub(crate) fn place_of(&self, gate: GateId) -> usize
        requires { gate.0 < length self.now.places }
        ensures { result ≡ slice_index self.now.places gate.0 }
    {
        self.places[gate.0 as usize]
    }
}
