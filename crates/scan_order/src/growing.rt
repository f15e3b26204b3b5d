// Scan chains as far as they are read. A mark by source tells whether it stands in one of them, so that a name costs no walk over the
// chains. What is said of them stands in specs/Inside/Growing.antt; the file is gone through in reading.rt.
ghost use Rattle.std.specs.Prelude.{◌≡◌, ◌≢◌, ◌<◌, ◌++◌, [], ◌∷◌, true, vec_len, slice_set, All, Contains, IfErr, IfOk, MatchOption, OnOk};
ghost use Rattle.scan_order.specs.Chains.{AreChainsOf, flop_lines, in_chains};
ghost use Rattle.scan_order.specs.ScanFile.{scan_lines};

use crate::flops::find_flop;
use crate::{Chains, ScanFault};
use netlist::Netlist;
use pd_base::{Items, LineId, OutOfMemory};
use std::alloc::Global;
use std::mem;
use text_pieces::split_line;

// The chains that have ended, and the one that goes on, maybe without a flip-flop yet.
#[derive(Drop)]
pub(crate) struct Growing {
    pub ended: Vec<Items<LineId>>,
    pub chain: Vec<LineId>,
    pub placed: Vec<bool>,
}

impl Growing {
    ghost use Rattle.scan_order.specs.Inside.Growing.{FailsToEnd, FailsToTakeLine, IsFirstOutside, HoldsChainsSoFar, TakesLine, chains_so_far, lines_so_far};

    // No flip-flop stands in a chain yet.
    pub(crate) fn new(alloc: Global, net: &Netlist) -> Result<Growing, OutOfMemory>
        ensures none { IfOk result (λ growing. chains_so_far growing ≡ [] ∷ []) }
        ensures growing { IfOk result (HoldsChainsSoFar net.now) }
    {
        Ok(Growing {
            ended: Vec::new(alloc),
            chain: Vec::new(alloc),
            placed: vec![in alloc; false; net.sources() as usize]?,
        })
    }

    // Takes the first line of a text, which has this number, and gives the text behind it.
    pub(crate) fn take_line<'a>(
        &mut self,
        alloc: Global,
        net: &Netlist,
        number: u32,
        text: &'a [u8],
    ) -> Result<&'a [u8], ScanFault>
        requires growing { HoldsChainsSoFar net.now self.old }
        requires goes_on { text.now ≢ [] }
        ensures growing { OnOk result (HoldsChainsSoFar net.now self.new) }
        ensures takes { IfOk result (λ behind. TakesLine net.now text.now self.old self.new behind.now) }
        ensures fails { IfErr result (FailsToTakeLine net.now number text.now self.old) }
    {
        let Some((said, behind)) = split_line(text) else {
            return Err(ScanFault::Unknown(number));
        };
        if said.is_empty() {
            if self.chain.is_empty() || behind.is_empty() {
                return Err(ScanFault::Unknown(number));
            }
            self.part(alloc)?;
            return Ok(behind);
        }
        let Some(flop) = find_flop(net, said) else {
            return Err(ScanFault::Unknown(number));
        };
        if self.placed[flop.0 as usize] {
            return Err(ScanFault::Twice(number));
        }
        self.place(flop)?;
        Ok(behind)
    }

    // Ends the chain that goes on, and begins another one.
    fn part(&mut self, alloc: Global) -> Result<(), OutOfMemory>
        ensures ended { OnOk result (self.new.ended.items ≡ self.old.ended.items ++ self.old.chain.items ∷ []) }
        ensures chain { OnOk result (self.new.chain.items ≡ []) }
        ensures placed { OnOk result (self.new.placed.items ≡ self.old.placed.items) }
    {
        let chain = mem::replace(&mut self.chain, Vec::new(alloc));
        self.ended.push(Items::new(chain))?;
        Ok(())
    }

    // Places a flip-flop in the chain that goes on.
    fn place(&mut self, flop: LineId) -> Result<(), OutOfMemory>
        requires { flop.0 < vec_len self.old.placed }
        ensures ended { OnOk result (self.new.ended.items ≡ self.old.ended.items) }
        ensures chain { OnOk result (self.new.chain.items ≡ self.old.chain.items ++ flop ∷ []) }
        ensures placed { OnOk result (self.new.placed.items ≡ slice_set self.old.placed.items flop.0 true) }
    {
        self.chain.push(flop)?;
        self.placed[flop.0 as usize] = true;
        Ok(())
    }

    // The chains, where all flip-flops stand in them; else the first one that does not is missing.
    pub(crate) fn into_chains(self, net: &Netlist) -> Result<Chains, ScanFault>
        requires growing { HoldsChainsSoFar net.now self }
        requires ended { self.chain.items ≡ [] → self.ended.items ≡ [] }
        ensures chains { IfOk result (AreChainsOf net.now) }
        ensures lines { IfOk result (λ chains. scan_lines net.now chains ≡ lines_so_far net.now self) }
        ensures missing { IfErr result (FailsToEnd net.now self) }
    {
        if let Some(flop) = self.first_missing(net) {
            return Err(ScanFault::Missing(flop));
        }
        let Growing {
            mut ended,
            chain,
            ..
        } = self;
        if !chain.is_empty() {
            ended.push(Items::new(chain))?;
        }
        Ok(Chains::new(ended))
    }

    // The first flip-flop of the circuit that stands in no chain.
    fn first_missing(&self, net: &Netlist) -> Option<LineId>
        requires { HoldsChainsSoFar net.now self.now }
        ensures { MatchOption result (All (Contains (in_chains (chains_so_far self.now))) (flop_lines net.now))
            (IsFirstOutside (in_chains (chains_so_far self.now)) (flop_lines net.now)) }
    {
        for (flop, _) in net.flops() {
            if !self.placed[flop.0 as usize] {
                return Some(*flop);
            }
        }
        None
    }
}
