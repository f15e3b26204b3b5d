// What is left of the waves that the pins of a gate see: of each pin its next change, in a store that gives the soonest of
// them all. So the store has an entry for each pin at most, however long the waves are.
ghost use Rattle.std.specs.Prelude.{◌≡◌, ◌<◌, ◌≤◌, ◌↔◌, ℤ, ◌∷◌, ◌++◌, length, drop, option_to_list, slice_index_or, IsTrue, All, IfOk};
ghost use Rattle.std.specs.List.Sorted.{IsPermutation};
ghost use Rattle.std.proofs.Common.{rules};
ghost use Rattle.std.specs.BinaryHeap.{heap_items, heap_len, IsHeap};
ghost use Rattle.std.specs.Cmp.{partial_order_from_own_ties};
ghost use Rattle.std.specs.Cmp.Rules.{comparing};
ghost use Rattle.std.specs.Ordering.{on, flip_args, int_eq, int_cmp, as_partial_cmp};
ghost use Rattle.delay_replay.specs.PinChanges.{AreAmong, AreCounted, IsBeforeAll, IsNextOrNone, IsPinChange, PassesChange, copy_at, copy_values, sooner};

use crate::PinCopies;
use netlist::MOST_FAN_IN;
use pd_base::OutOfMemory;
use std::alloc::Global;
use std::cmp::Ordering;
use std::collections::BinaryHeap;

/// The next change at a pin. Of two that are compared the sooner one is the greater.
#[derive(Clone, Copy)]
pub(crate) struct PinChange {
    /// When it comes at the pin.
    pub time: i64,
    /// The pin.
    pub pin: usize,
    /// How many changes the pin has seen by then.
    pub behind: usize,
    /// Whether the pin is 1 from then on.
    pub rises: bool,
}

impl PartialEq for PinChange {
    ghost eq = { on (λ c. c.time) int_eq };

    ghost laws = { Prim.search (comparing, rules) };

    fn eq(&self, other: &Self) -> bool {
        self.time == other.time
    }
}

impl Eq for PinChange {
    ghost laws = { Prim.search (comparing, rules) };
}

impl Ord for PinChange {
    ghost cmp = { flip_args (on (λ c. c.time) int_cmp) };

    ghost total = { Prim.search (comparing, rules) };

    ghost matches_partial_cmp = { Prim.search (comparing, rules) };

    ghost matches_eq = { Prim.search (comparing, rules) };

    fn cmp(&self, other: &Self) -> Ordering {
        other.time.cmp(&self.time)
    }
}

impl PartialOrd for PinChange {
    ghost partial_cmp = { as_partial_cmp (flip_args (on (λ c. c.time) int_cmp)) };

    ghost laws = { partial_order_from_own_ties (Prim.search (comparing, rules)) (Prim.search (comparing, rules)) };

    fn partial_cmp(&self, other: &Self) -> Option<Ordering> {
        Some(self.cmp(other))
    }
}

/// What the pins of a gate are yet to see.
#[derive(Drop)]
pub(crate) struct PinWaves {
    /// How many pins are 1 until the soonest change.
    pub ones: usize,
    /// The next change of each pin that still has one, the soonest as the greatest.
    pub nexts: BinaryHeap<PinChange>,
}

// What is left of what these pins see. It fails only where memory runs out.
pub(crate) fn pin_waves<P: PinCopies>(alloc: Global, copies: &P) -> Result<PinWaves, OutOfMemory>
    requires can { P.can_read copies.now }
    requires few_pins { length (P.copies copies.now) ≤ MOST_FAN_IN }
    ensures counted { IfOk result (λ seen. (time : ℤ) → AreCounted (P.copies copies.now)
        (copy_values (P.copies copies.now) time) seen.ones (heap_items seen.nexts) time) }
    ensures among { IfOk result (λ seen. AreAmong (length (P.copies copies.now)) seen.ones (heap_items seen.nexts)) }
    ensures each { IfOk result (λ seen. All (IsPinChange (P.copies copies.now)) (heap_items seen.nexts)) }
    ensures order { IfOk result (λ seen. IsHeap sooner (heap_items seen.nexts)) }
{
    let mut ones = 0;
    // It takes no memory until a pin changes: the pins of most gates don't.
    let mut nexts = BinaryHeap::new(alloc);
    for pin in 0..copies.pins() {
        let value = copies.earliest(pin);
        if value {
            ones += 1;
        }
        add(&mut nexts, next_change(copies, pin, 0, value))?;
    }
    Ok(PinWaves { ones, nexts })
}

// Adds a change, if there is one. It fails only where memory runs out.
#[inline(always)]
fn add(nexts: &mut BinaryHeap<PinChange>, change: Option<PinChange>) -> Result<(), OutOfMemory>
    ensures added { IfOk result (λ _. IsPermutation (option_to_list change ++ heap_items nexts.old) (heap_items nexts.new)) }
    ensures order { IfOk result (λ _. IsHeap sooner (heap_items nexts.old) → IsHeap sooner (heap_items nexts.new)) }
{
    if let Some(change) = change {
        nexts.push(change)?;
    }
    Ok(())
}

// The change that a pin sees at this place, where it has that value until then. None where it sees no further change.
#[inline(always)]
fn next_change<P: PinCopies>(copies: &P, pin: usize, place: usize, value: bool) -> Option<PinChange>
    requires can { P.can_read copies.now }
    requires pin { pin < length (P.copies copies.now) }
    ensures { IsNextOrNone (copy_at (P.copies copies.now) pin) pin place value result }
{
    match copies.change(pin, place) {
        None => None,
        Some(time) => Some(PinChange {
            time,
            pin,
            behind: place + 1,
            rises: !value,
        }),
    }
}

// Passes the soonest change, which is this one: the next change of its pin takes its place.
pub(crate) fn pass<P: PinCopies>(copies: &P, nexts: &mut BinaryHeap<PinChange>, soonest: PinChange)
    requires can { P.can_read copies.now }
    requires pin { soonest.pin < length (P.copies copies.now) }
    requires some { 0 < heap_len nexts.old }
    requires soonest { soonest ≡ slice_index_or (heap_items nexts.old) 0 soonest }
    ensures passes { PassesChange (P.copies copies.now) soonest (heap_items nexts.old) (heap_items nexts.new) }
    ensures order { IsHeap sooner (heap_items nexts.old) → IsHeap sooner (heap_items nexts.new) }
{
    match next_change(copies, soonest.pin, soonest.behind, soonest.rises) {
        None => {
            nexts.pop();
        }
        Some(change) => put_on_top(nexts, change),
    }
}

// Puts this change into the place of the soonest one.
fn put_on_top(nexts: &mut BinaryHeap<PinChange>, change: PinChange)
    requires some { 0 < heap_len nexts.old }
    ensures put { IsPermutation (change ∷ drop 1 (heap_items nexts.old)) (heap_items nexts.new) }
    ensures order { IsHeap sooner (heap_items nexts.old) → IsHeap sooner (heap_items nexts.new) }
{
    let mut top = nexts.peek_mut().unwrap();
    *top = change;
}

// Whether a time is before all these changes.
pub(crate) fn is_before_all(time: i64, nexts: &BinaryHeap<PinChange>) -> bool
    requires { IsHeap sooner (heap_items nexts.now) }
    ensures { IsTrue result ↔ IsBeforeAll time (heap_items nexts.now) }
{
    match nexts.peek() {
        None => true,
        Some(soonest) => time < soonest.time,
    }
}
