// Narrowing at one gate: all kept sets are collected from the labels as they are, and only then are labels cut. Most gates have two pins,
// and most others one or three: what is kept there is given apart, in no list, and at two pins it is found without a call where narrowing
// runs in a loop.
ghost use Rattle.std.specs.Prelude.{◌≡◌, ◌<◌, ◌≤◌, ℕ, length, All, IfSome};
ghost use Rattle.netlist.specs.declared.limits.TheConstants.{MOST_FAN_IN};
ghost use Rattle.netlist.specs.Circuit.{gate_count, line_count, pins_at};
ghost use Rattle.state_sets.specs.States.{AreWithin};
ghost use Rattle.state_sets.specs.Labellings.{TellsOfNarrowing};
ghost use Rattle.state_sets.specs.Narrowing.{IsNarrowing, KeepsAgreeing, GivesAtGate, GivesAtPin, gate_lines, gate_sets};
ghost use Rattle.hulls.specs.Sets.{Means, set_at};
ghost use Rattle.hulls.specs.GateViews.{sets_seen, AreKeptAtPins, IsGivenAtGate, IsKeptAtOne, IsKeptAtThree, IsKeptAtTwo};

use crate::collecting::write_kept_at_all;
use crate::cutting::{cut_line, cut_pins, told};
use crate::few::{KeptAtOne, KeptAtTwo, keep_one, keep_two, write_kept_at_one, write_kept_at_two};
use crate::scratch::NarrowScratch;
use crate::three::{KeptAtThree, keep_three_freely, write_kept_at_three};
use crate::view::GateView;
use netlist::Netlist;
use pd_base::{GateId, LineId};
use state_sets::{Algebra, Condition, Labels, Narrowed, StateSet};

/// Narrows the labels at a gate: each line that its pins read and its own line keep exactly the states that allowed choices have
/// there. With a condition, its pin is the on-path pin of the gate, and its kind is that of the test. Takes no memory.
pub fn narrow<A: Algebra>(
    net: &Netlist,
    labels: &mut Labels<A>,
    gate: GateId,
    condition: Option<Condition>,
    scratch: &mut NarrowScratch,
) -> Narrowed
    requires lines { length labels.old ≡ line_count net.now }
    requires gate { gate.0 < gate_count net.now }
    requires pin { IfSome condition (λ c. c.pin < length (pins_at net.now gate.0)) }
    ensures narrowed { IsNarrowing A.algebra net.now gate.0 condition labels.old labels.new }
    ensures answer { TellsOfNarrowing (gate_lines net.now gate.0) labels.old labels.new result }

    // sets of states below the count stay such sets
    ensures within { AreWithin A.algebra.count labels.old → AreWithin A.algebra.count labels.new }

    // states that agree at the gate and meet the condition are not lost
    ensures agreeing { KeepsAgreeing A.algebra net.now gate.0 condition labels.old labels.new }
{
    narrow_sets::<A>(net, labels.as_mut_slice(), gate, condition, scratch)
}

// The same on the sets alone.
fn narrow_sets<A: Algebra>(
    net: &Netlist,
    labels: &mut [StateSet],
    gate: GateId,
    condition: Option<Condition>,
    scratch: &mut NarrowScratch,
) -> Narrowed
    requires lines { length labels.old ≡ line_count net.now }
    requires gate { gate.0 < gate_count net.now }
    requires pin { IfSome condition (λ c. c.pin < length (pins_at net.now gate.0)) }
    ensures narrowed { IsNarrowing A.algebra net.now gate.0 condition labels.old labels.new }
    ensures answer { TellsOfNarrowing (gate_lines net.now gate.0) labels.old labels.new result }
    ensures within { AreWithin A.algebra.count labels.old → AreWithin A.algebra.count labels.new }
{
    let given = kept_at::<A>(net, labels, gate, condition, scratch);
    let own = LineId(net.sources() + gate.0);
    let pins = net.pins(gate);
    let changed = cut_pins(labels, pins, &scratch.kept);
    let own_changed = cut_line(labels, own, given);
    told(labels, pins, own, changed | own_changed)
}

/// The states that narrowing at a gate keeps, with no label written: those at each pin stand in the scratch, and those at the gate's
/// line are given. With a condition, its pin is the on-path pin of the gate, and its kind is that of the test. Takes no memory.
pub fn kept_at<A: Algebra>(
    net: &Netlist,
    labels: &[StateSet],
    gate: GateId,
    condition: Option<Condition>,
    scratch: &mut NarrowScratch,
) -> StateSet
    requires lines { length labels.now ≡ line_count net.now }
    requires gate { gate.0 < gate_count net.now }
    requires pin { IfSome condition (λ c. c.pin < length (pins_at net.now gate.0)) }
    ensures at_pins { (pin : ℕ) → pin < length (pins_at net.now gate.0)
        → Means A.algebra.count (set_at scratch.new pin) (GivesAtPin A.algebra (gate_sets net.now gate.0 labels.now) condition pin) }
    ensures at_gate { Means A.algebra.count result (GivesAtGate A.algebra (gate_sets net.now gate.0 labels.now) condition) }
{
    keep::<A>(&view_of(net, labels, gate), condition, scratch)
}

// What narrowing looks at.
#[inline(always)]
fn view_of<'a>(net: &'a Netlist, labels: &'a [StateSet], gate: GateId) -> GateView<'a>
    requires lines { length labels.now ≡ line_count net.now }
    requires gate { gate.0 < gate_count net.now }
    ensures sets { sets_seen result ≡ gate_sets net.now gate.0 labels.now }
    ensures pins { result.pins.now ≡ pins_at net.now gate.0 }
    ensures labels { result.labels.now ≡ labels.now }
    ensures lines { All (λ line. line.0 < length labels.now) result.pins.now }
    ensures few { length result.pins.now ≤ MOST_FAN_IN }
{
    let own = LineId(net.sources() + gate.0);
    GateView {
        kind: net.kind(gate),
        pins: net.pins(gate),
        labels,
        own: labels[own.0 as usize],
    }
}

// The states that narrowing keeps at a gate with one pin, as `kept_at` finds them, but returned and written nowhere.
#[inline(always)]
pub(crate) fn kept_at_one<A: Algebra>(
    net: &Netlist,
    labels: &[StateSet],
    gate: GateId,
    condition: Option<Condition>,
) -> KeptAtOne
    requires lines { length labels.now ≡ line_count net.now }
    requires gate { gate.0 < gate_count net.now }
    requires one { length (pins_at net.now gate.0) ≡ 1 }
    requires pin { IfSome condition (λ c. c.pin < length (pins_at net.now gate.0)) }
    ensures { IsKeptAtOne A.algebra (gate_sets net.now gate.0 labels.now) condition result }
{
    keep_one::<A>(&view_of(net, labels, gate), condition)
}

// The same at a gate with two pins. Inlined, since it is asked in a loop, most often without a condition.
#[inline(always)]
pub(crate) fn kept_at_two<A: Algebra>(
    net: &Netlist,
    labels: &[StateSet],
    gate: GateId,
    condition: Option<Condition>,
) -> KeptAtTwo
    requires lines { length labels.now ≡ line_count net.now }
    requires gate { gate.0 < gate_count net.now }
    requires two { length (pins_at net.now gate.0) ≡ 2 }
    requires pin { IfSome condition (λ c. c.pin < length (pins_at net.now gate.0)) }
    ensures { IsKeptAtTwo A.algebra (gate_sets net.now gate.0 labels.now) condition result }
{
    keep_two::<A>(&view_of(net, labels, gate), condition)
}

// The same at a gate with three pins and no condition.
#[inline(always)]
pub(crate) fn kept_at_three<A: Algebra>(
    net: &Netlist,
    labels: &[StateSet],
    gate: GateId,
) -> KeptAtThree
    requires lines { length labels.now ≡ line_count net.now }
    requires gate { gate.0 < gate_count net.now }
    requires three { length (pins_at net.now gate.0) ≡ 3 }
    ensures { IsKeptAtThree A.algebra (gate_sets net.now gate.0 labels.now) result }
{
    keep_three_freely::<A>(&view_of(net, labels, gate))
}

// As `kept_at`, of what is seen at a gate.
fn keep<A: Algebra>(
    gate: &GateView,
    condition: Option<Condition>,
    scratch: &mut NarrowScratch,
) -> StateSet
    requires lines { All (λ line. line.0 < length gate.now.labels.now) gate.now.pins.now }
    requires few { length gate.now.pins.now ≤ MOST_FAN_IN }
    requires pin { IfSome condition (λ c. c.pin < length gate.now.pins.now) }
    ensures at_pins { AreKeptAtPins A.algebra gate.now condition scratch.new }
    ensures at_gate { IsGivenAtGate A.algebra gate.now condition result }
{
    match gate.pins.len() {
        1 => write_kept_at_one::<A>(gate, condition, &mut scratch.kept),
        2 => write_kept_at_two::<A>(gate, condition, &mut scratch.kept),
        3 if condition.is_none() => write_kept_at_three::<A>(gate, &mut scratch.kept),
        _ => {
            // a copy for that call: so what is seen at a gate with few pins stands nowhere in memory
            let seen = *gate;
            write_kept_at_all::<A>(
                &seen,
                condition,
                &mut scratch.cut,
                &mut scratch.suffixes,
                &mut scratch.kept,
            )
        }
    }
}
