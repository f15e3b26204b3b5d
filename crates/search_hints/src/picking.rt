// On which pin of a gate to decide, so that its line comes into states that are wanted of it: a line, and the part of its states that
// is tried first. A hint alone: what it leads to is judged before it is taken.
ghost use Rattle.std.specs.Prelude.{◌≡◌, ◌<◌, length, IfSome};
ghost use Rattle.netlist.specs.Circuit.{gate_count, line_count, HasLines};
ghost use Rattle.state_sets.specs.States.{IsWithin};

use netlist::{GateKind, Netlist, Op, SideCondition};
use pd_base::{GateId, LineId};
use state_sets::{Algebra, StateSet, every_state};

// A decision: of a line, the states that are tried first.
#[derive(Clone, Copy)]
pub(crate) struct Cut {
    pub(crate) line: LineId,
    pub(crate) to: StateSet,
}

/// What is seen of a netlist: the labels of its lines, and what the lines are liked to be in, which is the states with the last value
/// that they had under the last test, or all. Both have an entry for each line.
#[derive(Drop)]
pub struct Sight<'a> {
    /// The netlist.
    pub net: &'a Netlist,
    /// By line, the states that it may be in.
    pub labels: &'a [StateSet],
    /// By line, the states that it is liked to be in.
    pub liked: &'a [StateSet],
    ghost one_each: { length labels.now ≡ line_count net.now },
    ghost liked_each: { length liked.now ≡ line_count net.now },
}

// The states of one set that another one has not.
pub(crate) fn without(set: StateSet, other: StateSet) -> StateSet {
    StateSet(set.0 & !other.0)
}

// Whether a set has more than one state.
pub(crate) fn has_two(set: StateSet) -> bool {
    set.0 & set.0.wrapping_sub(1) != 0
}

// Whether a set has a state of each last value.
pub(crate) fn has_both_values<A: Algebra>(set: StateSet) -> bool {
    let at_0 = set.intersect(A::ending_at(false));
    let at_1 = set.intersect(A::ending_at(true));
    at_0 != StateSet::EMPTY && at_1 != StateSet::EMPTY
}

// The steady states.
pub(crate) fn steady_states<A: Algebra>() -> StateSet {
    A::allowed_by(SideCondition::AnySteady)
}

// The states of which a gate of this kind makes those of a set.
pub(crate) fn uninverted<A: Algebra>(kind: GateKind, set: StateSet) -> StateSet
    ensures { IsWithin A.algebra.count result }
{
    let set = set.intersect(every_state::<A>());
    if kind.inverts() {
        A::invert_set(set)
    } else {
        set
    }
}

// A cut of a line that a pin of the gate reads, towards these states of the gate's line. Inlined, since it is asked at each gate of the way
// back to a source.
#[inline(always)]
pub(crate) fn pick<A: Algebra>(sight: &Sight, gate: GateId, states: StateSet) -> Option<Cut>
    requires { gate.0 < gate_count sight.now.net.now }
    ensures { IfSome result (λ cut. cut.line.0 < line_count sight.now.net.now) }
{
    let kind = sight.net.kind(gate);
    let pins = sight.net.pins(gate);
    let wanted = uninverted::<A>(kind, states);
    if let [pin] = pins {
        return cut_into(sight, *pin, wanted);
    }
    let picked = match kind.operation() {
        Op::And => pick_controlled::<A>(sight, pins, wanted, false),
        Op::Or => pick_controlled::<A>(sight, pins, wanted, true),
        Op::Xor => pick_parity::<A>(sight, pins, wanted),
    };
    if picked.is_some() {
        return picked;
    }
    pick_any::<A>(sight, pins)
}

// The same where a pin with this last value controls the gate: the easiest pin into the controlling states that are wanted, and into the
// steady ones where that takes no pin anywhere; else all pins into the other states, the hardest one first.
fn pick_controlled<A: Algebra>(
    sight: &Sight,
    pins: &[LineId],
    wanted: StateSet,
    controlling: bool,
) -> Option<Cut>
    requires { HasLines sight.now.net.now pins.now }
    ensures { IfSome result (λ cut. cut.line.0 < line_count sight.now.net.now) }
{
    let picked = easiest_into::<A>(sight, pins, wanted.intersect(A::ending_at(controlling)));
    if picked.is_some() {
        return picked;
    }
    let others = A::ending_at(!controlling);
    let free = wanted.intersect(others);
    if free == StateSet::EMPTY {
        return None;
    }
    let steady = steady_states::<A>();
    if without(free, steady) == StateSet::EMPTY {
        return hardest(sight, pins, others.intersect(steady));
    }
    hardest_into::<A>(sight, pins, others)
}

// The same at a parity: all pins steady, the hardest one first, where that is wanted; else the easiest pin to the final value that its
// line is liked to have. Inlined, as what asks it is.
#[inline(always)]
fn pick_parity<A: Algebra>(sight: &Sight, pins: &[LineId], wanted: StateSet) -> Option<Cut>
    requires { HasLines sight.now.net.now pins.now }
    ensures { IfSome result (λ cut. cut.line.0 < line_count sight.now.net.now) }
{
    let steady = steady_states::<A>();
    if without(wanted, steady) == StateSet::EMPTY {
        let picked = hardest(sight, pins, steady);
        if picked.is_some() {
            return picked;
        }
    }
    match easiest::<A>(sight, pins, A::ending_at(false)) {
        Some(cut) => Some(as_liked(sight, cut)),
        None => easiest::<A>(sight, pins, steady),
    }
}

// The easiest pin into a set, or into its steady states where no pin has states in the set and others.
fn easiest_into<A: Algebra>(sight: &Sight, pins: &[LineId], to: StateSet) -> Option<Cut>
    requires { HasLines sight.now.net.now pins.now }
    ensures { IfSome result (λ cut. cut.line.0 < line_count sight.now.net.now) }
{
    let picked = easiest::<A>(sight, pins, to);
    if picked.is_some() {
        return picked;
    }
    easiest::<A>(sight, pins, to.intersect(steady_states::<A>()))
}

// The hardest pin, in the same way.
fn hardest_into<A: Algebra>(sight: &Sight, pins: &[LineId], to: StateSet) -> Option<Cut>
    requires { HasLines sight.now.net.now pins.now }
    ensures { IfSome result (λ cut. cut.line.0 < line_count sight.now.net.now) }
{
    let picked = hardest(sight, pins, to);
    if picked.is_some() {
        return picked;
    }
    hardest(sight, pins, to.intersect(steady_states::<A>()))
}

// The cut to what its line is liked to be in, where that leaves the line some states and takes some away.
fn as_liked(sight: &Sight, cut: Cut) -> Cut
    requires { cut.line.0 < line_count sight.now.net.now }
    ensures { result.line ≡ cut.line }
{
    cut_or(sight, cut, sight.liked[cut.line.0 as usize])
}

// The cut to other states, where that leaves the line some states and takes some away.
pub(crate) fn cut_or(sight: &Sight, cut: Cut, to: StateSet) -> Cut
    requires { cut.line.0 < line_count sight.now.net.now }
    ensures { result.line ≡ cut.line }
{
    match cut_into(sight, cut.line, to) {
        Some(liked) => liked,
        None => cut,
    }
}

// Of the pins with states in a set and others: one that is liked to be there, else one of the lowest level. Most gates have two pins: these
// are looked at without a call, each label once, since a search asks this at each gate of the way back to a source.
#[inline(always)]
pub(crate) fn easiest<A: Algebra>(sight: &Sight, pins: &[LineId], to: StateSet) -> Option<Cut>
    requires { HasLines sight.now.net.now pins.now }
    ensures { IfSome result (λ cut. cut.line.0 < line_count sight.now.net.now) }
{
    if let [first, second] = pins {
        return easier::<A>(sight, *first, *second, to);
    }
    easiest_of_many::<A>(sight, pins, to)
}

// The same of two pins.
#[inline(always)]
fn easier<A: Algebra>(sight: &Sight, first: LineId, second: LineId, to: StateSet) -> Option<Cut>
    requires first { first.0 < line_count sight.now.net.now }
    requires second { second.0 < line_count sight.now.net.now }
    ensures { IfSome result (λ cut. cut.line.0 < line_count sight.now.net.now) }
{
    let at_first = cut_into(sight, first, to);
    let Some(cut) = cut_into(sight, second, to) else {
        return at_first;
    };
    match at_first {
        Some(other) if !is_easier::<A>(sight, cut, other) => Some(other),
        _ => Some(cut),
    }
}

// The same of any number of pins.
fn easiest_of_many<A: Algebra>(sight: &Sight, pins: &[LineId], to: StateSet) -> Option<Cut>
    requires { HasLines sight.now.net.now pins.now }
    ensures { IfSome result (λ cut. cut.line.0 < line_count sight.now.net.now) }
{
    let mut best: Option<Cut> = None;
    for line in pins {
        if let Some(cut) = cut_into(sight, *line, to) {
            best = Some(match best {
                Some(other) if !is_easier::<A>(sight, cut, other) => other,
                _ => cut,
            });
        }
    }
    best
}

// Of the pins with states in a set and others, one of the highest level. Two pins are looked at without a call, as above.
#[inline(always)]
pub(crate) fn hardest(sight: &Sight, pins: &[LineId], to: StateSet) -> Option<Cut>
    requires { HasLines sight.now.net.now pins.now }
    ensures { IfSome result (λ cut. cut.line.0 < line_count sight.now.net.now) }
{
    if let [first, second] = pins {
        return harder(sight, *first, *second, to);
    }
    hardest_of_many(sight, pins, to)
}

// The same of two pins.
#[inline(always)]
fn harder(sight: &Sight, first: LineId, second: LineId, to: StateSet) -> Option<Cut>
    requires first { first.0 < line_count sight.now.net.now }
    requires second { second.0 < line_count sight.now.net.now }
    ensures { IfSome result (λ cut. cut.line.0 < line_count sight.now.net.now) }
{
    let at_first = cut_into(sight, first, to);
    let Some(cut) = cut_into(sight, second, to) else {
        return at_first;
    };
    match at_first {
        Some(other) if sight.net.level(cut.line) <= sight.net.level(other.line) => Some(other),
        _ => Some(cut),
    }
}

// The same of any number of pins.
fn hardest_of_many(sight: &Sight, pins: &[LineId], to: StateSet) -> Option<Cut>
    requires { HasLines sight.now.net.now pins.now }
    ensures { IfSome result (λ cut. cut.line.0 < line_count sight.now.net.now) }
{
    let mut best: Option<Cut> = None;
    for line in pins {
        if let Some(cut) = cut_into(sight, *line, to) {
            best = Some(match best {
                Some(other) if sight.net.level(cut.line) <= sight.net.level(other.line) => other,
                _ => cut,
            });
        }
    }
    best
}

// The cut of a line to its states in a set, if it has some of them and others.
pub(crate) fn cut_into(sight: &Sight, line: LineId, to: StateSet) -> Option<Cut>
    requires { line.0 < line_count sight.now.net.now }
    ensures { IfSome result (λ cut. cut.line ≡ line) }
{
    let label = sight.labels[line.0 as usize];
    let inside = label.intersect(to);
    if inside == StateSet::EMPTY || inside == label {
        return None;
    }
    Some(Cut { line, to: inside })
}

// Whether a cut is preferred to another one: where its line alone is liked to be in such states, else where it is on a lower level.
fn is_easier<A: Algebra>(sight: &Sight, cut: Cut, other: Cut) -> bool
    requires cut { cut.line.0 < line_count sight.now.net.now }
    requires other { other.line.0 < line_count sight.now.net.now }
{
    let likes = is_liked::<A>(sight.liked[cut.line.0 as usize], cut.to);
    let likes_other = is_liked::<A>(sight.liked[other.line.0 as usize], other.to);
    if likes != likes_other {
        return likes;
    }
    sight.net.level(cut.line) < sight.net.level(other.line)
}

// Whether a line that is liked to be in some states alone is liked to be in one of these.
fn is_liked<A: Algebra>(liked: StateSet, states: StateSet) -> bool {
    liked != every_state::<A>() && liked.intersect(states) != StateSet::EMPTY
}

// The first of these lines that has several states: its steady ones, if it has others too, else the least one.
pub(crate) fn pick_any<A: Algebra>(sight: &Sight, lines: &[LineId]) -> Option<Cut>
    requires { HasLines sight.now.net.now lines.now }
    ensures { IfSome result (λ cut. cut.line.0 < line_count sight.now.net.now) }
{
    for line in lines {
        let label = sight.labels[line.0 as usize];
        if label.0 & label.0.wrapping_sub(1) != 0 {
            return Some(Cut {
                line: *line,
                to: first_part::<A>(label),
            });
        }
    }
    None
}

// The steady states of a set that has others too, else its least state.
pub(crate) fn first_part<A: Algebra>(set: StateSet) -> StateSet {
    let steady = set.intersect(steady_states::<A>());
    if steady != StateSet::EMPTY && steady != set {
        return steady;
    }
    StateSet(set.0 & set.0.wrapping_neg())
}
