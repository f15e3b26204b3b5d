// On which pin of a gate to decide where there are links: of a gate of the second frame towards the states, of one of the first frame
// alone towards the first values that are wanted of its line. And whether a linked source is open, and what to decide on it. Hints alone.
ghost use Rattle.std.specs.Prelude.{◌<◌, IfSome};
ghost use Rattle.netlist.specs.Circuit.{gate_count, line_count, HasLines};

use crate::first_values::{FirstValues, lasts_of};
use crate::open_lines::join_all;
use crate::picking::{
    Cut, Sight, cut_into, cut_or, easiest, first_part, hardest, has_both_values, has_two,
    steady_states, uninverted, without,
};
use netlist::Op;
use pd_base::{GateId, LineId};
use state_sets::{Algebra, StateSet};

// What a gate's line is wanted to be, and what the gate makes of its pins, both without its inversion; and whether states are wanted and
// not first values alone.
#[derive(Clone, Copy)]
struct Wish {
    wanted: StateSet,
    made: StateSet,
    whole: bool,
    values: FirstValues,
}

// A cut of a line that a pin of the gate reads, towards these states of the gate's line, or towards their first values.
pub(crate) fn pick_framed<A: Algebra>(
    sight: &Sight,
    values: FirstValues,
    whole: bool,
    gate: GateId,
    states: StateSet,
) -> Option<Cut>
    requires { gate.0 < gate_count sight.now.net.now }
    ensures { IfSome result (λ cut. cut.line.0 < line_count sight.now.net.now) }
{
    let kind = sight.net.kind(gate);
    let pins = sight.net.pins(gate);
    let op = kind.operation();
    let wish = Wish {
        wanted: uninverted::<A>(kind, states),
        made: join_all::<A>(sight.labels, op, pins),
        whole,
        values,
    };
    if let [pin] = pins {
        return cut_into(sight, *pin, wish.wanted);
    }
    let picked = match op {
        Op::And => pick_controlled::<A>(sight, wish, pins, false),
        Op::Or => pick_controlled::<A>(sight, wish, pins, true),
        Op::Xor => pick_parity::<A>(sight, wish, pins),
    };
    if picked.is_some() {
        return picked;
    }
    pick_some::<A>(sight, wish, pins)
}

// Whether a last value is wanted that the gate does not have to make yet.
fn wants_last<A: Algebra>(wish: Wish) -> bool {
    let lasts = lasts_of::<A>(wish.wanted);
    wish.whole && without(wish.made, lasts) != StateSet::EMPTY
}

// Whether a first value is wanted that the gate does not have to make yet.
fn wants_first(wish: Wish) -> bool {
    let firsts = wish.values.spread(wish.wanted);
    without(wish.made, firsts) != StateSet::EMPTY
}

// Whether the line is wanted to be steady.
fn wants_steady<A: Algebra>(wish: Wish) -> bool {
    wish.whole && without(wish.wanted, steady_states::<A>()) == StateSet::EMPTY
}

// The same where a pin with this value controls the gate: where steady states are wanted, the easiest pin into the controlling one, or all
// pins into the other one; else the easiest pin to the controlling last value, or to the controlling first one, where that is wanted.
fn pick_controlled<A: Algebra>(
    sight: &Sight,
    wish: Wish,
    pins: &[LineId],
    controlling: bool,
) -> Option<Cut>
    requires { HasLines sight.now.net.now pins.now }
    ensures { IfSome result (λ cut. cut.line.0 < line_count sight.now.net.now) }
{
    if wants_steady::<A>(wish) {
        let picked = pick_steady::<A>(sight, wish, pins, controlling);
        if picked.is_some() {
            return picked;
        }
    }
    if wants_last::<A>(wish) {
        let picked = easiest::<A>(sight, pins, A::ending_at(controlling));
        if picked.is_some() {
            return picked;
        }
    }
    if wants_first(wish) {
        let picked = easiest::<A>(sight, pins, wish.values.at(controlling));
        if picked.is_some() {
            return picked;
        }
    }
    if !wish.whole {
        return None;
    }
    let steady = steady_states::<A>().intersect(A::ending_at(controlling));
    easiest::<A>(sight, pins, steady)
}

// The same towards steady states.
fn pick_steady<A: Algebra>(
    sight: &Sight,
    wish: Wish,
    pins: &[LineId],
    controlling: bool,
) -> Option<Cut>
    requires { HasLines sight.now.net.now pins.now }
    ensures { IfSome result (λ cut. cut.line.0 < line_count sight.now.net.now) }
{
    let at = steady_states::<A>().intersect(A::ending_at(controlling));
    if wish.wanted.intersect(at) != StateSet::EMPTY {
        let picked = easiest::<A>(sight, pins, at);
        if picked.is_some() {
            return picked;
        }
    }
    let others = steady_states::<A>().intersect(A::ending_at(!controlling));
    if wish.wanted.intersect(others) == StateSet::EMPTY {
        return None;
    }
    hardest(sight, pins, others)
}

// The same at a parity: all pins steady, the hardest one first, where that is wanted; else the easiest pin to the last value, or to the
// first one, that its line is liked to have.
fn pick_parity<A: Algebra>(sight: &Sight, wish: Wish, pins: &[LineId]) -> Option<Cut>
    requires { HasLines sight.now.net.now pins.now }
    ensures { IfSome result (λ cut. cut.line.0 < line_count sight.now.net.now) }
{
    if wants_steady::<A>(wish) {
        let picked = hardest(sight, pins, steady_states::<A>());
        if picked.is_some() {
            return picked;
        }
    }
    if wants_last::<A>(wish)
        && let Some(cut) = easiest::<A>(sight, pins, A::ending_at(false))
    {
        let liked = lasts_of::<A>(sight.liked[cut.line.0 as usize]);
        return Some(cut_or(sight, cut, liked));
    }
    if wants_first(wish)
        && let Some(cut) = easiest::<A>(sight, pins, wish.values.at(false))
    {
        let liked = wish.values.spread(sight.liked[cut.line.0 as usize]);
        return Some(cut_or(sight, cut, liked));
    }
    if !wish.whole {
        return None;
    }
    easiest::<A>(sight, pins, steady_states::<A>())
}

// The first pin that is not settled yet: of its states the steady ones or the least one, or one of its first values.
fn pick_some<A: Algebra>(sight: &Sight, wish: Wish, pins: &[LineId]) -> Option<Cut>
    requires { HasLines sight.now.net.now pins.now }
    ensures { IfSome result (λ cut. cut.line.0 < line_count sight.now.net.now) }
{
    for line in pins {
        let label = sight.labels[line.0 as usize];
        if wish.whole && has_two(label) {
            return Some(Cut {
                line: *line,
                to: first_part::<A>(label),
            });
        }
        if !wish.whole && wish.values.has_both(label) {
            return Some(Cut {
                line: *line,
                to: label.intersect(wish.values.at(false)),
            });
        }
    }
    None
}

// Whether a linked source with this label is open: some first value and some last value that it has do not go together.
pub(crate) fn is_open_source<A: Algebra>(values: FirstValues, label: StateSet) -> bool {
    let firsts = values.spread(label).intersect(A::source_states());
    without(firsts.intersect(lasts_of::<A>(label)), label) != StateSet::EMPTY
}

// A cut of an open source to the last value that it is liked to have, or to 0.
pub(crate) fn pick_last<A: Algebra>(sight: &Sight, line: LineId) -> Option<Cut>
    requires { line.0 < line_count sight.now.net.now }
    ensures { IfSome result (λ cut. cut.line.0 < line_count sight.now.net.now) }
{
    let liked = cut_into(sight, line, lasts_of::<A>(sight.liked[line.0 as usize]));
    if liked.is_some() {
        return liked;
    }
    cut_into(sight, line, A::ending_at(false))
}
