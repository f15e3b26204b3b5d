// The length of a path, and which of two paths is listed first: the longer one, then the one of the lesser source, then the one
// of the lesser steps.
ghost use Rattle.std.specs.Prelude.{◌≡◌, ◌↔◌};
ghost use Rattle.delay_annotation.specs.Annotation.{delays_of, Fits};
ghost use Rattle.netlist.specs.Order.{IsBefore};
ghost use Rattle.netlist.specs.Paths.{length_of, IsPrefix};

use delay_annotation::Delays;
use netlist::Netlist;
use pd_base::Path;
use std::cmp::Ordering;

/// The length of a path or of a prefix: the sum of the delays at the pins of its steps, in delay units. Takes no memory.
pub fn length(net: &Netlist, delays: &Delays, path: &Path) -> u64
    requires fits { Fits net.now delays.now }
    requires prefix { IsPrefix net.now path.now }
    ensures { result ≡ length_of (delays_of net.now delays.now) path.now }
{
    // A prefix begins at a source, and the circuit's levels bound its steps: no sum of their delays overflows.
    let at_source = path.source().0 < net.sources();
    prove!(at_source);
    let mut total = 0;
    for step in path.steps() {
        total += u64::from(delays.delay(net, *step));
    }
    total
}

/// Which of two paths or prefixes is listed first. `Less` is that p stands before q, the longer path being first. Takes no
/// memory.
pub fn compare(net: &Netlist, delays: &Delays, p: &Path, q: &Path) -> Ordering
    requires fits { Fits net.now delays.now }
    requires p_prefix { IsPrefix net.now p.now }
    requires q_prefix { IsPrefix net.now q.now }
    ensures before { (result ≡ Ordering.Less) ↔ IsBefore (delays_of net.now delays.now) p.now q.now }
    ensures same { (result ≡ Ordering.Equal) ↔ (p.now ≡ q.now) }
    ensures behind { (result ≡ Ordering.Greater) ↔ IsBefore (delays_of net.now delays.now) q.now p.now }
{
    length(net, delays, q)
        .cmp(&length(net, delays, p))
        .then(p.source().cmp(&q.source()))
        .then(p.steps().cmp(&q.steps()))
}
