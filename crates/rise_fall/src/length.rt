// How long a path is where each pin delays a rise and a fall differently: which of the two counts is told by the value that the
// pin's line ends at.
ghost use Rattle.std.specs.Prelude.{◌≡◌, ℤ, pos, ◌<ℤ◌, List, Bool, length};
ghost use Rattle.pd_base.specs.declared.fault.Direction.{Direction};
ghost use Rattle.pd_base.specs.declared.fault.Kind.TheVariants.{Robust};
ghost use Rattle.pd_base.specs.Pair.{Vectors};
ghost use Rattle.pd_base.specs.Target.{target_of};
ghost use Rattle.netlist.specs.Circuit.{line_count};
ghost use Rattle.netlist.specs.Conditions.{Meets};
ghost use Rattle.netlist.specs.Paths.{IsPrefix};
ghost use Rattle.delay_annotation.specs.RiseFall.{BothFit, rise_fall_of};
ghost use Rattle.rise_fall.specs.Showing.{AreValuesUnder, IsLateAt};
ghost use Rattle.rise_fall.specs.Waves.{final_length};

use delay_annotation::RiseFall;
use netlist::Netlist;
use pd_base::Path;

/// The length of a path or of a prefix for the values at which its lines end, in delay units: the sum over its steps of the pin's
/// rise delay where the line that the pin reads is 1 at the end, else of its fall delay. `values` has one value per line, by line
/// number: the values under the second vector. Takes no memory.
pub fn length_rise_fall(net: &Netlist, delays: &RiseFall, path: &Path, values: &[bool]) -> u64
    requires fits { BothFit net.now delays.now }
    requires prefix { IsPrefix net.now path.now }
    requires one_each { length values.now ≡ line_count net.now }
    ensures length { (vector : List Bool) → AreValuesUnder net.now vector values.now
        → result ≡ final_length (rise_fall_of net.now delays.now) net.now vector path.now }
    ensures late { (pair : Vectors) (direction : Direction) → AreValuesUnder net.now pair.second values.now
        → Meets net.now (target_of path.now direction Robust) pair
        → (time : ℤ) → time <ℤ pos result → IsLateAt net.now pair (rise_fall_of net.now delays.now) path.now time }
{
    // A prefix begins at a source, and the circuit's levels bound its steps: no sum of their delays overflows.
    let at_source = path.source().0 < net.sources();
    prove!(at_source);
    let mut total = 0;
    let mut line = path.source();
    for step in path.steps() {
        let delay = if values[line.0 as usize] {
            delays.rise(net, *step)
        } else {
            delays.fall(net, *step)
        };
        total += u64::from(delay);
        line = net.line_of(step.gate);
    }
    total
}
