// What a caller of `meets` may conclude of late paths. What is steady is in steady_lines.rt.
ghost use Rattle.std.specs.Prelude.{◌≡◌, ◌≢◌, ℤ, pos, ◌-ℤ◌, ◌<ℤ◌, IsTrue, length, sum_by};
ghost use Rattle.pd_base.specs.Route.{Route};
ghost use Rattle.pd_base.specs.Target.{target_of};
ghost use Rattle.netlist.specs.Circuit.{source_count, line_count};
ghost use Rattle.netlist.specs.Values.{value};
ghost use Rattle.netlist.specs.Waves.{Delays, wave_of};
ghost use Rattle.netlist.specs.Paths.{IsPrefix, IsPrefixOf, end_of, length_of};
ghost use Rattle.netlist.specs.Conditions.{Meets};
ghost use Rattle.netlist.specs.Meaning.{HoldsBack, IsSettled};

use netlist::Netlist;
use path_model::{Scratch, meets};
use pd_base::{Direction, Kind, Pair, Path};

/// Whether the pair is a robust test for the path. Where it is, then whatever the delays are, at each time at which the path is
/// late its end does not have its final value.
pub fn is_robust_test(
    net: &Netlist,
    path: &Path,
    direction: Direction,
    pair: &Pair,
    scratch: &mut Scratch,
) -> bool
    requires prefix { IsPrefix net.now path.now }
    requires bits { length pair.now.first ≡ source_count net.now }
    requires scratch { scratch.old ≡ line_count net.now }
    ensures { IsTrue result → (delays : Delays) (time : ℤ) → time <ℤ pos (length_of delays path.now)
        → wave_of net.now pair.now delays (end_of net.now path.now) time
        ≢ value net.now pair.now.second (end_of net.now path.now) }
{
    meets(net, path, direction, Kind::Robust, pair, scratch)
}

/// Whether the pair is a nonrobust test for the path. Where it is, then whatever the delays are, at each time at which the path
/// is late and its sides have settled, its end does not have its final value.
pub fn is_nonrobust_test(
    net: &Netlist,
    path: &Path,
    direction: Direction,
    pair: &Pair,
    scratch: &mut Scratch,
) -> bool
    requires prefix { IsPrefix net.now path.now }
    requires bits { length pair.now.first ≡ source_count net.now }
    requires scratch { scratch.old ≡ line_count net.now }
    ensures end { IsTrue result → (delays : Delays) (time : ℤ) → time <ℤ pos (length_of delays path.now)
        → IsSettled net.now path.now pair.now delays time
        → wave_of net.now pair.now delays (end_of net.now path.now) time
        ≢ value net.now pair.now.second (end_of net.now path.now) }
    ensures along { IsTrue result → (delays : Delays) (time : ℤ) → time <ℤ pos (length_of delays path.now)
        → IsSettled net.now path.now pair.now delays time
        → (prefix : Route) (on : IsPrefixOf prefix path.now)
        → wave_of net.now pair.now delays (end_of net.now prefix) (time -ℤ pos (sum_by delays on.rest))
        ≢ value net.now pair.now.second (end_of net.now prefix) }
{
    meets(net, path, direction, Kind::Nonrobust, pair, scratch)
}

/// Whether the pair is a test of some kind for the path, the robust kind being tried first. It is then a nonrobust one, for the
/// path and for each of its prefixes.
pub fn is_test(
    net: &Netlist,
    path: &Path,
    direction: Direction,
    pair: &Pair,
    scratch: &mut Scratch,
) -> bool
    requires prefix { IsPrefix net.now path.now }
    requires bits { length pair.now.first ≡ source_count net.now }
    requires scratch { scratch.old ≡ line_count net.now }
    ensures { IsTrue result → Meets net.now (target_of path.now direction Kind.Nonrobust) pair.now }
{
    meets(net, path, direction, Kind::Robust, pair, scratch)
        || meets(net, path, direction, Kind::Nonrobust, pair, scratch)
}

/// Whether the pair is a robust test for the path. Where it is, it holds each prefix back: below the prefix's length its last
/// line has its value under the first vector, which is not the one under the second.
pub fn shows_each_prefix(
    net: &Netlist,
    path: &Path,
    direction: Direction,
    pair: &Pair,
    scratch: &mut Scratch,
) -> bool
    requires prefix { IsPrefix net.now path.now }
    requires bits { length pair.now.first ≡ source_count net.now }
    requires scratch { scratch.old ≡ line_count net.now }
    ensures differs { IsTrue result → (prefix : Route) → IsPrefixOf prefix path.now
        → value net.now pair.now.first (end_of net.now prefix) ≢ value net.now pair.now.second (end_of net.now prefix) }
    ensures unchanged { IsTrue result → (delays : Delays) (prefix : Route) → IsPrefixOf prefix path.now
        → (time : ℤ) → time <ℤ pos (length_of delays prefix)
        → wave_of net.now pair.now delays (end_of net.now prefix) time
        ≡ value net.now pair.now.first (end_of net.now prefix) }
    ensures holds_back { IsTrue result → HoldsBack net.now path.now pair.now }
    ensures prefix { IsTrue result → (prefix : Route) → IsPrefixOf prefix path.now
        → Meets net.now (target_of prefix direction Kind.Robust) pair.now }
{
    meets(net, path, direction, Kind::Robust, pair, scratch)
}
