// Whether a pair of vectors is a test for a path: the transition is launched, and each side pin does what the table asks. The
// values and the steadiness of all lines are computed first, into room that the caller hands in.
ghost use Rattle.std.specs.Prelude.{◌≡◌, ◌≢◌, ◌<◌, ◌↔◌, IfOk, IsTrue, length, All};
ghost use Rattle.netlist.specs.Circuit.{source_count, line_count};
ghost use Rattle.netlist.specs.Conditions.{Launches, Meets, SidesMeet};
ghost use Rattle.netlist.specs.Meaning.{Detects, DetectsSettled, DetectsSettledAlong, IsUnchangedBelow};
ghost use Rattle.netlist.specs.Paths.{IsPrefix, IsPrefixOf, end_of, length_of};
ghost use Rattle.netlist.specs.Values.{value};
ghost use Rattle.netlist.specs.Waves.{Delays};
ghost use Rattle.pd_base.specs.Route.{Route};
ghost use Rattle.pd_base.specs.Target.{target_of};
ghost use Rattle.path_model.specs.Sides.{SidesPass};

use logic_values::{Steady, evaluate, steady};
use netlist::{Netlist, SideCondition, final_bit, side_condition};
use pd_base::{Direction, Kind, LineId, OutOfMemory, Pair, Path};
use std::alloc::Global;
use std::marker::Model;

/// Room for what `meets` computes of the lines of a circuit. Contracts see the number of lines, which is all that counts:
/// what an earlier call left there is written over.
#[derive(Drop)]
pub struct Scratch {
    pub(crate) values: Vec<bool>,
    pub(crate) steadiness: Vec<Steady>,
}

impl Model for Scratch {
    ghost use Rattle.std.specs.Prelude.{◌≡◌, ℕ, length};

    ghost Value = { ℕ };

    ghost view = { λ s. length s.values.items };

    ghost invariant = { λ s. length s.steadiness.items ≡ length s.values.items };
}

impl Scratch {
    /// Room for the lines of this circuit. The one error is that memory ran out.
    pub fn new(alloc: Global, net: &Netlist) -> Result<Scratch, OutOfMemory>
        ensures { IfOk result (λ scratch. scratch ≡ line_count net.now) }
    {
        let lines = net.lines() as usize;
        Ok(Scratch {
            values: vec![in alloc; false; lines]?,
            steadiness: vec![in alloc; Steady::Moving; lines]?,
        })
    }
}

/// Whether the pair is a test of this kind for the transition at the source of a path, or of a prefix. The pair has one bit per
/// source, and the scratch was made for this circuit; it serves any further call for it. Takes no memory.
///
/// Where it is, the pair shows the path late under every delay assignment. A robust test holds the last line of each prefix
/// at its first value below the prefix's length, so what is sampled at the end of a late path is wrong. A nonrobust test shows
/// that where the path's sides have settled too, and then each line along the path lacks its final value, read back from the
/// time of sampling by the delays that are yet to come. A robust test is a nonrobust one, and a test for a path is one for
/// each of its prefixes.
pub fn meets(
    net: &Netlist,
    path: &Path,
    dir: Direction,
    kind: Kind,
    pair: &Pair,
    scratch: &mut Scratch,
) -> bool
    requires prefix { IsPrefix net.now path.now }
    requires bits { length pair.now.first ≡ source_count net.now }
    requires scratch { scratch.old ≡ line_count net.now }
    ensures meets { IsTrue result ↔ Meets net.now (target_of path.now dir kind) pair.now }
    ensures prefixes_change { IsTrue result → kind ≡ Kind.Robust → (prefix : Route) → IsPrefixOf prefix path.now
        → value net.now pair.now.first (end_of net.now prefix) ≢ value net.now pair.now.second (end_of net.now prefix) }
    ensures prefixes_hold_back { IsTrue result → kind ≡ Kind.Robust
        → (delays : Delays) (prefix : Route) → IsPrefixOf prefix path.now
        → IsUnchangedBelow net.now pair.now delays (end_of net.now prefix) (length_of delays prefix) }
    ensures late_is_wrong { IsTrue result → kind ≡ Kind.Robust → Detects net.now path.now pair.now }
    ensures late_is_wrong_where_settled { IsTrue result → DetectsSettled net.now path.now pair.now }
    ensures wrong_along_where_settled { IsTrue result → DetectsSettledAlong net.now path.now pair.now }
    ensures robust_is_nonrobust { IsTrue result → Meets net.now (target_of path.now dir Kind.Nonrobust) pair.now }
    ensures prefix_meets { IsTrue result → (prefix : Route) → IsPrefixOf prefix path.now
        → Meets net.now (target_of prefix dir kind) pair.now }
    ensures scratch { scratch.new ≡ scratch.old }
{
    // A prefix begins at a source. What a test shows is shown of a circuit, as which a netlist knows itself.
    let at_source = path.source().0 < net.sources();
    prove!(at_source);
    let Scratch { values, steadiness } = scratch;
    launches(pair, dir, path.source())
        && sides_meet(
            net,
            path,
            kind,
            pair,
            values.as_mut_slice(),
            steadiness.as_mut_slice(),
        )
}

// Whether the pair launches the transition at a source.
fn launches(pair: &Pair, dir: Direction, source: LineId) -> bool
    requires { source.0 < length pair.now.first }
    ensures { IsTrue result ↔ Launches pair.now dir source.0 }
{
    let source = source.0 as usize;
    pair.first()[source] != final_bit(dir) && pair.second()[source] == final_bit(dir)
}

// Whether the sides of all steps of a path meet the conditions. What it computes of the lines stays in the two slices.
fn sides_meet(
    net: &Netlist,
    path: &Path,
    kind: Kind,
    pair: &Pair,
    finals: &mut [bool],
    steadiness: &mut [Steady],
) -> bool
    requires prefix { IsPrefix net.now path.now }
    requires bits { length pair.now.first ≡ source_count net.now }
    requires finals { length finals.old ≡ line_count net.now }
    requires steadiness { length steadiness.old ≡ line_count net.now }
    ensures { IsTrue result ↔ SidesMeet net.now kind pair.now path.now.source.0 path.now.steps }
{
    evaluate(net, pair.second(), finals);
    steady(net, pair, steadiness);
    let mut line = path.source();
    for step in path.steps() {
        let condition = side_condition(kind, net.kind(step.gate), finals[line.0 as usize]);
        if !sides_pass(condition, net.pins(step.gate), step.pin, finals, steadiness) {
            return false;
        }
        line = net.line_of(step.gate);
    }
    true
}

// Whether each pin of a gate but the on-path one does what is asked of the sides.
fn sides_pass(
    condition: SideCondition,
    pins: &[LineId],
    on_path: u32,
    finals: &[bool],
    steadiness: &[Steady],
) -> bool
    requires finals { All (λ line. line.0 < length finals.now) pins.now }
    requires steadiness { All (λ line. line.0 < length steadiness.now) pins.now }
    ensures { IsTrue result ↔ SidesPass condition finals.now steadiness.now on_path pins.now }
{
    for (pin, side) in pins.iter().enumerate() {
        let line = side.0 as usize;
        if pin != on_path as usize
            && !condition.allows(finals[line], steadiness[line].is_steady())
        {
            return false;
        }
    }
    true
}
