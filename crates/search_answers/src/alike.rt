// Sweeps over all gates, and the worklist of engines, play the same assumptions: the labels that they end with are the same,
// or both leave some line without a state. Scopes are played in scopes.rt.
ghost use Rattle.std.specs.Prelude.{◌<◌, All, IsTrue};
ghost use Rattle.trees.specs.Unlinked.{IsUnlinked};
ghost use Rattle.netlist.specs.Circuit.{source_count};

use crate::scopes::{whole_alike, within_alike};
use crate::sweeping::Assumed;
use netlist::Netlist;
use pd_base::Direction::{Fall, Rise};
use pd_base::Kind::{Nonrobust, Robust};
use pd_base::{Direction, Kind, LineId, OutOfMemory, Path, Rules};
use row_answers::{Text, Trouble, path};
use state_laws::{Half, Split, SplitKind};
use std::alloc::Global;

// Halves of splits on the first two sources.
const FIRST_AT_0: Half = Half {
    split: Split {
        line: LineId(0),
        kind: SplitKind::LastValue,
    },
    second: false,
};

const FIRST_STEADY: Half = Half {
    split: Split {
        line: LineId(0),
        kind: SplitKind::Steadiness,
    },
    second: false,
};

const SECOND_AT_1: Half = Half {
    split: Split {
        line: LineId(1),
        kind: SplitKind::LastValue,
    },
    second: true,
};

const SECOND_MOVES: Half = Half {
    split: Split {
        line: LineId(1),
        kind: SplitKind::Steadiness,
    },
    second: true,
};

const HALVES: [&[Half]; 6] = [
    &[],
    &[SECOND_AT_1],
    &[SECOND_MOVES],
    &[FIRST_AT_0, SECOND_AT_1],
    &[FIRST_STEADY, SECOND_MOVES],
    &[SECOND_AT_1, SECOND_MOVES, FIRST_AT_0, FIRST_STEADY],
];

// The transitions and kinds of tests.
const FAULTS: [(Direction, Kind); 4] = [
    (Rise, Robust),
    (Fall, Robust),
    (Rise, Nonrobust),
    (Fall, Nonrobust),
];

/// Adds whether sweeps and the worklist end alike on a path: under both rules, for each transition and kind of test, under several lists of
/// halves of the first two sources.
pub fn ends_alike(
    alloc: Global,
    net: &Netlist,
    route: &str,
    answer: &mut Text,
) -> Result<(), Trouble> {
    let path = path(alloc, net, route)?;
    let one = Rules::One;
    let two = Rules::Two;
    let alike = rules_alike(alloc, net, &path, &one)? && rules_alike(alloc, net, &path, &two)?;
    answer.add_yes_or_no(alike);
    Ok(())
}

// The same under these rules.
fn rules_alike(
    alloc: Global,
    net: &Netlist,
    path: &Path,
    rules: &Rules,
) -> Result<bool, OutOfMemory>
    requires { IsUnlinked rules.now }
{
    for (direction, kind) in FAULTS {
        if !fault_alike(alloc, net, path, rules, direction, kind)? {
            return Ok(false);
        }
    }
    Ok(true)
}

// The same for this transition and kind of test.
fn fault_alike<'x>(
    alloc: Global,
    net: &Netlist,
    path: &'x Path,
    rules: &'x Rules,
    direction: Direction,
    kind: Kind,
) -> Result<bool, OutOfMemory>
    requires { IsUnlinked rules.now }
{
    for halves in HALVES {
        let assumed = Assumed {
            rules,
            source: path.source(),
            direction,
            kind,
            steps: path.steps(),
            halves,
        };
        if !all_alike(alloc, net, &assumed)? {
            return Ok(false);
        }
    }
    Ok(true)
}

// Whether an engine that tells all lines, and one that tells those in the fan-in of the path's end alone, end like the sweeps.
fn all_alike(alloc: Global, net: &Netlist, assumed: &Assumed) -> Result<bool, OutOfMemory>
    requires { IsUnlinked assumed.now.rules.now }
{
    // a netlist without these sources has no such row
    if assumed.source.0 < net.sources() && are_on_sources(net, assumed.halves) {
        Ok(whole_alike(alloc, net, assumed)? && within_alike(alloc, net, assumed)?)
    } else {
        Ok(false)
    }
}

// Whether each half is on a source.
fn are_on_sources(net: &Netlist, halves: &[Half]) -> bool
    ensures { IsTrue result → All (λ half. half.split.line.0 < source_count net.now) halves.now }
{
    let sources = net.sources();
    halves.iter().all(|half| half.split.line.0 < sources)
}
