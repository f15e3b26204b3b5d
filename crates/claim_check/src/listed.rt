// The listed paths of a run beside the first paths of the circuit.
ghost use Rattle.std.specs.Prelude.{◌≡◌, ◌<◌, ◌+◌, ◌↔◌, ◌≤◌, All, IsTrue, length};
ghost use Rattle.pd_base.specs.declared.limits.TheConstants.{MOST_PATHS};
ghost use Rattle.delay_annotation.specs.Annotation.{delays_of, Fits};
ghost use Rattle.netlist.specs.Paths.{IsPath};
ghost use Rattle.claim_check.specs.Flaws.{TellsOfItem, TellsOfItems};
ghost use Rattle.claim_check.specs.Right.{IsRightPath, IsRightPathAt};

use crate::claim::{Flaw, Reason};
use delay_annotation::Delays;
use netlist::Netlist;
use path_model::length;
use pd_base::Path;
use runs::ListedPath;

// The first listed path that is not the one of its place, or has not its length.
pub(crate) fn wrong_path(
    net: &Netlist,
    delays: &Delays,
    first: &[Path],
    paths: &[ListedPath],
) -> Option<Flaw>
    requires fits { Fits net.now delays.now }
    requires first { All (IsPath net.now) first.now }
    requires one_each { length paths.now ≡ length first.now }
    requires few { length first.now ≤ MOST_PATHS }
    ensures { TellsOfItems (IsRightPathAt (delays_of net.now delays.now) first.now paths.now) result }
{
    for row in 0..paths.len() {
        if let Some(reason) = wrong_listed(net, delays, first, row, &paths[row]) {
            return Some(Flaw {
                item: row as u32 + 1,
                reason,
            });
        }
    }
    None
}

// What is wrong with the listed path in a row.
fn wrong_listed(
    net: &Netlist,
    delays: &Delays,
    first: &[Path],
    row: usize,
    listed: &ListedPath,
) -> Option<Reason>
    requires fits { Fits net.now delays.now }
    requires first { All (IsPath net.now) first.now }
    requires row { row < length first.now }
    ensures { TellsOfItem (IsRightPath (delays_of net.now delays.now) first.now (row + 1) listed.now) result }
{
    let path = &first[row];
    if !is_same_path(path, &listed.path) {
        return Some(Reason::WrongPath);
    }
    if listed.length != length(net, delays, path) {
        return Some(Reason::WrongLength);
    }
    None
}

// Whether two paths are the same.
fn is_same_path(path: &Path, other: &Path) -> bool
    ensures { IsTrue result ↔ (path.now ≡ other.now) }
{
    path.source() == other.source() && path.steps() == other.steps()
}
