// The last line of a path, and those of a list of paths.
ghost use Rattle.std.specs.Prelude.{◌≡◌, ◌<◌, All, IfOk};
ghost use Rattle.pd_base.specs.declared.ids.LineId.{LineId};
ghost use Rattle.netlist.specs.Circuit.{line_count};
ghost use Rattle.netlist.specs.Paths.{IsPath, IsPrefix, end_of};
ghost use Rattle.pair_judging.specs.PathEnds.{ends_of};

use netlist::Netlist;
use pd_base::{LineId, OutOfMemory, Path};
use std::alloc::Global;

/// The line to which the steps of a path, or of a prefix, lead: the source where there are none.
pub fn end_of(net: &Netlist, path: &Path) -> LineId
    requires { IsPrefix net.now path.now }
    ensures end { result ≡ record { 0 = end_of net.now path.now } }
    ensures line { result.0 < line_count net.now }
{
    let mut line = path.source();
    for step in path.steps() {
        line = net.line_of(step.gate);
    }
    line
}

/// The last line of each path.
pub fn ends_of(alloc: Global, net: &Netlist, paths: &[Path]) -> Result<Vec<LineId>, OutOfMemory>
    requires { All (IsPath net.now) paths.now }
    ensures ends { IfOk result (λ ends. ends.items ≡ ends_of net.now paths.now) }
    ensures lines { IfOk result (λ ends. All (λ (end : LineId). end.0 < line_count net.now) ends.items) }
{
    let mut ends = Vec::with_capacity(alloc, paths.len())?;
    for path in paths {
        ends.push(end_of(net, path))?;
    }
    Ok(ends)
}
