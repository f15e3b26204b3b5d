// The report, read: the row of the columns' names, and then path by path its two lines, each of which is read in report_lines.rt.
ghost use Rattle.std.specs.Prelude.{◌≡◌, ◌≤◌, length};
ghost use Rattle.pd_base.specs.declared.limits.TheConstants.{MOST_BYTES};
ghost use Rattle.run_files.specs.ReportReading.{PathLinesAnswer, ReportAnswer};

use crate::TextFault;
use crate::report_lines::{ToldRise, read_fall, read_rise};
use crate::report_paths::MeasuredPath;
use crate::report_verdicts::{NamedSoFar, named_with};
use netlist::Netlist;
use runs::{ListedPath, Verdict};
use std::alloc::Global;
use text_pieces::{split_line, text_behind};

/// The listed paths whose report these bytes are: lawful ones of this circuit, each in its one spelling. `Malformed` exactly where there
/// are none such, with the first line that lacks its form given the lines before it, unless memory runs out first.
pub fn read_report(alloc: Global, net: &Netlist, bytes: &[u8]) -> Result<Vec<ListedPath>, TextFault>
    requires { length bytes.now ≤ MOST_BYTES }
    ensures { ReportAnswer net.now bytes.now result }
{
    let header = b"path,direction,length,source,steps,verdict,test,robust_proof,nonrobust_proof\n";
    let Some(lines) = text_behind(header, bytes) else {
        return Err(TextFault::Malformed(1));
    };
    read_path_lines(alloc, net, lines)
}

// The paths of the lines behind the first.
fn read_path_lines(alloc: Global, net: &Netlist, text: &[u8]) -> Result<Vec<ListedPath>, TextFault>
    requires { length text.now ≤ MOST_BYTES }
    ensures { PathLinesAnswer net.now text.now result }
{
    // A netlist knows itself as a circuit, whose names have neither commas nor LF.
    let few_lines = net.lines() < u32::MAX;
    prove!(few_lines);
    let mut paths = Vec::new(alloc);
    let mut named = NamedSoFar {
        tests: 0,
        proofs: 0,
    };
    let mut rest = text;
    let mut number = 1;
    while !rest.is_empty() {
        let Some((line, behind)) = split_line(rest) else {
            return Err(TextFault::Malformed(2 * number));
        };
        let Some(told) = read_rise(alloc, net, number, named, line)? else {
            return Err(TextFault::Malformed(2 * number));
        };
        named = named_with(named, told.verdict);
        let Some((line, behind)) = split_line(behind) else {
            return Err(TextFault::Malformed(2 * number + 1));
        };
        let Some(fall) = read_fall(number, named, told.fields, line) else {
            return Err(TextFault::Malformed(2 * number + 1));
        };
        named = named_with(named, fall);
        paths.push(listed(told, fall))?;
        rest = behind;
        number += 1;
    }
    Ok(paths)
}

// The path of a line for the rising transition, with both verdicts.
fn listed(told: ToldRise, fall: Verdict) -> ListedPath
    ensures path { result.path ≡ told.entry.measured.path }
    ensures length { result.length ≡ told.entry.measured.length }
    ensures rise { result.rise ≡ told.entry.verdict }
    ensures fall { result.fall ≡ fall }
{
    let ToldRise {
        measured,
        verdict,
        fields: _,
    } = told;
    let MeasuredPath { path, length } = measured;
    ListedPath {
        path,
        length,
        rise: verdict,
        fall,
    }
}
