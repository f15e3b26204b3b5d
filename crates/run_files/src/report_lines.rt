// The two lines of a path in the report, read: the one for the rising transition tells the path, which the other one tells in the same
// words.
ghost use Rattle.std.specs.Prelude.{◌≡◌, ◌≤◌, ◌+◌, option_map, IfOk, IfSome};
ghost use Rattle.pd_base.specs.declared.fault.Direction.TheVariants.{Rise, Fall};
ghost use Rattle.text_pieces.specs.Tokens.{comma};
ghost use Rattle.text_pieces.specs.Cuts.{pieces};
ghost use Rattle.text_pieces.specs.Reads.{Reads};
ghost use Rattle.run_files.specs.ReportForm.{IsNextVerdict, IsTellable, line_fields};
ghost use Rattle.run_files.specs.ReportText.{verdict_fields};
ghost use Rattle.run_files.specs.ReportReading.{fields_with, measured_texts, named_by, path_lent, rise_told};

use crate::report_fields::{PathFields, read_path_fields};
use crate::report_paths::{MeasuredPath, read_path};
use crate::report_verdicts::{NamedSoFar, read_verdict};
use netlist::Netlist;
use pd_base::{Direction, OutOfMemory};
use runs::Verdict;
use std::alloc::Global;

/// What the line for the rising transition tells, with the fields that tell the path.
#[derive(Drop)]
pub(crate) struct ToldRise<'a> {
    pub(crate) measured: MeasuredPath,
    pub(crate) verdict: Verdict,
    pub(crate) fields: PathFields<'a>,
}

/// What the line of a path for the rising transition tells, where the lines before it named so much.
pub(crate) fn read_rise<'a>(
    alloc: Global,
    net: &Netlist,
    number: u32,
    named: NamedSoFar,
    line: &'a [u8],
) -> Result<Option<ToldRise<'a>>, OutOfMemory>
    requires tests { named.tests + 1 ≤ u32.MAX }
    requires proofs { named.proofs + 2 ≤ u32.MAX }
    ensures reads { IfOk result (λ read. Reads (line_fields net.now number Rise)
        (λ told. IsTellable net.now told.path told.length × IsNextVerdict (named_by named) told.verdict)
        (pieces comma line.now) (option_map rise_told read)) }
    ensures fields { IfOk result (λ read. IfSome read (λ told. path_lent told.fields ≡ measured_texts net.now told.measured)) }
{
    let Some((fields, left)) = read_path_fields(number, Direction::Rise, line) else {
        return Ok(None);
    };
    let Some(verdict) = read_verdict(named, left) else {
        return Ok(None);
    };
    let Some(measured) = read_path(alloc, net, fields)? else {
        return Ok(None);
    };
    Ok(Some(ToldRise {
        measured,
        verdict,
        fields,
    }))
}

/// The verdict that the line of a path for the falling transition tells, where the line before it tells the path by these fields.
pub(crate) fn read_fall(
    number: u32,
    named: NamedSoFar,
    path: PathFields,
    line: &[u8],
) -> Option<Verdict>
    requires tests { named.tests + 1 ≤ u32.MAX }
    requires proofs { named.proofs + 2 ≤ u32.MAX }
    ensures { Reads (λ verdict. fields_with number Fall (path_lent path.entry, verdict_fields verdict)) (IsNextVerdict (named_by named))
        (pieces comma line.now) result }
{
    let (fields, left) = read_path_fields(number, Direction::Fall, line)?;
    if fields.length != path.length {
        return None;
    }
    if fields.source != path.source {
        return None;
    }
    if fields.steps != path.steps {
        return None;
    }
    read_verdict(named, left)
}
