// The report, written piece by piece: its header and two rows per listed path, each written with csv.
ghost use Rattle.std.specs.Prelude.{◌≡◌, ◌+◌, ◌++◌, IfOk, OnOk, drop, flat_map, length};
ghost use Rattle.runs.specs.Lawful.{IsLawfulReport, IsNameable};
ghost use Rattle.run_files.specs.PlainTexts.{HasPlainNames, IsPlainReport};
ghost use Rattle.run_files.specs.ReportRows.{ArePlain, IsBetweenRows, both_rows, rows_text};
ghost use Rattle.run_files.specs.ReportText.{path_rows, report_rows, report_text, row_line};

use crate::rows::{PathTexts, digits_of, write_fault, write_header};
use crate::steps::steps_text;
use csv::{Writer, WriterBuilder};
use csv_errors::refused_memory;
use itoa::Buffer;
use netlist::Netlist;
use pd_base::{Direction, OutOfMemory};
use pd_io::{Pieces, whole_text};
use runs::{ListedPath, Run};
use std::alloc::Global;
use std::mem;

/// The report, piece by piece: its header, and then for each path a row for the rising transition and one for the falling one.
#[derive(Clone, Copy)]
pub struct ReportPieces<'a> {
    /// The netlist of the paths.
    pub net: &'a Netlist,
    /// The paths.
    pub paths: &'a [ListedPath],
}

impl Pieces for ReportPieces<'_> {
    ghost can_spell = { λ pieces. IsPlainReport pieces.net.now pieces.paths.now };

    ghost text = { λ pieces. report_text pieces.net.now pieces.paths.now };

    ghost total = { λ pieces. length pieces.paths.now };

    ghost left = { λ pieces index.
        flat_map row_line (report_rows pieces.net.now (index + 1) (drop index pieces.paths.now)) };

    fn count(&self) -> usize {
        self.paths.len()
    }

    fn push_head(&self, out: &mut Vec<u8>) -> Result<(), OutOfMemory> {
        let mut rows = rows_behind(out);
        write_header(&mut rows)?;
        *out = text_of(rows)?;
        Ok(())
    }

    fn push_item(&self, index: usize, out: &mut Vec<u8>) -> Result<(), OutOfMemory> {
        push_path(out, self.net, index as u64 + 1, &self.paths[index])
    }
}

/// The text of the report of a run, whole. The run's report must be lawful for the circuit, and no line's name may call for
/// quotes. It fails only where memory runs out.
pub fn report_text(alloc: Global, net: &Netlist, run: &Run) -> Result<Vec<u8>, OutOfMemory>
    requires lawful { IsLawfulReport net.now run.now.paths }
    requires names { HasPlainNames net.now }
    ensures { IfOk result (λ text. text.items ≡ report_text net.now run.now.paths) }
{
    let pieces = ReportPieces {
        net,
        paths: run.paths.as_slice(),
    };
    whole_text(alloc, &pieces)
}

// Appends the two rows of a path.
fn push_path(
    out: &mut Vec<u8>,
    net: &Netlist,
    number: u64,
    listed: &ListedPath,
) -> Result<(), OutOfMemory>
    requires names { HasPlainNames net.now }
    requires path { IsNameable net.now listed.now.path }
    ensures { OnOk result (out.new.items
        ≡ out.old.items ++ flat_map row_line (path_rows net.now number listed.now)) }
{
    let alloc = *out.allocator();
    let mut rows = rows_behind(out);
    write_path(alloc, &mut rows, net, number, listed)?;
    *out = text_of(rows)?;
    Ok(())
}

// A writer of rows behind these bytes, which it takes.
fn rows_behind(bytes: &mut Vec<u8>) -> Writer<Vec<u8>>
    ensures ready { IsBetweenRows result }
    ensures text { rows_text result ≡ bytes.old.items }
{
    let alloc = *bytes.allocator();
    WriterBuilder::new().from_writer(mem::replace(bytes, Vec::new(alloc)))
}

// All that was written.
fn text_of(rows: Writer<Vec<u8>>) -> Result<Vec<u8>, OutOfMemory>
    ensures { IfOk result (λ text. text.items ≡ rows_text rows) }
{
    match rows.into_inner() {
        Ok(text) => Ok(text),
        Err(error) => Err(refused_memory(error.into_error())),
    }
}

// Writes the two rows of a path.
fn write_path(
    alloc: Global,
    rows: &mut Writer<Vec<u8>>,
    net: &Netlist,
    number: u64,
    listed: &ListedPath,
) -> Result<(), OutOfMemory>
    requires ready { IsBetweenRows rows.old }
    requires names { HasPlainNames net.now }
    requires path { IsNameable net.now listed.now.path }
    ensures ready { OnOk result (IsBetweenRows rows.new) }
    ensures text { OnOk result (rows_text rows.new
        ≡ rows_text rows.old ++ flat_map row_line (path_rows net.now number listed.now)) }
{
    let mut number_digits = Buffer::new();
    let mut length_digits = Buffer::new();
    let steps = steps_text(alloc, net, listed.path.steps())?;
    let path = PathTexts {
        number: digits_of(&mut number_digits, number),
        length: digits_of(&mut length_digits, listed.length),
        source: net.name(listed.path.source()),
        steps: steps.as_slice(),
    };
    write_faults(rows, &path, listed)
}

// Writes the rows of both transitions, the rising one first.
fn write_faults(
    rows: &mut Writer<Vec<u8>>,
    path: &PathTexts,
    listed: &ListedPath,
) -> Result<(), OutOfMemory>
    requires ready { IsBetweenRows rows.old }
    requires plain { ArePlain path.now }
    ensures ready { OnOk result (IsBetweenRows rows.new) }
    ensures text { OnOk result (rows_text rows.new
        ≡ rows_text rows.old ++ flat_map row_line (both_rows path.now listed.now)) }
{
    write_fault(rows, path, Direction::Rise, listed.rise)?;
    write_fault(rows, path, Direction::Fall, listed.fall)
}
