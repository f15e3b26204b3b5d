// From the bytes of a log to its rows: by csv, but where all fields are bare (bare.rt).
ghost use Rattle.std.specs.Prelude.{◌≡◌, ◌≤◌, true, Some, [], ◌∷◌, ◌++◌, length, IfErr, IfOk, MatchResult, OnOk};
ghost use Rattle.pd_base.specs.Memory.{out_of_memory};
ghost use Rattle.csv.specs.Reading.{Ready, ReadRecord, reader_trim, took_first};
ghost use Rattle.csv.specs.Records.{fields_of};
ghost use Rattle.csv.specs.declared.reader.Trim.TheVariants as trim;
ghost use Rattle.pd_base.specs.declared.limits.TheConstants.{MOST_BYTES};
ghost use Rattle.delay_bounds.specs.LogFile.{IsLog, RefusesLog};
ghost use Rattle.delay_bounds.specs.LogRows.{AreTitles, IsLogRow, RefusesRow};
ghost use Rattle.delay_bounds.specs.Inside.Taking.{FailsToTake, TakesRow};

use crate::bare::bare_log;
use crate::row::{are_titles, read_row};
use crate::{LogFault, LogRow};
use csv::{ByteRecord, Reader, ReaderBuilder};
use csv_errors::refused_memory;
use delay_annotation::three_fields;
use pd_base::OutOfMemory;
use std::alloc::Global;

/// Reads a log of so many tests. The rows are those of the file exactly where it has some; else it is refused, at its first row that is,
/// by the first reason of that row in the order of `LogFault`. A refusal asks nothing of the rows behind that one. `NoMemory` may come
/// in place of any answer. A file has at most 268,435,456 bytes.
pub fn read_log(alloc: Global, tests: u32, bytes: &[u8]) -> Result<Vec<LogRow>, LogFault>
    requires { length bytes.now ≤ MOST_BYTES }
    ensures log { IfOk result (λ log. IsLog tests bytes.now log.items) }
    ensures refused { IfErr result (RefusesLog tests bytes.now) }
{
    if let Some(log) = bare_log(alloc, tests, bytes)? {
        return Ok(log);
    }
    csv_log(alloc, tests, bytes)
}

// Reads any log, row by row as csv finds them.
fn csv_log(alloc: Global, tests: u32, bytes: &[u8]) -> Result<Vec<LogRow>, LogFault>
    requires { length bytes.now ≤ MOST_BYTES }
    ensures log { IfOk result (λ log. IsLog tests bytes.now log.items) }
    ensures refused { IfErr result (RefusesLog tests bytes.now) }
{
    let mut reader = ReaderBuilder::new()
        .has_headers(false)
        .flexible(true)
        .from_reader(alloc, bytes);
    let mut row = ByteRecord::new(alloc);
    let mut log = Vec::new(alloc);
    let mut number = 0;
    'rows: while read_next(&mut reader, &mut row)? {
        number += 1;
        take_row(tests, number, &row, &mut log)?;
    }
    if number == 0 {
        return Err(LogFault::Header);
    }
    Ok(log)
}

// Reads the next row, if there is one. Each error of csv is want of memory, since bytes in memory are always read.
fn read_next(reader: &mut Reader<&[u8]>, row: &mut ByteRecord) -> Result<bool, LogFault>
    requires plain { reader_trim reader.old ≡ trim.None }
    requires ready { Ready reader.old }
    ensures first { IfOk result (λ _. took_first reader.new ≡ true) }
    ensures reads { IfOk result (λ found. ReadRecord (λ s. Some s.now) reader.old reader.new found (fields_of row.new)) }
    ensures memory { IfErr result (λ why. why ≡ LogFault.NoMemory out_of_memory) }
{
    match reader.read_byte_record(row) {
        Ok(found) => Ok(found),
        Err(error) => Err(LogFault::NoMemory(refused_memory(error))),
    }
}

// Takes the row of this number, counted from 1.
fn take_row(
    tests: u32,
    number: u32,
    row: &ByteRecord,
    log: &mut Vec<LogRow>,
) -> Result<(), LogFault>
    ensures ok { OnOk result (TakesRow tests number (fields_of row.now) log.old.items log.new.items) }
    ensures err { IfErr result (FailsToTake tests number (fields_of row.now) log.old.items) }
{
    if number == 1 {
        return take_titles(row);
    }
    match read_fields(tests, number, row) {
        Ok(said) => {
            keep(said, log)?;
            Ok(())
        }
        Err(why) => Err(why),
    }
}

// Keeps what a row says behind what those before it do.
fn keep(said: LogRow, log: &mut Vec<LogRow>) -> Result<(), OutOfMemory>
    ensures { OnOk result (log.new.items ≡ log.old.items ++ said ∷ []) }
{
    log.push(said)?;
    Ok(())
}

// Takes the first row.
fn take_titles(row: &ByteRecord) -> Result<(), LogFault>
    ensures { MatchResult result (λ _. AreTitles (fields_of row.now)) (λ why. (why ≡ LogFault.Header) × ¬ AreTitles (fields_of row.now)) }
{
    match three_fields(row) {
        Some((test, time, result_field)) if are_titles(test, time, result_field) => Ok(()),
        _ => Err(LogFault::Header),
    }
}

// What the later row of this number says.
fn read_fields(tests: u32, number: u32, row: &ByteRecord) -> Result<LogRow, LogFault>
    ensures { MatchResult result (IsLogRow tests (fields_of row.now)) (RefusesRow tests number (fields_of row.now)) }
{
    let Some((test, time, result_field)) = three_fields(row) else {
        return Err(LogFault::Fields(number));
    };
    read_row(tests, number, test, time, result_field)
}
