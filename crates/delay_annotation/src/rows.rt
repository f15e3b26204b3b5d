// The rows of a delay file, in turn: the titles, then rows that are kept by their form.
ghost use Rattle.std.specs.Prelude.{◌≡◌, ◌≢◌, ◌≤◌, ◌↔◌, [], ◌∷◌, length, IfErr, IsTrue, MatchOption, MatchResult, OnOk};
ghost use Rattle.pd_base.specs.Memory.{out_of_memory};
ghost use Rattle.csv.specs.Records.{fields_of};
ghost use Rattle.delay_annotation.specs.Rows.{AreTitles, IsSetting, RefusesRow};
ghost use Rattle.delay_annotation.specs.LastRows.{HasRoomForRows, KeepsLast};
ghost use Rattle.delay_annotation.specs.Taking.{RefusesTaken, Takes, TakesRow};
ghost use Rattle.pd_base.specs.declared.limits.TheConstants.{MOST_BYTES};

use crate::fault::{DelayFault, at_row};
use crate::last::LastRows;
use crate::row::{are_four_titles, are_titles, read_row, read_row_of_four};
use crate::setting::{Columns, RowFault, Setting};
use csv::{ByteRecord, Error, ReaderBuilder};
use csv_errors::refused_memory;
use netlist::Netlist;
use std::alloc::Global;

// Takes all rows of a file, which may have any number of fields, and fields any bytes.
pub(crate) fn take_rows(
    alloc: Global,
    net: &Netlist,
    columns: Columns,
    bytes: &[u8],
    kept: &mut LastRows,
) -> Result<(), DelayFault>
    requires short { length bytes.now ≤ MOST_BYTES }
    requires places { HasRoomForRows net.now kept.old }
    requires none { KeepsLast net.now kept.old [] }
    ensures places { HasRoomForRows net.now kept.new }
    ensures takes { Takes net.now columns bytes.now kept.new result }
{
    let reader = ReaderBuilder::new()
        .has_headers(false)
        .flexible(true)
        .from_reader(alloc, bytes);
    let mut number = 0;
    for row in reader.into_byte_records() {
        number += 1;
        take_read(net, columns, number, row, kept)?;
    }
    if number == 0 {
        return Err(DelayFault::Header);
    }
    Ok(())
}

// Takes what csv read as the row of this number. Each error of csv is want of memory, since bytes in memory are always read.
fn take_read(
    net: &Netlist,
    columns: Columns,
    number: u32,
    read: Result<ByteRecord, Error>,
    kept: &mut LastRows,
) -> Result<(), DelayFault>
    requires { HasRoomForRows net.now kept.old }
    ensures places { HasRoomForRows net.now kept.new }
    ensures ok { OnOk result (MatchResult read (λ row. TakesRow net.now columns number (fields_of row) kept.old kept.new) (λ _. ⊥)) }
    ensures err { IfErr result (λ why. MatchResult read
        (λ row. RefusesTaken net.now columns number (fields_of row) kept.old why) (λ _. why ≡ DelayFault.NoMemory out_of_memory)) }
{
    match read {
        Ok(row) => take_row(net, columns, number, &row, kept),
        Err(error) => Err(DelayFault::NoMemory(refused_memory(error))),
    }
}

// Takes the row of this number, counted from 1.
fn take_row(
    net: &Netlist,
    columns: Columns,
    number: u32,
    row: &ByteRecord,
    kept: &mut LastRows,
) -> Result<(), DelayFault>
    requires { HasRoomForRows net.now kept.old }
    ensures places { HasRoomForRows net.now kept.new }
    ensures ok { OnOk result (TakesRow net.now columns number (fields_of row.now) kept.old kept.new) }
    ensures err { IfErr result (RefusesTaken net.now columns number (fields_of row.now) kept.old) }
{
    if number == 1 {
        return take_titles(columns, row);
    }
    match read_fields(net, columns, row) {
        Ok(setting) => {
            kept.take(net, number, setting);
            Ok(())
        }
        Err(fault) => Err(at_row(fault, number)),
    }
}

// Takes the first row.
fn take_titles(columns: Columns, row: &ByteRecord) -> Result<(), DelayFault>
    ensures { MatchResult result (λ _. AreTitles columns (fields_of row.now)) (λ why. (why ≡ DelayFault.Header) × ¬ AreTitles columns (fields_of row.now)) }
{
    if has_titles(columns, row) {
        Ok(())
    } else {
        Err(DelayFault::Header)
    }
}

// Whether a row is that of the titles.
fn has_titles(columns: Columns, row: &ByteRecord) -> bool
    ensures { IsTrue result ↔ AreTitles columns (fields_of row.now) }
{
    match columns {
        Columns::Delay => match three_fields(row) {
            Some((gate, pin, delay)) => are_titles(gate, pin, delay),
            None => false,
        },
        Columns::RiseAndFall => match four_fields(row) {
            Some((gate, pin, rise, fall)) => are_four_titles(gate, pin, rise, fall),
            None => false,
        },
    }
}

// What a later row says.
fn read_fields(net: &Netlist, columns: Columns, row: &ByteRecord) -> Result<Setting, RowFault>
    ensures { MatchResult result (IsSetting net.now columns (fields_of row.now)) (RefusesRow net.now columns (fields_of row.now)) }
{
    match columns {
        Columns::Delay => match three_fields(row) {
            Some((gate, pin, delay)) => read_row(net, gate, pin, delay),
            None => Err(RowFault::Fields),
        },
        Columns::RiseAndFall => match four_fields(row) {
            Some((gate, pin, rise, fall)) => read_row_of_four(net, gate, pin, rise, fall),
            None => Err(RowFault::Fields),
        },
    }
}

/// The fields of a row that has three; none where it has another number of them. Takes no memory.
pub fn three_fields(row: &ByteRecord) -> Option<(&[u8], &[u8], &[u8])>
    ensures { MatchOption result (length (fields_of row.now) ≢ 3)
        (λ fields. fields_of row.now ≡ fields.0.now ∷ fields.1.now ∷ fields.2.now ∷ []) }
{
    if row.len() != 3 {
        return None;
    }
    Some((row.get(0)?, row.get(1)?, row.get(2)?))
}

// The fields of a row that has four.
fn four_fields(row: &ByteRecord) -> Option<(&[u8], &[u8], &[u8], &[u8])>
    ensures { MatchOption result (length (fields_of row.now) ≢ 4)
        (λ fields. fields_of row.now ≡ fields.0.now ∷ fields.1.now ∷ fields.2.now ∷ fields.3.now ∷ []) }
{
    if row.len() != 4 {
        return None;
    }
    Some((row.get(0)?, row.get(1)?, row.get(2)?, row.get(3)?))
}
