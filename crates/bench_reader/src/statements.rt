// A text is read line by line into a list of statements.
ghost use Rattle.std.specs.Prelude.{◌≡◌, ◌<◌, ◌≤◌, [], ◌∷◌, ◌++◌, length, OnOk, IfErr};
ghost use Rattle.pd_base.specs.Memory.{out_of_memory};
ghost use Rattle.pd_base.specs.declared.limits.TheConstants.{MOST_BYTES};
ghost use Rattle.netlist.specs.declared.limits.TheConstants.{MOST_STATEMENTS};
ghost use Rattle.netlist.specs.NameTexts.{bytes_of};
ghost use Rattle.netlist.specs.Statements.{IsStatement, numbered};
ghost use Rattle.bench_reader.specs.Seen.{statement_seen};
ghost use Rattle.bench_reader.specs.Statements.{line_reading};
ghost use Rattle.bench_reader.specs.Texts.{AddsLine, IsAnswer, RefusesLine, statements_of};

use crate::fault::{BenchFault, at_line};
use crate::line::read_line;
use crate::lines::split_line;
use crate::statement::Statement;
use crate::token::Token;
use net_builder::RawNet;
use std::alloc::Global;

// The statements of a text, or the first line that is refused. `NoMemory` may come in place of either.
pub(crate) fn read_statements(alloc: Global, bytes: &[u8]) -> Result<RawNet, BenchFault>
    requires { length bytes.now ≤ MOST_BYTES }
    ensures { IsAnswer result (statements_of bytes.now) }
{
    let mut raw = RawNet::new(alloc);
    let mut tokens = Vec::new(alloc);
    let mut arguments = Vec::new(alloc);
    let mut rest = bytes;
    let mut number = 1;
    while !rest.is_empty() {
        let (line, behind) = split_line(rest);
        read_statement(&mut raw, number, line, &mut tokens, &mut arguments)?;
        rest = behind;
        number += 1;
    }
    Ok(raw)
}

// Puts the statement of a line last, if it has one.
fn read_statement<'a>(
    raw: &mut RawNet,
    number: u32,
    line: &'a [u8],
    tokens: &mut Vec<Token<'a>>,
    arguments: &mut Vec<&'a [u8]>,
) -> Result<(), BenchFault>
    requires { length raw.old < MOST_STATEMENTS }
    ensures ok { OnOk result (AddsLine number (line_reading line.now) raw.old raw.new) }
    ensures err { IfErr result (RefusesLine number (line_reading line.now)) }
{
    match read_line(line, tokens, arguments) {
        Ok(None) => Ok(()),
        Ok(Some(statement)) => push(raw, number, statement, arguments.as_slice()),
        Err(fault) => Err(at_line(fault, number)),
    }
}

// Puts a statement last, with the names of a gate's arguments.
fn push(
    raw: &mut RawNet,
    number: u32,
    statement: Statement<'_>,
    arguments: &[&[u8]],
) -> Result<(), BenchFault>
    requires lawful { IsStatement (statement_seen arguments.now statement) }
    requires few { length raw.old < MOST_STATEMENTS }
    ensures ok { OnOk result (raw.new ≡ raw.old ++ numbered number (statement_seen arguments.now statement.entry) ∷ []) }
    ensures err { IfErr result (λ fault. fault ≡ BenchFault.NoMemory out_of_memory) }
{
    let pushed = match statement {
        Statement::Input(name) => raw.push_input(number, name),
        Statement::Output(name) => raw.push_output(number, name),
        Statement::Gate(name, kind) => raw.push_gate(number, name, kind, arguments),
        Statement::Flop(name, data_line) => raw.push_flop(number, name, data_line),
    };
    pushed.map_err(BenchFault::NoMemory)
}
