// What is read of the files that a run leaves: how many tests, paths or proofs they have, or the first line that lacks its form. What is
// read is spelled again in spelling.rt. The calls of the readers stand alone, in functions that promise nothing, so that the answers are not
// proved over again under their contracts.
ghost use Rattle.std.specs.Prelude.{◌≤◌, length};
ghost use Rattle.rows.specs.declared.claims.TheConstants.{MOST_BYTES};

use crate::spelling;
use netlist::Netlist;
use row_answers::{Text, Trouble, spelled_out};
use run_files::{TextFault, read_proofs, read_report, read_tests};
use std::alloc::Global;

// The most bytes of a text that a row may have.
const MOST_BYTES: usize = 65_536;

/// Adds how many tests, paths or proofs such a file has, a proofs file with its version; or the first line that lacks its form; or its
/// text, spelled anew of what was read. Another word is none of a row.
pub fn read(
    alloc: Global,
    net: &Netlist,
    word: &str,
    row: &str,
    answer: &mut Text,
) -> Result<(), Trouble> {
    let text = spelled_out(alloc, row)?;
    if text.len() > MOST_BYTES {
        return Err(Trouble::NoRow);
    }
    add_claim(alloc, net, word, text.as_bytes(), answer)
}

// The same of these bytes.
fn add_claim(
    alloc: Global,
    net: &Netlist,
    word: &str,
    text: &[u8],
    answer: &mut Text,
) -> Result<(), Trouble>
    requires { length text.now ≤ MOST_BYTES }
{
    match word {
        "spell_tests" => spelling::add_tests(alloc, net, text, answer),
        "spell_report" => spelling::add_report(alloc, net, text, answer),
        "spell_proofs" => spelling::add_proofs(alloc, net, text, answer),
        "tests" => add_tests(alloc, net, text, answer),
        "report" => add_report(alloc, net, text, answer),
        "proofs" => add_proofs(alloc, net, text, answer),
        _ => Err(Trouble::NoRow),
    }
}

// What a tests file says.
fn add_tests(alloc: Global, net: &Netlist, text: &[u8], answer: &mut Text) -> Result<(), Trouble>
    requires { length text.now ≤ MOST_BYTES }
{
    match count_tests(alloc, net, text) {
        Ok(count) => answer.add_number("  tests ", count as u64),
        Err(TextFault::Malformed(line)) => add_malformed(line, answer),
        Err(TextFault::NoMemory(refused)) => return Err(refused.into()),
    }
    answer.add("\n");
    Ok(())
}

// How many tests a tests file has.
fn count_tests(alloc: Global, net: &Netlist, text: &[u8]) -> Result<usize, TextFault>
    requires { length text.now ≤ MOST_BYTES }
{
    let tests = read_tests(alloc, net, text)?;
    Ok(tests.len())
}

// What a report says.
fn add_report(alloc: Global, net: &Netlist, text: &[u8], answer: &mut Text) -> Result<(), Trouble>
    requires { length text.now ≤ MOST_BYTES }
{
    match count_paths(alloc, net, text) {
        Ok(count) => answer.add_number("  paths ", count as u64),
        Err(TextFault::Malformed(line)) => add_malformed(line, answer),
        Err(TextFault::NoMemory(refused)) => return Err(refused.into()),
    }
    answer.add("\n");
    Ok(())
}

// How many paths a report has.
fn count_paths(alloc: Global, net: &Netlist, text: &[u8]) -> Result<usize, TextFault>
    requires { length text.now ≤ MOST_BYTES }
{
    let paths = read_report(alloc, net, text)?;
    Ok(paths.len())
}

// What a proofs file says.
fn add_proofs(alloc: Global, net: &Netlist, text: &[u8], answer: &mut Text) -> Result<(), Trouble>
    requires { length text.now ≤ MOST_BYTES }
{
    match count_proofs(alloc, net, text) {
        Ok((version, count)) => {
            answer.add_number("  version ", version as u64);
            answer.add_number(" proofs ", count as u64);
        }
        Err(TextFault::Malformed(line)) => add_malformed(line, answer),
        Err(TextFault::NoMemory(refused)) => return Err(refused.into()),
    }
    answer.add("\n");
    Ok(())
}

// The version of a proofs file, and how many proofs it has.
fn count_proofs(alloc: Global, net: &Netlist, text: &[u8]) -> Result<(u32, usize), TextFault>
    requires { length text.now ≤ MOST_BYTES }
{
    let (version, proofs) = read_proofs(alloc, net, text)?;
    Ok((version, proofs.len()))
}

// The line that lacks its form.
fn add_malformed(line: u32, answer: &mut Text) {
    answer.add_number("  line ", line as u64);
    answer.add(" malformed");
}
