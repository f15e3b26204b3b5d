// The tests file, read: its headings, and then line by line its tests. One line is read in test_line.rt.
ghost use Rattle.std.specs.Prelude.{◌≡◌, ◌≤◌, length, IfOk};
ghost use Rattle.run_files.specs.TestsReading.{HeadingsAnswer, TestLinesAnswer, TestsAnswer};
ghost use Rattle.run_files.specs.declared.fault.TextFault.TheVariants.{NoMemory};
ghost use Rattle.pd_base.specs.declared.limits.TheConstants.{MOST_BYTES};

use crate::TextFault;
use crate::test_line::read_test;
use crate::tests_file::{push_observed, push_sources};
use netlist::Netlist;
use pd_base::Test;
use std::alloc::Global;
use text_pieces::{split_line, text_behind};

/// The tests whose file these bytes are: lawful ones of this circuit, each in its one spelling. `Malformed` exactly where there are
/// none such, with the first line that lacks its form given the lines before it, unless memory runs out first.
pub fn read_tests(alloc: Global, net: &Netlist, bytes: &[u8]) -> Result<Vec<Test>, TextFault>
    requires { length bytes.now ≤ MOST_BYTES }
    ensures { TestsAnswer net.now bytes.now result }
{
    let lines = read_headings(alloc, net, bytes)?;
    read_test_lines(alloc, net, lines)
}

// What stands behind the headings.
fn read_headings<'a>(alloc: Global, net: &Netlist, bytes: &'a [u8]) -> Result<&'a [u8], TextFault>
    ensures reads { HeadingsAnswer net.now bytes.now result }
    ensures shorter { IfOk result (λ rest. length rest.now ≤ length bytes.now) }
{
    let Some(behind) = text_behind(b"pdfgen tests 1\n", bytes) else {
        return Err(TextFault::Malformed(1));
    };
    let mut sources = Vec::new(alloc);
    push_sources(&mut sources, net)?;
    let Some(behind) = text_behind(sources.as_slice(), behind) else {
        return Err(TextFault::Malformed(2));
    };
    let mut observed = Vec::new(alloc);
    push_observed(&mut observed, net)?;
    let Some(behind) = text_behind(observed.as_slice(), behind) else {
        return Err(TextFault::Malformed(3));
    };
    Ok(behind)
}

// The tests of the lines behind the headings, of which there are three.
fn read_test_lines(alloc: Global, net: &Netlist, text: &[u8]) -> Result<Vec<Test>, TextFault>
    requires { length text.now ≤ MOST_BYTES }
    ensures { TestLinesAnswer net.now text.now result }
{
    let mut tests = Vec::new(alloc);
    let mut rest = text;
    let mut number = 1;
    while !rest.is_empty() {
        let Some((line, behind)) = split_line(rest) else {
            return Err(TextFault::Malformed(number + 3));
        };
        let Some(test) = read_test(alloc, net, number, line)? else {
            return Err(TextFault::Malformed(number + 3));
        };
        tests.push(test)?;
        rest = behind;
        number += 1;
    }
    Ok(tests)
}
