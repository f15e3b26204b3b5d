// The tests file, written piece by piece. It is read in tests_reading.rt.
ghost use Rattle.std.specs.Prelude.{◌≡◌, ◌+◌, ◌++◌, IfOk, OnOk, codes, drop, length};
ghost use Rattle.runs.specs.Lawful.{AreLawfulTests};
ghost use Rattle.run_files.specs.TestsText.{names_text, observed_names, test_text, tests_form, tests_text};
ghost use Rattle.text_pieces.specs.LineFiles.{lines_text};
ghost use Rattle.text_pieces.specs.Tokens.{digits, after_space, line};

use netlist::Netlist;
use pd_base::{LineId, OutOfMemory, Test, push_decimal};
use pd_io::{Pieces, whole_text};
use std::alloc::Global;
use text_pieces::{direction_word, kind_word, push_spaced, push_spaced_digits, push_spaced_number};

/// The tests file, piece by piece: its heading, the names of the sources and of the observed lines, and then a line for each
/// test, numbered from 1.
#[derive(Clone, Copy)]
pub struct TestsPieces<'a> {
    /// The netlist that the tests are for.
    pub net: &'a Netlist,
    /// The tests.
    pub tests: &'a [Test],
}

impl Pieces for TestsPieces<'_> {
    ghost can_spell = { λ pieces. AreLawfulTests pieces.net.now pieces.tests.now };

    ghost text = { λ pieces. tests_text pieces.net.now pieces.tests.now };

    ghost total = { λ pieces. length pieces.tests.now };

    ghost left = { λ pieces index. lines_text (tests_form pieces.net.now) (index + 1) (drop index pieces.tests.now) };

    fn count(&self) -> usize {
        self.tests.len()
    }

    fn push_head(&self, out: &mut Vec<u8>) -> Result<(), OutOfMemory> {
        out.extend_from_slice(b"pdfgen tests 1\n")?;
        push_sources(out, self.net)?;
        push_observed(out, self.net)
    }

    fn push_item(&self, index: usize, out: &mut Vec<u8>) -> Result<(), OutOfMemory> {
        push_test_line(out, index as u64 + 1, &self.tests[index])
    }
}

/// The text of the tests file, whole. It fails only where memory runs out.
pub fn tests_text(alloc: Global, net: &Netlist, tests: &[Test]) -> Result<Vec<u8>, OutOfMemory>
    requires { AreLawfulTests net.now tests.now }
    ensures { IfOk result (λ text. text.items ≡ tests_text net.now tests.now) }
{
    whole_text(alloc, &TestsPieces { net, tests })
}

/// Appends the line that names the sources. If memory runs out, a part of it may have been written; so too below.
pub(crate) fn push_sources(out: &mut Vec<u8>, net: &Netlist) -> Result<(), OutOfMemory>
    ensures { OnOk result
        (out.new.items ≡ out.old.items ++ line (names_text (codes "sources") net.now.sources)) }
{
    out.extend_from_slice(b"sources")?;
    for source in 0..net.sources() {
        push_spaced(out, net.name(LineId(source)))?;
    }
    out.push(b'\n')?;
    Ok(())
}

/// Appends the line that names the observed lines.
pub(crate) fn push_observed(out: &mut Vec<u8>, net: &Netlist) -> Result<(), OutOfMemory>
    ensures { OnOk result (out.new.items
        ≡ out.old.items ++ line (names_text (codes "observed") (observed_names net.now))) }
{
    out.extend_from_slice(b"observed")?;
    for line in net.observed() {
        push_spaced(out, net.name(*line))?;
    }
    out.push(b'\n')?;
    Ok(())
}

// Appends the line of a test.
fn push_test_line(out: &mut Vec<u8>, number: u64, test: &Test) -> Result<(), OutOfMemory>
    ensures { OnOk result (out.new.items ≡ out.old.items ++ line (test_text number test.now)) }
{
    push_decimal(out, number)?;
    push_spaced_number(out, u64::from(test.path))?;
    push_spaced(out, direction_word(test.dir))?;
    push_spaced(out, kind_word(test.kind))?;
    push_spaced_digits(out, test.pair.first())?;
    push_spaced_digits(out, test.pair.second())?;
    push_spaced_digits(out, test.expected.as_slice())?;
    out.push(b'\n')?;
    Ok(())
}
