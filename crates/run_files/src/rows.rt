// The rows of the report: nine fields each, of which none calls for quotes, so that csv writes them as they are.
ghost use Rattle.std.specs.Prelude.{◌≡◌, ◌++◌, ◌≤◌, OnOk, decimal, length};
ghost use Rattle.std.specs.List.{AllByRecursion};
ghost use Rattle.run_files.specs.PlainTexts.{IsPlain};
ghost use Rattle.run_files.specs.ReportRows.{ArePlain, IsBetweenRows, fault_texts, row_texts, rows_text, texts_of, verdict_texts};
ghost use Rattle.run_files.specs.ReportText.{header_fields, row_line, verdict_fields};

use csv::Writer;
use csv_errors::refused_memory;
use itoa::Buffer;
use pd_base::{Direction, OutOfMemory};
use runs::Verdict;
use text_pieces::direction_word;

/// What both rows of a path say alike, as texts.
#[derive(Clone, Copy)]
pub(crate) struct PathTexts<'a> {
    pub(crate) number: &'a [u8],
    pub(crate) length: &'a [u8],
    pub(crate) source: &'a [u8],
    pub(crate) steps: &'a [u8],
}

// What a row says of a verdict, as texts.
#[derive(Clone, Copy)]
struct VerdictTexts<'a> {
    word: &'a [u8],
    test: &'a [u8],
    robust_proof: &'a [u8],
    nonrobust_proof: &'a [u8],
}

/// Writes the row of the columns' names.
pub(crate) fn write_header(rows: &mut Writer<Vec<u8>>) -> Result<(), OutOfMemory>
    requires { IsBetweenRows rows.old }
    ensures ready { OnOk result (IsBetweenRows rows.new) }
    ensures text { OnOk result (rows_text rows.new ≡ rows_text rows.old ++ row_line header_fields) }
{
    let columns: [&[u8]; 9] = [
        b"path",
        b"direction",
        b"length",
        b"source",
        b"steps",
        b"verdict",
        b"test",
        b"robust_proof",
        b"nonrobust_proof",
    ];
    write_row(rows, &columns)
}

/// Writes the row of a path for a transition with this verdict.
pub(crate) fn write_fault(
    rows: &mut Writer<Vec<u8>>,
    path: &PathTexts,
    direction: Direction,
    verdict: Verdict,
) -> Result<(), OutOfMemory>
    requires ready { IsBetweenRows rows.old }
    requires plain { ArePlain path.now }
    ensures ready { OnOk result (IsBetweenRows rows.new) }
    ensures text { OnOk result (rows_text rows.new
        ≡ rows_text rows.old ++ row_line (fault_texts path.now direction verdict)) }
{
    let mut first = Buffer::new();
    let mut second = Buffer::new();
    let texts = verdict_texts(verdict, &mut first, &mut second);
    write_texts(rows, path, direction_word(direction), &texts)
}

// The texts of a verdict's fields. The buffers lend the digits of its numbers.
fn verdict_texts<'a>(
    verdict: Verdict,
    first: &'a mut Buffer,
    second: &'a mut Buffer,
) -> VerdictTexts<'a>
    ensures fields { verdict_texts result ≡ verdict_fields verdict }
    ensures plain { AllByRecursion IsPlain (verdict_texts result) }
{
    match verdict {
        Verdict::Robust { test } => VerdictTexts {
            word: b"robust",
            test: digits_of(first, u64::from(test)),
            robust_proof: b"-",
            nonrobust_proof: b"-",
        },
        Verdict::Nonrobust { test, proof } => VerdictTexts {
            word: b"nonrobust",
            test: digits_of(first, u64::from(test)),
            robust_proof: digits_of(second, u64::from(proof)),
            nonrobust_proof: b"-",
        },
        Verdict::Untestable { proof } => VerdictTexts {
            word: b"untestable",
            test: b"-",
            robust_proof: b"-",
            nonrobust_proof: digits_of(first, u64::from(proof)),
        },
        Verdict::Aborted { robust, nonrobust } => VerdictTexts {
            word: b"aborted",
            test: b"-",
            robust_proof: digits_of(first, u64::from(robust)),
            nonrobust_proof: digits_of(second, u64::from(nonrobust)),
        },
    }
}

/// The digits of a number, which the buffer lends.
pub(crate) fn digits_of(buffer: &mut Buffer, number: u64) -> &[u8]
    ensures text { result.now ≡ decimal number }
    ensures plain { IsPlain result.now }
{
    buffer.format(number).as_bytes()
}

// Writes a row of these texts.
fn write_texts(
    rows: &mut Writer<Vec<u8>>,
    path: &PathTexts,
    direction: &[u8],
    verdict: &VerdictTexts,
) -> Result<(), OutOfMemory>
    requires ready { IsBetweenRows rows.old }
    requires plain { AllByRecursion IsPlain (row_texts path.now direction.now verdict.now) }
    ensures ready { OnOk result (IsBetweenRows rows.new) }
    ensures text { OnOk result (rows_text rows.new
        ≡ rows_text rows.old ++ row_line (row_texts path.now direction.now verdict.now)) }
{
    write_row(
        rows,
        &[
            path.number,
            direction,
            path.length,
            path.source,
            path.steps,
            verdict.word,
            verdict.test,
            verdict.robust_proof,
            verdict.nonrobust_proof,
        ],
    )
}

// Writes one row of two or more fields that call for no quotes.
fn write_row(rows: &mut Writer<Vec<u8>>, fields: &[&[u8]]) -> Result<(), OutOfMemory>
    requires ready { IsBetweenRows rows.old }
    requires several { 2 ≤ length fields.now }
    requires plain { AllByRecursion IsPlain (texts_of fields.now) }
    ensures ready { OnOk result (IsBetweenRows rows.new) }
    ensures text { OnOk result
        (rows_text rows.new ≡ rows_text rows.old ++ row_line (texts_of fields.now)) }
{
    match rows.write_fields(fields) {
        Ok(()) => Ok(()),
        Err(error) => Err(refused_memory(error)),
    }
}
