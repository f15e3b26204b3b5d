// A log of bare fields: no byte of a field is a comma or below it, so that no quote, blank or line end stands in one. Its rows are cut at
// commas and line feeds, which takes a fraction of what csv takes. What isn't of this form, and what is refused, is left to csv (reading.rt).
ghost use Rattle.std.specs.Prelude.{◌≡◌, ◌<◌, ◌∷◌, ◌++◌, length, IfOk, IfSome};
ghost use Rattle.delay_bounds.specs.LogFile.{IsLog};
ghost use Rattle.delay_bounds.specs.Inside.Bare.{AreAbove, bare_text, comma};

use crate::LogRow;
use crate::row::read_row;
use pd_base::OutOfMemory;
use std::alloc::Global;

// The first row, as it stands in such a log.
const TITLES: &[u8] = b"test,time,result\n";

// A row of three bare fields, and the text behind it.
#[derive(Clone, Copy)]
struct BareRow<'t> {
    test: &'t [u8],
    time: &'t [u8],
    result: &'t [u8],
    behind: &'t [u8],
}

/// The log of so many tests, where the file has the titles and accepted rows of bare fields, each ended by a line feed. None elsewhere, which
/// says nothing of the file. It fails only where memory runs out.
pub(crate) fn bare_log(
    alloc: Global,
    tests: u32,
    bytes: &[u8],
) -> Result<Option<Vec<LogRow>>, OutOfMemory>
    ensures { IfOk result (λ read. IfSome read (λ log. IsLog tests bytes.now log.items)) }
{
    let mut log = Vec::new(alloc);
    let Some(mut rest) = bytes.strip_prefix(TITLES) else {
        return Ok(None);
    };
    while !rest.is_empty() {
        let Some(row) = bare_row(rest) else {
            return Ok(None);
        };
        // A row's number counts only where it is refused, and then it is read again.
        let Ok(said) = read_row(tests, 0, row.test, row.time, row.result) else {
            return Ok(None);
        };
        log.push(said)?;
        rest = row.behind;
    }
    Ok(Some(log))
}

// The row at the front of a text, if it has three bare fields.
fn bare_row(text: &[u8]) -> Option<BareRow<'_>>
    ensures row { IfSome result (λ row. text.now ≡ bare_text row.test.now row.time.now row.result.now row.behind.now) }
    ensures test { IfSome result (λ row. AreAbove comma row.test.now) }
    ensures time { IfSome result (λ row. AreAbove comma row.time.now) }
    ensures result { IfSome result (λ row. AreAbove comma row.result.now) }
    ensures shorter { IfSome result (λ row. length row.behind.now < length text.now) }
{
    let (test, behind) = bare_field(b',', text)?;
    let (time, behind) = bare_field(b',', behind)?;
    let (result, behind) = bare_field(b'\n', behind)?;
    Some(BareRow {
        test,
        time,
        result,
        behind,
    })
}

// The bare field at the front of a text, and what stands behind this byte, where that is the next one.
fn bare_field(mark: u8, text: &[u8]) -> Option<(&[u8], &[u8])>
    ensures whole { IfSome result (λ parts. text.now ≡ parts.0.now ++ mark ∷ parts.1.now) }
    ensures above { IfSome result (λ parts. AreAbove comma parts.0.now) }
    ensures shorter { IfSome result (λ parts. length parts.1.now < length text.now) }
{
    let mut end = 0;
    while end < text.len() && text[end] > b',' {
        end += 1;
    }
    if end < text.len() && text[end] == mark {
        Some((&text[..end], &text[end + 1..]))
    } else {
        None
    }
}
