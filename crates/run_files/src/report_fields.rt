// A line of the report, cut into fields: what it tells of a path, and what of a verdict. Which verdict that is, report_verdicts.rt tells,
// and which path report_paths.rt.
ghost use Rattle.std.specs.Prelude.{◌≡◌, ℕ, List, [], ◌∷◌, ⊤, decimal, option_map, MatchOption};
ghost use Rattle.text_pieces.specs.Tokens.{comma, direction_word};
ghost use Rattle.text_pieces.specs.Cuts.{pieces, pieces_left};
ghost use Rattle.text_pieces.specs.Reads.{Reads};
ghost use Rattle.run_files.specs.ReportReading.{fields_lent, fields_with, four_fields, verdict_lent};

use pd_base::Direction;
use text_pieces::{cut, direction_word, is_number};

/// The fields that tell of a path.
#[derive(Clone, Copy)]
pub(crate) struct PathFields<'a> {
    pub(crate) length: &'a [u8],
    pub(crate) source: &'a [u8],
    pub(crate) steps: &'a [u8],
}

/// The fields of a verdict.
#[derive(Clone, Copy)]
pub(crate) struct VerdictFields<'a> {
    pub(crate) word: &'a [u8],
    pub(crate) test: &'a [u8],
    pub(crate) robust_proof: &'a [u8],
    pub(crate) nonrobust_proof: &'a [u8],
}

/// The fields that tell of the path of this number in its line for a transition, and what is left behind them.
pub(crate) fn read_path_fields(
    number: u32,
    direction: Direction,
    line: &[u8],
) -> Option<(PathFields<'_>, Option<&[u8]>)>
    ensures { Reads (fields_with number direction) (λ read. ⊤) (pieces comma line.now) (option_map fields_lent result) }
{
    next_path_fields(behind_number(number, direction, line)?)
}

// What is left of a line behind the number of its path and its transition, where it is the line for these.
fn behind_number(number: u32, direction: Direction, line: &[u8]) -> Option<Option<&[u8]>>
    ensures { Reads (λ (rest : List (List ℕ)). decimal number ∷ direction_word direction ∷ rest) (λ rest. ⊤) (pieces comma line.now)
        (option_map (pieces_left comma) result) }
{
    let (field, left) = next_field(Some(line))?;
    if !is_number(field, number) {
        return None;
    }
    let (field, left) = next_field(left)?;
    if field != direction_word(direction) {
        return None;
    }
    Some(left)
}

// The next fields, which tell of a path, and what is left behind them.
fn next_path_fields<'a>(left: Option<&'a [u8]>) -> Option<(PathFields<'a>, Option<&'a [u8]>)>
    ensures { Reads (λ (read : (List ℕ × List ℕ × List ℕ) × List (List ℕ)). read.0.0 ∷ read.0.1 ∷ read.0.2 ∷ read.1) (λ read. ⊤)
        (pieces_left comma left.entry) (option_map fields_lent result) }
{
    let (length, left) = next_field(left)?;
    let (source, left) = next_field(left)?;
    let (steps, left) = next_field(left)?;
    let fields = PathFields {
        length,
        source,
        steps,
    };
    Some((fields, left))
}

/// The fields of a verdict, where four are left.
pub(crate) fn read_verdict_fields<'a>(left: Option<&'a [u8]>) -> Option<VerdictFields<'a>>
    ensures { Reads four_fields (λ read. ⊤) (pieces_left comma left.entry) (option_map verdict_lent result) }
{
    let (word, left) = next_field(left)?;
    let (test, left) = next_field(left)?;
    let (robust_proof, left) = next_field(left)?;
    let (nonrobust_proof, left) = next_field(left)?;
    match next_field(left) {
        None => Some(VerdictFields {
            word,
            test,
            robust_proof,
            nonrobust_proof,
        }),
        Some(_) => None,
    }
}

// The first field of what is left of a line, and what is left behind it. None where nothing is left.
fn next_field<'a>(left: Option<&'a [u8]>) -> Option<(&'a [u8], Option<&'a [u8]>)>
    ensures { MatchOption result (pieces_left comma left.entry ≡ [])
        (λ next. pieces_left comma left.entry ≡ next.0.now ∷ pieces_left comma next.1) }
{
    Some(cut(b',', left?))
}
