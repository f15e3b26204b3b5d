// One line of the tests file, read.
ghost use Rattle.std.specs.Prelude.{⊤, [], ◌∷◌, ℕ, List, option_map, IfOk};
ghost use Rattle.runs.specs.Lawful.{IsLawfulTest, IsPathNumber};
ghost use Rattle.text_pieces.specs.Cuts.{words_left, words_of};
ghost use Rattle.text_pieces.specs.Reads.{Reads};
ghost use Rattle.run_files.specs.TestsText.{test_words};
ghost use Rattle.run_files.specs.TestsReading.{bit_words_lent, direction_and_kind_lent, direction_and_kind_words, numbered_path_lent, numbered_path_words, test_head_lent, test_head_words, IsTestHead, three_words};

use netlist::Netlist;
use pd_base::{Direction, Items, Kind, MOST_PATHS, OutOfMemory, Pair, Test};
use std::alloc::Global;
use text_pieces::{is_number, next_word, read_bits, read_direction, read_kind, read_number};

/// The test of this number that a line without its LF tells.
pub(crate) fn read_test(
    alloc: Global,
    net: &Netlist,
    number: u32,
    line: &[u8],
) -> Result<Option<Test>, OutOfMemory>
    ensures { IfOk result (Reads (test_words number) (IsLawfulTest net.now) (words_of line.now)) }
{
    let Some((head, left)) = read_head(number, line) else {
        return Ok(None);
    };
    let Some((first, second, expected)) = read_bit_words(left) else {
        return Ok(None);
    };
    let sources = net.sources() as usize;
    let observed = net.observed().len();
    if sources == 0 {
        return Ok(None);
    }
    if observed == 0 {
        return Ok(None);
    }
    let Some(first) = read_bits(alloc, sources, first)? else {
        return Ok(None);
    };
    let Some(second) = read_bits(alloc, sources, second)? else {
        return Ok(None);
    };
    let Some(expected) = read_bits(alloc, observed, expected)? else {
        return Ok(None);
    };
    Ok(Some(Test {
        path: head.path,
        dir: head.dir,
        kind: head.kind,
        pair: Pair::new(first, second),
        expected: Items::new(expected),
    }))
}

// What a test's line tells before its bits.
#[derive(Drop)]
struct TestHead {
    path: u32,
    dir: Direction,
    kind: Kind,
}

// What stands before the bits, and what is left behind it.
fn read_head(number: u32, line: &[u8]) -> Option<(TestHead, Option<&[u8]>)>
    ensures { Reads (test_head_words number) IsTestHead (words_of line.now) (option_map test_head_lent result) }
{
    let (path, left) = read_path(number, line)?;
    let (dir, kind, left) = read_direction_and_kind(left)?;
    Some((TestHead { path, dir, kind }, left))
}

// The number of the path that the test of this number is for, and what is left behind it.
fn read_path(number: u32, line: &[u8]) -> Option<(u32, Option<&[u8]>)>
    ensures { Reads (numbered_path_words number) (λ read. IsPathNumber read.0) (words_of line.now) (option_map numbered_path_lent result) }
{
    let (word, left) = next_word(Some(line))?;
    if !is_number(word, number) {
        return None;
    }
    let (word, left) = next_word(left)?;
    let path = read_number(word, MOST_PATHS)?;
    if path == 0 {
        return None;
    }
    Some((path, left))
}

// The transition and the kind of the test, and what is left behind them.
fn read_direction_and_kind<'a>(
    left: Option<&'a [u8]>,
) -> Option<(Direction, Kind, Option<&'a [u8]>)>
    ensures { Reads direction_and_kind_words (λ read. ⊤) (words_left left.entry) (option_map direction_and_kind_lent result) }
{
    let (word, left) = next_word(left)?;
    let dir = read_direction(word)?;
    let (word, left) = next_word(left)?;
    let kind = read_kind(word)?;
    Some((dir, kind, left))
}

// The words of the bits, where three are left.
fn read_bit_words<'a>(left: Option<&'a [u8]>) -> Option<(&'a [u8], &'a [u8], &'a [u8])>
    ensures { Reads three_words (λ words. ⊤) (words_left left.entry) (option_map bit_words_lent result) }
{
    let (first, left) = next_word(left)?;
    let (second, left) = next_word(left)?;
    let (expected, left) = next_word(left)?;
    match next_word(left) {
        None => Some((first, second, expected)),
        Some(_) => None,
    }
}
