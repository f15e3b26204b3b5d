// The words for the kinds of a netlist.
ghost use Rattle.std.specs.Prelude.{◌≡◌, ℕ};
ghost use Rattle.std.specs.Str.{str_eq_ignore_ascii_case};
ghost use Rattle.bench_reader.specs.Kinds.{kind_word_of, may_have, spelling};

use netlist::{GateKind, MOST_FAN_IN};

/// A word for a kind. `INV` is another word for `NOT`, and `BUF` for `BUFF`.
#[derive(Clone, Copy)]
pub enum KindWord {
    /// `AND`
    And,
    /// `NAND`
    Nand,
    /// `OR`
    Or,
    /// `NOR`
    Nor,
    /// `XOR`
    Xor,
    /// `XNOR`
    Xnor,
    /// `NOT`
    Not,
    /// `INV`
    Inv,
    /// `BUFF`
    Buff,
    /// `BUF`
    Buf,
    /// `DFF`, for a flip-flop.
    Dff,
}

// All words.
const KIND_WORDS: [KindWord; 11] = [
    KindWord::And,
    KindWord::Nand,
    KindWord::Or,
    KindWord::Nor,
    KindWord::Xor,
    KindWord::Xnor,
    KindWord::Not,
    KindWord::Inv,
    KindWord::Buff,
    KindWord::Buf,
    KindWord::Dff,
];

impl KindWord {
    // How the word is spelled in upper case.
    fn spelling(self) -> &'static [u8]
        ensures { result.now ≡ spelling self }
    {
        match self {
            KindWord::And => b"AND",
            KindWord::Nand => b"NAND",
            KindWord::Or => b"OR",
            KindWord::Nor => b"NOR",
            KindWord::Xor => b"XOR",
            KindWord::Xnor => b"XNOR",
            KindWord::Not => b"NOT",
            KindWord::Inv => b"INV",
            KindWord::Buff => b"BUFF",
            KindWord::Buf => b"BUF",
            KindWord::Dff => b"DFF",
        }
    }
}

// Whether a word is this one, in any mixture of upper and lower case.
fn is_spelled(known: KindWord, word: &[u8]) -> bool
    ensures { result ≡ str_eq_ignore_ascii_case word.now (spelling known) }
{
    word.eq_ignore_ascii_case(known.spelling())
}

// The word for a kind, in any mixture of upper and lower case.
pub(crate) fn kind_word_of(word: &[u8]) -> Option<KindWord>
    ensures { result ≡ kind_word_of word.now }
{
    for known in KIND_WORDS.into_iter() {
        if is_spelled(known, word) {
            return Some(known);
        }
    }
    None
}

// Whether a gate of this kind may have so many arguments.
pub(crate) fn may_have(kind: GateKind, count: usize) -> bool
    ensures { result ≡ may_have kind count }
{
    match kind {
        GateKind::Not | GateKind::Buff => count == 1,
        _ => 1 <= count && count <= MOST_FAN_IN as usize,
    }
}
