// A text is cut at a byte: into lines at LF, into words at spaces. What is lent back are parts of the text.
ghost use Rattle.std.specs.Prelude.{◌≡◌, ◌<◌, ◌++◌, [], ◌∷◌, ⊤, ℕ, List, length, option_map, IfSome, MatchOption};
ghost use Rattle.text_pieces.specs.Tokens.{line_feed};
ghost use Rattle.text_pieces.specs.Cuts.{Lacks, lent_text, lent_texts, line_at_front, pieces, pieces_left, words_left};
ghost use Rattle.text_pieces.specs.Reads.{Reads};

use memchr::memchr;

/// What stands before the first byte of this kind, and what stands behind it if there is one.
pub fn cut(byte: u8, text: &[u8]) -> (&[u8], Option<&[u8]>)
    ensures pieces { pieces byte text.now ≡ result.0.now ∷ pieces_left byte result.1 }
    ensures whole { IfSome result.1 (λ rest. text.now ≡ result.0.now ++ byte ∷ rest.now) }
    ensures lacks { Lacks byte result.0.now }
    ensures shorter { IfSome result.1 (λ rest. length rest.now < length text.now) }
{
    match memchr(byte, text) {
        Some(index) => (&text[..index], Some(&text[index + 1..])),
        None => (text, None),
    }
}

/// What stands before the last byte of this kind, and what stands behind it. None where there is no such byte.
pub fn cut_last(byte: u8, text: &[u8]) -> Option<(&[u8], &[u8])>
    ensures { Reads (λ (parts : List ℕ × List ℕ). parts.0 ++ byte ∷ parts.1) (λ parts. Lacks byte parts.1) text.now
        (option_map lent_texts result) }
{
    let mut end = text.len();
    while end > 0 {
        end -= 1;
        if text[end] == byte {
            return Some((&text[..end], &text[end + 1..]));
        }
    }
    None
}

/// The first word of what is left of a line, and what is left behind it. None where nothing is left.
pub fn next_word<'a>(left: Option<&'a [u8]>) -> Option<(&'a [u8], Option<&'a [u8]>)>
    ensures { MatchOption result (words_left left.entry ≡ [])
        (λ next. words_left left.entry ≡ next.0.now ∷ words_left next.1) }
{
    Some(cut(b' ', left?))
}

/// The first line of a text without its LF, and the text behind it. None where there is no LF.
pub fn split_line(text: &[u8]) -> Option<(&[u8], &[u8])>
    ensures reads { Reads line_at_front (λ parts. Lacks line_feed parts.0) text.now (option_map lent_texts result) }
    ensures shorter { IfSome result (λ parts. length parts.1.now < length text.now) }
{
    let (line, rest) = cut(b'\n', text);
    Some((line, rest?))
}

/// The text behind these bytes, where it begins with them.
pub fn text_behind<'a>(start: &[u8], text: &'a [u8]) -> Option<&'a [u8]>
    ensures { Reads (λ (rest : List ℕ). start.now ++ rest) (λ rest. ⊤) text.now (option_map lent_text result) }
{
    text.strip_prefix(start)
}
