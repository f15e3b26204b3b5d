// The tokens of a line, listed in one go over its bytes.
ghost use Rattle.std.specs.Prelude.{◌≡◌, ◌≤◌, true, false, length, OnOk, IfErr, MatchOption, MatchResult};
ghost use Rattle.std.specs.List.{list_any, prefix_len};
ghost use Rattle.bench_reader.specs.Bytes.{code_of, has_bad_byte, is_part};
ghost use Rattle.bench_reader.specs.Tokens.{begins_name, tokens_of};
ghost use Rattle.bench_reader.specs.Statements.{is_too_long};
ghost use Rattle.bench_reader.specs.Seen.{BeginsWith, IsEmptyCode, ListingFails, token_seen, tokens_seen};

use crate::byte::{ByteClass, Mark, class_of};
use crate::cut::code_of;
use crate::line_fault::LineFault;
use netlist::MOST_NAME_BYTES;

/// A token of a line: a name, or a mark.
#[derive(Clone, Copy)]
pub enum Token<'a> {
    /// A name or a word.
    Name(&'a [u8]),
    /// A mark.
    Mark(Mark),
}

// Lists the tokens of a line in place of those that the list holds. `BadByte` comes where a byte may not stand where it
// stands, and then, as where memory runs out, the list holds some of the tokens.
pub(crate) fn list_tokens<'a>(line: &'a [u8], tokens: &mut Vec<Token<'a>>) -> Result<(), LineFault>
    ensures ok { OnOk result ((has_bad_byte (code_of line.now) ≡ false)
        × (tokens_seen tokens.new.items ≡ tokens_of (code_of line.now))) }
    ensures err { IfErr result (ListingFails (code_of line.now)) }
{
    tokens.clear();
    let mut rest = code_of(line);
    while let Some((token, after)) = next_token(rest)? {
        tokens.push(token)?;
        rest = after;
    }
    Ok(())
}

// Whether some name is too long.
pub(crate) fn has_long_name(tokens: &[Token<'_>]) -> bool
    ensures { result ≡ list_any (λ token. is_too_long (token_seen token)) tokens.now }
{
    tokens.iter().any(|token| is_too_long(token))
}

// Whether a token is a name that is too long.
fn is_too_long(token: &Token<'_>) -> bool
    ensures { result ≡ is_too_long (token_seen token.now) }
{
    match token {
        Token::Name(name) => name.len() > MOST_NAME_BYTES as usize,
        Token::Mark(_) => false,
    }
}

// The first token, and what stands behind it; None where there is none.
fn next_token(code: &[u8]) -> Result<Option<(Token<'_>, &[u8])>, LineFault>
    ensures { MatchResult result
        (λ found. MatchOption found (IsEmptyCode code.now) (λ next. BeginsWith code.now (token_seen next.0) next.1.now))
        (λ fault. (fault ≡ LineFault.BadByte) × (has_bad_byte code.now ≡ true)) }
{
    let mut rest = code;
    while let Some((byte, after)) = rest.split_first() {
        match class_of(*byte) {
            ByteClass::Blank => rest = after,
            ByteClass::Mark(mark) => return Ok(Some((Token::Mark(mark), after))),
            ByteClass::NamePart => return Ok(Some(first_name(rest))),
            ByteClass::Bad => return Err(LineFault::BadByte),
        }
    }
    Ok(None)
}

// The name with which the bytes begin, and what stands behind it.
fn first_name(code: &[u8]) -> (Token<'_>, &[u8])
    requires { begins_name code.now ≡ true }
    ensures { BeginsWith code.now (token_seen result.0) result.1.now }
{
    let (name, rest) = code.split_at(name_length(code));
    (Token::Name(name), rest)
}

// How many parts of a name the bytes begin with.
fn name_length(code: &[u8]) -> usize
    ensures longest { result ≡ prefix_len is_part code.now }
    ensures within { result ≤ length code.now }
{
    for (index, byte) in code.iter().enumerate() {
        if class_of(*byte) != ByteClass::NamePart {
            return index;
        }
    }
    code.len()
}
