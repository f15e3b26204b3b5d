// The statement of a line, out of its tokens. Each form is peeled off piece by piece.
ghost use Rattle.std.specs.Prelude.{◌≡◌, ◌≤◌, ◌↔◌, ◌∷◌, [], length, None, Some, IsTrue, IfSome, MatchOption, OnOk, IfErr};
ghost use Rattle.netlist.specs.NameTexts.{bytes_of};
ghost use Rattle.bench_reader.specs.Tokens.{name, mark};
ghost use Rattle.bench_reader.specs.Seen.{ArgumentsFail, IsReading, IsStatementReading, LacksMark, LacksName, names_left, tokens_left, tokens_seen};
ghost use Rattle.bench_reader.specs.Statements.{arguments_of, definition_reading, flop_reading, gate_reading, kind_reading, names_of, only_name_of, port_reading, tokens_reading, with_first};

use crate::byte::Mark;
use crate::kind::{KindWord, kind_word_of, may_have};
use crate::line_fault::LineFault;
use crate::token::Token;
use netlist::GateKind;

/// What a line says. The arguments of a gate stand in a list beside it.
#[derive(Clone, Copy)]
pub enum Statement<'a> {
    /// Defines a source of this name.
    Input(&'a [u8]),
    /// Makes the line of this name an output.
    Output(&'a [u8]),
    /// Defines a gate of this name and kind.
    Gate(&'a [u8], GateKind),
    /// Defines a flip-flop of this name, with the name of its data line.
    Flop(&'a [u8], &'a [u8]),
}

// What a line with these tokens says. The names of a gate's arguments are left in the list.
pub(crate) fn read_tokens<'a>(
    tokens: &[Token<'a>],
    arguments: &mut Vec<&'a [u8]>,
) -> Result<Option<Statement<'a>>, LineFault>
    ensures { IsReading arguments.new.items result (tokens_reading (tokens_seen tokens.now)) }
{
    if tokens.is_empty() {
        return Ok(None);
    }
    let Some((first, rest)) = split_name(tokens) else {
        return Err(LineFault::Syntax);
    };
    match after(Mark::Equals, rest) {
        Some(definition) => Ok(Some(read_definition(first, definition, arguments)?)),
        None => Ok(Some(read_port(first, rest)?)),
    }
}

// What a line with these tokens behind a name and an equals sign says.
fn read_definition<'a>(
    target: &'a [u8],
    tokens: &[Token<'a>],
    arguments: &mut Vec<&'a [u8]>,
) -> Result<Statement<'a>, LineFault>
    ensures { IsStatementReading arguments.new.items result (definition_reading target.now (tokens_seen tokens.now)) }
{
    let Some((word, rest)) = split_name(tokens) else {
        return Err(LineFault::Syntax);
    };
    let Some(rest) = after(Mark::Open, rest) else {
        return Err(LineFault::Syntax);
    };
    list_arguments(rest, arguments)?;
    let Some(known) = kind_word_of(word) else {
        return Err(LineFault::UnknownKind);
    };
    define(target, known, arguments.as_slice())
}

// What a line with this word for the kind says.
fn define<'a>(
    target: &'a [u8],
    known: KindWord,
    arguments: &[&'a [u8]],
) -> Result<Statement<'a>, LineFault>
    ensures { IsStatementReading arguments.now result (kind_reading target.now (bytes_of arguments.now) (Some known)) }
{
    match known {
        KindWord::And => define_gate(target, GateKind::And, arguments),
        KindWord::Nand => define_gate(target, GateKind::Nand, arguments),
        KindWord::Or => define_gate(target, GateKind::Or, arguments),
        KindWord::Nor => define_gate(target, GateKind::Nor, arguments),
        KindWord::Xor => define_gate(target, GateKind::Xor, arguments),
        KindWord::Xnor => define_gate(target, GateKind::Xnor, arguments),
        KindWord::Not | KindWord::Inv => define_gate(target, GateKind::Not, arguments),
        KindWord::Buff | KindWord::Buf => define_gate(target, GateKind::Buff, arguments),
        KindWord::Dff => define_flop(target, arguments),
    }
}

// A gate, where one of its kind may have so many arguments.
fn define_gate<'a>(
    target: &'a [u8],
    kind: GateKind,
    arguments: &[&'a [u8]],
) -> Result<Statement<'a>, LineFault>
    ensures { IsStatementReading arguments.now result (gate_reading target.now kind (bytes_of arguments.now)) }
{
    if may_have(kind, arguments.len()) {
        Ok(Statement::Gate(target, kind))
    } else {
        Err(LineFault::FanIn)
    }
}

// A flip-flop, where there is one argument.
fn define_flop<'a>(target: &'a [u8], arguments: &[&'a [u8]]) -> Result<Statement<'a>, LineFault>
    ensures { IsStatementReading arguments.now result (flop_reading target.now (bytes_of arguments.now)) }
{
    match arguments {
        [line] => Ok(Statement::Flop(target, *line)),
        _ => Err(LineFault::FanIn),
    }
}

// Lists the names of the arguments behind an opening bracket, in place of the names that the list holds.
fn list_arguments<'a>(tokens: &[Token<'a>], arguments: &mut Vec<&'a [u8]>) -> Result<(), LineFault>
    ensures ok { OnOk result (arguments_of (tokens_seen tokens.now) ≡ Some (bytes_of arguments.new.items)) }
    ensures err { IfErr result (ArgumentsFail (tokens_seen tokens.now)) }
{
    arguments.clear();
    if is_end(tokens) {
        return Ok(());
    }
    let mut left = Some(tokens);
    while let Some(rest) = left {
        let Some((name, behind)) = split_argument(rest) else {
            return Err(LineFault::Syntax);
        };
        arguments.push(name)?;
        left = behind;
    }
    Ok(())
}

// The name of the first of some arguments, and the tokens behind the comma that follows it; no tokens where a closing
// bracket ends the arguments.
fn split_argument<'a, 't>(tokens: &'t [Token<'a>]) -> Option<(&'a [u8], Option<&'t [Token<'a>]>)>
    ensures names { MatchOption result (names_of (tokens_seen tokens.now) ≡ None)
        (λ found. names_of (tokens_seen tokens.now) ≡ with_first found.0.now (names_left found.1)) }
    ensures shorter { IfSome result (λ found. tokens_left found.1 ≤ length tokens.now) }
{
    let (name, rest) = split_name(tokens)?;
    if is_end(rest) {
        return Some((name, None));
    }
    Some((name, Some(after(Mark::Comma, rest)?)))
}

// What a line with these tokens behind a word says, of which the first is no equals sign.
fn read_port<'a>(word: &[u8], tokens: &[Token<'a>]) -> Result<Statement<'a>, LineFault>
    ensures { IsStatementReading [] result (port_reading word.now (tokens_seen tokens.now)) }
{
    let Some(port) = only_name(tokens) else {
        return Err(LineFault::Syntax);
    };
    if word.eq_ignore_ascii_case(b"INPUT") {
        Ok(Statement::Input(port))
    } else if word.eq_ignore_ascii_case(b"OUTPUT") {
        Ok(Statement::Output(port))
    } else {
        Err(LineFault::Syntax)
    }
}

// The one name between brackets.
fn only_name<'a>(tokens: &[Token<'a>]) -> Option<&'a [u8]>
    ensures { MatchOption result (only_name_of (tokens_seen tokens.now) ≡ None)
        (λ found. only_name_of (tokens_seen tokens.now) ≡ Some found.now) }
{
    let inside = after(Mark::Open, tokens)?;
    let (name, rest) = split_name(inside)?;
    if is_end(rest) { Some(name) } else { None }
}

// The name that stands first, and the tokens behind it.
fn split_name<'a, 't>(tokens: &'t [Token<'a>]) -> Option<(&'a [u8], &'t [Token<'a>])>
    ensures { MatchOption result (LacksName (tokens_seen tokens.now))
        (λ found. tokens_seen tokens.now ≡ name found.0.now ∷ tokens_seen found.1.now) }
{
    match tokens {
        [Token::Name(first), rest @ ..] => Some((*first, rest)),
        _ => None,
    }
}

// The tokens behind this mark, where it stands first.
fn after<'a, 't>(wanted: Mark, tokens: &'t [Token<'a>]) -> Option<&'t [Token<'a>]>
    ensures { MatchOption result (LacksMark wanted (tokens_seen tokens.now))
        (λ rest. tokens_seen tokens.now ≡ mark wanted ∷ tokens_seen rest.now) }
{
    match tokens {
        [Token::Mark(first), rest @ ..] if *first == wanted => Some(rest),
        _ => None,
    }
}

// Whether a closing bracket is all that is left.
fn is_end(tokens: &[Token<'_>]) -> bool
    ensures { IsTrue result ↔ (tokens_seen tokens.now ≡ mark Mark.Close ∷ []) }
{
    matches!(tokens, [Token::Mark(Mark::Close)])
}
