// One line: its tokens, and then its statement.
ghost use Rattle.bench_reader.specs.Seen.{IsLawfulAnswer, IsReading};
ghost use Rattle.bench_reader.specs.Statements.{line_reading};

use crate::line_fault::LineFault;
use crate::statement::{Statement, read_tokens};
use crate::token::{Token, has_long_name, list_tokens};

/// What a line says, or None where it has no token. The names of a gate's arguments are left in `arguments`. The lists
/// hold what an earlier line left, and are used again, so that only a longer line than those before takes memory.
///
/// Of the faults of a line the first is answered, in the order of `LineFault`; `NoMemory` may come in place of any answer.
pub(crate) fn read_line<'a>(
    line: &'a [u8],
    tokens: &mut Vec<Token<'a>>,
    arguments: &mut Vec<&'a [u8]>,
) -> Result<Option<Statement<'a>>, LineFault>
    ensures reading { IsReading arguments.new.items result (line_reading line.now) }
    ensures lawful { IsLawfulAnswer arguments.new.items result }
{
    list_tokens(line, tokens)?;
    if has_long_name(tokens) {
        return Err(LineFault::NameTooLong);
    }
    read_tokens(tokens, arguments)
}
