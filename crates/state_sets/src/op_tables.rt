// Tables of what an operation makes of two states or of two sets, a number for each two: they stand row by row, in rows of as many places
// as there are states or sets. The tables of a kind of states are in the file of that name.
ghost use Rattle.std.specs.Prelude.{◌≡◌, ◌+◌, ◌*◌, ◌<◌, length, slice_index_or};
ghost use Rattle.state_sets.specs.OpTables.{by_op};

use netlist::Op;

// The table of an operation, out of those of the three. Inlined, with what follows: narrowing reads a table for each pin.
#[inline(always)]
pub(crate) fn table_of<'t>(op: Op, and: &'t [u8], or: &'t [u8], xor: &'t [u8]) -> &'t [u8]
    ensures { result.now ≡ by_op and.now or.now xor.now op }
{
    match op {
        Op::And => and,
        Op::Or => or,
        Op::Xor => xor,
    }
}

// The number at a row and a column of a table with rows of so many places.
#[inline(always)]
pub(crate) fn number_at(table: &[u8], places: u8, row: u8, column: u8) -> u8
    requires { row * places + column < length table.now }
    ensures { result ≡ slice_index_or table.now (row * places + column) 0 }
{
    table[row as usize * places as usize + column as usize]
}
