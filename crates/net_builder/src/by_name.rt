// All lines in the order of their names' bytes: the names sorted, each with its line's number. Most names differ in the first
// eight bytes, and these are compared as one number, which stands in the list itself.
ghost use Rattle.std.specs.Prelude.{◌≡◌, ◌≤◌, length, map, slice_index, All, IfOk};
ghost use Rattle.std.specs.List.{range_with_len};
ghost use Rattle.netlist.specs.Names.{IsByName, IsName};
ghost use Rattle.netlist.specs.declared.limits.TheConstants.{MOST_LINES};
ghost use Rattle.net_builder.specs.NameOrder.{IsNamed, first_bytes, lines_in};

use pd_base::{FlatLists, LineId, OutOfMemory};
use std::alloc::Global;

/// The lines that bear these names, in the order of the names' bytes.
pub(crate) fn lines_by_name(
    alloc: Global,
    names: &FlatLists<u8>,
) -> Result<Vec<LineId>, OutOfMemory>
    requires few { length names.now ≤ MOST_LINES }
    requires names { All IsName names.now }
    ensures { IfOk result (λ lines. IsByName names.now lines.items) }
{
    let mut named = with_names(alloc, names)?;
    named.sort_unstable();
    without_names(alloc, named.as_slice())
}

// The first bytes and the name of each line, with its number, in the order of the numbers.
fn with_names<'n>(
    alloc: Global,
    names: &'n FlatLists<u8>,
) -> Result<Vec<(u64, &'n [u8], u32)>, OutOfMemory>
    requires { length names.now ≤ MOST_LINES }
    ensures names { IfOk result (λ named. All (IsNamed names.now) named.items) }
    ensures lines { IfOk result (λ named. map (λ entry. entry.2) named.items ≡ range_with_len 0 (length names.now)) }
{
    let mut named = Vec::with_capacity(alloc, names.len())?;
    for line in 0..names.len() {
        let name = names.list(line);
        named.push((first_bytes(name), name, line as u32))?;
    }
    Ok(named)
}

// The lines alone, in the same order.
fn without_names(alloc: Global, named: &[(u64, &[u8], u32)]) -> Result<Vec<LineId>, OutOfMemory>
    ensures { IfOk result (λ lines. lines.items ≡ lines_in named.now) }
{
    let mut lines = Vec::with_capacity(alloc, named.len())?;
    for (_, _, line) in named {
        lines.push(LineId(*line))?;
    }
    Ok(lines)
}

// The first eight bytes of a name as a number, 0 for a byte past its end.
fn first_bytes(name: &[u8]) -> u64
    ensures { result ≡ first_bytes name.now }
{
    u64::from_be_bytes([
        byte_at(name, 0),
        byte_at(name, 1),
        byte_at(name, 2),
        byte_at(name, 3),
        byte_at(name, 4),
        byte_at(name, 5),
        byte_at(name, 6),
        byte_at(name, 7),
    ])
}

// The byte at a place, 0 past the end.
fn byte_at(name: &[u8], at: usize) -> u8
    ensures { result ≡ slice_index name.now at }
{
    if at < name.len() { name[at] } else { 0 }
}
