// Where a text is cut: at the end of a line, and where a comment begins.
ghost use Rattle.std.specs.Prelude.{◌≡◌, ◌≤◌, ◌==◌, length};
ghost use Rattle.std.specs.List.{position_or_len};
ghost use Rattle.bench_reader.specs.Bytes.{code_of};

/// The place of the first byte that is this one, or the length where none is.
pub(crate) fn place_of(byte: u8, bytes: &[u8]) -> usize
    ensures place { result ≡ position_or_len (λ other. other == byte) bytes.now }
    ensures within { result ≤ length bytes.now }
{
    for (index, other) in bytes.iter().enumerate() {
        if *other == byte {
            return index;
        }
    }
    bytes.len()
}

// What stands before the comment of a line.
pub(crate) fn code_of(line: &[u8]) -> &[u8]
    ensures { result.now ≡ code_of line.now }
{
    &line[..place_of(b'#', line)]
}
