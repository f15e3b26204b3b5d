// What a byte of a line is.
ghost use Rattle.std.specs.Prelude.{◌≡◌};
ghost use Rattle.bench_reader.specs.Bytes.{class_of};

/// A byte that is a token by itself.
#[derive(Clone, Copy, PartialEq, Eq)]
pub enum Mark {
    /// `(`
    Open,
    /// `)`
    Close,
    /// `,`
    Comma,
    /// `=`
    Equals,
}

/// What a byte outside a comment is.
#[derive(Clone, Copy, PartialEq, Eq)]
pub enum ByteClass {
    /// White space.
    Blank,
    /// A token by itself.
    Mark(Mark),
    /// A part of a name.
    NamePart,
    /// A byte that may not stand there.
    Bad,
}

// What a byte outside a comment is. The byte of `#` is none that stands there.
pub(crate) fn class_of(byte: u8) -> ByteClass
    ensures { result ≡ class_of byte }
{
    match byte {
        b'\t' | 12 | b'\r' | b' ' => ByteClass::Blank,
        b'(' => ByteClass::Mark(Mark::Open),
        b')' => ByteClass::Mark(Mark::Close),
        b',' => ByteClass::Mark(Mark::Comma),
        b'=' => ByteClass::Mark(Mark::Equals),
        b'"' | b'#' => ByteClass::Bad,
        b'!'..=b'~' => ByteClass::NamePart,
        _ => ByteClass::Bad,
    }
}
