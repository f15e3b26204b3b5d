// Of what a line on err is made.

/// A part of a line: fixed words, or a number in decimal digits. Neither takes memory.
#[derive(Clone, Copy)]
pub enum Part {
    /// These words.
    Words(&'static [u8]),
    /// This number.
    Number(u64),
}
