//! What the program's texts are made of, and how they are read back, each in its one spelling: lines, words between single spaces,
//! decimal numbers, fixed words, digits of bits. What a file of lines is, which have their form one behind another, and what its
//! first line is that lacks it, stands in specs/LineFiles.antt, with its laws in proofs/ReadLines.antt.
//! Stands on pd_base and itoa. The writers above use `push_spaced` and its kin, the readers `split_line` and what stands beside it,
//! and both the definitions of specs/.
#![tactic(auto)]

mod bits;
mod cutting;
mod number;
mod pieces;
mod words;

pub use bits::read_bits;
pub use cutting::{cut, cut_last, next_word, split_line, text_behind};
pub use number::{is_number, read_long, read_number};
pub use pieces::{direction_word, kind_word, push_spaced, push_spaced_digits, push_spaced_number};
pub use words::{read_direction, read_kind};
