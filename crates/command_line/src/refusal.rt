// Why the words of the command line are refused.
use crate::OptionName;

/// What is wrong with the words. A place is a word's number; the command stands at 1.
#[derive(Clone, Copy)]
pub enum WordsRefusal {
    /// The command is missing, or is none that is known.
    Command,
    /// This option was given before.
    Repeat(OptionName),
    /// This option has no value, or one that it may not have.
    Value(OptionName),
    /// The word at this place begins with a hyphen, and is no option of the command.
    OptionAt(usize),
    /// The word at this place is empty.
    EmptyAt(usize),
    /// There are too many or too few positional words.
    Count,
    /// A scan file is named without the mode that shifts by it, or that mode is asked for without one.
    Scan,
    /// The words at these two places are the same file name.
    SameAt(usize, usize),
    /// The number of paths times the budget, this product, is over its limit.
    Product(u64),
    /// The time is none that `replay` and `rfreplay` take.
    Time,
    /// The number of stages is none that `make` takes.
    Stages,
}
