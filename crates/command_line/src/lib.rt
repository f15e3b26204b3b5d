//! The words of the command line: what they ask for, or why they are refused. The rules read them from the left
//! (specs/Reading.antt); of words that they accept, clap reads the values. The options are one list (option_name.rt), the commands another
//! (command.rt); what each command takes is its form, a module of forms/. Stands on pd_base and clap, of which no other crate sees a
//! type. The layers above use `read_words`.
#![tactic(auto)]

mod command;
mod fault;
mod form;
mod forms;
mod kind;
mod mode;
mod number;
mod option_name;
mod parsing;
mod reading;
mod refusal;
mod same;
mod taken;
mod taking;
mod time;
mod value_kind;

pub use command::{Command, read_words};
pub use fault::WordsFault;
pub use forms::bounds::BoundsCommand;
pub use forms::compact::CompactCommand;
pub use forms::make::MakeCommand;
pub use forms::replay::ReplayCommand;
pub use forms::rise_fall_replay::RiseFallReplayCommand;
pub use forms::run::RunCommand;
pub use forms::scan::ScanCommand;
pub use mode::Mode;
pub use option_name::OptionName;
pub use refusal::WordsRefusal;
