//! What every command of the program does alike: its inputs read and its products written, how it ends, as a status and a line on
//! err (specs/Lines.antt), and what holds of a whole call (specs/Calls.antt, Laws.antt). A command gives a `Work` in its specs
//! (specs/Work.antt), with the requirements that it knows; says of each of its reasons to refuse which `Refusal` it is, by a cause and
//! the parts of a line; and uses `read_input`, `write_file` and `print`. The program's call uses `tell`. Nothing here knows any command,
//! requirement or reason. Stands on pd_base, pd_io, text_pieces and itoa.
#![tactic(auto)]

mod cause;
mod ending;
mod part;
mod reading;
mod refusal;
mod role;
mod status;
mod telling;
mod writing;

pub use cause::Cause;
pub use ending::Ending;
pub use part::Part;
pub use reading::read_input;
pub use refusal::{MOST_PARTS, Refusal};
pub use role::Role;
pub use status::Status;
pub use telling::tell;
pub use writing::{print, write_file};
