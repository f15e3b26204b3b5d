//! The commands, over any files and streams: `run`, which does what the program's words ask for (specs/Commands.antt); `gen`,
//! which leads from a netlist and its delays to the texts of one run (specs/Gen.antt); `make`, which does that work on a ladder
//! (specs/Make.antt); `check` (specs/Check.antt), `replay` (specs/Replay.antt) and `rfreplay` (specs/RiseFallReplay.antt); `compact`
//! (specs/Compact.antt) and `bounds` (specs/Bounds.antt); and `scan` (specs/Scan.antt). What they read in the same way is in src/inputs.rt. `gen` and `check` are of a
//! mode, whose pairs of vectors alone count (specs/ModeRules.antt); what they read of a run is in src/run_inputs.rt. That `check` accepts what
//! `gen` wrote, and that its tests can be replayed, is said by the clause `own` of `run` (specs/CheckLaws.antt, ReplayLaws.antt,
//! RiseFallReplayLaws.antt); so is what `compact` and `bounds` do with what it wrote, and `compact` with what it wrote itself
//! (specs/CompactLaws.antt, BoundsLaws.antt), and that `scan` takes its skewed tests (specs/ScanLaws.antt).
//! Stands on calls, which has what every command does alike, on the readers and writers of all files, on the search of all paths, on
//! the judge of a run, on the waves of tests, on the grading of tests, the bounds of a log and the loading of scan chains and, for the system's own files and
//! streams, on system_files. The program is `serve`: `exit_code` over the system's files and streams, which is `run` with the number
//! of its status.
#![tactic(auto)]

mod bounds;
mod calling;
mod check;
mod compact;
mod copied;
mod dispatch;
mod exiting;
mod generating;
mod inputs;
mod launch;
mod making;
mod mode_rules;
mod preparing;
mod replay;
mod rise_fall_replay;
mod run_inputs;
mod scan;
mod serving;
mod words_refusal;

pub use calling::run;
pub use exiting::exit_code;
pub use inputs::{INPUT_LIMIT, MOST_GRADES, MOST_PATH_TEXT, MOST_TEST_TEXT, STEP_BYTES};
pub use making::{LADDER_BUDGET, LADDER_PATHS};
pub use serving::serve;
