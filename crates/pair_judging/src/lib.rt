//! Pairs of vectors and the states of the lines in the cone of a path's end: whether these meet the conditions of a test for the path.
//! Stands on netlist, logic_values, state_laws and cones.
//! The layers above take states of labels at the sources of a cone (`take_least`, `take_preferred`), judge them (`judge`, and its parts
//! `gate_state`, `failing_link` and `judge_steps`) and read the pair off them (`read_test`). A `ConeJudge` judges finished pairs, and reads
//! those off states that keep links.
#![tactic(auto)]

mod cone_judge;
mod gate_states;
mod judging;
mod least_states;
mod line_values;
mod path_ends;
mod path_states;
mod ranked_gates;
mod read_states;
mod source_bits;
mod target;

pub use cone_judge::ConeJudge;
pub use gate_states::gate_state;
pub use judging::{Judgement, failing_link, judge};
pub use least_states::least;
pub use path_ends::{end_of, ends_of};
pub use path_states::judge_steps;
pub use read_states::{take_least, take_preferred};
pub use source_bits::read_test;
pub use target::Target;
