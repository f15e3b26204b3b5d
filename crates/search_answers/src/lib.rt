//! Answers to rows of tests on searches, as texts: searches for tests of single paths, with what the judge says of their trees; labels by
//! sweeps over all gates beside those that the worklist ends with; sets narrowed along a link; what a scope tells at its beginning, and stage
//! by stage under any rules; how many prefixes a walk enters; and writes undone by a trail. Then callers that the product has not, each proved from contracts alone: of `meets` and `steady`, whose
//! contracts say in a reader's words what an answer tells of waves; and of scopes, nested by recursion, left by marks in a loop, and
//! left by `?`. Stands on row_answers, prefix_sensitize and what they stand on, and is no part of the product. The program rows prints
//! the answers.
#![tactic(auto)]

mod alike;
mod choice;
mod entering;
mod found;
mod judged;
mod late_paths;
mod launching;
mod leaving;
mod link_sets;
mod linked_searches;
mod marking;
mod nesting;
mod scopes;
mod searching;
mod stages;
mod steady_lines;
mod sweeping;
mod trails;
mod walks;

pub use alike::ends_alike;
pub use choice::Choice;
pub use late_paths::{is_nonrobust_test, is_robust_test, is_test, shows_each_prefix};
pub use launching::launched;
pub use leaving::assume_both;
pub use link_sets::narrowed;
pub use marking::keep_agreeing;
pub use nesting::walk;
pub use searching::searched;
pub use stages::staged;
pub use steady_lines::{is_steady_at_one, steady_bit};
pub use trails::{ask_room, undone};
pub use walks::walked;
