//! Plain values that every crate speaks of: numbers of lines and gates, paths, vector pairs, tests, the rules of a search, the most
//! paths, the greatest budget and the most stages of a ladder. Stands on the kit alone. The layers above use the contracts of `Path`, `Pair`, `Items`,
//! `FlatLists`, `Steps` and `push_decimal`.
#![tactic(auto)]

mod decimal;
mod fault;
mod flat_lists;
mod ids;
mod items;
mod limits;
mod links;
mod memory;
mod pair;
mod path;
mod rules;
mod steps;
mod test;

pub use decimal::push_decimal;
pub use fault::{Direction, Kind};
pub use flat_lists::FlatLists;
pub use ids::{GateId, LineId, PinRef};
pub use items::Items;
pub use limits::{MOST_BUDGET, MOST_BYTES, MOST_PATHS, MOST_STAGES};
pub use links::Links;
pub use memory::OutOfMemory;
pub use pair::Pair;
pub use path::Path;
pub use rules::Rules;
pub use steps::Steps;
pub use test::Test;
