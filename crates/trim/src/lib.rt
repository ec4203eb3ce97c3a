// Lists of positions without their t lowest and t highest, one step of each of the two line agreements, and how many
// rounds each takes.
#![tactic(auto)]

mod list;
mod rounds;

pub use list::{UnitList, list_entry};
pub use rounds::{graded_iterations, halving_rounds, worst};
