// The two line agreements that are built: the halving line and the graded line.
#![tactic(auto)]

mod graded;
mod halving;

pub use graded::Graded;
pub use halving::Halving;
