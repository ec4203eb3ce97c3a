// A plan of a cave: read from a file, and asked for its root, depths, ways and walk.
#![tactic(auto)]

mod plan;

pub use plan::Plan;
