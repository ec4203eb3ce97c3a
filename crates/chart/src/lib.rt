// The records of a plan file as the stations of a plan: sorted by label, each with its parent towards the root, the
// station with the lowest label, and with its depth. No sort is needed: each station is written at its rank, the count
// of lower labels.
#![tactic(auto)]

mod arrange;
mod link;
mod turn;

pub use arrange::chart;
