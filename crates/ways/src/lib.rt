// Stations, ways and the walk of a plan, on its list of stations: what every call of a plan asks.
#![tactic(auto)]

mod asks;
mod cave;
mod climbs;
mod courses;
mod finds;
mod labels;
mod places;
mod walks;

pub use cave::Cave;
