// A plan file of 1 to 34 blocks, read into its records: the stations' labels, and for each the earlier record whose
// station it is joined to.
#![tactic(auto)]

mod fault;
mod file;
mod list;
mod record;

pub use fault::PlanFault;
pub use file::read;
pub use list::Records;
pub use record::Record;
