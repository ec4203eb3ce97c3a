// What the protocols share: who takes part, the frames made of slots that go over the wire in a round, and the table of the
// frames that came, with counting and voting over it, one text for every kind of value.
#![tactic(auto)]

mod crew;
mod fault;
mod frame;
mod inbox;

pub use crew::Crew;
pub use fault::CrewFault;
pub use frame::{Frame, write_slot};
pub use inbox::Inbox;
