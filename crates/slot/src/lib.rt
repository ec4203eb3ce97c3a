// Slots of a frame. A slot holds a value or is missing; a kind of value says how wide its slot is, and how it is read
// and written. Nothing above this crate knows more of a kind.
#![tactic(auto)]

mod kind;
mod laying;
mod position;

pub use kind::Kind;
pub use laying::lay;
pub use position::Position;
