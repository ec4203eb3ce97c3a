// Station labels: eight bytes, 1 to 8 sign bytes and then blanks, ordered byte by byte; what typed text gives;
// and what every fault of the library tells.
#![tactic(auto)]

mod fault;
mod label;
mod scan;

pub use fault::{Diagnostic, Fault, Layer, TextFault};
pub use label::Label;
