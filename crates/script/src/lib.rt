// The text work of the program: bytes in hex, the commands of a script, and a refusal as a sentence.
#![tactic(auto)]

mod command;
mod hex;
mod sentence;

pub use command::{
    Agreement, Command, LineFault, LineKind, LineWords, Play, ValueKind, parse, parse_play,
};
pub use hex::{Hex, HexFault, read_hex};
pub use sentence::Sentence;
