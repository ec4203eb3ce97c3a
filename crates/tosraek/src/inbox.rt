// What came to a unit in a round.
use crate::outcome::NoAnswer;
use script::{LineFault, read_hex};
use std::alloc::Global;
use wire::{Frame, Inbox};

// The frames of the first units, in their order; from the others nothing came.
pub fn inbox_of(frames: &[Frame]) -> Inbox {
    let mut inbox = Inbox::new();
    for (sender, frame) in frames.iter().enumerate() {
        inbox.put(sender, frame.bytes());
    }
    inbox
}

// The frames that a script names, a word for each unit: bytes in hex, or `.` where nothing came.
pub fn read_inbox(heap: Global, units: usize, words: &str) -> Result<Inbox, NoAnswer> {
    let mut inbox = Inbox::new();
    let mut senders = 0..units;
    for word in words.split(' ') {
        if word.is_empty() {
            return Err(NoAnswer::Line(LineFault::EmptyWord));
        }
        let sender = senders.next().ok_or(LineFault::TooManyWords)?;
        if word != "." {
            let bytes = read_hex(heap, word.as_bytes())?;
            inbox.put(sender, bytes.as_slice());
        }
    }
    if !senders.is_empty() {
        return Err(NoAnswer::Line(LineFault::TooFewWords));
    }
    Ok(inbox)
}
