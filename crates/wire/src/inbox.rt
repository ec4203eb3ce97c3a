// The table of one round: for each of up to 16 senders a frame, or nothing.
ghost use Rattle.std.specs.Prelude.{◌≡◌, length};

use crate::frame::Frame;

mod ops;
mod votes;

#[derive(Clone, Copy)]
pub struct Inbox {
    frames: [Option<Frame>; 16],
    ghost full: { length frames ≡ 16 },
}
