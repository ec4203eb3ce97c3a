// Filling the table, and reading slots in it.
ghost use Rattle.std.specs.Prelude.{◌≡◌, replicate, Some, None, slice_set};
ghost use Rattle.wire.specs.Boxes.{from};
ghost use Rattle.wire.specs.Frames.{framed, box_of};
ghost use Rattle.wire.specs.Slots.{slot_from};

use super::Inbox;
use super::votes::slot_in;
use crate::frame::Frame;
use slot::Kind;

impl Inbox {
    // A table in which nothing came.
    pub fn new() -> Inbox
        ensures { box_of result ≡ replicate 16 None }
    {
        Inbox { frames: [None; 16] }
    }

    // Puts a frame of these bytes at a sender's place; there is no place past the sixteenth.
    #[tactic(auto, using(crate::proofs::Frames::put_place, crate::proofs::Frames::put_past))]
    pub fn put(&mut self, sender: usize, bytes: &[u8])
        ensures { box_of self.new ≡ slice_set (box_of self.old) sender (Some (framed bytes.now)) }
    {
        if sender < self.frames.len() {
            self.frames[sender] = Some(Frame::new(bytes));
        }
    }

    // The value in slot `s` of a sender's frame of so many slots; missing where nothing came.
    pub fn slot<K: Kind>(&self, sender: usize, slots: usize, s: usize) -> Option<K>
        ensures { result ≡ slot_from K.coding slots s (from (box_of self.now) sender) }
    {
        slot_in(self.frames.get(sender)?, slots, s)
    }
}
