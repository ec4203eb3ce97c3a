// Making a frame, and its slots.
ghost use Rattle.std.specs.Prelude.{◌≡◌, []};
ghost use Rattle.slot.specs.Slots.{laid};
ghost use Rattle.wire.specs.Frames.{carried, framed};
ghost use Rattle.wire.specs.Slots.{slot_of, slot_bytes};

use super::Frame;
use slot::{Kind, lay};

impl Frame {
    // The frame of these bytes; more than 128 count as a frame of no bytes.
    #[tactic(auto, using(crate::proofs::Frames::framed_front, crate::proofs::Frames::framed_long))]
    pub fn new(bytes: &[u8]) -> Frame
        ensures { carried result ≡ framed bytes.now }
    {
        if bytes.len() > 128 {
            return Frame::empty();
        }
        let mut kept = [0; 128];
        lay(bytes, &mut kept);
        Frame {
            bytes: kept,
            len: bytes.len(),
        }
    }

    // The frame of no bytes.
    pub fn empty() -> Frame
        ensures { carried result ≡ [] }
    {
        Frame {
            bytes: [0; 128],
            len: 0,
        }
    }

    // The frame of one slot with this value.
    #[tactic(auto, using(crate::proofs::Frames::written_front))]
    pub fn single<K: Kind>(value: K) -> Frame
        ensures { carried result ≡ K.coding.writes value }
    {
        let mut bytes = [0; 128];
        value.write(&mut bytes);
        Frame {
            bytes,
            len: K::WIDTH,
        }
    }

    // Its bytes.
    pub fn bytes(&self) -> &[u8]
        ensures { result.now ≡ carried self.now }
    {
        &self.bytes[..self.len]
    }

    // The value in slot `s` of a frame of so many slots; missing where there is no such slot, or the frame has
    // another length. The two numbers come from different places, so no struct holds them.
    #[tactic(auto, using(crate::proofs::Frames::slot_read))]
    pub fn slot<K: Kind>(&self, slots: usize, s: usize) -> Option<K>
        ensures { result ≡ slot_of K.coding slots s (carried self.now) }
    {
        let width = K::WIDTH;
        if s >= slots || width.checked_mul(slots) != Some(self.len) {
            return None;
        }
        let start = width * s;
        K::read(&self.bytes[start..start + width])
    }
}

// Writes a slot at the start, where there is room for it, and keeps the bytes behind it.
pub fn write_slot<K: Kind>(value: Option<K>, out: &mut [u8])
    ensures { out.new ≡ laid (slot_bytes K.coding value) out.old }
{
    match value {
        Some(v) => v.write(out),
        None => K::write_missing(out),
    }
}
