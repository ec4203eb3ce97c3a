// Counting the frames that carry a value, and the value that enough of them carry.
ghost use Rattle.std.specs.Prelude.{◌≡◌};
ghost use Rattle.wire.specs.Frames.{sent, box_of};
ghost use Rattle.wire.specs.Slots.{slot_from, column, holds, count, vote};
ghost use Rattle.wire.specs.Votes.{Voted};

use super::Inbox;
use crate::frame::Frame;
use slot::Kind;

// The value in slot `s` of a frame of so many slots; missing where nothing came.
pub(super) fn slot_in<K: Kind>(frame: &Option<Frame>, slots: usize, s: usize) -> Option<K>
    ensures { result ≡ slot_from K.coding slots s (sent frame.now) }
{
    frame.as_ref()?.slot(slots, s)
}

// Whether a slot holds the value.
fn is_value<K: Kind>(slot: Option<K>, value: K) -> bool
    ensures { result ≡ holds K.coding value slot }
{
    slot == Some(value)
}

impl Inbox {
    // How many of the frames of the first `units` senders, of so many slots each, carry the value in slot `s`.
    pub fn tally<K: Kind>(&self, units: usize, s: usize, value: K) -> usize
        ensures { result ≡ count K.coding value (column K.coding units s (box_of self.now)) }
    {
        // Counts are a `for` loop over the senders' frames, the form that the project sets for them.
        let mut count = 0;
        for frame in &self.frames[..units.min(16)] {
            if is_value(slot_in(frame, units, s), value) {
                count += 1;
            }
        }
        count
    }

    // The value, other than the one left out, that at least `quorum` of the frames of the first `units` senders, of so
    // many slots each, carry in slot `s`; the first sender's, where there are several.
    pub fn vote<K: Kind>(
        &self,
        units: usize,
        s: usize,
        quorum: usize,
        except: Option<K>,
    ) -> Option<K>
        ensures value { result ≡ vote K.coding quorum except (column K.coding units s (box_of self.now)) }
        ensures counted { Voted K.coding quorum except (column K.coding units s (box_of self.now)) result }
    {
        // With `filter_map` and `find` the proof does not get from the chain to the first value that passes.
        for frame in &self.frames[..units.min(16)] {
            if let Some(value) = slot_in(frame, units, s) {
                if !is_value(except, value) && self.tally(units, s, value) >= quorum {
                    return Some(value);
                }
            }
        }
        None
    }
}
