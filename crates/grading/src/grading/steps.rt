// The work behind the calls of a grading.
ghost use Rattle.std.specs.Prelude.{◌≡◌, ℕ, ◌*◌, ◌≤◌, false, take, if◌then◌else◌, None, Option, slice_index_or};
ghost use Rattle.wire.specs.Frames.{carried, box_of};
ghost use Rattle.grading.specs.Gradings.{tabled, sure_marks, after, distrusted_after};

use super::Grading;
use super::ops::grade_sender;
use crate::stage::Stage;
use slot::Kind;
use std::array;
use wire::{Crew, Frame, Inbox, write_slot};

// A table of 128 bytes with a slot for each unit, which says what `value` gives for it.
fn table_of<K: Kind, F: Fn(usize) -> Option<K>>(units: usize, value: F) -> [u8; 128]
    requires few { units ≤ 16 }
    requires callable { F.IsAlwaysCallable value }
    ensures { (f : ℕ → Option K) → ((s : ℕ) (r : Option K) → F.post value s r → r ≡ f s) → result ≡ tabled K.coding f units }
{
    let width = K::WIDTH;
    let mut table = [0; 128];
    // While `chunks_exact_mut` lends the table, no invariant of a loop can say what stands in it.
    for s in 0..units {
        let start = width * s;
        write_slot(value(s), &mut table[start..start + width]);
    }
    table
}

// Which senders have grade 2 by the round-3 frames.
fn sure_marks<K: Kind>(crew: Crew, inbox: &Inbox) -> [bool; 16]
    ensures { result ≡ sure_marks K.coding crew.n crew.t (box_of inbox.now) }
{
    array::from_fn(|s| grade_sender::<K>(crew, inbox, s).is_sure())
}

impl<K: Kind> Grading<K> {
    // The slot's value, or nothing where the sender is distrusted.
    fn unless_distrusted(&self, s: usize, slot: Option<K>) -> Option<K>
        ensures { result ≡ (if slice_index_or self.now.distrusted s false then None else slot) }
    {
        match self.distrusted.get(s) {
            Some(true) => None,
            _ => slot,
        }
    }

    // The state after a round, apart from `step`: that one replaces the value behind a `&mut`, whose laws then are for the search alone.
    pub(super) fn next(&self, inbox: &Inbox) -> Grading<K>
        ensures { result ≡ after K.coding self.now (box_of inbox.now) }
    {
        let crew = self.crew;
        let n = crew.units();
        match self.stage {
            Stage::Sending => Grading {
                table: table_of(n, |s| self.unless_distrusted(s, inbox.slot(s, 1, 0))),
                stage: Stage::Relaying,
                ..*self
            },
            Stage::Relaying => {
                let quorum = n - crew.faulty();
                Grading {
                    table: table_of(
                        n,
                        |s| self.unless_distrusted(s, inbox.vote(n, s, quorum, None)),
                    ),
                    stage: Stage::Voting,
                    ..*self
                }
            }
            Stage::Voting => Grading {
                table: table_of(n, |s| grade_sender::<K>(crew, inbox, s).value()),
                sure: sure_marks::<K>(crew, inbox),
                stage: Stage::Graded,
                ..*self
            },
            Stage::Graded => *self,
        }
    }

    // The frame of the slots in the table.
    pub(super) fn table_frame(&self) -> Frame
        ensures { carried result ≡ take (K.coding.wide * self.now.crew.n) self.now.table }
    {
        Frame::new(&self.table[..K::WIDTH * self.crew.units()])
    }

    // Whom a unit distrusts after a grading.
    pub(super) fn next_distrusted(&self) -> [bool; 16]
        ensures { result ≡ distrusted_after K.coding self.now }
    {
        array::from_fn(|s| self.distrusted[s] || !self.grade(s).is_sure())
    }
}
