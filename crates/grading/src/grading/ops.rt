// The calls of a grading.
ghost use Rattle.std.specs.Prelude.{◌≡◌};
ghost use Rattle.wire.specs.Frames.{carried, box_of};
ghost use Rattle.wire.specs.Slots.{column};
ghost use Rattle.grading.specs.Exchanges.{GradedBroadcast};
ghost use Rattle.grading.specs.Grades.{GradedBy};
ghost use Rattle.grading.specs.Gradings.{grade_by, begun, frame_of, after, over, grade_at, distrusted_after, ByRounds};

use super::Grading;
use crate::grade::Grade;
use crate::stage::Stage;
use slot::Kind;
use wire::{Crew, Frame, Inbox};

// The grade of sender `s` by the round-3 frames that came.
pub fn grade_sender<K: Kind>(crew: Crew, inbox: &Inbox, s: usize) -> Grade<K>
    ensures value { result ≡ grade_by K.coding crew.n crew.t (box_of inbox.now) s }
    ensures counted { GradedBy K.coding crew.n crew.t (column K.coding crew.n s (box_of inbox.now)) result }
{
    let n = crew.units();
    let t = crew.faulty();
    if let Some(value) = inbox.vote::<K>(n, s, n - t, None) {
        return Grade::Two(value);
    }
    match inbox.vote::<K>(n, s, t + 1, None) {
        Some(value) => match inbox.vote::<K>(n, s, t + 1, Some(value)) {
            Some(_) => Grade::Zero,
            None => Grade::One(value),
        },
        None => Grade::Zero,
    }
}

impl<K: Kind> Grading<K> {
    // A grading before round 1: the own value, and which senders are distrusted.
    pub fn start(crew: Crew, own: K, distrusted: [bool; 16]) -> Grading<K>
        ensures { result ≡ begun crew own distrusted }
    {
        Grading {
            crew,
            own,
            distrusted,
            stage: Stage::Sending,
            table: [0; 128],
            sure: [false; 16],
        }
    }

    pub fn crew(&self) -> Crew
        ensures { result ≡ self.now.crew }
    {
        self.crew
    }

    // The own value.
    pub fn own(&self) -> K
        ensures { result ≡ self.now.own }
    {
        self.own
    }

    // Whether all three rounds have ended.
    pub fn is_over(&self) -> bool
        ensures { result ≡ over self.now.stage }
    {
        matches!(self.stage, Stage::Graded)
    }

    // The frame of the next round; of no bytes past the third.
    pub fn frame(&self) -> Frame
        ensures bytes { carried result ≡ frame_of K.coding self.now }
        ensures rounds { ByRounds K.coding }
        ensures broadcast { GradedBroadcast K.coding }
    {
        match self.stage {
            Stage::Sending => Frame::single(self.own),
            Stage::Relaying | Stage::Voting => self.table_frame(),
            Stage::Graded => Frame::empty(),
        }
    }

    // Ends a round with the frames that came, the own one among them; past the third nothing changes.
    pub fn step(&mut self, inbox: &Inbox)
        ensures state { self.new ≡ after K.coding self.old (box_of inbox.now) }
        ensures rounds { ByRounds K.coding }
        ensures broadcast { GradedBroadcast K.coding }
    {
        *self = self.next(inbox);
    }

    // The grade of sender `s`; grade 0 until the third round has ended, and past the last sender.
    pub fn grade(&self, s: usize) -> Grade<K>
        ensures value { result ≡ grade_at K.coding self.now s }
        ensures rounds { ByRounds K.coding }
        ensures broadcast { GradedBroadcast K.coding }
    {
        if !self.is_over() {
            return Grade::Zero;
        }
        match self.table_frame().slot::<K>(self.crew.units(), s) {
            Some(value) if self.sure[s] => Grade::Two(value),
            Some(value) => Grade::One(value),
            None => Grade::Zero,
        }
    }

    // Another grading with this own value, which distrusts whom this one distrusts and each sender of grade 0 or 1.
    pub fn again(&self, own: K) -> Grading<K>
        ensures { result ≡ begun self.now.crew own (distrusted_after K.coding self.now) }
    {
        Grading::start(self.crew, own, self.next_distrusted())
    }
}
