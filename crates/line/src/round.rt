// A round of a unit that follows.
ghost use Rattle.std.specs.Prelude.{◌≡◌, Some, slice_set};
ghost use Rattle.wire.specs.Frames.{box_of};
ghost use Rattle.line.specs.Models.{Agreement};

use crate::Line;
use wire::Inbox;

// Ends a round of unit `own` with what came from the others: its own frame is taken at its place, whatever stands there.
#[tactic(auto, using(crate::proofs::Rounds::framed_frame))]
pub fn follow<L: Line>(line: &mut L, own: usize, inbox: &Inbox)
    ensures state { line.new ≡ L.Line.model.after line.old (slice_set (box_of inbox.now) own (Some (L.Line.model.frame line.old))) }
    ensures agreement { Agreement L.Line.model }
{
    let mut taken = *inbox;
    taken.put(own, line.frame().bytes());
    line.step(&taken);
}
