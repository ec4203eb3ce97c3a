// Line agreements: units that hold positions on one line come within one place of each other, between the least and the
// greatest honest position, whatever the faulty units send. Who implements the trait and proves its laws has a line.
#![tactic(auto)]

ghost use Rattle.std.specs.Prelude.{◌≡◌};
ghost use Rattle.wire.specs.Frames.{carried, box_of};
ghost use Rattle.line.specs.Models.{LineModel, Inside, Agree, Over, Counted, Short, Capped};

use wire::{Crew, Frame, Inbox};

mod round;

pub use round::follow;

pub trait Line: Sized + Drop {
    // What a line means, as functions on its state.
    ghost model: { LineModel Self };

    // A line before its first round. A span outside 1 to 2,047, then a position outside 1 to the span, is cut to the
    // nearer end.
    fn start(crew: Crew, span: usize, position: usize) -> Self
        ensures { result ≡ model.begun crew span position };

    // How many rounds a line has that is started with this crew and span.
    fn count(crew: Crew, span: usize) -> usize
        ensures { result ≡ model.count crew.n crew.t span };

    // How many rounds this line has in all.
    fn rounds(&self) -> usize
        ensures { result ≡ model.rounds self.now };

    // The frame of the next round, the same for all receivers; of no bytes past the last round.
    fn frame(&self) -> Frame
        ensures { carried result ≡ model.frame self.now };

    // Ends a round with the frames that came, the own one among them; past the last round nothing changes.
    fn step(&mut self, inbox: &Inbox)
        ensures { self.new ≡ model.after self.old (box_of inbox.now) };

    // The position that the line gives.
    fn result(&self) -> usize
        ensures { result ≡ model.result self.now };

    // The result is in 1 to the span, whatever came.
    ghost inside: { Inside model };

    // The results of those who follow differ by at most 1 and lie between the least and the greatest of their positions.
    ghost agree: { Agree model };

    // Past the last round no frame is sent and nothing changes.
    ghost over: { Over model };

    // The count of rounds that is known from a crew and a span is that of the started line.
    ghost counted: { Counted model };

    // A frame has at most 128 bytes, and there are at most 255 rounds.
    ghost short: { Short model };

    ghost capped: { Capped model };
}
