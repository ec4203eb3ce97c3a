// The calls of the halving line.
ghost use Rattle.std.specs.Prelude.{◌≡◌, ℕ, ◌≤◌, take};
ghost use Rattle.slot.specs.Positions.{position_near};
ghost use Rattle.wire.specs.Frames.{box_of};
ghost use Rattle.lines.specs.Halvings.{halving_model, halved, heard_positions};
ghost use Rattle.lines.specs.HalvingRuns.{is_inside, they_agree, is_over, is_counted, is_short, is_capped};

use super::Halving;
use line::Line;
use slot::Position;
use std::array;
use trim::{UnitList, halving_rounds};
use wire::{Crew, Frame, Inbox};

// The position in each sender's frame of one slot, at the start of an array, since no heap is used.
fn heard(inbox: &Inbox) -> [Option<Position>; 16]
    ensures { (n : ℕ) → n ≤ 16 → take n result ≡ heard_positions n (box_of inbox.now) }
{
    array::from_fn(|sender| inbox.slot(sender, 1, 0))
}

impl Halving {
    // The position after a round.
    fn next_position(&self, inbox: &Inbox) -> Position
        ensures { result ≡ position_near (halved self.now (box_of inbox.now)) }
    {
        let slots = heard(inbox);
        let list = UnitList::new(&slots[..self.crew.units()], self.span, self.crew.faulty());
        Position::nearest(list.halving_step())
    }
}

impl Line for Halving {
    ghost model = { halving_model };

    ghost inside = { is_inside };

    ghost agree = { they_agree };

    ghost over = { is_over };

    ghost counted = { is_counted };

    ghost short = { is_short };

    ghost capped = { is_capped };

    // Crew and span stand apart in `start` and `count`, as the trait `Line` gives them.
    fn start(crew: Crew, span: usize, position: usize) -> Halving {
        let span = Position::nearest(span);
        Halving {
            crew,
            span,
            own: Position::within(position, span),
            left: halving_rounds(span),
        }
    }

    fn count(_crew: Crew, span: usize) -> usize {
        halving_rounds(Position::nearest(span))
    }

    fn rounds(&self) -> usize {
        halving_rounds(self.span)
    }

    fn frame(&self) -> Frame {
        if self.left == 0 {
            Frame::empty()
        } else {
            Frame::single(self.own)
        }
    }

    fn step(&mut self, inbox: &Inbox) {
        if self.left > 0 {
            self.own = self.next_position(inbox);
            self.left -= 1;
        }
    }

    fn result(&self) -> usize {
        self.own.number()
    }
}
