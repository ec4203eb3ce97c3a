// The calls of the graded line.
ghost use Rattle.std.specs.Prelude.{◌≡◌, take};
ghost use Rattle.slot.specs.Positions.{number_of};
ghost use Rattle.trim.specs.Iterations.{graded_iterations};
ghost use Rattle.line.specs.Models.{span_of};
ghost use Rattle.lines.specs.Converges.{GradedConverges};
ghost use Rattle.lines.specs.Gradeds.{graded_positions, next_iteration, thrice, graded_model};
ghost use Rattle.lines.specs.GradedLaws.{is_inside, is_over, is_counted, is_short, is_capped};
ghost use Rattle.lines.specs.GradedRuns.{they_agree};

use super::Graded;
use grading::Grading;
use line::Line;
use slot::Position;
use std::array;
use trim::{UnitList, graded_iterations};
use wire::{Crew, Frame, Inbox};

// What a unit has of each sender after a grading, the value of grade 1 or 2, or nothing: at the start of an array, since
// no heap is used.
fn graded_positions(grading: &Grading<Position>) -> [Option<Position>; 16]
    ensures { take grading.now.crew.n result ≡ graded_positions grading.now }
{
    array::from_fn(|sender| grading.grade(sender).value())
}

// How many rounds a line has in all.
#[tactic(auto, using(crate::specs::GradedLaws::thrice_is))]
fn rounds_for(crew: Crew, span: Position) -> usize
    ensures { result ≡ thrice (graded_iterations crew.n crew.t (number_of span)) }
{
    3 * graded_iterations(crew.units(), crew.faulty(), span)
}

impl Graded {
    // The next iteration, once a grading is over.
    fn next_iteration(&self) -> Grading<Position>
        ensures { result ≡ next_iteration self.now.span self.now.grading }
    {
        let crew = self.grading.crew();
        let slots = graded_positions(&self.grading);
        let list = UnitList::new(&slots[..crew.units()], self.span, crew.faulty());
        self.grading.again(Position::nearest(list.graded_step()))
    }

    // How many iterations a line has that is started with this crew and span, which stand apart as in `Line::start`.
    #[tactic(auto, using(crate::specs::GradedRuns::converges))]
    pub fn iterations(crew: Crew, span: usize) -> usize
        ensures value { result ≡ graded_iterations crew.n crew.t (span_of span) }
        ensures converges { GradedConverges }
    {
        graded_iterations(crew.units(), crew.faulty(), Position::nearest(span))
    }
}

impl Line for Graded {
    ghost model = { graded_model };

    ghost inside = { is_inside };

    ghost agree = { they_agree };

    ghost over = { is_over };

    ghost counted = { is_counted };

    ghost short = { is_short };

    ghost capped = { is_capped };

    // Crew and span stand apart in `start` and `count`, as the trait `Line` gives them.
    fn start(crew: Crew, span: usize, position: usize) -> Graded {
        let span = Position::nearest(span);
        let own = Position::within(position, span);
        Graded {
            span,
            grading: Grading::start(crew, own, [false; 16]),
            left: rounds_for(crew, span),
        }
    }

    fn count(crew: Crew, span: usize) -> usize {
        rounds_for(crew, Position::nearest(span))
    }

    fn rounds(&self) -> usize {
        rounds_for(self.grading.crew(), self.span)
    }

    fn frame(&self) -> Frame {
        if self.left == 0 {
            Frame::empty()
        } else {
            self.grading.frame()
        }
    }

    fn step(&mut self, inbox: &Inbox) {
        if self.left > 0 {
            self.grading.step(inbox);
            if self.grading.is_over() {
                self.grading = self.next_iteration();
            }
            self.left -= 1;
        }
    }

    fn result(&self) -> usize {
        self.grading.own().number()
    }
}
