// A unit of a script that follows one of the two lines.
use either::{Either, Left, Right, for_both};
use line::{Line, follow};
use lines::{Graded, Halving};
use script::{LineKind, LineWords};
use wire::{Crew, CrewFault, Frame, Inbox};

// The units of a script lie in one map, so each holds either of the two kinds of line.
#[derive(Clone, Copy)]
pub struct LineUnit {
    crew: Crew,
    line: Either<Halving, Graded>,
}

impl LineUnit {
    pub fn start(words: LineWords) -> Result<LineUnit, CrewFault> {
        let agreement = words.agreement;
        let crew = Crew::new(agreement.units, agreement.faulty, words.own)?;
        let line = match agreement.kind {
            LineKind::Halving => Left(Halving::start(crew, agreement.span, words.position)),
            LineKind::Graded => Right(Graded::start(crew, agreement.span, words.position)),
        };
        Ok(LineUnit { crew, line })
    }

    pub fn units(&self) -> usize {
        self.crew.units()
    }

    pub fn rounds(&self) -> usize {
        for_both!(&self.line, line => line.rounds())
    }

    pub fn frame(&self) -> Frame {
        for_both!(&self.line, line => line.frame())
    }

    // Ends a round with what came from the others.
    pub fn step(&mut self, inbox: &Inbox) {
        let own = self.crew.own();
        for_both!(&mut self.line, line => follow(line, own, inbox))
    }

    pub fn result(&self) -> usize {
        for_both!(&self.line, line => line.result())
    }
}
