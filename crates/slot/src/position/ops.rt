// Making a position, and its number.
ghost use Rattle.std.specs.Prelude.{◌≡◌};
ghost use Rattle.slot.specs.Positions.{position_at, position_near, position_within, number_of};

use super::Position;

impl Position {
    // The position with this number, if there is one.
    pub fn new(number: usize) -> Option<Position>
        ensures { result ≡ position_at number }
    {
        if (1..=2047).contains(&number) {
            Some(Position {
                value: number as u16,
            })
        } else {
            None
        }
    }

    // The position whose number is nearest: 1 for 0, and 2,047 for all above it.
    #[tactic(auto, using(crate::specs::PositionsLemmas::same_position))]
    pub fn nearest(number: usize) -> Position
        ensures { result ≡ position_near number }
    {
        Position {
            value: number.clamp(1, 2047) as u16,
        }
    }

    // The position in 1 to the span whose number is nearest: 1 for 0, and the span for all above it.
    pub fn within(number: usize, span: Position) -> Position
        ensures { result ≡ position_within span number }
    {
        Position::nearest(number.clamp(1, span.number()))
    }

    // Its number.
    pub fn number(self) -> usize
        ensures { result ≡ number_of self }
    {
        usize::from(self.value)
    }
}
