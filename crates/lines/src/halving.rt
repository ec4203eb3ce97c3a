// The halving line. Each round's frame is the own position; the new position is half the sum of the least and the greatest
// that are left of the n positions without the t lowest and the t highest.
use slot::Position;
use wire::Crew;

mod ops;

#[derive(Clone, Copy)]
pub struct Halving {
    crew: Crew,
    span: Position,
    own: Position,
    left: usize,
}
