// The graded line. One iteration is one grading of positions, three rounds; the new position is the mean of what is left of
// the graded positions without the t lowest and the t highest, and each sender of grade 0 or 1 is distrusted from then on.
use grading::Grading;
use slot::Position;

mod ops;

#[derive(Clone, Copy)]
pub struct Graded {
    span: Position,
    grading: Grading<Position>,
    left: usize,
}
