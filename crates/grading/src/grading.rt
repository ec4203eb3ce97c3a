// Three rounds of one unit: it sends its own value, then what came from each sender, then the value that enough of
// those frames carry for each sender; and then it has a grade for each sender.
use crate::stage::Stage;
use wire::Crew;

mod ops;
mod steps;

pub use ops::grade_sender;

// The slots of the next frame stand in the table as bytes, one behind the other, and zeros behind them; once all three
// rounds have ended, the values of grades 1 and 2 stand there, and `sure` says which have grade 2. There is no heap, and one
// plain table of bytes serves every kind of value, so that the grades are no array of values.
#[derive(Clone, Copy)]
pub struct Grading<K> {
    crew: Crew,
    own: K,
    distrusted: [bool; 16],
    stage: Stage,
    table: [u8; 128],
    sure: [bool; 16],
}
