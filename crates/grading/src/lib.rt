// Graded broadcast: after three rounds every unit has for every sender a value and a grade 0, 1 or 2, whatever the
// faulty units send to each receiver. One text for every kind of value.
#![tactic(auto)]

mod grade;
mod grading;
mod stage;

pub use grade::Grade;
pub use grading::{Grading, grade_sender};
