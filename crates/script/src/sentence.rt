// A refusal as a sentence for a person.
use label::Fault;
use std::fmt;

// The sentence that says what is wrong, with the fault's number, layer and byte.
#[derive(Clone, Copy)]
pub struct Sentence<F>(pub F);

impl<F: Fault> fmt::Display for Sentence<F> {
    fn fmt<W: fmt::Write>(&self, f: &mut fmt::Formatter<W>) -> fmt::Result {
        let told = self.0.diagnostic();
        write!(
            f,
            "{} (fault {}, layer {}, byte {}).",
            self.0, told.number, told.layer, told.byte
        )
    }
}
