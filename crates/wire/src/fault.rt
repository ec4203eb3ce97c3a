// What is wrong with the numbers of a crew.
ghost use Rattle.std.specs.Prelude.{Some};
ghost use Rattle.wire.specs.Faults.{crew_told, crew_sentence};

use label::{Diagnostic, Fault, Layer};
use std::error::Error;
use std::fmt;

// There are not 1 to 16 units; more than a third of them may be faulty, so that 3t + 1 is above n; or the own number is
// not below n.
#[derive(Clone, Copy, PartialEq, Eq, Debug)]
pub enum CrewFault {
    Units,
    Faulty,
    Own,
}

impl fmt::Display for CrewFault {
    ghost output = { λ e. Some (crew_sentence e) };

    fn fmt<W: fmt::Write>(&self, f: &mut fmt::Formatter<W>) -> fmt::Result {
        f.write_str(match self {
            CrewFault::Units => "There is no such crew: it has 1 to 16 units",
            CrewFault::Faulty => {
                "There is no such crew: with t faulty units it has at least 3t + 1 units"
            }
            CrewFault::Own => "There is no such crew: the own number is below the count of units",
        })
    }
}

impl Error for CrewFault {}

impl Fault for CrewFault {
    ghost told = { crew_told };

    fn diagnostic(&self) -> Diagnostic {
        let number = match self {
            CrewFault::Units => 9,
            CrewFault::Faulty => 10,
            CrewFault::Own => 11,
        };
        Diagnostic {
            number,
            layer: Layer::Callout,
            byte: 0,
        }
    }
}
