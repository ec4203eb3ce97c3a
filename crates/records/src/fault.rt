// What is wrong with a plan file.
ghost use Rattle.std.specs.Prelude.{◌≡◌, Some};
ghost use Rattle.records.specs.Faults.{plan_told, plan_sentence};
ghost use Rattle.records.specs.declared.fault.PlanFault.TheVariants.{Block};

use block::BlockFault;
use label::{Diagnostic, Fault, Layer};
use std::error::Error;
use std::fmt;

// The file is empty, not whole blocks or too long; a block is at fault; or a record is, which starts at that byte of
// the file: a label is unlawful, its first label is repeated, or its second label names no earlier station. The last
// is a file with no record or with too many.
#[derive(Clone, Copy, PartialEq, Eq, Debug)]
pub enum PlanFault {
    Size,
    Block(BlockFault),
    Unlawful(usize),
    Repeated(usize),
    Joined(usize),
    Count,
}

impl From<BlockFault> for PlanFault {
    ghost from_gives = { λ e r. r ≡ Block e };

    fn from(e: BlockFault) -> PlanFault {
        PlanFault::Block(e)
    }
}

impl fmt::Display for PlanFault {
    ghost output = { λ e. Some (plan_sentence e) };

    fn fmt<W: fmt::Write>(&self, f: &mut fmt::Formatter<W>) -> fmt::Result {
        match self {
            PlanFault::Size => f.write_str(
                "The file is not a plan file: it is empty, is not made of whole blocks of 512 bytes, or has more than 34 blocks",
            ),
            PlanFault::Block(fault) => write!(f, "{fault}"),
            PlanFault::Unlawful(byte) => write!(
                f,
                "The plan is wrong: a label in the record at byte {byte} is not 1 to 8 capital letters, digits or hyphens with blanks behind them"
            ),
            PlanFault::Repeated(byte) => write!(
                f,
                "The plan is wrong: the record at byte {byte} gives a station that the plan already has"
            ),
            PlanFault::Joined(byte) => write!(
                f,
                "The plan is wrong: the record at byte {byte} is joined to no earlier station, or it is the first record and is joined to one"
            ),
            PlanFault::Count => f.write_str(
                "The plan is wrong: it has no station, or more than 1,024 stations",
            ),
        }
    }
}

impl Error for PlanFault {}

impl Fault for PlanFault {
    ghost told = { plan_told };

    fn diagnostic(&self) -> Diagnostic {
        let (number, byte) = match *self {
            PlanFault::Block(fault) => return fault.diagnostic(),
            PlanFault::Size => (1, 0),
            PlanFault::Unlawful(byte) => (5, byte),
            PlanFault::Repeated(byte) => (6, byte),
            PlanFault::Joined(byte) => (7, byte),
            PlanFault::Count => (8, 0),
        };
        Diagnostic {
            number,
            layer: Layer::Plan,
            byte,
        }
    }
}
