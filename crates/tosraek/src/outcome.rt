// Why a command has no plain answer, as the script shows it.
use label::{Fault, TextFault};
use records::PlanFault;
use script::{HexFault, LineFault};
use std::alloc::AllocError;
use thiserror::Error;
use wire::CrewFault;

// A text is no label, or its label is no station of the plan; the library refuses the file or the crew; the line is no
// command; its bytes are no hex; there is no plan or line of its name; or there is no memory.
#[derive(Clone, Copy, Debug, Error)]
pub enum NoAnswer {
    #[error("refusal {}", .0.diagnostic().number)]
    Label(#[from] TextFault),
    // No library fault has the number 13: it is the script's answer for a station that the plan lacks.
    #[error("refusal 13")]
    NoStation,
    #[error("{}", .0.diagnostic())]
    Plan(#[from] PlanFault),
    #[error("{}", .0.diagnostic())]
    Crew(#[from] CrewFault),
    #[error("error: {0}")]
    Line(#[from] LineFault),
    #[error("error: {0}")]
    Hex(HexFault),
    #[error("error: there is no plan of this name")]
    UnknownPlan,
    #[error("error: there is no line of this name")]
    UnknownUnit,
    #[error("error: there is no memory")]
    Memory(#[from(alloc)] AllocError),
}

impl From<HexFault> for NoAnswer {
    fn from(fault: HexFault) -> NoAnswer {
        match fault {
            HexFault::Memory => NoAnswer::Memory(AllocError),
            HexFault::HalfByte | HexFault::NoDigit => NoAnswer::Hex(fault),
        }
    }
}
