// What is wrong with a block.
ghost use Rattle.std.specs.Prelude.{Some};
ghost use Rattle.block.specs.Faults.{block_told, block_sentence};

use label::{Diagnostic, Fault, Layer};
use std::error::Error;
use std::fmt;

// The check differs from the bytes; the place, the count or the mark of the final block is wrong; or a byte
// after the last record is not 0.
#[derive(Clone, Copy, PartialEq, Eq, Debug)]
pub enum BlockCause {
    Check,
    Header,
    Padding,
}

// A cause, and the byte of the file where the block starts.
#[derive(Clone, Copy, PartialEq, Eq, Debug)]
pub struct BlockFault {
    pub cause: BlockCause,
    pub byte: usize,
}

impl fmt::Display for BlockFault {
    ghost output = { λ e. Some (block_sentence e.cause e.byte) };

    fn fmt<W: fmt::Write>(&self, f: &mut fmt::Formatter<W>) -> fmt::Result {
        let byte = self.byte;
        match self.cause {
            BlockCause::Check => write!(
                f,
                "The file is damaged: the check of the block at byte {byte} does not fit its bytes"
            ),
            BlockCause::Header => write!(
                f,
                "The file is damaged: the block at byte {byte} has a wrong place, count of records or final mark"
            ),
            BlockCause::Padding => write!(
                f,
                "The file is damaged: the block at byte {byte} has a byte behind its records that is not 0"
            ),
        }
    }
}

impl Error for BlockFault {}

impl Fault for BlockFault {
    ghost told = { block_told };

    fn diagnostic(&self) -> Diagnostic {
        let number = match self.cause {
            BlockCause::Check => 2,
            BlockCause::Header => 3,
            BlockCause::Padding => 4,
        };
        Diagnostic {
            number,
            layer: Layer::Block,
            byte: self.byte,
        }
    }
}
