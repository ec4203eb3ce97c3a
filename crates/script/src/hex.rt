// Bytes as a script writes them: two lower-case hex digits a byte, and `-` for no bytes.
ghost use Rattle.std.specs.Prelude.{◌≡◌, ◌/◌, ◌%◌, ◌<◌, ◌⊎◌, IfOk, IfErr};
ghost use Rattle.script.specs.Hex.{digit_of, Writes, NotDigit, WritesNone};
ghost use Rattle.script.specs.declared.hex.HexFault.TheVariants.{NoDigit, Memory};

use std::alloc::{AllocFailed, Global};
use std::fmt;
use thiserror::Error;

// A digit is missing, a character is no digit, or there is no memory for the bytes.
#[derive(Clone, Copy, PartialEq, Eq, Debug, Error)]
pub enum HexFault {
    #[error("the hex has an odd number of digits")]
    HalfByte,
    #[error("the hex has a character that is not 0 to 9 or a to f")]
    NoDigit,
    #[error("there is no memory for the bytes")]
    Memory,
}

impl From<AllocFailed<u8>> for HexFault {
    ghost from_gives = { λ _ r. r ≡ Memory };

    fn from(_e: AllocFailed<u8>) -> HexFault {
        HexFault::Memory
    }
}

// The value of a hex digit; the library's `to_digit` would take capitals too.
fn digit(byte: u8) -> Result<u8, HexFault>
    ensures reads { IfOk result (λ d. (d < 16) × (digit_of d ≡ byte)) }
    ensures refuses { IfErr result (λ e. (e ≡ NoDigit) × NotDigit byte) }
{
    match byte {
        b'0'..=b'9' => Ok(byte - b'0'),
        b'a'..=b'f' => Ok(byte - b'a' + 10),
        _ => Err(HexFault::NoDigit),
    }
}

// The byte that two digits write.
fn pair(high: u8, low: u8) -> Result<u8, HexFault>
    ensures reads { IfOk result (λ b. (digit_of (b / 16) ≡ high) × (digit_of (b % 16) ≡ low)) }
    ensures refuses { IfErr result (λ e. (e ≡ NoDigit) × (NotDigit high ⊎ NotDigit low)) }
{
    let upper = digit(high)?;
    let lower = digit(low)?;
    Ok(upper * 16 + lower)
}

// The bytes that a text of hex digits gives.
#[tactic(auto, using(crate::proofs::Digits::whole, crate::proofs::Digits::odd_none))]
pub fn read_hex(heap: Global, text: &[u8]) -> Result<Vec<u8>, HexFault>
    ensures reads { IfOk result (λ v. Writes text.now v.items) }
    ensures refuses { IfErr result (λ e. (e ≡ Memory) ⊎ WritesNone text.now) }
{
    let mut bytes = Vec::new(heap);
    if text == b"-".as_slice() {
        return Ok(bytes);
    }
    if text.len() % 2 != 0 {
        return Err(HexFault::HalfByte);
    }
    for digits in text.chunks_exact(2) {
        bytes.push(pair(digits[0], digits[1])?)?;
    }
    Ok(bytes)
}

// Bytes to be shown as hex digits; `-` shows no bytes.
#[derive(Clone, Copy)]
pub struct Hex<'a>(pub &'a [u8]);

impl<'a> fmt::Display for Hex<'a> {
    fn fmt<W: fmt::Write>(&self, f: &mut fmt::Formatter<W>) -> fmt::Result {
        if self.0.is_empty() {
            return f.write_str("-");
        }
        for byte in self.0 {
            write!(f, "{byte:02x}")?;
        }
        Ok(())
    }
}
