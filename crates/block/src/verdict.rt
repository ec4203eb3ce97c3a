// Whether a block is good, and how many records it has. A block is a slice of 512 bytes and no array, since it is a part
// of a file, as `chunks_exact` gives it.
ghost use Rattle.std.specs.Prelude.{◌≡◌, ◌==◌, ◌+◌, ◌<◌, ◌≤◌, length};
ghost use Rattle.std.specs.List.{list_all};
ghost use Rattle.block.specs.Blocks.{check_of, check_sum, word, blank_from, block_verdict};

use crate::fault::{BlockCause, BlockFault};

// The check of the bytes before it, at most 510: the sum of each byte times its place, counted from 1, modulo 65,536.
#[tactic(auto, unfolding(crate::specs::Blocks::check_of))]
pub fn check_sum(bytes: &[u8]) -> u16
    requires { length bytes.now ≤ 510 }
    ensures { result ≡ check_of bytes.now }
{
    // A loop: in a chain the closure would have to know a bound of each place. A place is below 510 and the rest below 65,536, so their casts lose nothing.
    let mut sum = 0u32;
    for (k, byte) in bytes.iter().enumerate() {
        sum += (k as u32 + 1) * u32::from(*byte);
    }
    (sum % 65536) as u16
}

// Two bytes as a number, high byte first.
fn word_at(block: &[u8], at: usize) -> u16
    requires { at + 1 < length block.now }
    ensures { result ≡ word block.now at }
{
    u16::from_be_bytes([block[at], block[at + 1]])
}

// Whether the last two bytes are the check of those before them.
#[tactic(auto, using(crate::proofs::Steps::check_before))]
fn is_checked(block: &[u8]) -> bool
    requires { length block.now ≡ 512 }
    ensures { result ≡ (check_sum block.now == word block.now 510) }
{
    check_sum(&block[0..510]) == word_at(block, 510)
}

// Whether all bytes are 0.
fn is_blank(bytes: &[u8]) -> bool
    ensures { result ≡ list_all (λ b. b == 0) bytes.now }
{
    bytes.iter().all(|byte| *byte == 0)
}

// Whether all bytes from `start` up to the check are 0.
#[tactic(auto, using(crate::proofs::Steps::blank_is))]
fn blank_after(block: &[u8], start: usize) -> bool
    requires { (length block.now ≡ 512) × (start ≤ 510) }
    ensures { result ≡ blank_from block.now start }
{
    is_blank(&block[start..510])
}

// How many records the block has, or its first fault. Its place is `place`, `last` says whether it is the final
// one, and `byte` is the byte of the file where it starts.
pub fn check_block(block: &[u8], place: u32, last: bool, byte: usize) -> Result<usize, BlockFault>
    requires { length block.now ≡ 512 }
    ensures { result ≡ block_verdict block.now place last byte }
{
    if !is_checked(block) {
        return Err(BlockFault {
            cause: BlockCause::Check,
            byte,
        });
    }
    let count = usize::from(block[2]);
    if u32::from(word_at(block, 0)) != place || count > 31 || block[3] != u8::from(last) {
        return Err(BlockFault {
            cause: BlockCause::Header,
            byte,
        });
    }
    if !blank_after(block, 4 + 16 * count) {
        return Err(BlockFault {
            cause: BlockCause::Padding,
            byte,
        });
    }
    Ok(count)
}
