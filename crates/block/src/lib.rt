// One block of a plan file: 512 bytes, with up to 31 records between its header and its check.
#![tactic(auto)]

mod fault;
mod verdict;

pub use fault::{BlockCause, BlockFault};
pub use verdict::{check_block, check_sum};
