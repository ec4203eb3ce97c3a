// The blocks of a plan file, and the records in them.
ghost use Rattle.std.specs.Prelude.{◌≡◌, ℕ, ◌+◌, ◌*◌, ◌/◌, ◌<◌, ◌≤◌, [], length, IfOk};
ghost use Rattle.records.specs.Accepts.{ReadWhenGood, Sound};
ghost use Rattle.records.specs.Files.{records_from, told, places_of, starts, count_at, sized, read_file, Judged};

use crate::fault::PlanFault;
use crate::list::Records;
use crate::record::read_record;
use block::check_block;

// How many blocks a file has, where its length is that of 1 to 34 whole blocks.
fn count_blocks(file: &[u8]) -> Option<usize>
    ensures { result ≡ sized (length file.now) }
{
    let bytes = file.len();
    if bytes == 0 || bytes % 512 != 0 || bytes / 512 > 34 {
        None
    } else {
        Some(bytes / 512)
    }
}

// Judges all blocks, and says how many records they have.
fn judge_blocks(file: &[u8], blocks: usize) -> Result<usize, PlanFault>
    requires whole { length file.now ≡ 512 * blocks }
    requires few { blocks ≤ 34 }
    ensures { Judged file.now blocks result }
{
    // A block's place is below 34, so its cast loses nothing.
    let mut total = 0;
    for (b, block) in file.chunks_exact(512).enumerate() {
        total += check_block(block, b as u32, b + 1 == blocks, 512 * b)?;
    }
    Ok(total)
}

// Reads that many records from byte `start` of the file on, after those that are read.
fn read_run(file: &[u8], start: usize, count: usize, records: &mut Records) -> Result<(), PlanFault>
    requires within { start + 16 * count ≤ length file.now }
    requires few { length records.old.labels + count ≤ 1024 }
    ensures { told result records.new ≡ records_from file.now (places_of start count) records.old.labels records.old.joins }
{
    for (r, bytes) in file[start..start + 16 * count].chunks_exact(16).enumerate() {
        let record = read_record(bytes, start + 16 * r, records.as_slice())?;
        records.push(record);
    }
    Ok(())
}

// Reads the records of blocks that are judged good.
fn read_records(file: &[u8], blocks: usize) -> Result<Records, PlanFault>
    requires whole { length file.now ≡ 512 * blocks }
    requires small { (b : ℕ) → b < blocks → count_at file.now b ≤ 31 }
    requires few { length (starts file.now 0 blocks) ≤ 1024 }
    ensures { result ≡ records_from file.now (starts file.now 0 blocks) [] [] }
{
    let mut records = Records::new();
    for (b, block) in file.chunks_exact(512).enumerate() {
        read_run(file, 512 * b + 4, usize::from(block[2]), &mut records)?;
    }
    Ok(records)
}

// Reads a file's records, in the file's order, or tells the file's first fault. All blocks are judged before any record.
#[tactic(auto, using(crate::proofs::Accepting::read_when_good))]
pub fn read(file: &[u8]) -> Result<Records, PlanFault>
    ensures value { result ≡ read_file file.now }
    ensures sound { IfOk result Sound }
    ensures accepted { ReadWhenGood }
{
    let blocks = count_blocks(file).ok_or(PlanFault::Size)?;
    let total = judge_blocks(file, blocks)?;
    if total == 0 || total > 1024 {
        return Err(PlanFault::Count);
    }
    read_records(file, blocks)
}
