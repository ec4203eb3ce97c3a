// Writes blocks of a plan file.
ghost use Rattle.std.specs.Prelude.{◌≤◌, length};

use block::check_sum;
use std::alloc::AllocError;

// A station, and the earlier station that it is joined to; the first station's is empty.
pub type Record = (&'static str, &'static str);

// Adds a block of at most 31 records to a file.
pub fn push_block(
    file: &mut Vec<u8>,
    place: u16,
    last: bool,
    records: &[Record],
) -> Result<(), AllocError>
    requires { length records.now ≤ 31 }
{
    let heap = *file.allocator();
    let mut block = Vec::new(heap);
    block.extend_from_slice(&place.to_be_bytes())?;
    block.push(records.len() as u8)?;
    block.push(u8::from(last))?;
    for (station, joined) in records {
        let record = format!(in heap; "{station:<8}{joined:<8}")?;
        block.extend_from_slice(record.as_bytes())?;
    }
    block.resize(510, 0)?;
    let check = check_sum(block.as_slice());
    block.extend_from_slice(&check.to_be_bytes())?;
    file.extend_from_slice(block.as_slice())
}
