// A plan of a small cave, as the bytes of its file.
use crate::writer::{Record, push_block};
use std::alloc::{AllocError, Global};

const RECORDS: [Record; 14] = [
    ("ENT", ""),
    ("A9", "ENT"),
    ("C1", "ENT"),
    ("C2", "C1"),
    ("C3", "C1"),
    ("D1", "C3"),
    ("D2", "D1"),
    ("D3", "D1"),
    ("E1", "C2"),
    ("E2", "E1"),
    ("G1", "A9"),
    ("G2", "G1"),
    ("G3", "G1"),
    ("PIT-1", "D3"),
];

// A plan file of two blocks.
pub fn plan_file(heap: Global) -> Result<Vec<u8>, AllocError> {
    let mut file = Vec::new(heap);
    let (front, back) = RECORDS.split_at(7);
    push_block(&mut file, 0, false, front)?;
    push_block(&mut file, 1, true, back)?;
    Ok(file)
}

// Changes one byte of the second block.
pub fn damage(file: &mut Vec<u8>) {
    if let Some(byte) = file.get_mut(517) {
        *byte ^= 1;
    }
}
