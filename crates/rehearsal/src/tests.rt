// The worked examples through the public calls.
use label::{Fault, Label};
use plan::Plan;
use records::PlanFault;
use std::process::Abort;
use std::test::Fail;

// The records of the example cave: a station's label and the label that it is joined to, eight bytes each.
const CAVE: [&[u8; 16]; 6] = [
    b"ENT             ",
    b"A9      ENT     ",
    b"C1      ENT     ",
    b"C2      C1      ",
    b"C3      C1      ",
    b"D1      C3      ",
];

// The same stations and legs, from the other end.
const CAVE_AGAIN: [&[u8; 16]; 6] = [
    b"D1              ",
    b"C3      D1      ",
    b"C1      C3      ",
    b"ENT     C1      ",
    b"C2      C1      ",
    b"A9      ENT     ",
];

const WALK: [&[u8]; 11] = [
    b"A9", b"ENT", b"C1", b"C2", b"C1", b"C3", b"D1", b"C3", b"C1", b"ENT", b"A9",
];

// The sum of each byte times its place, counted from 1, modulo 65,536: computed anew, to test what the library computes.
fn check_of(bytes: &[u8]) -> u16 {
    bytes.iter().zip(1u16..).fold(0, |sum, (byte, place)| {
        sum.wrapping_add(place.wrapping_mul(u16::from(*byte)))
    })
}

// Writes the records behind the header.
fn put(file: &mut [u8; 512], records: &[&[u8; 16]; 6]) {
    for (place, record) in file[4..].chunks_exact_mut(16).zip(records) {
        place.copy_from_slice(*record);
    }
}

// Writes the count of records, the mark of the final block and the check.
fn seal(file: &mut [u8; 512]) {
    file[2] = 6;
    file[3] = 1;
    let check = check_of(&file[..510]);
    file[510..].copy_from_slice(&check.to_be_bytes());
}

// A file of one block with six records.
fn file_of(records: &[&[u8; 16]; 6]) -> [u8; 512] {
    let mut file = [0u8; 512];
    put(&mut file, records);
    seal(&mut file);
    file
}

fn is_walk(rt: &impl Abort, plan: &Plan, walk: &[&[u8]]) -> Result<(), Fail> {
    for (text, place) in walk.iter().zip(1usize..) {
        let expected = Label::typed(text)?;
        assert!(rt; plan.entry(place).same(expected));
    }
    Ok(())
}

// The number of the fault, where the file is refused.
fn number_of(answer: Result<(), PlanFault>) -> Option<u8> {
    answer.err().map(|fault| fault.diagnostic().number)
}

// A plan made without a file has the station `0` alone.
#[test]
fn new_plan_holds_zero(rt: HostRuntime) -> Result<(), Fail> {
    let plan = Plan::new(rt.alloc())?;
    assert!(rt; plan.stations().len() == 1);
    assert!(rt; plan.root().same(Label::typed(b"0")?));
    assert!(rt; plan.height() == 1);
    Ok(())
}

// Two files that list one cave in different orders are read to one walk; a file that is refused changes nothing.
#[test]
fn one_cave_from_two_files(rt: HostRuntime) -> Result<(), Fail> {
    let mut plan = Plan::new(rt.alloc())?;
    plan.read(&file_of(&CAVE))?;
    is_walk(&rt, &plan, &WALK)?;
    let mut file = file_of(&CAVE_AGAIN);
    plan.read(&file)?;
    assert!(rt; plan.height() == 5);
    file[100] = 1;
    assert_eq!(rt; number_of(plan.read(&file)), Some(2));
    assert_eq!(rt; number_of(plan.read(&file[0..511])), Some(1));
    is_walk(&rt, &plan, &WALK)
}
