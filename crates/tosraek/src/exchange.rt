// One whole exchange of grading: four units, at most one of them faulty. Units 0 to 2 are honest, and unit 3 sends
// different values to different units.
use crate::inbox::inbox_of;
use grading::Grading;
use itertools::Itertools;
use script::Sentence;
use slot::Position;
use std::{fmt, io};
use wire::{Crew, CrewFault, Frame, Inbox, write_slot};

const UNITS: usize = 4;

const FAULTY: usize = 1;

const FAULTY_UNIT: usize = 3;

const ROUNDS: usize = 3;

// The value of units 0 and 2, and that of unit 1; unit 3 sends either of the two, or none.
const COMMON_VALUE: usize = 5;

const OTHER_VALUE: usize = 9;

// A slot as it is shown: its value, or `-` where it is missing.
#[derive(Clone, Copy)]
struct Slot(Option<Position>);

impl fmt::Display for Slot {
    fn fmt<W: fmt::Write>(&self, f: &mut fmt::Formatter<W>) -> fmt::Result {
        match self.0 {
            Some(position) => write!(f, "{}", position.number()),
            None => f.write_str("-"),
        }
    }
}

// How many slots a frame of a round has.
fn slots_in(round: usize) -> usize {
    if round == 1 { 1 } else { UNITS }
}

// What unit 3 tells a receiver of its own value. Round and receiver are two numbers: a struct of them would only be taken apart here.
fn faulty_value(round: usize, receiver: usize) -> Option<Position> {
    match (round, receiver) {
        (3, 1) => None,
        (1, 2) | (2, 1) | (2, 2) => Some(Position::nearest(OTHER_VALUE)),
        _ => Some(Position::nearest(COMMON_VALUE)),
    }
}

// The frame that unit 3 sends a receiver: one slot in round 1, else four, of which the last has the value that it tells.
fn faulty_frame(round: usize, receiver: usize) -> Frame {
    let mut slots = [0u8; 8];
    let told = faulty_value(round, receiver);
    if round == 1 {
        write_slot(told, &mut slots[..2]);
        Frame::new(&slots[..2])
    } else {
        write_slot(told, &mut slots[6..]);
        Frame::new(&slots)
    }
}

// What came to a receiver in a round.
fn taken(sent: &[Frame; 3], round: usize, receiver: usize) -> Inbox {
    let mut inbox = inbox_of(sent);
    inbox.put(FAULTY_UNIT, faulty_frame(round, receiver).bytes());
    inbox
}

fn show_taken(rt: &HostRuntime, round: usize, receiver: usize, inbox: &Inbox) -> io::Result<()> {
    println!(rt; "  unit {receiver} took")?;
    let slots = slots_in(round);
    for sender in 0..UNITS {
        let line = (0..slots)
            .map(|s| Slot(inbox.slot(sender, slots, s)))
            .join(rt.alloc(), " ")?;
        println!(rt; "    from {sender}: {line}")?;
    }
    Ok(())
}

// How many of the frames carry a position in the slot of unit 3.
fn tally_of(inbox: &Inbox, number: usize) -> usize {
    inbox.tally(UNITS, FAULTY_UNIT, Position::nearest(number))
}

fn show_counts(rt: &HostRuntime, receiver: usize, inbox: &Inbox) -> io::Result<()> {
    let common = tally_of(inbox, COMMON_VALUE);
    let other = tally_of(inbox, OTHER_VALUE);
    println!(rt;
        "  unit {receiver} counts of unit {FAULTY_UNIT}: {COMMON_VALUE} in {common}, {OTHER_VALUE} in {other}"
    )
}

fn show_grades(rt: &HostRuntime, receiver: usize, unit: &Grading<Position>) -> io::Result<()> {
    let grades = (0..UNITS)
        .map(|sender| unit.grade(sender))
        .join(rt.alloc(), " ")?;
    println!(rt; "  at unit {receiver}: {grades}")
}

fn show_round(
    rt: &HostRuntime,
    round: usize,
    units: &mut [Grading<Position>; 3],
) -> io::Result<()> {
    println!(rt; "round {round}")?;
    let sent = units.each_ref().map(|unit| unit.frame());
    for (receiver, unit) in units.iter_mut().enumerate() {
        let inbox = taken(&sent, round, receiver);
        show_taken(rt, round, receiver, &inbox)?;
        if round == ROUNDS {
            show_counts(rt, receiver, &inbox)?;
        }
        unit.step(&inbox);
    }
    Ok(())
}

// An honest unit before round 1.
fn unit(own: usize, value: usize) -> Result<Grading<Position>, CrewFault> {
    let crew = Crew::new(UNITS, FAULTY, own)?;
    Ok(Grading::start(crew, Position::nearest(value), [false; 16]))
}

fn honest_units() -> Result<[Grading<Position>; 3], CrewFault> {
    Ok([
        unit(0, COMMON_VALUE)?,
        unit(1, OTHER_VALUE)?,
        unit(2, COMMON_VALUE)?,
    ])
}

// Shows three rounds, what each honest unit took in them, and the grades.
fn show_rounds(rt: &HostRuntime, mut units: [Grading<Position>; 3]) -> io::Result<()> {
    for round in 1..=ROUNDS {
        show_round(rt, round, &mut units)?;
    }
    rt.println("grades of units 0 to 3")?;
    for (receiver, unit) in units.iter().enumerate() {
        show_grades(rt, receiver, unit)?;
    }
    Ok(())
}

pub fn show_exchange(rt: &HostRuntime) -> io::Result<()> {
    rt.println("four units, at most one of them faulty; unit 3 tells two stories")?;
    match honest_units() {
        Ok(units) => show_rounds(rt, units),
        Err(fault) => rt.println(Sentence(fault)),
    }
}
