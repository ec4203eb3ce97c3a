// A whole line agreement with units that lie, round by round.
use crate::inbox::inbox_of;
use crate::outcome::NoAnswer;
use itertools::Itertools;
use line::{Line, follow};
use lines::{Graded, Halving};
use script::{Agreement, LineFault, LineKind, Play, parse_play};
use slot::{Kind, Position};
use std::alloc::{AllocError, Global};
use std::io;
use wire::{Crew, Frame, Inbox};

// The honest units before the first round: as many positions as there are units that are not faulty.
fn honest_units<L: Line>(heap: Global, play: Play<'_>) -> Result<Vec<L>, NoAnswer> {
    let agreement = play.agreement;
    let mut honest = 0..agreement.units.saturating_sub(agreement.faulty);
    let mut units = Vec::new(heap);
    for word in play.positions.split(' ') {
        let own = honest.next().ok_or(LineFault::TooManyWords)?;
        let position = word.parse::<usize>().map_err(LineFault::from)?;
        let crew = Crew::new(agreement.units, agreement.faulty, own)?;
        units.push(L::start(crew, agreement.span, position))?;
    }
    if !honest.is_empty() {
        return Err(NoAnswer::Line(LineFault::TooFewWords));
    }
    Ok(units)
}

// A frame as long as an honest one, with a lie in every slot: the first place to receivers of even number, and the last
// one to the others.
fn lie(honest: &Frame, receiver: usize, span: usize) -> Frame {
    let told = Position::nearest(if receiver % 2 == 0 { 1 } else { span });
    let mut bytes = [0u8; 128];
    for slot in bytes.chunks_mut(Position::WIDTH) {
        told.write(slot);
    }
    let len = honest.bytes().len().min(bytes.len());
    Frame::new(&bytes[..len])
}

// What comes to a receiver: the frames of the honest units, and lies from the others.
fn taken(agreement: Agreement, frames: &[Frame], receiver: usize) -> Inbox {
    let mut inbox = inbox_of(frames);
    if let Some(honest) = frames.first() {
        let lie = lie(honest, receiver, agreement.span);
        for sender in frames.len()..agreement.units {
            inbox.put(sender, lie.bytes());
        }
    }
    inbox
}

// Plays a round.
fn step_all<L: Line>(
    heap: Global,
    agreement: Agreement,
    units: &mut [L],
) -> Result<(), AllocError> {
    let frames: Vec<Frame> = units.iter().map(|unit| unit.frame()).collect(heap)?;
    for (own, unit) in units.iter_mut().enumerate() {
        follow(unit, own, &taken(agreement, frames.as_slice(), own));
    }
    Ok(())
}

fn positions_text<L: Line>(heap: Global, units: &[L]) -> Result<String, AllocError> {
    units.iter().map(|unit| unit.result()).join(heap, " ")
}

// The lines to be shown: the positions of the honest units at the start and after each round.
fn shown_rounds<L: Line>(heap: Global, play: Play<'_>) -> Result<String, NoAnswer> {
    let mut units: Vec<L> = honest_units(heap, play)?;
    let rounds = units.first().map_or(0, |unit| unit.rounds());
    let start = positions_text(heap, units.as_slice())?;
    let mut shown = format!(in heap; "start: {start}")?;
    for round in 1..=rounds {
        step_all(heap, play.agreement, units.as_mut_slice())?;
        let positions = positions_text(heap, units.as_slice())?;
        write!(shown, "\nround {round}: {positions}")?;
    }
    Ok(shown)
}

fn shown_play(heap: Global, text: &str) -> Result<String, NoAnswer> {
    let play = parse_play(text)?;
    match play.agreement.kind {
        LineKind::Halving => shown_rounds::<Halving>(heap, play),
        LineKind::Graded => shown_rounds::<Graded>(heap, play),
    }
}

// Plays the agreement that a text names, and shows the honest units' positions in each round.
pub fn show_play(rt: &HostRuntime, text: &str) -> io::Result<()> {
    println!(rt; "line {text}")?;
    match shown_play(rt.alloc(), text) {
        Ok(shown) => rt.println(shown),
        Err(other) => rt.println(other),
    }
}
