// The worked examples of the two lines through the public calls.
use line::{Line, follow};
use lines::{Graded, Halving};
use slot::Position;
use std::test::Fail;
use wire::{Crew, Frame, Inbox};

// Puts a frame of one slot with a position at a sender's place.
fn tell(inbox: &mut Inbox, sender: usize, number: usize) {
    let frame = Frame::single(Position::nearest(number));
    inbox.put(sender, frame.bytes());
}

// A position that is missing counts as 1 and not as the own one: 2, 4 and the own 6 with one missing give 3; with the own
// position in its place they would give 5.
#[test]
fn missing_counts_as_one(rt: HostRuntime) -> Result<(), Fail> {
    let crew = Crew::new(4, 1, 2)?;
    let mut line = Halving::start(crew, 11, 6);
    assert_eq!(rt; line.rounds(), 4);
    let mut inbox = Inbox::new();
    tell(&mut inbox, 0, 2);
    tell(&mut inbox, 1, 4);
    follow(&mut line, 2, &inbox);
    assert_eq!(rt; line.result(), 3);
    tell(&mut inbox, 3, 9);
    let mut other = Halving::start(crew, 11, 6);
    follow(&mut other, 2, &inbox);
    assert_eq!(rt; other.result(), 5);
    Ok(())
}

// One unit alone holds its position; a span and a position outside their range are cut, the span first.
#[test]
fn outside_is_cut(rt: HostRuntime) -> Result<(), Fail> {
    let crew = Crew::new(1, 0, 0)?;
    assert_eq!(rt; Halving::start(crew, 0, 7).result(), 1);
    assert_eq!(rt; Halving::start(crew, 5000, 5000).result(), 2047);
    assert_eq!(rt; Graded::start(crew, 9, 0).result(), 1);
    assert_eq!(rt; Graded::start(crew, 9, 12).result(), 9);
    assert_eq!(rt; Graded::iterations(Crew::new(16, 2, 0)?, 7), 1);
    assert_eq!(rt; Graded::iterations(Crew::new(16, 2, 0)?, 8), 2);
    Ok(())
}

// Plays a round in which the units take one another's frames.
fn play_round(units: &mut [Graded; 3]) {
    let mut inbox = Inbox::new();
    for (sender, unit) in units.iter().enumerate() {
        inbox.put(sender, unit.frame().bytes());
    }
    for unit in units.iter_mut() {
        unit.step(&inbox);
    }
}

// Three of four units follow the graded line and the fourth is silent: its position counts as 1 at all of them, so that
// 2, 5 and 8 with it give (2 + 5) / 2 = 3 at once, and no one moves again.
#[test]
fn silent_unit_counts_as_one(rt: HostRuntime) -> Result<(), Fail> {
    let mut units = [
        Graded::start(Crew::new(4, 1, 0)?, 9, 2),
        Graded::start(Crew::new(4, 1, 1)?, 9, 5),
        Graded::start(Crew::new(4, 1, 2)?, 9, 8),
    ];
    for _ in 0..units[0].rounds() {
        play_round(&mut units);
    }
    assert_eq!(rt; units.each_ref().map(|unit| unit.result()), [3, 3, 3]);
    assert_eq!(rt; units[0].frame().bytes().len(), 0);
    Ok(())
}
