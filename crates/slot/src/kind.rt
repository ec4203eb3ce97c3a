// A kind of value: how wide its slot is, and how a slot is read and written.
ghost use Rattle.std.specs.Prelude.{◌≡◌, ℕ, Bool, Decides};
ghost use Rattle.std.proofs.Common.{refl};
ghost use Rattle.slot.specs.Codings.{Coding, Lawful};
ghost use Rattle.slot.specs.Labels.{label_coding};
ghost use Rattle.slot.specs.Positions.{position_coding};
ghost use Rattle.slot.specs.Slots.{laid};
ghost use Rattle.label.proofs.Reading.{same_bytes};
ghost use Rattle.slot.specs.PositionsLemmas.{same_number};
ghost use Rattle.slot.specs.Laws.{label_lawful, position_lawful};

use crate::laying::lay;
use crate::position::Position;
use label::Label;

pub trait Kind: Sized + Copy + PartialEq {
    // The width of a slot in bytes.
    const WIDTH: usize;

    ghost WIDTH: { ℕ };

    // How the values stand in slots.
    ghost coding: { Coding Self };

    // The width again, as a call, in the words of `coding`.
    fn slot_width() -> usize
        ensures { result ≡ coding.wide }
    {
        Self::WIDTH
    }

    // The value in a slot's bytes.
    fn read(bytes: &[u8]) -> Option<Self>
        ensures { result ≡ coding.reads bytes.now };

    // Writes the value's slot at the start, where there is room for it, and keeps the bytes behind it.
    fn write(self, out: &mut [u8])
        ensures { out.new ≡ laid (coding.writes self) out.old };

    // Writes a missing slot likewise.
    fn write_missing(out: &mut [u8])
        ensures { out.new ≡ laid coding.blank out.old };

    // The constant is the width that `coding` has.
    ghost width: { WIDTH ≡ coding.wide };

    ghost lawful: { Lawful coding };

    // `==` tells whether two values are the same.
    ghost equal: { (x y : Self) (r : Bool) → (r ≡ Self.PartialEq.eq x y) → Decides r (x ≡ y) };
}

// A label's slot is its eight bytes, and missing as eight blanks.
impl Kind for Label {
    const WIDTH: usize = 8;

    ghost WIDTH = { 8 };

    ghost coding = { label_coding };

    ghost width = { refl };

    ghost lawful = { label_lawful };

    ghost equal = { same_bytes };

    fn read(bytes: &[u8]) -> Option<Label> {
        Label::read(bytes)
    }

    fn write(self, out: &mut [u8]) {
        lay(&self.bytes(), out)
    }

    fn write_missing(out: &mut [u8]) {
        lay(b"        ", out)
    }
}

// A position's slot is its number in two bytes, high byte first, and missing as 0.
impl Kind for Position {
    const WIDTH: usize = 2;

    ghost WIDTH = { 2 };

    ghost coding = { position_coding };

    ghost width = { refl };

    ghost lawful = { position_lawful };

    ghost equal = { same_number };

    fn read(bytes: &[u8]) -> Option<Position> {
        let [high, low] = bytes else {
            return None;
        };
        Position::new(usize::from(u16::from_be_bytes([*high, *low])))
    }

    // A number is at most 2,047, so its cast loses nothing.
    fn write(self, out: &mut [u8]) {
        lay(&(self.number() as u16).to_be_bytes(), out)
    }

    fn write_missing(out: &mut [u8]) {
        lay(&[0, 0], out)
    }
}
