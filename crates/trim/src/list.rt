// What a unit's list of positions is made of.
ghost use Rattle.std.specs.Prelude.{◌+◌, ◌*◌, ◌≤◌, length};

use slot::Position;

mod ops;
mod steps;

pub use ops::list_entry;

// The slots that a unit has, the span of the line, and how many units may be faulty.
#[derive(Clone, Copy)]
pub struct UnitList<'a> {
    slots: &'a [Option<Position>],
    span: Position,
    t: usize,
    ghost few: { length slots.now ≤ 16 },
    ghost enough: { 3 * t + 1 ≤ length slots.now },
}
