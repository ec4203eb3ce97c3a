// A position on a line: 1 to 2,047, kept in two bytes. Numbers come as `usize` and are cast once they are in the range, where a
// cast loses nothing and `try_from` would have an error that never comes.
ghost use Rattle.std.specs.Prelude.{◌≡◌, true};
ghost use Rattle.slot.specs.Ranges.{in_range};

mod ops;
mod show;

#[derive(Clone, Copy, PartialEq, Eq)]
pub struct Position {
    value: u16,
    ghost ok: { in_range value ≡ true },
}
