// The text of a position: its number.
ghost use Rattle.std.specs.Prelude.{Some};
ghost use Rattle.std.specs.Fmt.{decimal};

use super::Position;
use std::fmt;

impl fmt::Display for Position {
    ghost output = { λ p. Some (decimal p.value) };

    fn fmt<W: fmt::Write>(&self, f: &mut fmt::Formatter<W>) -> fmt::Result {
        write!(f, "{}", self.value)
    }
}
