// A label as text: its sign bytes.
ghost use Rattle.std.specs.Prelude.{Some};
ghost use Rattle.std.specs.Fmt.{WritesOnOk};
ghost use Rattle.label.specs.Labels.{bytes_of};
ghost use Rattle.label.specs.Shown.{shown_byte, shown_bytes};

use super::Label;
use std::fmt;

// Writes a byte that is no blank.
fn put<W: fmt::Write>(f: &mut fmt::Formatter<W>, byte: u8) -> fmt::Result
    ensures { WritesOnOk W.Write.write_str_gives f.old result (shown_byte byte) f.new }
{
    if byte == b' ' {
        return Ok(());
    }
    f.write_char(char::from(byte))
}

impl fmt::Display for Label {
    ghost output = { λ l. Some (shown_bytes (bytes_of l)) };

    fn fmt<W: fmt::Write>(&self, f: &mut fmt::Formatter<W>) -> fmt::Result {
        let bytes = self.bytes();
        for b in &bytes {
            put(f, *b)?;
        }
        Ok(())
    }
}
