// A frame: what one unit sends in a round, at most 128 bytes.
ghost use Rattle.std.specs.Prelude.{◌≤◌};

mod ops;

pub use ops::write_slot;

// A frame takes no heap, and is copied with the table that holds it: the bytes lie in a buffer of fixed size, with their count
// beside it.
#[derive(Clone, Copy)]
pub struct Frame {
    bytes: [u8; 128],
    len: usize,
    ghost short: { len ≤ 128 },
}
