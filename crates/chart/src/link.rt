// A leg as it is seen from the station that is farther from the root.
ghost use Rattle.std.specs.Prelude.{◌<◌};

// The record of the next station towards the root, at the root that of the root itself, and the depth of this one. Places are two bytes in the
// fixed memory of 1,024 records; at an index `as usize` widens them, which can lose nothing.
#[derive(Clone, Copy)]
pub struct Link {
    pub up: u16,
    pub depth: u16,
    ghost some: { 0 < depth },
}
