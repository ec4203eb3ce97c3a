// A crew: n units, of which at most t are faulty, and the own number.
ghost use Rattle.std.specs.Prelude.{◌+◌, ◌*◌, ◌<◌, ◌≤◌};

mod ops;

#[derive(Clone, Copy)]
pub struct Crew {
    n: usize,
    t: usize,
    own: usize,
    ghost few: { n ≤ 16 },
    ghost enough: { 3 * t + 1 ≤ n },
    ghost member: { own < n },
}
