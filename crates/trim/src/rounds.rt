// How many rounds the halving line takes, and how many iterations the graded line.
ghost use Rattle.std.specs.Prelude.{◌≡◌, ℕ, ◌+◌, ◌-◌, ◌*◌, ◌^◌, ◌<◌, ◌≤◌};
ghost use Rattle.slot.specs.Positions.{number_of};
ghost use Rattle.trim.specs.Runs.{Runs};
ghost use Rattle.trim.specs.Steps.{ceil};
ghost use Rattle.trim.specs.Iterations.{worst, halving_rounds, iterations, graded_iterations, Least, Worsts};

use slot::Position;

// The rounds of the halving line: the least k with 2 ^ k at least the span less one.
pub fn halving_rounds(span: Position) -> usize
    ensures is { result ≡ halving_rounds (number_of span) }
    ensures least { Least (λ k. number_of span - 1 ≤ 2 ^ k) result }
    ensures few { result ≤ 11 }
    ensures worsts { Worsts }
    ensures runs { Runs }
{
    // `ilog2` gives a u32, and `usize` has no `From` of it.
    (span.number() - 1).next_power_of_two().ilog2() as usize
}

// The greatest spread before an iteration of the graded line, where `m` entries are left of each list and the lists can
// still differ at `f` units.
#[derive(Clone, Copy)]
struct Spread {
    m: usize,
    spread: usize,
    f: usize,
    ghost some: { 1 ≤ m },
    ghost few: { m ≤ 16 },
    ghost fewer: { f ≤ m },
    ghost short: { spread ≤ 2046 },
}

impl Spread {
    // After an iteration in which the lists differ at `k` units.
    #[tactic(auto, using(crate::proofs::Iterations::ceil_is))]
    fn after(mut self, k: usize) -> Spread
        requires { k ≤ self.f }
        ensures m { result.m ≡ self.m }
        ensures spread { result.spread ≡ ceil (k * self.spread) self.m }
        ensures f { result.f ≡ self.f - k }
    {
        self.spread = (k * self.spread).div_ceil(self.m);
        self.f -= k;
        self
    }

    // After `r` iterations.
    #[tactic(auto, using(crate::proofs::Iterations::so_far_more, crate::proofs::Iterations::so_far_last))]
    fn worst(self, r: usize) -> usize
        ensures { result ≡ worst self.m self.spread r self.f }
    {
        if r == 0 {
            return self.spread;
        }
        // A loop: of a closure that calls its own function again, nothing says that a call leaves its captures as they are.
        let mut top: usize = 0;
        for k in 0..=self.f {
            top = top.max(self.after(k).worst(r - 1));
        }
        top
    }

    // The least number of iterations that leave at most 1, where fewer than `r` leave more.
    #[tactic(auto, using(crate::proofs::Iterations::least_is, crate::proofs::Iterations::least_most))]
    fn least_from(self, r: usize) -> usize
        requires { (j : ℕ) → j < r → 1 < worst self.m self.spread j self.f }
        ensures is { result ≡ iterations self.m self.spread self.f }
        ensures least { Least (λ j. worst self.m self.spread j self.f ≤ 1) result }
        ensures most { result ≤ self.f + 1 }
    {
        if self.worst(r) <= 1 {
            r
        } else {
            self.least_from(r + 1)
        }
    }
}

// The greatest spread that `r` iterations can leave of a spread, where `m` entries are left of each list and the lists
// can differ at `f` units, at each of them in one iteration. The four numbers stand apart for who calls it; `Spread` has three of them.
pub fn worst(m: usize, spread: usize, r: usize, f: usize) -> usize
    requires some { 1 ≤ m }
    requires few { m ≤ 16 }
    requires fewer { f ≤ m }
    requires short { spread ≤ 2046 }
    ensures { result ≡ worst m spread r f }
{
    Spread { m, spread, f }.worst(r)
}

// The iterations of the graded line: the least number that leaves at most 1 of the span less one. It takes n and t and no `Crew`,
// since it asks for no own number.
#[tactic(auto, using(crate::proofs::Iterations::worsts, crate::proofs::Runs::runs))]
pub fn graded_iterations(n: usize, t: usize, span: Position) -> usize
    requires few { n ≤ 16 }
    requires enough { 3 * t + 1 ≤ n }
    ensures is { result ≡ graded_iterations n t (number_of span) }
    ensures least { Least (λ k. worst (n - 2 * t) (number_of span - 1) k t ≤ 1) result }
    ensures most { result ≤ t + 1 }
    ensures worsts { Worsts }
    ensures runs { Runs }
{
    Spread {
        m: n - 2 * t,
        spread: span.number() - 1,
        f: t,
    }
    .least_from(0)
}
