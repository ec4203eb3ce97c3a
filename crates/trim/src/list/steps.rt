// One step of each of the two line agreements.
ghost use Rattle.std.specs.Prelude.{◌≡◌, ◌^◌, ◌<◌, ◌≤◌, sum};
ghost use Rattle.slot.specs.Positions.{number_of};
ghost use Rattle.trim.specs.Entries.{entries};
ghost use Rattle.trim.specs.Steps.{Steps};
ghost use Rattle.trim.specs.Trims.{kept, least, greatest, halving_step, graded_step, Layers};

use super::UnitList;

// The least and the greatest that are left of a unit's list.
#[derive(Clone, Copy)]
struct Ends {
    low: usize,
    high: usize,
}

// The sum of a list whose sum fits.
fn total(list: &[usize]) -> usize
    requires { sum list.now < 2 ^ 64 }
    ensures { result ≡ sum list.now }
{
    list.iter().sum()
}

impl<'a> UnitList<'a> {
    // The least and the greatest of those left.
    fn ends_left(&self) -> Ends
        ensures low { result.low ≡ least self.now.t (entries self.now) }
        ensures high { result.high ≡ greatest self.now.t (entries self.now) }
    {
        let list = self.in_order();
        let left = &list[self.t..self.slots.len() - self.t];
        Ends {
            low: left[0],
            high: left[left.len() - 1],
        }
    }

    // The sum of those left.
    #[tactic(auto, using(crate::proofs::Entries::left_sum, crate::proofs::Entries::sum_fits))]
    fn sum_left(&self) -> usize
        ensures { result ≡ sum (kept self.now.t (entries self.now)) }
    {
        let list = self.in_order();
        total(&list[self.t..self.slots.len() - self.t])
    }

    // A step of the halving line: half the sum of the least and the greatest of a unit's list without its t lowest and t
    // highest, rounded down.
    #[tactic(auto, using(crate::proofs::Entries::least_in, crate::proofs::Entries::greatest_in, crate::proofs::Layers::by_layers, crate::proofs::Steps::steps))]
    pub fn halving_step(&self) -> usize
        ensures is { result ≡ halving_step self.now.t (entries self.now) }
        ensures low { 1 ≤ result }
        ensures high { result ≤ number_of self.now.span }
        ensures layers { Layers }
        ensures steps { Steps }
    {
        let ends = self.ends_left();
        (ends.low + ends.high) / 2
    }

    // A step of the graded line: the mean of a unit's list without its t lowest and t highest, rounded down.
    #[tactic(auto, using(crate::proofs::Entries::mean_in, crate::proofs::Layers::by_layers, crate::proofs::Steps::steps))]
    pub fn graded_step(&self) -> usize
        ensures is { result ≡ graded_step self.now.t (entries self.now) }
        ensures low { 1 ≤ result }
        ensures high { result ≤ number_of self.now.span }
        ensures layers { Layers }
        ensures steps { Steps }
    {
        self.sum_left() / (self.slots.len() - 2 * self.t)
    }
}
