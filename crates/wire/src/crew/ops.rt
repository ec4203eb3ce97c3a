// Making a crew, and its numbers.
ghost use Rattle.std.specs.Prelude.{◌≡◌};
ghost use Rattle.wire.specs.Crews.{CrewMade};

use super::Crew;
use crate::fault::CrewFault;

impl Crew {
    // The crew of these numbers, or the first cause for which there is none.
    pub fn new(n: usize, t: usize, own: usize) -> Result<Crew, CrewFault>
        ensures { CrewMade n t own result }
    {
        if !(1..=16).contains(&n) {
            return Err(CrewFault::Units);
        }
        if t > (n - 1) / 3 {
            return Err(CrewFault::Faulty);
        }
        if own >= n {
            return Err(CrewFault::Own);
        }
        Ok(Crew { n, t, own })
    }

    // How many units there are.
    pub fn units(self) -> usize
        ensures { result ≡ self.n }
    {
        self.n
    }

    // How many of them may be faulty.
    pub fn faulty(self) -> usize
        ensures { result ≡ self.t }
    {
        self.t
    }

    // The own number.
    pub fn own(self) -> usize
        ensures { result ≡ self.own }
    {
        self.own
    }
}
