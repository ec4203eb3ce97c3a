// The walk of a plan, and places on it, counted from 1.
ghost use Rattle.std.specs.Prelude.{◌≡◌, ◌+◌, ◌*◌, length, take, drop};
ghost use Rattle.tree.specs.Walks.{walk_labels};
ghost use Rattle.tree.specs.WalkLaws.{WalkLaws};
ghost use Rattle.ways.specs.Calls.{Placed, entry_at};
ghost use Rattle.plan.specs.Views.{stations_of};

use super::Plan;
use label::Label;

impl Plan {
    // Writes the walk, and gives its length; what stands behind it in the buffer is kept.
    pub fn walk(&self, out: &mut [Label; 2047]) -> usize
        ensures count { result + 1 ≡ 2 * length (stations_of self.now) }
        ensures written { take result out.new ≡ walk_labels (stations_of self.now) }
        ensures behind { drop result out.new ≡ drop result out.old }
        ensures laws { WalkLaws (stations_of self.now) (take result out.new) }
    {
        self.cave().walk(out)
    }

    // The first place of a station on the walk; one that the plan lacks counts as the root.
    pub fn first_place(&self, label: Label) -> usize
        ensures { Placed (stations_of self.now) label result }
    {
        self.cave().first_place(label)
    }

    // The walk's entry at a place; the root where the walk has no such place.
    pub fn entry(&self, place: usize) -> Label
        ensures { result ≡ entry_at (stations_of self.now) place }
    {
        self.cave().entry(place)
    }
}
