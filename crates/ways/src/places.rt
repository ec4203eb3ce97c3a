// The walk by labels, and places on it, counted from 1.
ghost use Rattle.std.specs.Prelude.{◌≡◌, ◌+◌, ◌*◌, length, take, drop};
ghost use Rattle.tree.specs.Walks.{walk_labels};
ghost use Rattle.tree.specs.WalkLaws.{WalkLaws};
ghost use Rattle.ways.specs.Calls.{Placed, entry_at};

use crate::cave::Cave;
use label::Label;

impl Cave<'_> {
    // Writes the walk, and gives its length; what stands behind it in the buffer is kept. The buffer is the caller's, since no call
    // here takes memory.
    #[tactic(auto, using(crate::proofs::Placing::walk_told, crate::proofs::Placing::walk_counted))]
    pub fn walk(&self, out: &mut [Label; 2047]) -> usize
        ensures count { result + 1 ≡ 2 * length self.now.stations.now }
        ensures written { take result out.new ≡ walk_labels self.now.stations.now }
        ensures behind { drop result out.new ≡ drop result out.old }
        ensures laws { WalkLaws self.now.stations.now (take result out.new) }
    {
        self.write_labels(&self.whole_walk(), out)
    }

    // The first place of a station on the walk; one that is not there counts as the root.
    pub fn first_place(&self, label: Label) -> usize
        ensures { Placed self.now.stations.now label result }
    {
        let at = self.find(label).unwrap_or(0);
        let walk = self.whole_walk();
        let index = walk.iter().position(|entry| usize::from(*entry) == at);
        index.map_or(1, |k| k + 1)
    }

    // The walk's entry at a place; the root where the walk has no such place.
    #[tactic(auto, using(crate::proofs::Placing::no_entry))]
    pub fn entry(&self, place: usize) -> Label
        ensures { result ≡ entry_at self.now.stations.now place }
    {
        let Some(index) = place.checked_sub(1) else {
            return self.root();
        };
        let walk = self.whole_walk();
        let at = walk.get(index).copied().unwrap_or(0);
        self.label_of(usize::from(at))
    }
}
