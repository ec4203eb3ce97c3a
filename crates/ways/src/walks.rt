// The walk of a plan, as a list of indices: the list is filled with defaults before it is used, and labels would take four times
// the room.
ghost use Rattle.std.specs.Prelude.{◌≡◌, ◌+◌, ◌<◌, ◌≤◌, ◌++◌, length};
ghost use Rattle.arrayvec.specs.ArrayVec.{array_vec_len};
ghost use Rattle.tree.specs.Walks.{walk_from, tour_from};

use crate::cave::Cave;
use arrayvec::ArrayVec;

impl Cave<'_> {
    // The station, then the walks of its branches.
    #[cycle(branch_walk_station_walk)]
    fn station_walk(&self, at: u16, walk: &mut ArrayVec<u16, 2047>)
        requires known { at < length self.now.stations.now }
        requires room { array_vec_len walk.old + length (walk_from self.now.stations.now at) ≤ 2047 }
        ensures { walk.new.items ≡ walk.old.items ++ walk_from self.now.stations.now at }
    {
        walk.push(at);
        self.branch_walk(at, walk);
    }

    // For each branch in label order the walk of that branch and the station again.
    #[cycle(branch_walk_station_walk)]
    fn branch_walk(&self, at: u16, walk: &mut ArrayVec<u16, 2047>)
        requires known { at < length self.now.stations.now }
        requires room { array_vec_len walk.old + length (tour_from self.now.stations.now at) ≤ 2047 }
        ensures { walk.new.items ≡ walk.old.items ++ tour_from self.now.stations.now at }
    {
        // The root is its own parent, so it is left out: by a slice, since `skip` asks for each station by number. An index is below
        // 1,024, so its cast loses nothing.
        for (k, station) in self.stations[1..].iter().enumerate() {
            if station.parent == at {
                self.station_walk(k as u16 + 1, walk);
                walk.push(at);
            }
        }
    }

    // The walk of the whole plan.
    #[tactic(auto, using(crate::proofs::Placing::walk_fits))]
    pub(crate) fn whole_walk(&self) -> ArrayVec<u16, 2047>
        ensures { result.items ≡ walk_from self.now.stations.now 0 }
    {
        let mut walk = ArrayVec::new();
        self.station_walk(0, &mut walk);
        walk
    }
}
