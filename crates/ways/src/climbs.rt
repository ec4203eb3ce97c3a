// Climbing towards the root.
ghost use Rattle.std.specs.Prelude.{◌≡◌, ◌-◌, ◌<◌, length};
ghost use Rattle.tree.specs.Trees.{climb as climbed, MeetAt};
ghost use Rattle.tree.specs.Stations.{parent_of, depth_of};

use crate::cave::Cave;

impl Cave<'_> {
    // The deepest station above both u and v.
    pub(crate) fn meeting_point(&self, u: usize, v: usize) -> usize
        requires first { u < length self.now.stations.now }
        requires second { v < length self.now.stations.now }
        ensures { MeetAt (length self.now.stations.now) (parent_of self.now.stations.now) (depth_of self.now.stations.now) result u v }
    {
        let mut a = u;
        let mut b = v;
        while a != b {
            if self.depth_of(a) < self.depth_of(b) {
                b = self.parent_of(b);
            } else {
                a = self.parent_of(a);
            }
        }
        a
    }

    // The station at this depth on the way from the root to v, or v itself where that way is shorter.
    pub(crate) fn station_at(&self, v: usize, level: usize) -> usize
        requires known { v < length self.now.stations.now }
        requires some { 0 < level }
        ensures inside { result < length self.now.stations.now }
        ensures value { result ≡ climbed (parent_of self.now.stations.now) (depth_of self.now.stations.now v - level) v }
    {
        let mut at = v;
        while level < self.depth_of(at) {
            at = self.parent_of(at);
        }
        at
    }
}
