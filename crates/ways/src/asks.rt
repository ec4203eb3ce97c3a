// What can be asked of stations by their labels.
ghost use Rattle.std.specs.Prelude.{◌≡◌, Decides};
ghost use Rattle.tree.specs.Caves.{Holds, root_label, Root, Above, Height, OneWay};
ghost use Rattle.ways.specs.Calls.{DepthTold, DeepestTold, AtDepthTold, WayTold};

use crate::cave::Cave;
use label::Label;

impl Cave<'_> {
    // Whether there is a station with this label.
    pub fn has(&self, label: Label) -> bool
        ensures { Decides result (Holds self.now.stations.now label) }
    {
        self.find(label).is_some()
    }

    // The station with the lowest label.
    pub fn root(&self) -> Label
        ensures value { result ≡ root_label self.now.stations.now }
        ensures lowest { Root self.now.stations.now result }
    {
        self.label_of(0)
    }

    // How many stations are on the way from the root to this one.
    pub fn depth(&self, label: Label) -> Option<usize>
        ensures { DepthTold self.now.stations.now label result }
    {
        let at = self.find(label)?;
        Some(self.depth_of(at))
    }

    // The greatest depth.
    pub fn height(&self) -> usize
        ensures { Height self.now.stations.now result }
    {
        let stations = self.stations.iter();
        let depths = stations.map(|station| usize::from(station.depth));
        depths.max().unwrap_or(0)
    }

    // Whether `upper` lies on the way from the root to `lower`.
    #[tactic(auto, using(crate::proofs::Answering::depth_some))]
    pub fn is_above(&self, upper: Label, lower: Label) -> bool
        ensures { Decides result (Above self.now.stations.now upper lower) }
    {
        let Some((u, v)) = self.find_both(upper, lower) else {
            return false;
        };
        self.station_at(v, self.depth_of(u)) == u
    }

    // The deepest station above both.
    pub fn deepest_above(&self, a: Label, b: Label) -> Option<Label>
        ensures { DeepestTold self.now.stations.now a b result }
    {
        let (u, v) = self.find_both(a, b)?;
        Some(self.label_of(self.meeting_point(u, v)))
    }

    // The station at this depth on the way from the root to a station, or that station itself where the way is shorter.
    pub fn at_depth(&self, label: Label, level: usize) -> Option<Label>
        ensures { AtDepthTold self.now.stations.now label level result }
    {
        if level == 0 {
            return None;
        }
        let v = self.find(label)?;
        Some(self.label_of(self.station_at(v, level)))
    }

    // Writes the stations on the way between two, from the first to the second, and gives their count; what stands
    // behind them in the buffer is kept. The buffer is the caller's, since no call here takes memory.
    #[tactic(auto, using(tree::proofs::Named::one_way))]
    pub fn way(&self, from: Label, to: Label, out: &mut [Label; 1024]) -> Option<usize>
        ensures written { WayTold self.now.stations.now from to out.old out.new result }
        ensures only { OneWay }
    {
        let (u, v) = self.find_both(from, to)?;
        Some(self.write_course(u, v, out))
    }
}
