// Stations and ways of a plan. Each call is one on its cave: the work and its proofs lie in a crate below, so that a plan's contracts
// are read, and its edits are tried, in a small one.
ghost use Rattle.std.specs.Prelude.{◌≡◌, length, Decides};
ghost use Rattle.tree.specs.Caves.{Holds, root_label, Root, Above, Height, OneWay};
ghost use Rattle.ways.specs.Calls.{DepthTold, DeepestTold, AtDepthTold, WayTold};
ghost use Rattle.plan.specs.Views.{stations_of};

use super::Plan;
use label::Label;
use ways::Cave;

impl Plan {
    // Its stations, with what holds of every plan's stations.
    pub(super) fn cave(&self) -> Cave<'_>
        ensures { result.stations.now ≡ stations_of self.now }
    {
        Cave::new(self.stations())
    }

    // Whether the plan has a station with this label.
    pub fn has(&self, label: Label) -> bool
        ensures { Decides result (Holds (stations_of self.now) label) }
    {
        self.cave().has(label)
    }

    // The station with the lowest label.
    pub fn root(&self) -> Label
        ensures value { result ≡ root_label (stations_of self.now) }
        ensures lowest { Root (stations_of self.now) result }
    {
        self.cave().root()
    }

    // How many stations are on the way from the root to this one; nothing where the plan lacks it.
    pub fn depth(&self, label: Label) -> Option<usize>
        ensures { DepthTold (stations_of self.now) label result }
    {
        self.cave().depth(label)
    }

    // The greatest depth.
    pub fn height(&self) -> usize
        ensures { Height (stations_of self.now) result }
    {
        self.cave().height()
    }

    // Whether `upper` lies on the way from the root to `lower`.
    pub fn is_above(&self, upper: Label, lower: Label) -> bool
        ensures { Decides result (Above (stations_of self.now) upper lower) }
    {
        self.cave().is_above(upper, lower)
    }

    // The deepest station above both; nothing where the plan lacks one of them.
    pub fn deepest_above(&self, a: Label, b: Label) -> Option<Label>
        ensures { DeepestTold (stations_of self.now) a b result }
    {
        self.cave().deepest_above(a, b)
    }

    // The station at this depth on the way from the root to a station, or that station itself where the way is shorter;
    // nothing where the plan lacks it or the depth is 0.
    pub fn at_depth(&self, label: Label, depth: usize) -> Option<Label>
        ensures { AtDepthTold (stations_of self.now) label depth result }
    {
        self.cave().at_depth(label, depth)
    }

    // Writes the stations on the way between two, from the first to the second, and gives their count; what stands
    // behind them in the buffer is kept. Where the plan lacks one of them, nothing is written.
    pub fn way(&self, from: Label, to: Label, out: &mut [Label; 1024]) -> Option<usize>
        ensures written { WayTold (stations_of self.now) from to out.old out.new result }
        ensures only { OneWay }
    {
        self.cave().way(from, to, out)
    }
}
