// A cave: the list of a plan's stations, with what holds of every plan's stations.
ghost use Rattle.std.specs.Prelude.{◌≡◌, ◌<◌, length};
ghost use Rattle.tree.specs.Stations.{Canonical, station_label, parent_of, depth_of};

use label::Label;
use tree::Station;

// A station is named by its index in the list, also as a parent: a plan's memory is of fixed size and taken once, and the
// list in label order makes two plans with the same stations and legs equal.
#[derive(Clone, Copy)]
pub struct Cave<'a> {
    pub(crate) stations: &'a [Station],
    ghost lawful: { Canonical stations.now },
}

impl<'a> Cave<'a> {
    // The cave of these stations.
    pub fn new(stations: &'a [Station]) -> Cave<'a>
        requires { Canonical stations.now }
        ensures { result.stations.now ≡ stations.now }
    {
        Cave { stations }
    }
}

// The fields of a station. An index is below the length of one cave, which no type of an index can say, so each call asks for it.
impl Cave<'_> {
    pub(crate) fn label_of(&self, at: usize) -> Label
        requires { at < length self.now.stations.now }
        ensures { result ≡ station_label self.now.stations.now at }
    {
        self.stations[at].label
    }

    pub(crate) fn parent_of(&self, at: usize) -> usize
        requires { at < length self.now.stations.now }
        ensures { result ≡ parent_of self.now.stations.now at }
    {
        usize::from(self.stations[at].parent)
    }

    pub(crate) fn depth_of(&self, at: usize) -> usize
        requires { at < length self.now.stations.now }
        ensures { result ≡ depth_of self.now.stations.now at }
    {
        usize::from(self.stations[at].depth)
    }
}
