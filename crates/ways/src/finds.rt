// Finding a label.
ghost use Rattle.tree.specs.Index.{Found};
ghost use Rattle.ways.specs.Calls.{BothFound};

use crate::cave::Cave;
use label::Label;

impl Cave<'_> {
    // The index of the station with this label, if there is one.
    pub(crate) fn find(&self, label: Label) -> Option<usize>
        ensures { Found self.now.stations.now label result }
    {
        // Keys are compared, which are one number each; `Label::order` proves that they are ordered as labels are.
        let found = self
            .stations
            .binary_search_by_key(&label.key(), |station| station.label.key());
        found.ok()
    }

    // The indices of two stations, if both are there.
    #[tactic(auto, using(crate::proofs::Finding::both_found))]
    pub(crate) fn find_both(&self, a: Label, b: Label) -> Option<(usize, usize)>
        ensures { BothFound self.now.stations.now a b result }
    {
        self.find(a).zip(self.find(b))
    }
}
