// Making a plan, and reading a file into it.
ghost use Rattle.std.specs.Prelude.{◌≡◌, Ok, Err};
ghost use Rattle.records.specs.Files.{read_file};
ghost use Rattle.tree.specs.Stations.{Canonical, single};
ghost use Rattle.tree.specs.Caves.{OneCave};
ghost use Rattle.plan.specs.Views.{stations_of};
ghost use Rattle.plan.specs.Loads.{Loaded, Reads};

use super::Plan;
use chart::chart;
use label::Label;
use records::{PlanFault, read};
use std::alloc::{AllocError, Global};
use tree::Station;

impl Plan {
    // The plan made without a file: the station `0` alone. Its only refusal is want of memory.
    pub fn new(heap: Global) -> Result<Plan, AllocError>
        ensures { elim result [ Ok p ↦ stations_of p ≡ single | Err e ↦ Unit {0} ] }
    {
        let mut stations = Vec::with_capacity(heap, 1024)?;
        stations.push_reserved(Station {
            label: Label::default(),
            parent: 0,
            depth: 1,
        });
        Ok(Plan { stations })
    }

    // Its stations, in label order.
    #[tactic(auto, using(tree::proofs::Same::one_cave))]
    pub fn stations(&self) -> &[Station]
        ensures value { result.now ≡ stations_of self.now }
        ensures lawful { Canonical result.now }
        ensures one { OneCave }
    {
        self.stations.as_slice()
    }

    // Reads a plan file. A file that is refused leaves the plan as it was.
    #[tactic(auto, using(tree::proofs::Same::one_cave))]
    pub fn read(&mut self, file: &[u8]) -> Result<(), PlanFault>
        ensures value { Loaded (read_file file.now) self.old self.new result }
        ensures exactly { Reads file.now (stations_of self.new) result }
        ensures one { OneCave }
    {
        let records = read(file)?;
        chart(&records, &mut self.stations);
        Ok(())
    }
}
