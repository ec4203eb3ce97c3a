// A plan. Its memory is taken once, when it is made, so that no later call can fail for want of it.
ghost use Rattle.std.specs.Prelude.{◌≤◌, vec_capacity};
ghost use Rattle.tree.specs.Stations.{Canonical};

use tree::Station;

mod reading;
mod stations;
mod walking;

#[derive(Drop)]
pub struct Plan {
    stations: Vec<Station>,
    ghost room: { 1024 ≤ vec_capacity stations },
    ghost lawful: { Canonical stations.items },
}
