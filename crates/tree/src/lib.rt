// A plan's stations as a tree: what is known of them, and the mathematics of ways and walks on them.
#![tactic(auto)]

use label::Label;

// A station of a plan: its label, the index of the next station towards the root, and its depth. The stations of a
// plan stand in label order, so that the root, which has the lowest label, is station 0; it is its own parent.
// A list and no tree of boxes: its memory is taken once, and two plans with the same stations and legs have equal lists.
#[derive(Clone, Copy, PartialEq, Eq)]
pub struct Station {
    pub label: Label,
    pub parent: u16,
    pub depth: u16,
}
