// The records of a file, in its order.
ghost use Rattle.std.specs.Prelude.{◌≡◌, ◌<◌, None, [], ◌∷◌, ◌++◌, length};
ghost use Rattle.records.specs.Files.{seek};
ghost use Rattle.records.specs.Lists.{records_of, join_of, JoinedBefore, Lawful};

use crate::record::Record;
use arrayvec::ArrayVec;
use std::marker::Model;

// At most 1,024 records, with what holds of those of any file.
#[derive(Drop)]
pub struct Records {
    // Of a fixed capacity, so that a reading never wants memory.
    rows: ArrayVec<Record, 1024>,
}

impl Model for Records {
    ghost use Rattle.tree.specs.Records as tree;

    ghost Value = { tree.Records };

    ghost use Rattle.records.specs.Lists.{records_of, Lawful};

    ghost view = { λ r. records_of r.rows.items };

    ghost invariant = { λ r. Lawful r.rows.items };
}

impl Records {
    // No record.
    pub fn new() -> Records
        ensures { result ≡ records_of [] }
    {
        Records {
            rows: ArrayVec::new(),
        }
    }

    // Appends a record with a new label that is joined to an earlier one. The first needs no join, and any that it has is free.
    #[tactic(auto, using(crate::proofs::Listing::lawful_more))]
    pub fn push(&mut self, row: Record)
        requires room { length self.old.labels < 1024 }
        requires fresh { seek row.label self.old.labels ≡ None }
        requires joined { JoinedBefore (length self.old.labels) row.joined }
        ensures { self.new ≡ record { labels = self.old.labels ++ row.label ∷ []; joins = self.old.joins ++ join_of row.joined ∷ [] } }
    {
        self.rows.push(row);
    }

    // The records, in the file's order.
    pub fn as_slice(&self) -> &[Record]
        ensures value { records_of result.now ≡ self.now }
        ensures lawful { Lawful result.now }
    {
        &self.rows
    }
}
