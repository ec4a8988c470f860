//! What is noted beside the rows, and is told of rows that go.
ghost use Rattle.rad_recent.specs.Notes.{Leaves};

use crate::clients;
use crate::index::{self, Index};
use crate::numbered::Numbered;
use rad_rows::Tally;

/// Which row each key has, and how many rows take the share of each client of the configuration that the table was opened with.
#[derive(Drop)]
pub(crate) struct Notes {
    pub(crate) index: Index,
    pub(crate) clients: Vec<u64>,
}

impl Tally<Numbered> for Notes {
    ghost told = { λ old row new. Leaves old row new };

    fn leave(&mut self, row: &Numbered) {
        index::forget(&mut self.index, &row.kept.key);
        clients::remove_one(&mut self.clients, row.kept.client);
    }
}
