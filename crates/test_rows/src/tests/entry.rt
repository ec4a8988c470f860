//! A row, its change, and who is told of it.
ghost use Rattle.std.specs.Prelude.{◌+◌, ◌-◌, nat_lt};

use rad_rows::{Change, Row, Tally};
use std::alloc::AllocError;

/// A row that lives for a span after it was made.
#[derive(Clone, Copy, PartialEq, Eq)]
pub struct Entry {
    pub number: u64,
    pub made: u64,
}

impl Row<u64> for Entry {
    ghost number = { λ entry. entry.number };

    ghost is_live = { λ span now entry. nat_lt now (entry.made + span) };

    fn number(&self) -> u64 {
        self.number
    }

    // A sum that saturates is above every moment.
    fn ends(&self, span: &u64) -> u64 {
        self.made.saturating_add(*span)
    }

    fn copy(&self) -> Result<Entry, AllocError> {
        Ok(*self)
    }

    fn same(&self, other: &Entry) -> bool {
        self == other
    }
}

/// The row was made at another moment.
#[derive(Clone, Copy)]
pub struct Renewal {
    pub made: u64,
}

impl Change<Entry> for Renewal {
    ghost to = { λ renewal entry. record entry { made = renewal.made } };

    fn change(&self, entry: &mut Entry) {
        entry.made = self.made;
    }
}

/// The row was made so much earlier, but not before 0.
#[derive(Clone, Copy)]
pub struct Ageing {
    pub by: u64,
}

impl Change<Entry> for Ageing {
    ghost to = { λ ageing entry. record entry { made = entry.made - ageing.by } };

    fn change(&self, entry: &mut Entry) {
        entry.made = entry.made.saturating_sub(self.by);
    }
}

/// The numbers of the rows that went, in their order.
#[derive(Clone, Copy, PartialEq, Eq)]
pub struct Gone {
    pub count: u64,
    pub digest: u64,
}

impl Gone {
    pub fn none() -> Gone {
        Gone {
            count: 0,
            digest: 0,
        }
    }

    pub fn add(&mut self, number: u64) {
        self.count = self.count.wrapping_add(1);
        self.digest = self.digest.wrapping_mul(31).wrapping_add(number);
    }
}

impl Tally<Entry> for Gone {
    ghost told = { λ old entry new. Unit {0} };

    fn leave(&mut self, entry: &Entry) {
        self.add(entry.number);
    }
}
