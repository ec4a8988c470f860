//! A kept reply with its number.
ghost use Rattle.std.specs.Prelude.{◌≡◌, ◌≤◌, ◌↔◌, IsTrue, length};
ghost use Rattle.rad_config.specs.Spans.{moment_max};
ghost use Rattle.rad_recent.specs.Index.{is_row_live, replies_of};
ghost use Rattle.rad_recent.specs.Recent.{is_reply_live};

use crate::kept::Kept;
use rad_rows::{Iter, Row};
use std::alloc::AllocError;

/// A kept reply under a number. A later reply has a greater one.
#[derive(Drop)]
pub(crate) struct Numbered {
    pub(crate) number: u64,
    pub(crate) kept: Kept,
}

impl Row<u64> for Numbered {
    ghost number = { λ row. row.number };

    ghost is_live = { λ window now row. is_reply_live window now row.kept };

    fn number(&self) -> u64 {
        self.number
    }

    // A sum that saturates is above every moment.
    fn ends(&self, window: &u64) -> u64 {
        self.kept.made.saturating_add(*window)
    }

    fn copy(&self) -> Result<Numbered, AllocError> {
        let kept = self.kept.copy()?;
        Ok(Numbered {
            number: self.number,
            kept,
        })
    }

    fn same(&self, other: &Numbered) -> bool {
        self.number == other.number && self.kept.same(&other.kept)
    }
}

/// Whether a reply is live at a moment.
pub(crate) fn is_live(row: &Numbered, window: u64, now: u64) -> bool
    requires { now ≤ moment_max }
    ensures { result ≡ is_row_live window now row.now }
{
    now < row.ends(&window)
}

/// Whether the same replies are left, where they are as many.
pub(crate) fn same_replies(rows: Iter<'_, Numbered, u64>, others: Iter<'_, Numbered, u64>) -> bool
    requires { length rows ≡ length others }
    ensures { IsTrue result ↔ (replies_of rows.entry ≡ replies_of others.entry) }
{
    let mut rows = rows;
    let mut others = others;
    while let Some(row) = rows.next() {
        let Some(other) = others.next() else {
            return true;
        };
        if !row.kept.same(&other.kept) {
            return false;
        }
    }
    true
}
