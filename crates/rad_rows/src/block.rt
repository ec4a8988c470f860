//! A block of rows.
ghost use Rattle.std.specs.Prelude.{◌≡◌, ◌≤◌, ◌<◌, ◌++◌, ◌∷◌, [], find, length, option_copied, IfOk, OnOk, nat_lt};
ghost use Rattle.rad_rows.specs.Blocks.{BlockLives, block_changed, block_mapped, block_without, cut_block};
ghost use Rattle.rad_rows.specs.Rows.{Tells, has_number, moment_max};

use crate::plain;
use crate::row::{Change, Row, Tally};
use std::alloc::{AllocError, Global};
use std::marker::Model;

/// For how many consecutive numbers a block is.
pub const BLOCK: u64 = 64;

/// Rows in order, and their bound.
#[derive(Drop)]
pub struct Block<T: Row<S>, S: Copy> {
    rows: Vec<T>,
    spans: S,
    // Each row lives before this moment.
    bound: u64,
}

impl<T: Row<S>, S: Copy> Model for Block<T, S> {
    ghost use Rattle.std.specs.Prelude.{All};
    ghost use Rattle.std.specs.Vec.{vec_capacity};
    ghost use Rattle.rad_rows.specs.Blocks.{LivesUntil, SeenBlock};

    ghost Value = { SeenBlock T S };

    ghost view = { λ block. record {
      rows = block.rows.items;
      spans = block.spans;
      capacity = vec_capacity block.rows;
    } };

    ghost invariant = { λ block.
        All (LivesUntil T.is_live block.spans block.bound) block.rows.items };
}

impl<T: Row<S>, S: Copy> Block<T, S> {
    /// No row yet, and memory for as many as there are numbers.
    pub fn open(alloc: Global, spans: S) -> Result<Block<T, S>, AllocError>
        ensures rows { IfOk result (λ block. block.rows ≡ []) }
        ensures spans { IfOk result (λ block. block.spans ≡ spans) }
        ensures room { IfOk result (λ block. 0 < block.capacity) }
    {
        Ok(Block {
            rows: Vec::with_capacity(alloc, BLOCK as usize)?,
            spans,
            bound: u64::MAX,
        })
    }

    pub fn rows(&self) -> &[T]
        ensures { result.now ≡ self.now.rows }
    {
        &self.rows
    }

    pub fn len(&self) -> usize
        ensures { result ≡ length self.now.rows }
    {
        self.rows.len()
    }

    /// A moment before which each row lives.
    pub fn bound(&self) -> u64
        ensures { BlockLives T.is_live result self.now }
    {
        self.bound
    }

    /// Whether there is memory for one more row.
    pub fn has_room(&self) -> bool
        ensures { result ≡ nat_lt (length self.now.rows) self.now.capacity }
    {
        self.rows.len() < self.rows.capacity()
    }

    /// Makes memory ready for one more row.
    pub fn reserve(&mut self) -> Result<(), AllocError>
        ensures rows { self.new.rows ≡ self.old.rows }
        ensures spans { self.new.spans ≡ self.old.spans }
        ensures ready { OnOk result (length self.new.rows < self.new.capacity) }
    {
        self.rows.reserve(1)?;
        Ok(())
    }

    /// Puts a row last.
    pub fn push(&mut self, row: T)
        requires { length self.old.rows < self.old.capacity }
        ensures rows { self.new.rows ≡ self.old.rows ++ row ∷ [] }
        ensures spans { self.new.spans ≡ self.old.spans }
    {
        let bound = self.bound.min(row.ends(&self.spans));
        if self.rows.push(row).is_ok() {
            self.bound = bound;
        }
    }

    /// The row of this number.
    pub fn find(&self, number: u64) -> Option<&T>
        ensures { option_copied result ≡ find (has_number T.number number) self.now.rows }
    {
        plain::find(&self.rows, number)
    }

    /// Removes the row of this number.
    pub fn remove(&mut self, number: u64)
        ensures { self.new ≡ block_without T.number number self.old }
    {
        plain::remove(&mut self.rows, number);
    }

    /// Changes the row of this number, and returns it as it was.
    pub fn change<C: Change<T>>(&mut self, number: u64, by: &C) -> Option<T>
    where
        T: Copy,
        ensures was { result ≡ find (has_number T.number number) self.old.rows }
        ensures block { self.new ≡ block_changed T.number number (C.to by.now) self.old }
    {
        let Block { rows, spans, bound } = self;
        plain::change(rows, spans, bound, number, by)
    }

    /// Changes each row.
    pub fn change_all<C: Change<T>>(&mut self, by: &C)
        ensures { self.new ≡ block_mapped (C.to by.now) self.old }
    {
        let Block { rows, spans, bound } = self;
        *bound = plain::change_all(rows, spans, by);
    }

    /// Tells the tally of each row that isn't live at a moment. The rows stay.
    pub fn tell_dead<G: Tally<T>>(&self, tally: &mut G, now: u64)
        requires { now ≤ moment_max }
        ensures { Tells G.told T.is_live self.now.spans now self.now.rows tally.old tally.new }
    {
        if now < self.bound {
            return;
        }
        plain::tell(&self.rows, &self.spans, tally, now);
    }

    /// Removes the rows that aren't live at a moment, and tells the tally of each.
    pub fn sweep<G: Tally<T>>(&mut self, tally: &mut G, now: u64)
        requires { now ≤ moment_max }
        ensures cut { self.new ≡ cut_block T.is_live now self.old }
        ensures told { Tells G.told T.is_live self.old.spans now
            self.old.rows tally.old tally.new }
    {
        if now < self.bound {
            return;
        }
        let bound = plain::sweep(&mut self.rows, &self.spans, tally, now);
        self.bound = bound;
    }
}
