//! The table of rows.
ghost use Rattle.std.specs.Prelude.{◌≡◌, ◌≤◌, ◌<◌, ◌+◌, ◌++◌, ◌∷◌, ◌↔◌, ◌^◌, [], IfOk, IsOk, IsTrue, OnErr, OnOk, false, filter};
ghost use Rattle.std.specs.Prelude.{find, length, map, option_copied, true};
ghost use Rattle.rad_rows.specs.Entries.{key_of};
ghost use Rattle.rad_rows.specs.Rows.{AreSame, IsRising, Tells, change_row, has_number, has_other, moment_max};

use crate::block::{BLOCK, Block};
use crate::blocks::{self, BLOCKS_MIN};
use crate::bounds::Bounds;
use crate::expiry;
use crate::iter::Iter;
use crate::live::Live;
use crate::row::{Change, Row, Tally};
use indexmap::IndexMap;
use std::alloc::{AllocError, Global};
use std::marker::Model;

/// The rows, oldest first, and the last number that was given.
///
/// Contracts see the list, the last number, how long rows live, and whether memory is ready for one more. Moments are in
/// milliseconds, at most 2^62, and need not rise.
#[derive(Drop)]
pub struct Rows<T: Row<S>, S: Copy> {
    // Each block under the number of each of its rows, divided by `BLOCK`.
    blocks: IndexMap<u64, Block<T, S>>,
    bounds: Bounds,
    // With more blocks than this, some are looked for that have no row.
    limit: usize,
    spans: S,
    // The last number that was given, or 0.
    last: u64,
    count: usize,
    // Whether memory was made ready since the last row came.
    ready: bool,
}

impl<T: Row<S>, S: Copy> Model for Rows<T, S> {
    ghost use Rattle.std.specs.Prelude.{◌+◌};
    ghost use Rattle.rad_rows.specs.Entries.{IsConsistent, all_rows};
    ghost use Rattle.rad_rows.specs.Rows.{SeenRows};

    ghost Value = { SeenRows T S };

    ghost view = { λ rows. record {
      rows = all_rows rows.blocks.entries;
      last = rows.last;
      spans = rows.spans;
      has_room = rows.ready;
    } };

    ghost invariant = { λ rows. IsConsistent T.number T.is_live
        rows.blocks.entries rows.bounds rows.spans rows.last rows.count rows.ready };
}

impl<T: Row<S>, S: Copy> Rows<T, S> {
    /// No row yet. `spans` tells how long rows will live.
    pub fn open(alloc: Global, spans: S) -> Rows<T, S>
        ensures rows { result.rows ≡ [] }
        ensures last { result.last ≡ 0 }
        ensures spans { result.spans ≡ spans }
        ensures room { result.has_room ≡ false }
    {
        Rows {
            blocks: IndexMap::new(alloc),
            bounds: Bounds::open(alloc),
            limit: BLOCKS_MIN,
            spans,
            last: 0,
            count: 0,
            ready: false,
        }
    }

    /// The rows, oldest first; also those that are no longer live, until `expire`.
    pub fn iter(&self) -> Iter<'_, T, S>
        ensures { result ≡ self.now.rows }
    {
        Iter {
            rest: self.blocks.as_slice(),
            here: &[],
        }
    }

    /// How many rows there are.
    pub fn len(&self) -> usize
        ensures { result ≡ length self.now.rows }
    {
        self.count
    }

    /// The last number that was given, or 0.
    pub fn last(&self) -> u64
        ensures { result ≡ self.now.last }
    {
        self.last
    }

    /// Numbers rise from row to row, the first is 1 or more, and none is above the last that was given.
    ///
    /// The call costs nothing: it does nothing at run time.
    pub fn numbers_rise(&self)
        ensures rising { IsRising T.number self.now.last self.now.rows }
        ensures few { length self.now.rows ≤ self.now.last }
        ensures fits { self.now.last < 2 ^ 64 }
    {
        let _last = self.last;
    }

    /// How long rows live.
    pub fn spans(&self) -> S
        ensures { result ≡ self.now.spans }
    {
        self.spans
    }

    /// The row of this number.
    pub fn get(&self, number: u64) -> Option<&T>
        ensures { option_copied result ≡ find (has_number T.number number) self.now.rows }
    {
        blocks::find(&self.blocks, number)
    }

    /// How many rows are live at a moment.
    pub fn count_live(&self, now: u64) -> usize
        requires { now ≤ moment_max }
        ensures { result ≡ length (filter (T.is_live self.now.spans now) self.now.rows) }
    {
        let mut live = Live { count: self.count };
        expiry::tell_dead(&self.blocks, &self.bounds, &self.spans, &mut live, now);
        live.count
    }

    /// Makes memory ready for one more row.
    pub fn room(&mut self) -> Result<(), AllocError>
        ensures rows { self.new.rows ≡ self.old.rows }
        ensures last { self.new.last ≡ self.old.last }
        ensures spans { self.new.spans ≡ self.old.spans }
        ensures ready { OnOk result (self.new.has_room ≡ true) }
        ensures unready { OnErr result (self.new.has_room ≡ false) }
        ensures still { self.old.has_room ≡ true → IsOk result }
    {
        if self.ready {
            return Ok(());
        }
        let key = next_key(self.last);
        let Rows {
            blocks,
            bounds,
            limit,
            spans,
            ..
        } = self;
        *limit = blocks::compact(blocks, bounds, spans, key, *limit);
        blocks::make_room(blocks, bounds, spans, key)?;
        self.ready = true;
        Ok(())
    }

    /// Puts a row last, with the next number.
    pub fn push(&mut self, row: T)
        requires room { self.old.has_room ≡ true }
        requires next { T.number row ≡ self.old.last + 1 }
        ensures rows { self.new.rows ≡ self.old.rows ++ row ∷ [] }
        ensures last { self.new.last ≡ self.old.last + 1 }
        ensures spans { self.new.spans ≡ self.old.spans }
        ensures room { self.new.has_room ≡ false }
    {
        let number = row.number();
        blocks::push(&mut self.blocks, &mut self.bounds, &self.spans, row);
        self.last = number;
        self.count += 1;
        self.ready = false;
    }

    /// Puts a row last, whose number is above the last that was given. The numbers between are given to none.
    ///
    /// After an error the rows and the last number are as before.
    pub fn restore(&mut self, row: T) -> Result<(), AllocError>
        requires { self.old.last < T.number row }
        ensures rows { OnOk result (self.new.rows ≡ self.old.rows ++ row ∷ []) }
        ensures last { OnOk result (self.new.last ≡ T.number row) }
        ensures same_rows { OnErr result (self.new.rows ≡ self.old.rows) }
        ensures same_last { OnErr result (self.new.last ≡ self.old.last) }
        ensures spans { self.new.spans ≡ self.old.spans }
        ensures room { self.new.has_room ≡ false }
    {
        self.room_at(row.number())?;
        self.push(row);
        Ok(())
    }

    // Makes memory ready for a row of this number, which is the next then.
    fn room_at(&mut self, number: u64) -> Result<(), AllocError>
        requires { self.old.last < number }
        ensures rows { self.new.rows ≡ self.old.rows }
        ensures spans { self.new.spans ≡ self.old.spans }
        ensures last { OnOk result (self.new.last + 1 ≡ number) }
        ensures ready { OnOk result (self.new.has_room ≡ true) }
        ensures same_last { OnErr result (self.new.last ≡ self.old.last) }
        ensures unready { OnErr result (self.new.has_room ≡ false) }
    {
        self.ready = false;
        let Rows {
            blocks,
            bounds,
            spans,
            ..
        } = self;
        blocks::try_room(blocks, bounds, spans, number / BLOCK)?;
        self.last = number - 1;
        self.ready = true;
        Ok(())
    }

    /// Removes the row of this number. With a number of no row nothing changes.
    pub fn remove(&mut self, number: u64)
        ensures rows { self.new.rows ≡ filter (has_other T.number number) self.old.rows }
        ensures last { self.new.last ≡ self.old.last }
        ensures spans { self.new.spans ≡ self.old.spans }
        ensures room { self.new.has_room ≡ self.old.has_room }
    {
        let count = blocks::remove(&mut self.blocks, number, self.count);
        self.count = count;
    }

    /// Changes the row of this number, which keeps its number, and returns it as it was. With a number of no row nothing changes.
    pub fn change<C: Change<T>>(&mut self, number: u64, by: &C) -> Option<T>
    where
        T: Copy,
        requires { (row : T) → T.number (C.to by.now row) ≡ T.number row }
        ensures was { result ≡ find (has_number T.number number) self.old.rows }
        ensures rows { self.new.rows
            ≡ map (change_row T.number number (C.to by.now)) self.old.rows }
        ensures last { self.new.last ≡ self.old.last }
        ensures spans { self.new.spans ≡ self.old.spans }
        ensures room { self.new.has_room ≡ self.old.has_room }
    {
        blocks::change(&mut self.blocks, &mut self.bounds, number, by)
    }

    /// Changes each row, which keeps its number. It goes over every row.
    pub fn change_all<C: Change<T>>(&mut self, by: &C)
        requires { (row : T) → T.number (C.to by.now row) ≡ T.number row }
        ensures rows { self.new.rows ≡ map (C.to by.now) self.old.rows }
        ensures last { self.new.last ≡ self.old.last }
        ensures spans { self.new.spans ≡ self.old.spans }
        ensures room { self.new.has_room ≡ self.old.has_room }
    {
        blocks::change_all(&mut self.blocks, &mut self.bounds, by);
    }

    /// Tells the tally of each row that isn't live at a moment, oldest first. The rows stay.
    pub fn tell_dead<G: Tally<T>>(&self, tally: &mut G, now: u64)
        requires { now ≤ moment_max }
        ensures { Tells G.told T.is_live self.now.spans now self.now.rows tally.old tally.new }
    {
        expiry::tell_dead(&self.blocks, &self.bounds, &self.spans, tally, now);
    }

    /// Removes the rows that aren't live at a moment, and tells the tally of each, oldest first.
    pub fn expire<G: Tally<T>>(&mut self, tally: &mut G, now: u64)
        requires { now ≤ moment_max }
        ensures rows { self.new.rows ≡ filter (T.is_live self.old.spans now) self.old.rows }
        ensures last { self.new.last ≡ self.old.last }
        ensures spans { self.new.spans ≡ self.old.spans }
        ensures room { self.new.has_room ≡ self.old.has_room }
        ensures told { Tells G.told T.is_live self.old.spans now
            self.old.rows tally.old tally.new }
    {
        let Rows {
            blocks,
            bounds,
            spans,
            count,
            ..
        } = self;
        *count = expiry::sweep(blocks, bounds, spans, tally, now, *count);
    }

    /// Equal rows, with the same last number. No memory is ready for one more.
    pub fn copy(&self) -> Result<Rows<T, S>, AllocError>
        ensures rows { IfOk result (λ copy. copy.rows ≡ self.now.rows) }
        ensures last { IfOk result (λ copy. copy.last ≡ self.now.last) }
        ensures spans { IfOk result (λ copy. copy.spans ≡ self.now.spans) }
        ensures room { IfOk result (λ copy. copy.has_room ≡ false) }
    {
        let last = self.last();
        let mut copy = Rows::open(*self.blocks.allocator(), self.spans);
        let mut rest = self.iter();
        while let Some(row) = rest.next() {
            copy.restore(row.copy()?)?;
        }
        copy.skip(last);
        Ok(copy)
    }

    /// Gives no number up to this one from now on. No memory is ready then.
    pub fn skip(&mut self, last: u64)
        requires { self.old.last ≤ last }
        ensures rows { self.new.rows ≡ self.old.rows }
        ensures last { self.new.last ≡ last }
        ensures spans { self.new.spans ≡ self.old.spans }
        ensures room { self.new.has_room ≡ false }
    {
        self.last = last;
        self.ready = false;
    }

    /// Whether the other table has the same rows and the same last number. How long rows live isn't compared.
    pub fn same(&self, other: &Rows<T, S>) -> bool
        ensures { IsTrue result ↔ AreSame self.now other.now }
    {
        self.last == other.last && self.count == other.count && same_rows(self.iter(), other.iter())
    }
}

// Whether the same rows are left, where they are as many.
fn same_rows<T: Row<S>, S: Copy>(rows: Iter<'_, T, S>, others: Iter<'_, T, S>) -> bool
    requires { length rows ≡ length others }
    ensures { IsTrue result ↔ (rows ≡ others) }
{
    let mut rows = rows;
    let mut others = others;
    while let Some(row) = rows.next() {
        let Some(other) = others.next() else {
            return true;
        };
        if !row.same(other) {
            return false;
        }
    }
    true
}

// The key of the block for the number after this one.
fn next_key(last: u64) -> u64
    ensures { result ≡ key_of (last + 1) }
{
    if last % BLOCK == BLOCK - 1 {
        last / BLOCK + 1
    } else {
        last / BLOCK
    }
}
