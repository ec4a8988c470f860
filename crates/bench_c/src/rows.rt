//! Rows by themselves: `bench/tables.c`.
//!
//! The export fills a table of `rad_rows` and takes turns on it. A row comes and a row goes every millisecond. In a turn one
//! operation is timed, made so many times; then rows go and come until there are as many as before.
ghost use Rattle.std.specs.Prelude.{◌+◌, nat_lt};

use crate::clock;
use rad_config::MOMENT_MAX;
use rad_rows::{Change, Row, Rows, Tally};
use std::alloc::{AllocError, Global};

// From one row that is looked up to the next: odd, so that each of the rows is met, if their number is a power of two.
const STRIDE: u64 = 40_503;

// A row that lives for a span after the millisecond of its number.
#[derive(Clone, Copy, PartialEq, Eq)]
struct Entry {
    number: u64,
    mark: u64,
}

impl Row<u64> for Entry {
    ghost number = { λ entry. entry.number };

    ghost is_live = { λ span now entry. nat_lt now (entry.number + span) };

    fn number(&self) -> u64 {
        self.number
    }

    // A sum that saturates is above every moment.
    fn ends(&self, span: &u64) -> u64 {
        self.number.saturating_add(*span)
    }

    fn copy(&self) -> Result<Entry, AllocError> {
        Ok(*self)
    }

    fn same(&self, other: &Entry) -> bool {
        self == other
    }
}

// Marks a row.
#[derive(Clone, Copy)]
struct Marking {
    mark: u64,
}

impl Change<Entry> for Marking {
    ghost to = { λ marking entry. record entry { mark = marking.mark } };

    fn change(&self, entry: &mut Entry) {
        entry.mark = self.mark;
    }
}

// How many rows went.
#[derive(Clone, Copy)]
struct Gone {
    count: usize,
}

impl Tally<Entry> for Gone {
    ghost told = { λ old entry new. Unit {0} };

    fn leave(&mut self, _entry: &Entry) {
        self.count = self.count.wrapping_add(1);
    }
}

// What is timed.
#[derive(Clone, Copy, PartialEq, Eq)]
enum Operation {
    /// Expire, with nothing due.
    Idle,
    /// Expire a millisecond later, with one row due.
    Expire,
    /// Make room and push a row.
    Push,
    Get,
    Change,
}

impl Operation {
    fn of(operation: u32) -> Operation {
        match operation {
            0 => Operation::Idle,
            1 => Operation::Expire,
            2 => Operation::Push,
            3 => Operation::Get,
            _ => Operation::Change,
        }
    }
}

// Rows, of which so many live.
#[derive(Drop)]
struct Table {
    rows: Rows<Entry, u64>,
    size: u64,
    now: u64,
    place: u64,
}

impl Table {
    fn open(alloc: Global, size: u64) -> Table {
        Table {
            rows: Rows::open(alloc, size),
            size,
            now: size.min(MOMENT_MAX),
            place: 0,
        }
    }

    // Makes an operation so many times, and returns how many times it did what it should.
    fn operate(&mut self, operation: Operation, count: usize) -> usize {
        match operation {
            Operation::Idle => count.saturating_sub(self.expire(0, count)),
            Operation::Expire => self.expire(1, count),
            Operation::Push => self.push(count),
            Operation::Get => self.get(count),
            Operation::Change => self.change(count),
        }
    }

    // Rows go and come as often as the operation was made, unless it did that itself.
    fn restore(&mut self, operation: Operation, count: usize) {
        if operation != Operation::Expire {
            self.expire(1, count);
        }
        if operation != Operation::Push {
            self.push(count);
        }
    }

    // Expires so many times, each time so many milliseconds after the last, and returns how many rows went.
    fn expire(&mut self, gap: u64, count: usize) -> usize {
        let mut gone = Gone { count: 0 };
        for _ in 0..count {
            let now = self.now.saturating_add(gap).min(MOMENT_MAX);
            self.rows.expire(&mut gone, now);
            self.now = now;
        }
        gone.count
    }

    // Adds so many rows, and returns how many there was memory for.
    fn push(&mut self, count: usize) -> usize {
        let mut pushed: usize = 0;
        for _ in 0..count {
            if self.push_one() {
                pushed = pushed.wrapping_add(1);
            }
        }
        pushed
    }

    fn push_one(&mut self) -> bool {
        let Some(number) = self.rows.last().checked_add(1) else {
            return false;
        };
        if self.rows.room().is_err() {
            return false;
        }
        self.rows.push(Entry { number, mark: 0 });
        true
    }

    // Looks up so many rows, and returns how many were found.
    fn get(&mut self, count: usize) -> usize {
        let mut found: usize = 0;
        for _ in 0..count {
            let number = self.next_number();
            if self.rows.get(number).is_some() {
                found = found.wrapping_add(1);
            }
        }
        found
    }

    fn change(&mut self, count: usize) -> usize {
        for _ in 0..count {
            let number = self.next_number();
            self.rows.change(number, &Marking { mark: number });
        }
        count
    }

    // The number of a row, of another one each time.
    fn next_number(&mut self) -> u64 {
        self.place = self.place.wrapping_add(STRIDE) & self.size.wrapping_sub(1);
        self.rows.last().saturating_sub(self.place)
    }
}

fn fill_and_turn(
    alloc: Global,
    operation: Operation,
    rows: usize,
    count: usize,
    times: &mut [u64],
) -> usize {
    let mut table = Table::open(alloc, rows as u64);
    if table.push(rows) != rows {
        return 0;
    }
    take_turns(&mut table, operation, count, times)
}

fn take_turns(table: &mut Table, operation: Operation, count: usize, times: &mut [u64]) -> usize {
    let mut right: usize = 0;
    for time in times.iter_mut() {
        let start = clock::now();
        right = right.wrapping_add(table.operate(operation, count));
        *time = clock::now().wrapping_sub(start);
        table.restore(operation, count);
    }
    right
}

/// Takes as many turns as there are times on a table of so many rows, and puts down the nanoseconds of each, in which an operation
/// is made so many times. Returns how many times it did what it should; 0 without memory. The number of rows is a power of two, and
/// at least that of the times that the operation is made in a turn.
#[unsafe(no_mangle)]
pub extern "C" fn radpool_rows(
    alloc: Global,
    operation: u32,
    rows: usize,
    count: usize,
    times: &mut [u64],
) -> usize {
    fill_and_turn(alloc, Operation::of(operation), rows, count, times)
}
