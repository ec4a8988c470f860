//! Rows beside a plain list of them.
ghost use Rattle.std.specs.Prelude.{◌≤◌};
ghost use Rattle.rad_rows.specs.Rows.{moment_max};

use super::entry::{Ageing, Entry, Gone, Renewal};
use rad_rows::{Row, Rows};
use std::alloc::{AllocError, Global};

/// Both have the same calls behind them.
#[derive(Drop)]
pub struct Pair {
    rows: Rows<Entry, u64>,
    plain: Vec<Entry>,
    span: u64,
}

impl Pair {
    pub fn open(alloc: Global, span: u64) -> Pair {
        Pair {
            rows: Rows::open(alloc, span),
            plain: Vec::new(alloc),
            span,
        }
    }

    /// Makes the call that is drawn on both. Whether they answer the same and have the same rows then.
    pub fn call(&mut self, draw: u64, now: u64) -> bool
        requires { now ≤ moment_max }
    {
        let number = self.rows.last().saturating_sub(draw / 16 % 300);
        let answers = match draw % 16 {
            0 => self.remove(number),
            1 | 2 => self.change(number, now),
            3 => self.expire(now),
            4 => self.counts(now),
            5 => self.copies() != Ok(false),
            6 => self.finds(number),
            7 => self.change_all(draw / 16 % 8),
            _ => self.push(now),
        };
        answers && self.has_same_rows()
    }

    // Without memory for a row neither has it.
    fn push(&mut self, now: u64) -> bool {
        let Some(number) = self.rows.last().checked_add(1) else {
            return false;
        };
        if self.plain.reserve(1).is_err() || self.rows.room().is_err() {
            return true;
        }
        let entry = Entry { number, made: now };
        self.rows.push(entry);
        self.plain.push(entry).is_ok()
    }

    fn remove(&mut self, number: u64) -> bool {
        self.rows.remove(number);
        self.plain.retain(|entry| entry.number != number);
        true
    }

    fn change(&mut self, number: u64, now: u64) -> bool {
        let was = self.rows.change(number, &Renewal { made: now });
        let is_same = was == find(&self.plain, number);
        for entry in self.plain.iter_mut() {
            if entry.number == number {
                entry.made = now;
            }
        }
        is_same
    }

    fn change_all(&mut self, by: u64) -> bool {
        self.rows.change_all(&Ageing { by });
        for entry in self.plain.iter_mut() {
            entry.made = entry.made.saturating_sub(by);
        }
        true
    }

    // The same rows go, in the same order. Before they go a tally is told of the same rows, and they stay.
    fn expire(&mut self, now: u64) -> bool
        requires { now ≤ moment_max }
    {
        let mut told = Gone::none();
        self.rows.tell_dead(&mut told, now);
        let stay = self.has_same_rows();
        let mut gone = Gone::none();
        self.rows.expire(&mut gone, now);
        let span = self.span;
        let expected = dead(&self.plain, span, now);
        self.plain
            .retain(|entry| now < entry.made.saturating_add(span));
        stay && told == gone && gone == expected
    }

    fn counts(&self, now: u64) -> bool
        requires { now ≤ moment_max }
    {
        let live = count_live(&self.plain, self.span, now);
        self.rows.count_live(now) == live
    }

    fn copies(&self) -> Result<bool, AllocError> {
        let mut copy = self.rows.copy()?;
        let is_same = copy.same(&self.rows);
        copy.room()?;
        let last = copy.last();
        if last == u64::MAX {
            return Ok(false);
        }
        copy.push(Entry {
            number: last + 1,
            made: 0,
        });
        Ok(is_same && !copy.same(&self.rows))
    }

    fn finds(&self, number: u64) -> bool {
        let found = match self.rows.get(number) {
            Some(entry) => Some(*entry),
            None => None,
        };
        found == find(&self.plain, number)
    }

    fn has_same_rows(&self) -> bool {
        if self.rows.len() != self.plain.len() || self.rows.spans() != self.span {
            return false;
        }
        self.rows
            .iter()
            .zip(self.plain.iter())
            .all(|(row, entry)| row == entry)
    }
}

// The rows that aren't live.
fn dead(plain: &[Entry], span: u64, now: u64) -> Gone {
    let mut gone = Gone::none();
    for entry in plain {
        if entry.made.saturating_add(span) <= now {
            gone.add(entry.number);
        }
    }
    gone
}

fn count_live(plain: &[Entry], span: u64, now: u64) -> usize {
    plain
        .iter()
        .filter(|entry| now < entry.made.saturating_add(span))
        .count()
}

fn find(plain: &[Entry], number: u64) -> Option<Entry> {
    for entry in plain {
        if entry.number == number {
            return Some(*entry);
        }
    }
    None
}
