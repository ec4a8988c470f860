//! The rows, one after the other.
ghost use Rattle.std.specs.Iterator.{YieldsFirstBy, item_count};

use crate::block::Block;
use crate::row::Row;
use indexmap::map::Slice;
use std::marker::Model;

/// The rows that are left, oldest first. Contracts see them as a list.
#[derive(Drop)]
pub struct Iter<'a, T: Row<S>, S: Copy> {
    // The blocks that weren't begun.
    pub(crate) rest: Slice<'a, u64, Block<T, S>>,
    // What is left of the block before them.
    pub(crate) here: &'a [T],
}

impl<'a, T: Row<S>, S: Copy> Model for Iter<'a, T, S> {
    ghost use Rattle.std.specs.Prelude.{List, ◌++◌};
    ghost use Rattle.rad_rows.specs.Entries.{all_rows};

    ghost Value = { List T };

    ghost view = { λ iter. iter.here.now ++ all_rows iter.rest };
}

impl<'a, T: Row<S>, S: Copy> Iterator for Iter<'a, T, S> {
    type Item = &'a T;

    ghost next_gives = { YieldsFirstBy (λ item. item.now) (λ s. s) };

    ghost remaining = { item_count (λ s. s) };

    fn next(&mut self) -> Option<&'a T> {
        while self.here.is_empty() {
            let ((_, block), rest) = self.rest.split_first()?;
            self.here = block.rows();
            self.rest = rest;
        }
        let (first, rest) = self.here.split_first()?;
        self.here = rest;
        Some(first)
    }
}
