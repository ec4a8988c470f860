//! Rows under rising numbers, each found by its number and each removed when its time is over.
//!
//! `Rows` stands on an `IndexMap` of blocks: a block has the rows of `BLOCK` consecutive numbers, under the key that these numbers
//! divided by `BLOCK` give. Keys rise along the map, so the rows are in the order of their numbers, oldest first; a row is found
//! or removed by one look-up of a key and a walk over one block, and changed by two walks, of which the first finds it as it was.
//!
//! A bound is a moment before which each row lives. Each block has one, each 64 neighbouring blocks have one, and there is one of
//! all. A bound may be too early, never too late. Before the bound of all, `expire` is one comparison. From then on it goes over
//! the bounds of the groups, into the groups whose bound has come, and there into the blocks whose bound has come; the bounds that
//! it passes are found anew. `tell_dead` and `count_live` go the same way and leave all as it is. `change_all` goes over every row,
//! and leaves the bounds of groups and of all to the next `expire`. Nothing rests on moments that rise.
//!
//! `room`, `restore` and `copy` are the calls that take memory. `room` puts an empty block under the key of the next number, by the
//! map's insert, and `push` fills the block in place: nothing leans on a reserve of the map. Now and then, and where memory is
//! refused, `room` takes out the blocks without rows, and leaves the bounds of groups and of all to the next `expire`.
//!
//! `HashKey` keys the hash of a map. The tables above have maps whose keys others choose; the map of blocks is none of them.
//!
//! Other crates rest on this: contracts see the rows as a list, and each call does to the list what its clauses say
//! (`specs/Rows.antt`). Blocks and bounds are known to this crate alone.
#![tactic(auto)]

mod block;
mod blocks;
mod bounds;
mod expiry;
mod hash_key;
mod iter;
mod live;
mod plain;
mod row;
mod rows;

pub use hash_key::HashKey;
pub use iter::Iter;
pub use row::{Change, Row, Tally};
pub use rows::Rows;
