//! The addresses of a pool: how often each is in use, and the least one that isn't.
//!
//! `Places` counts the uses of each address, and marks those without any. A mark is a bit in a word of 64; a second level of words
//! has a bit for each word of the first that isn't 0. So the least free one of 4,096 addresses is found in two words, and of 65,536
//! in 17 at most. The number that was noted last for an address is a hint for whoever looks for its user.
//!
//! Other crates rest on this: contracts see the uses and the notes as lists, and each call does to them what its clauses say
//! (`specs/Places.antt`). The marks are known to this crate alone.
#![tactic(auto)]

mod marks;
mod places;

pub use places::Places;
