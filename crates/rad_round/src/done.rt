//! What a round made.

use crate::outcome::Outcome;
use rad_server::Entry;

/// What a round made.
#[derive(Drop)]
pub struct Done {
    /// One for each arrival, in their order.
    pub outcomes: Vec<Outcome>,
    /// The exchanges, oldest first. The tag of an entry is the number of its arrival, counted from 0.
    pub history: Vec<Entry>,
}

/// What a round made, and which requests of its history were fresh.
#[derive(Drop)]
pub struct Marked {
    pub done: Done,
    /// One for each entry.
    pub marks: Vec<bool>,
}
