//! Lanes: the places of the arrivals of a batch, which are worked on side by side.

/// The lanes of a batch, and so the most arrivals that it has.
pub(crate) const BATCH: usize = 8;
