//! Claims: batches that several threads claim, each of them once.
//!
//! The threads share one word, which counts the numbers that were drawn. A thread that claims draws the next number, in one atomic
//! step: it is the next batch, or there are no more batches. Each thread claims with a seat of its own. `Claims::open` makes the
//! seats, and `Claims::close` takes them back and returns the batches of each. What a batch is, the caller knows: here it is a
//! number.
//!
//! Other crates rest on this: when `Claims::close` returns `Ok`, each batch was claimed with one seat, and once (`AreDealt` of
//! `specs/Claims.antt`).
#![tactic(auto)]

mod claims;
mod close_fault;
mod rule;
mod seat;
mod view;

pub use claims::{BATCHES_MAX, Claims, SEATS_MAX};
pub use close_fault::CloseFault;
pub use rule::word_is_bounded;
pub use seat::ClaimSeat;
