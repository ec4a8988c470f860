//! The round: datagrams that several workers answer over one lock.
//!
//! `Service::round` lets its workers claim the datagrams in batches (`rad_claim`), and ask one server for each batch with one
//! taking of a lock. What lies under the lock is what lies under a desk's (`rad_desk`), with the keeper of a log of the takings
//! (`rad_log`). A ticket of each taking shows, at the end, that the history has what its worker was answered: nothing is compared,
//! and nothing fails once the first exchange is made. One worker is the same, without a thread. Nothing is decided here: answers
//! are `rad_server`'s.
//!
//! Other crates rest on this: when `Service::round` returns `Ok`, the history leads from the server before to the one after, and
//! each datagram has its outcome by that history (`specs/Rounds.antt`).
#![tactic(auto)]

mod batch;
mod done;
mod gate;
mod gather;
mod lanes;
mod leftovers;
mod memory;
mod outcome;
mod round;
mod round_fault;
mod service;
mod shared;
mod timed;
mod worker;

pub use done::{Done, Marked};
pub use gate::{Gate, OpenGate};
pub use outcome::Outcome;
pub use round_fault::RoundFault;
pub use service::{ARRIVALS_MAX, Service, WORKERS_MAX};
pub use timed::Timed;
