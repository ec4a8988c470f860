//! A log of takings: what each taking of a lock appended to a history.
//!
//! The keeper of a log lies under the lock, beside the history, and knows the log whole. Whoever takes the lock and appends to the
//! history lets the keeper publish what was appended, and gets a ticket of it. A ticket shows, once it is back with the keeper,
//! that its taking stands in the log; until then it may go to any thread. So nothing of a history needs to be compared to know that
//! it has what its threads appended.
//!
//! The log itself is a proof's: no value of it is made. What runs is one word, which never changes: `publish` makes one exchange on
//! it, and `find` one load.
//!
//! Other crates rest on this: `Keeper::publish` puts what is new in the history last in the log, and the taking of a ticket is in
//! the log that `Keeper::find` is given (`specs/Logs.antt`).
#![tactic(auto)]

mod log;
mod rule;

pub use log::{FirstSeat, Keeper, Log, Logged, Ticket};
pub use rule::{Taking, View};
