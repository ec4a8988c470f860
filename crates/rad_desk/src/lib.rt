//! The desk: one server that many threads ask.
//!
//! Each thread holds a `Pass`. `Desk::ask` makes one exchange under the desk's lock and keeps a `Receipt` of it in the pass;
//! `Desk::close` takes the passes back and compares their receipts with the one history that was kept under the lock. Nothing is
//! decided here: answers are `rad_server`'s.
//!
//! Other crates rest on this: when `Desk::close` returns `Ok`, the history leads from the server given to the one returned, it has
//! as many entries as the passes have receipts, and each receipt's entry is at its place (`specs/Settlements.antt`).
#![tactic(auto)]

mod desk;
mod locked;
mod mismatch;
mod opened;
mod pass;
mod receipt;
mod settling;

pub use desk::{Desk, PASSES_MAX};
#[doc(hidden)]
pub use locked::{Locked, Unlocked};
pub use mismatch::Mismatch;
pub use opened::Opened;
pub use pass::Pass;
pub use receipt::Receipt;
pub use settling::{Closed, misplaced_disagree, settle};
