//! Snapshots that are written and read back, rows that are at fault, other configurations, and crashes.
mod crashes;
mod faults;
mod servers;
mod stores;
mod written;

use std::process::Abort;

// Asserts once, of `what`.
fn holds(rt: &impl Abort, is_so: bool, what: &str) {
    assert!(rt; is_so, "{what}");
}
