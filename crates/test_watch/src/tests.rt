//! What a watcher tells of turns, whose outcomes are made up.
mod lines;
mod metrics;
mod rosters;
mod transcripts;
mod turns;

use std::process::Abort;

// Asserts once, of `what`.
fn holds(rt: &impl Abort, is_so: bool, what: &str) {
    assert!(rt; is_so, "{what}");
}
