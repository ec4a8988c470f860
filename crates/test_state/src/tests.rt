//! Generations in files in memory: opened again, damaged, other files, and a crash at each call of the disk; and what faults are
//! told as.
mod changed;
mod crashes;
mod files;
mod generations;
mod moments;
mod texts;

use std::process::Abort;

// Asserts once, of `what`.
fn holds(rt: &impl Abort, is_so: bool, what: &str) {
    assert!(rt; is_so, "{what}");
}
