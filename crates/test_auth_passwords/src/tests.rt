//! Digests were computed by Python's hashlib, but for those of the exchanges of RFC 2865, section 7.

mod chap;
mod hidden_passwords;
mod passwords;
mod side_by_side;

use std::process::Abort;

// Asserts once, of `what`.
fn holds(rt: &impl Abort, is_so: bool, what: &str) {
    assert!(rt; is_so, "{what}");
}

// The same of one of several, counted from 0.
fn holds_at(rt: &impl Abort, is_so: bool, what: &str, number: usize) {
    assert!(rt; is_so, "{what}: {number}");
}
