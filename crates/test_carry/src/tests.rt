//! A server's rows are put in by hand, and carried to a server of another configuration; then what it remembers is compared with
//! rows that are written down.
mod answering;
mod carrying;
mod configurations;
mod planting;

use std::process::Abort;

// Asserts once, of `what`.
fn holds(rt: &impl Abort, is_so: bool, what: &str) {
    assert!(rt; is_so, "{what}");
}
