//! Rounds and turns of a service that remembers nothing yet.
mod coming;
mod datagrams;
mod exchanges;
mod gates;
mod journals;
mod rounds;
mod serving;
mod texts;
mod turns;
mod watching;

use std::process::Abort;

// Asserts once, of `what`.
fn holds(rt: &impl Abort, is_so: bool, what: &str) {
    assert!(rt; is_so, "{what}");
}
