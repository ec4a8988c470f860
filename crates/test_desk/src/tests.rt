//! A desk of two passes is opened over a server that remembers nothing yet. The octets of requests are those of RFC 2865 and
//! RFC 5997.
mod asking;
mod desks;
mod requests;
mod texts;

use std::process::Abort;

// Asserts once, of `what`.
fn holds(rt: &impl Abort, is_so: bool, what: &str) {
    assert!(rt; is_so, "{what}");
}
