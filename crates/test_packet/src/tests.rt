//! Packets that are read, and bodies and frames that are written.
mod bodies;
mod packets;

use std::alloc::AllocError;
use std::process::Abort;

// Each case asserts by this. Memory that is refused makes none right.
fn holds(rt: &impl Abort, is_so: Result<bool, AllocError>, what: &str) {
    assert!(rt; is_so == Ok(true), "{what}");
}
