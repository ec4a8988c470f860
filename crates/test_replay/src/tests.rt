//! What `make` and `replay` write, and the lines that they read.
mod make;
mod replay;
mod streams;
mod text;
mod transcripts;

use std::alloc::AllocError;
use std::process::Abort;

// Asserts once, of `what`.
fn holds(rt: &impl Abort, is_so: bool, what: &str) {
    assert!(rt; is_so, "{what}");
}

fn is_number(rt: &impl Abort, number: usize, want: usize, what: &str) {
    assert!(rt; number == want, "{what}: {number}");
}

fn is_text(rt: &impl Abort, text: &str, want: &str, what: &str) {
    assert!(rt; text == want, "{what}: {text}");
}

fn are_octets(rt: &impl Abort, octets: &[u8], want: &[u8], what: &str) {
    assert!(rt; octets == want, "{what}");
}

fn concat(rt: &impl AllocGlobal, parts: &[&str]) -> Result<String, AllocError> {
    parts.concat(rt.alloc())
}
