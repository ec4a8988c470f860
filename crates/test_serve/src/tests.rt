//! Sockets are on 127.0.0.1, each test on ports of its own. What a socket was sent there is in it when `send_to` returns.
mod client;
mod failures;
mod lives;
mod ports;
mod rounds;
mod serving;
mod shelf;

use std::process::Abort;

// Asserts once, of `what`.
fn holds(rt: &impl Abort, is_so: bool, what: &str) {
    assert!(rt; is_so, "{what}");
}

/// 127.0.0.1, most significant octet first.
const LOOPBACK: u32 = 0x7F00_0001;
