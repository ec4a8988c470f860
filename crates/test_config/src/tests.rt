//! A text is read as a configuration, or the fault is printed that it has.
mod addresses;
mod faults;
mod groups;
mod keys;
mod limits;
mod networks;
mod readers;
mod replies;
mod sums;

use rad_config::{Config, ConfigFault};
use std::alloc::AllocError;
use std::process::Abort;

// Asserts once, of `what`.
fn holds(rt: &impl Abort, is_so: bool, what: &str) {
    assert!(rt; is_so, "{what}");
}

fn is_number(rt: &impl Abort, number: usize, want: usize, what: &str) {
    assert_eq!(rt; number, want, "{what}");
}

fn are_octets(rt: &impl Abort, octets: &[u8], want: &[u8], what: &str) {
    assert_eq!(rt; octets, want, "{what}");
}

fn is_printed(rt: &impl Abort, printed: &str, want: &str, what: &str) {
    assert_eq!(rt; printed, want, "at {what:?}");
}

// The printed fault of a text, or `read`.
fn outcome(rt: &impl AllocGlobal, text: &str) -> Result<String, AllocError> {
    match fault(rt, text) {
        None => String::from_str(rt.alloc(), "read"),
        Some(fault) => fault.to_string(rt.alloc()),
    }
}

fn fault(rt: &impl AllocGlobal, text: &str) -> Option<ConfigFault> {
    Config::read(rt.alloc(), text).err()
}

// Asserts the outcome of a text.
fn reads_as<R: Abort + AllocGlobal>(rt: &R, text: &str, want: &str) {
    let printed = outcome(rt, text).expect(rt, text);
    is_printed(rt, printed.as_str(), want, text);
}

// Asserts the outcome of each text.
fn read_as<R: Abort + AllocGlobal>(rt: &R, cases: &[(&str, &str)]) {
    for (text, want) in cases {
        reads_as(rt, text, want);
    }
}

// The attributes that the first user's Access-Accepts are given.
fn reply_octets(config: &Config) -> &[u8] {
    match config.users().first() {
        Some(user) => user.reply.attributes_octets(),
        None => b"no user",
    }
}
