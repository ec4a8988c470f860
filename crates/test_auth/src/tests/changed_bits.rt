//! Requests that were changed on their way.

use super::{SIGNED_REQUEST, START, STRICT_CLIENT, Verdict, three_clients, verdict_on};
use crate::tests::holds_at;
use rad_auth::Discard::{
    BadAttributes, BadAuthenticator, BadLength, BadMessageAuthenticator, NoMessageAuthenticator,
    Truncated, WrongCode,
};
use rad_auth::Door::{Acct, Auth};
use rad_auth::{Clients, Discard, Door};
use std::process::Abort;
use test_common::{CLIENT, STATUS_SERVER};

// The most octets of a request that is changed.
const LEN_MAX: usize = 74;

// A request: its name, its port and its octets. If it has a Message-Authenticator, that is last.
type Case = (&'static str, Door, &'static [u8]);

const CASES: &[Case] = &[
    ("an Access-Request", Auth, SIGNED_REQUEST),
    ("a Status-Server", Auth, STATUS_SERVER),
    ("a Status-Server for accounting", Acct, STATUS_SERVER),
    ("an Accounting-Request", Acct, START),
];

// How many of them have a Message-Authenticator.
const SIGNED: usize = 3;

// The verdict on octets with this bit turned, counted from the first octet's lowest.
fn verdict_on_turned(
    clients: &Clients,
    source: u32,
    door: Door,
    octets: &[u8],
    bit: usize,
) -> Option<Verdict> {
    let len = octets.len().min(LEN_MAX);
    let mut turned = [0; LEN_MAX];
    turned[..len].copy_from_slice(&octets[..len]);
    turned[bit / 8 % LEN_MAX] ^= 1 << (bit % 8);
    verdict_on(clients, source, door, &turned[..len])
}

// A request with a bit turned is discarded.
fn no_bit_may_turn(rt: &impl Abort, clients: &Clients, (name, door, octets): Case) {
    for bit in 0..octets.len().min(LEN_MAX) * 8 {
        let verdict = verdict_on_turned(clients, STRICT_CLIENT, door, octets, bit);
        holds_at(rt, matches!(verdict, Some(Err(_))), name, bit);
    }
}

// How many of the start's bits, each turned alone, have this discard.
fn bits_with(clients: &Clients, discard: Discard) -> usize {
    let mut count: usize = 0;
    for bit in 0..START.len() * 8 {
        if verdict_on_turned(clients, CLIENT, Acct, START, bit) == Some(Err(discard)) {
            count = count.saturating_add(1);
        }
    }
    count
}

// All 208 bits together.
#[test]
fn each_bit_of_a_start_has_its_discard(rt: HostRuntime) {
    const ROWS: &[(Discard, usize)] = &[
        (BadLength, 6),
        (Truncated, 9),
        (BadAttributes, 9),
        (WrongCode, 7),
        (BadAuthenticator, 176),
        (NoMessageAuthenticator, 1),
    ];
    let clients = three_clients(&rt, rt.alloc());
    for (discard, count) in ROWS.iter() {
        holds_at(&rt, bits_with(&clients, *discard) == *count, "bits", *count);
    }
}

// They come from the strict client. From another an Access-Request needs no Message-Authenticator, and is admitted where
// the Type of that attribute was changed.
#[test]
fn a_request_with_a_changed_bit_is_never_admitted(rt: HostRuntime) {
    let clients = three_clients(&rt, rt.alloc());
    for case in CASES.iter() {
        no_bit_may_turn(&rt, &clients, *case);
    }
}

fn no_bit_of_its_hmac_may_turn(rt: &impl Abort, clients: &Clients, (name, door, octets): Case) {
    let bits = octets.len().min(LEN_MAX) * 8;
    for bit in bits.saturating_sub(128)..bits {
        let verdict = verdict_on_turned(clients, CLIENT, door, octets, bit);
        holds_at(rt, verdict == Some(Err(BadMessageAuthenticator)), name, bit);
    }
}

#[test]
fn each_bit_of_a_message_authenticator_counts(rt: HostRuntime) {
    let clients = three_clients(&rt, rt.alloc());
    for case in CASES.iter().take(SIGNED) {
        no_bit_of_its_hmac_may_turn(&rt, &clients, *case);
    }
}
