//! Eight arrivals in one call.
ghost use Rattle.std.specs.Prelude.{◌<◌};

use super::{
    OTHER_CLIENT, OTHER_START, PROXIED_START, SIGNED_REQUEST, START, Verdict, add, arrival,
    three_clients, verdict,
};
use crate::tests::{holds, holds_at};
use rad_auth::Discard::{
    BadAuthenticator, BadMessageAuthenticator, Short, UnknownClient, WrongCode,
};
use rad_auth::Door::{Acct, Auth};
use rad_auth::{Clients, Door, check8};
use std::alloc::Global;
use std::process::Abort;
use test_common::{CLIENT, RFC_REQUEST, STATUS_SERVER, STRANGER};

// A datagram's source, port and octets, and its verdict.
type Lane = Option<(u32, Door, &'static [u8], Verdict)>;

// Asserts the verdict on each datagram.
fn have_verdicts(rt: &impl Abort, clients: &Clients, lanes: &[Lane; 8]) {
    let mut arrivals = [None; 8];
    let mut wanted = [None; 8];
    for lane in 0..8 {
        if let Some((source, door, octets, want)) = lanes[lane] {
            arrivals[lane] = arrival(source, door, octets);
            wanted[lane] = Some(want);
        }
    }
    for (lane, request) in check8(clients, &arrivals).iter().enumerate() {
        holds_at(rt, verdict(request) == wanted[lane], "lane", lane);
    }
}

const MIXED: &[Lane; 8] = &[
    Some((CLIENT, Acct, START, Ok((0, 7)))),
    None,
    Some((CLIENT, Auth, RFC_REQUEST, Ok((0, 0)))),
    Some((CLIENT, Auth, &[1; 19], Err(Short))),
    Some((CLIENT, Acct, STATUS_SERVER, Ok((0, 0)))),
    Some((STRANGER, Acct, START, Err(UnknownClient))),
    Some((STRANGER, Auth, RFC_REQUEST, Err(UnknownClient))),
    Some((STRANGER, Acct, b"", Err(UnknownClient))),
];

const DIGESTS_AND_HMACS: &[Lane; 8] = &[
    Some((CLIENT, Acct, START, Ok((0, 7)))),
    Some((CLIENT, Auth, SIGNED_REQUEST, Ok((0, 0)))),
    Some((
        OTHER_CLIENT,
        Auth,
        SIGNED_REQUEST,
        Err(BadMessageAuthenticator),
    )),
    None,
    Some((OTHER_CLIENT, Acct, OTHER_START, Ok((1, 8)))),
    Some((CLIENT, Auth, START, Err(WrongCode))),
    Some((CLIENT, Acct, OTHER_START, Err(BadAuthenticator))),
    Some((CLIENT, Acct, PROXIED_START, Ok((0, 7)))),
];

#[test]
fn each_lane_has_its_own_verdict(rt: HostRuntime) {
    let clients = three_clients(&rt, rt.alloc());
    have_verdicts(&rt, &clients, MIXED);
    have_verdicts(&rt, &clients, DIGESTS_AND_HMACS);
}

#[test]
fn a_request_says_where_it_came_from_and_to(rt: HostRuntime) {
    let clients = three_clients(&rt, rt.alloc());
    let mut arrivals = [None; 8];
    arrivals[4] = arrival(OTHER_CLIENT, Acct, OTHER_START);
    let is_so = match &check8(&clients, &arrivals)[4] {
        Some(Ok(request)) => {
            (request.source, request.port, request.door) == (OTHER_CLIENT, 1024, Acct)
        }
        _ => false,
    };
    holds(&rt, is_so, "where a request came from and to");
}

// Requests of two clients, each with its HMAC: the source, the port, and the octets. Their Identifiers are 16 to 23.
const SIGNED: &[(u32, Door, &[u8]); 8] = &[
    (
        CLIENT,
        Auth,
        b"\x01\x10\x00\x2b\
          authenticator #0\
          \x01\x05kay\
          \x50\x12\x56\x44\xfb\xe7\xda\x63\x4d\x3f\xe6\x65\xac\x5c\xfb\x44\x1b\x1e",
    ),
    (
        OTHER_CLIENT,
        Auth,
        b"\x01\x11\x00\x2d\
          authenticator #1\
          \x50\x12\xed\xee\x4c\x48\x00\x7a\x6f\x95\xa9\x12\xcb\x73\xb1\x12\xa6\xe2\
          \x01\x07bruce",
    ),
    (
        OTHER_CLIENT,
        Acct,
        b"\x0c\x12\x00\x26\
          authenticator #2\
          \x50\x12\x29\x6a\xf5\xea\xa0\x4e\x45\x77\xe1\xa8\x12\xab\x6b\xb9\x39\x3e",
    ),
    (
        CLIENT,
        Auth,
        b"\x0c\x13\x00\x26\
          authenticator #3\
          \x50\x12\xcc\xb8\xec\x17\x3b\xb6\xae\x4a\xbf\xec\x0b\xfb\x27\x6c\xcf\xa6",
    ),
    (
        CLIENT,
        Auth,
        b"\x01\x14\x00\x74\
          authenticator #4\
          \x01\x05kay\
          \x21\x49a proxy's state of so many octets that the sum runs over one block more\
          \x50\x12\xd0\x65\xab\x64\xb1\x9e\x0e\x79\x03\xd1\x79\x18\x96\x05\x0b\xfc",
    ),
    (
        OTHER_CLIENT,
        Acct,
        b"\x0c\x15\x00\x2b\
          authenticator #5\
          \x50\x12\x5f\xe2\x97\x20\xac\xef\x72\x4f\xda\x0d\x88\xbb\xe2\x4c\x0d\x7e\
          \x21\x05abc",
    ),
    (
        CLIENT,
        Acct,
        b"\x0c\x16\x00\x2b\
          authenticator #6\
          \x21\x05abc\
          \x50\x12\x7d\x5a\xe2\x75\x55\xcb\x94\x9d\x42\x58\x94\xb7\xdc\x6d\xdf\xf7",
    ),
    (
        OTHER_CLIENT,
        Auth,
        b"\x01\x17\x00\x34\
          authenticator #7\
          \x01\x06nemo\
          \x4f\x03a\
          \x50\x12\x14\x07\x14\x67\xdd\x51\x7a\xf6\xd9\xf8\x9e\xd3\xe4\x57\x35\x44\
          \x21\x05abc",
    ),
];

// The lanes, where this source stands for the first client, and this for the other. They are discarded, or
// admitted.
fn signed_lanes(first: u32, other: u32, refused: bool) -> [Lane; 8] {
    let mut lanes = [None; 8];
    for lane in 0..8 {
        let (source, door, octets) = SIGNED[lane];
        let (source, place) = if source == CLIENT {
            (first, 0)
        } else {
            (other, 1)
        };
        let want = if refused {
            Err(BadMessageAuthenticator)
        } else {
            Ok((place, 16 + lane as u8))
        };
        lanes[lane] = Some((source, door, octets, want));
    }
    lanes
}

#[test]
fn each_hmac_is_computed_under_its_own_secret(rt: HostRuntime) {
    let clients = three_clients(&rt, rt.alloc());
    let admitted = signed_lanes(CLIENT, OTHER_CLIENT, false);
    have_verdicts(&rt, &clients, &admitted);
    let refused = signed_lanes(OTHER_CLIENT, CLIENT, true);
    have_verdicts(&rt, &clients, &refused);
}

// 10.0.0.0, which is the first of eight clients. The others are 10.0.0.1 to 10.0.0.7.
const FIRST_OF_EIGHT: u32 = 0x0A00_0000;

// What a client has and sends: a secret, an Access-Request with its HMAC, and an Accounting-Request.
type OfClient = (&'static [u8; 9], &'static [u8], &'static [u8]);

// The Identifiers are 32 to 39 and 40 to 47.
const EIGHT: &[OfClient; 8] = &[
    (
        b"secret #0",
        b"\x01\x20\x00\x2b\
          authenticator #0\
          \x01\x05kay\
          \x50\x12\x68\x88\x09\x3a\x5e\xcf\x32\x8c\x0f\xe4\x00\x3b\xc4\x4b\xb6\xf7",
        b"\x04\x28\x00\x1a\
          \xf5\x3c\x53\x09\x26\x7b\x91\xf9\x77\x56\xb7\xc0\x6d\xb8\xf1\x82\
          \x28\x06\x00\x00\x00\x01",
    ),
    (
        b"secret #1",
        b"\x01\x21\x00\x2b\
          authenticator #1\
          \x01\x05kay\
          \x50\x12\xad\x58\x4d\xb7\xf9\x05\xf5\x3d\xa8\xfe\x3f\x45\x44\x91\xf8\x29",
        b"\x04\x29\x00\x1a\
          \xcf\xaa\x94\x48\x64\x9a\xc4\xe7\x09\xde\xb0\x4b\xa4\xa0\xc6\xe8\
          \x28\x06\x00\x00\x00\x01",
    ),
    (
        b"secret #2",
        b"\x01\x22\x00\x2b\
          authenticator #2\
          \x01\x05kay\
          \x50\x12\xd8\x8b\x79\x43\xd1\x7a\x3e\x34\x02\xc5\xc5\xa9\xcc\x8d\xa4\x28",
        b"\x04\x2a\x00\x1a\
          \x21\x38\x53\xc3\xc7\xc8\x42\xc7\x62\x19\xfd\xe4\x4b\x36\xef\xbd\
          \x28\x06\x00\x00\x00\x01",
    ),
    (
        b"secret #3",
        b"\x01\x23\x00\x2b\
          authenticator #3\
          \x01\x05kay\
          \x50\x12\x02\x8c\xc1\xa8\x42\xf8\x71\xef\xf6\xf6\x55\x85\x6d\xbe\x33\x88",
        b"\x04\x2b\x00\x1a\
          \xf8\x34\x7c\xcd\x95\xa1\x72\x8d\xf6\x1b\x11\x72\xb9\x87\x4d\x47\
          \x28\x06\x00\x00\x00\x01",
    ),
    (
        b"secret #4",
        b"\x01\x24\x00\x2b\
          authenticator #4\
          \x01\x05kay\
          \x50\x12\x0f\x66\x4b\xa3\x3f\xf3\xf5\xc2\xca\x0e\x29\x63\x6c\x9e\xdc\xee",
        b"\x04\x2c\x00\x1a\
          \xbe\xef\xec\x32\x0a\xa5\x34\x86\x47\xae\x08\xb5\x3b\xdd\x70\xf1\
          \x28\x06\x00\x00\x00\x01",
    ),
    (
        b"secret #5",
        b"\x01\x25\x00\x2b\
          authenticator #5\
          \x01\x05kay\
          \x50\x12\x75\x5b\x5c\x54\xbb\x64\xa5\xa1\x41\xd4\x05\x4b\x74\xf1\x66\x94",
        b"\x04\x2d\x00\x1a\
          \x85\xf5\x47\xc5\xed\xcb\x90\x75\x0f\xa3\xf5\xe7\x37\xdb\x0b\xb5\
          \x28\x06\x00\x00\x00\x01",
    ),
    (
        b"secret #6",
        b"\x01\x26\x00\x2b\
          authenticator #6\
          \x01\x05kay\
          \x50\x12\x84\x84\x8a\xea\x4a\xda\x79\x68\x60\x59\x0c\xe4\xc6\xbb\x70\x4e",
        b"\x04\x2e\x00\x1a\
          \xe0\xa9\xa4\x32\x30\x9e\x5b\x4b\x00\xe6\x9b\x1d\xee\xf7\xdd\xa8\
          \x28\x06\x00\x00\x00\x01",
    ),
    (
        b"secret #7",
        b"\x01\x27\x00\x2b\
          authenticator #7\
          \x01\x05kay\
          \x50\x12\x63\xbf\x94\x79\x5c\xd0\x40\x26\x90\xfc\xb0\xa2\x52\x4f\x05\xe0",
        b"\x04\x2f\x00\x1a\
          \x8c\x34\xd9\xa6\xd9\xba\x3d\xb8\xb5\xa7\x89\x95\xd9\x68\xf4\x31\
          \x28\x06\x00\x00\x00\x01",
    ),
];

fn of_eight(lane: usize) -> OfClient
    requires { lane < 8 }
{
    EIGHT[lane]
}

fn eight_clients(rt: &impl Abort, alloc: Global) -> Clients {
    let mut clients = Clients::new(alloc);
    for lane in 0..8 {
        let source = FIRST_OF_EIGHT + lane as u32;
        let (secret, _, _) = of_eight(lane);
        add(rt, &mut clients, (source, secret, false)).expect(rt, "a client");
    }
    clients
}

// What the eight clients send to a port, where the source is the client so many places on.
fn eight_lanes(door: Door, shift: usize) -> [Lane; 8]
    requires { shift < 8 }
{
    let mut lanes = [None; 8];
    for lane in 0..8 {
        let (_, access, accounting) = of_eight(lane);
        let (octets, identifier, discard) = match door {
            Auth => (access, 32, BadMessageAuthenticator),
            Acct => (accounting, 40, BadAuthenticator),
        };
        let place = ((lane + shift) % 8) as u32;
        let want = if shift == 0 {
            Ok((place, identifier + lane as u8))
        } else {
            Err(discard)
        };
        lanes[lane] = Some((FIRST_OF_EIGHT + place, door, octets, want));
    }
    lanes
}

// From its own client each is admitted, and from none of the seven others.
#[test]
fn each_lane_is_checked_under_its_own_key(rt: HostRuntime) {
    let clients = eight_clients(&rt, rt.alloc());
    for shift in 0..8 {
        have_verdicts(&rt, &clients, &eight_lanes(Auth, shift));
        have_verdicts(&rt, &clients, &eight_lanes(Acct, shift));
    }
}
