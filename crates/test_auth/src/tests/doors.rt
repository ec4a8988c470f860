//! Datagrams of each kind, from each source and at each port.

use super::{
    Case, OTHER_CLIENT, OTHER_START, RFC_ACCOUNTING_STATUS, RFC_STATUS, SIGNED_REQUEST, START,
    STRICT_CLIENT, arrival, have_verdicts, three_clients,
};
use crate::tests::holds;
use rad_auth::Discard::{
    BadAttributes, BadAuthenticator, BadLength, BadMessageAuthenticator, NoMessageAuthenticator,
    Short, Truncated, UnknownClient, WrongCode,
};
use rad_auth::Door::{Acct, Auth};
use rad_auth::{Discard, Request, check8};
use test_common::{CLIENT, RFC_REQUEST, STATUS_SERVER, STRANGER};

// Packets without an attribute.
const EMPTY_REQUEST: &[u8; 20] = b"\x01\x07\x00\x14\0\0\0\0\0\0\0\0\0\0\0\0\0\0\0\0";

const EMPTY_START: &[u8; 20] = b"\x04\x07\x00\x14\0\0\0\0\0\0\0\0\0\0\0\0\0\0\0\0";

const EMPTY_STATUS: &[u8; 20] = b"\x0c\x00\x00\x14\0\0\0\0\0\0\0\0\0\0\0\0\0\0\0\0";

const RESPONSE: &[u8; 20] = b"\x05\x07\x00\x14\0\0\0\0\0\0\0\0\0\0\0\0\0\0\0\0";

const ACCEPT: &[u8; 20] = b"\x02\x07\x00\x14\0\0\0\0\0\0\0\0\0\0\0\0\0\0\0\0";

const NINETEEN_OCTETS: &[u8; 19] = b"\x01\x07\x00\x13\0\0\0\0\0\0\0\0\0\0\0\0\0\0\0";

// Packets that say another Length than they have.
const LENGTH_19: &[u8; 20] = b"\x04\x07\x00\x13\0\0\0\0\0\0\0\0\0\0\0\0\0\0\0\0";

const LENGTH_21: &[u8; 20] = b"\x04\x07\x00\x15\0\0\0\0\0\0\0\0\0\0\0\0\0\0\0\0";

const BAD_ATTRIBUTE: &[u8; 22] = b"\x04\x07\x00\x16\0\0\0\0\0\0\0\0\0\0\0\0\0\0\0\0\x28\x01";

const PADDED_REQUEST: &[u8; 59] = b"\
    \x01\x00\x00\x38\
    \x0f\x40\x3f\x94\x73\x97\x80\x57\xbd\x83\xd5\xcb\x98\xf4\x22\x7a\
    \x01\x06nemo\
    \x02\x12\x0d\xbe\x70\x8d\x93\xd4\x13\xce\x31\x96\xe4\x3f\x78\x2a\x0a\xee\
    \x04\x06\xc0\xa8\x01\x10\
    \x05\x06\x00\x00\x00\x03\
    \x21\x03a";

const PADDED_START: &[u8; 29] = b"\
    \x04\x07\x00\x1a\
    \xbf\x75\x02\x99\xba\x71\x11\xcf\x8a\x9d\xef\x2b\x87\x2d\x43\x6c\
    \x28\x06\x00\x00\x00\x01\
    \x21\x03a";

#[test]
fn each_datagram_gets_its_verdict(rt: HostRuntime) {
    const ROWS: &[Case] = &[
        // Those that are admitted.
        ("an Access-Request", CLIENT, Auth, RFC_REQUEST, Ok((0, 0))),
        (
            "a padded Access-Request",
            CLIENT,
            Auth,
            PADDED_REQUEST,
            Ok((0, 0)),
        ),
        (
            "a signed Access-Request",
            CLIENT,
            Auth,
            SIGNED_REQUEST,
            Ok((0, 0)),
        ),
        ("a Status-Server", CLIENT, Auth, STATUS_SERVER, Ok((0, 0))),
        ("a Status-Server", CLIENT, Acct, STATUS_SERVER, Ok((0, 0))),
        (
            "an empty Access-Request",
            CLIENT,
            Auth,
            EMPTY_REQUEST,
            Ok((0, 7)),
        ),
        ("a start", CLIENT, Acct, START, Ok((0, 7))),
        ("a padded start", CLIENT, Acct, PADDED_START, Ok((0, 7))),
        ("the RFC's", CLIENT, Auth, RFC_STATUS, Ok((0, 218))),
        (
            "the RFC's",
            CLIENT,
            Acct,
            RFC_ACCOUNTING_STATUS,
            Ok((0, 179)),
        ),
        (
            "the other's start",
            OTHER_CLIENT,
            Acct,
            OTHER_START,
            Ok((1, 8)),
        ),
        ("a start", STRICT_CLIENT, Acct, START, Ok((2, 7))),
        // Those from no client, and those that are no packets.
        ("no octets", STRANGER, Acct, b"", Err(UnknownClient)),
        (
            "Length 21 of 20 octets",
            STRANGER,
            Acct,
            LENGTH_21,
            Err(UnknownClient),
        ),
        (
            "a signed Access-Request",
            STRANGER,
            Auth,
            SIGNED_REQUEST,
            Err(UnknownClient),
        ),
        ("no octets", CLIENT, Acct, b"", Err(Short)),
        ("19 octets", CLIENT, Auth, NINETEEN_OCTETS, Err(Short)),
        ("Length 19", CLIENT, Acct, LENGTH_19, Err(BadLength)),
        (
            "Length 21 of 20 octets",
            CLIENT,
            Acct,
            LENGTH_21,
            Err(Truncated),
        ),
        (
            "Length 21 of 20 octets",
            CLIENT,
            Auth,
            LENGTH_21,
            Err(Truncated),
        ),
        (
            "an attribute of Length 1",
            CLIENT,
            Acct,
            BAD_ATTRIBUTE,
            Err(BadAttributes),
        ),
        (
            "an attribute of Length 1",
            CLIENT,
            Auth,
            BAD_ATTRIBUTE,
            Err(BadAttributes),
        ),
        // Those of Codes that the port doesn't accept.
        (
            "an Access-Request",
            CLIENT,
            Acct,
            RFC_REQUEST,
            Err(WrongCode),
        ),
        (
            "a signed Access-Request",
            CLIENT,
            Acct,
            SIGNED_REQUEST,
            Err(WrongCode),
        ),
        (
            "an empty Access-Request",
            CLIENT,
            Acct,
            EMPTY_REQUEST,
            Err(WrongCode),
        ),
        (
            "a strict client's",
            STRICT_CLIENT,
            Acct,
            RFC_REQUEST,
            Err(WrongCode),
        ),
        ("a start", CLIENT, Auth, START, Err(WrongCode)),
        (
            "an Authenticator of zeros",
            CLIENT,
            Auth,
            EMPTY_START,
            Err(WrongCode),
        ),
        ("an Access-Accept", CLIENT, Auth, ACCEPT, Err(WrongCode)),
        ("an Access-Accept", CLIENT, Acct, ACCEPT, Err(WrongCode)),
        (
            "an Accounting-Response",
            CLIENT,
            Auth,
            RESPONSE,
            Err(WrongCode),
        ),
        (
            "an Accounting-Response",
            CLIENT,
            Acct,
            RESPONSE,
            Err(WrongCode),
        ),
        // Those of which an Authenticator or an HMAC is wrong or absent.
        (
            "an Authenticator of zeros",
            CLIENT,
            Acct,
            EMPTY_START,
            Err(BadAuthenticator),
        ),
        (
            "another client's start",
            OTHER_CLIENT,
            Acct,
            START,
            Err(BadAuthenticator),
        ),
        (
            "another client's",
            OTHER_CLIENT,
            Auth,
            STATUS_SERVER,
            Err(BadMessageAuthenticator),
        ),
        (
            "another client's",
            OTHER_CLIENT,
            Acct,
            STATUS_SERVER,
            Err(BadMessageAuthenticator),
        ),
        (
            "an empty Status-Server",
            CLIENT,
            Auth,
            EMPTY_STATUS,
            Err(NoMessageAuthenticator),
        ),
        (
            "an empty Status-Server",
            CLIENT,
            Acct,
            EMPTY_STATUS,
            Err(NoMessageAuthenticator),
        ),
    ];
    have_verdicts(&rt, &three_clients(&rt, rt.alloc()), ROWS);
}

// Whether a request was admitted with these octets.
fn has_octets(lane: &Option<Result<Request, Discard>>, want: &[u8]) -> bool {
    match lane {
        Some(Ok(request)) => request.packet.octets() == want,
        _ => false,
    }
}

#[test]
fn padding_is_no_part_of_a_request(rt: HostRuntime) {
    let clients = three_clients(&rt, rt.alloc());
    let mut arrivals = [None; 8];
    arrivals[0] = arrival(CLIENT, Auth, PADDED_REQUEST);
    arrivals[1] = arrival(CLIENT, Acct, PADDED_START);
    let requests = check8(&clients, &arrivals);
    let (access, start) = (&requests[0], &requests[1]);
    let is_so = has_octets(access, RFC_REQUEST) && has_octets(start, START);
    holds(&rt, is_so, "the octets without the padding");
}
