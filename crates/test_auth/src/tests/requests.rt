//! Requests as `sign_request` writes them.

use super::Attribute::{Address, Name, Password, Port, Proxy, Short, Status, Text, Zeros};
use super::{
    Attribute, OTHER_CLIENT, PROXIED_START, RFC_ACCOUNTING_STATUS, RFC_STATUS, SIGNED_REQUEST,
    START, extend, has_verdict, new_frame, proxied, sign, three_clients,
};
use crate::tests::holds;
use rad_auth::Discard::{BadAuthenticator, BadMessageAuthenticator};
use rad_auth::Door::{Acct, Auth};
use rad_auth::{Clients, Discard, Door, Secret};
use rad_packet::{Body, Frame, TooLong, code};
use std::alloc::Global;
use std::process::Abort;
use test_common::{
    CLIENT, OTHER_SECRET, REQUEST_AUTHENTICATOR, RFC_REQUEST, SECRET, STATUS_SERVER,
};

// An Authenticator that isn't used.
const UNUSED: &[u8; 16] = &[9; 16];

const START_WITH_ZEROS: &[u8; 44] = b"\
    \x04\x07\x00\x2c\
    \x1f\x95\x6f\x9c\x75\x80\x1d\xae\x9b\xb2\x1f\x7f\xe3\x55\x4a\x5d\
    \x28\x06\x00\x00\x00\x01\
    \x50\x12\x00\x00\x00\x00\x00\x00\x00\x00\x00\x00\x00\x00\x00\x00\x00\x00";

// The HMAC is in the first Message-Authenticator, and text is in the second.
const HMAC_AND_TEXT: &[u8; 92] = b"\
    \x01\x00\x00\x5c\
    \x0f\x40\x3f\x94\x73\x97\x80\x57\xbd\x83\xd5\xcb\x98\xf4\x22\x7a\
    \x01\x06nemo\
    \x02\x12\x0d\xbe\x70\x8d\x93\xd4\x13\xce\x31\x96\xe4\x3f\x78\x2a\x0a\xee\
    \x04\x06\xc0\xa8\x01\x10\
    \x05\x06\x00\x00\x00\x03\
    \x50\x12\x18\xfc\xe4\x04\x9a\x22\x25\xd1\xe2\x54\x04\x26\x3d\xff\x20\xa6\
    \x50\x12Sixteen octets..";

// The second Message-Authenticator has the HMAC.
const SHORT_AND_HMAC: &[u8; 79] = b"\
    \x01\x00\x00\x4f\
    \x0f\x40\x3f\x94\x73\x97\x80\x57\xbd\x83\xd5\xcb\x98\xf4\x22\x7a\
    \x01\x06nemo\
    \x02\x12\x0d\xbe\x70\x8d\x93\xd4\x13\xce\x31\x96\xe4\x3f\x78\x2a\x0a\xee\
    \x04\x06\xc0\xa8\x01\x10\
    \x05\x06\x00\x00\x00\x03\
    \x50\x05abc\
    \x50\x12\x16\xbd\xcb\xca\x4d\xd2\x7b\xcd\xc9\x19\xad\xd4\xd8\xb9\x3c\x7f";

const EMPTY_STATUS: &[u8; 20] = b"\x0c\x00\x00\x14\0\0\0\0\0\0\0\0\0\0\0\0\0\0\0\0";

// A request to be signed: its Code, its Identifier, an Authenticator and its attributes. Those of an Access-Request follow
// the RFC's.
type Case = (u8, u8, &'static [u8; 16], &'static [Attribute]);

// Its name, the request, and the octets that it is signed as.
type Signed = (&'static str, Case, &'static [u8]);

// The attributes of the request of RFC 2865, section 7.1.
const OF_THE_RFC: &[Attribute] = &[Name, Password, Address, Port];

// A body with these attributes, and in an Access-Request the RFC's before them.
fn body_of(rt: &impl Abort, alloc: Global, code: u8, attributes: &[Attribute]) -> Body {
    let mut body = Body::new(alloc, code);
    if code == code::ACCESS_REQUEST {
        extend(rt, &mut body, OF_THE_RFC);
    }
    extend(rt, &mut body, attributes);
    body
}

// Asserts the octets of a request under the first client's secret.
fn is_signed(rt: &impl Abort, alloc: Global, frame: &mut Frame, (name, case, want): Signed) {
    let (code, identifier, authenticator, attributes) = case;
    let body = body_of(rt, alloc, code, attributes);
    let from = (identifier, authenticator);
    sign(rt, frame, &body, from, &Secret::new(SECRET)).expect(rt, name);
    holds(rt, frame.octets() == want, name);
}

// One frame serves all. The first Message-Authenticator of 16 octets gets the HMAC.
#[test]
fn requests_get_their_authenticators(rt: HostRuntime) {
    const ROWS: &[Signed] = &[
        (
            "a start",
            (code::ACCOUNTING_REQUEST, 7, UNUSED, &[Status]),
            START,
        ),
        (
            "a start with a Message-Authenticator, which is left as it is",
            (code::ACCOUNTING_REQUEST, 7, UNUSED, &[Status, Zeros]),
            START_WITH_ZEROS,
        ),
        (
            "a start with a Proxy-State",
            (code::ACCOUNTING_REQUEST, 7, UNUSED, &[Status, Proxy]),
            PROXIED_START,
        ),
        (
            "an Access-Request with no room for an HMAC",
            (code::ACCESS_REQUEST, 0, REQUEST_AUTHENTICATOR, &[]),
            RFC_REQUEST,
        ),
        (
            "an Access-Request with room for one",
            (code::ACCESS_REQUEST, 0, REQUEST_AUTHENTICATOR, &[Zeros]),
            SIGNED_REQUEST,
        ),
        (
            "an Access-Request with room for two",
            (
                code::ACCESS_REQUEST,
                0,
                REQUEST_AUTHENTICATOR,
                &[Zeros, Text],
            ),
            HMAC_AND_TEXT,
        ),
        (
            "an Access-Request with text in the HMAC's place",
            (code::ACCESS_REQUEST, 0, REQUEST_AUTHENTICATOR, &[Text]),
            SIGNED_REQUEST,
        ),
        (
            "an Access-Request with one of 3 octets before it",
            (
                code::ACCESS_REQUEST,
                0,
                REQUEST_AUTHENTICATOR,
                &[Short, Zeros],
            ),
            SHORT_AND_HMAC,
        ),
        (
            "a Status-Server with no room for an HMAC",
            (code::STATUS_SERVER, 0, &[0; 16], &[]),
            EMPTY_STATUS,
        ),
        (
            "a Status-Server",
            (code::STATUS_SERVER, 0, &[0; 16], &[Zeros]),
            STATUS_SERVER,
        ),
        (
            "the RFC's Status-Server",
            (
                code::STATUS_SERVER,
                218,
                b"\x8a\x54\xf4\x68\x6f\xb3\x94\xc5\x28\x66\xe3\x02\x18\x5d\x06\x23",
                &[Zeros],
            ),
            RFC_STATUS,
        ),
        (
            "the RFC's Status-Server for accounting",
            (
                code::STATUS_SERVER,
                179,
                b"\x92\x5f\x6b\x66\xdd\x5f\xed\x57\x1f\xcb\x1d\xb7\xad\x38\x82\x60",
                &[Zeros],
            ),
            RFC_ACCOUNTING_STATUS,
        ),
    ];
    let mut frame = new_frame(&rt, rt.alloc());
    for signed in ROWS.iter() {
        is_signed(&rt, rt.alloc(), &mut frame, *signed);
    }
}

// A request's Code, an attribute, the port that it goes to, and why it is discarded from another client.
type Admitted = (u8, Attribute, Door, Discard);

// Signs a request under a secret, Identifier 5, and asserts that it is admitted from the client at this place, whose secret
// it is, and discarded from another.
fn is_admitted_from(
    rt: &impl Abort,
    alloc: Global,
    frame: &mut Frame,
    clients: &Clients,
    (code, attribute, door, refused): Admitted,
    secret: &Secret,
    (own, place, stranger): (u32, u32, u32),
) {
    let body = body_of(rt, alloc, code, &[attribute]);
    sign(rt, frame, &body, (5, REQUEST_AUTHENTICATOR), secret).expect(rt, "its own");
    let octets = frame.octets();
    has_verdict(rt, clients, (own, door), octets, Ok((place, 5)), "its own");
    has_verdict(
        rt,
        clients,
        (stranger, door),
        octets,
        Err(refused),
        "another's",
    );
}

#[test]
fn signed_requests_are_admitted(rt: HostRuntime) {
    const ROWS: &[Admitted] = &[
        (code::ACCESS_REQUEST, Zeros, Auth, BadMessageAuthenticator),
        (code::STATUS_SERVER, Zeros, Auth, BadMessageAuthenticator),
        (code::STATUS_SERVER, Zeros, Acct, BadMessageAuthenticator),
        (code::ACCOUNTING_REQUEST, Status, Acct, BadAuthenticator),
    ];
    let clients = three_clients(&rt, rt.alloc());
    let mut frame = new_frame(&rt, rt.alloc());
    let (secret, other_secret) = (Secret::new(SECRET), Secret::new(OTHER_SECRET));
    let first = (CLIENT, 0, OTHER_CLIENT);
    let other = (OTHER_CLIENT, 1, CLIENT);
    for row in ROWS.iter() {
        is_admitted_from(&rt, rt.alloc(), &mut frame, &clients, *row, &secret, first);
        is_admitted_from(
            &rt,
            rt.alloc(),
            &mut frame,
            &clients,
            *row,
            &other_secret,
            other,
        );
    }
}

// Signs the greatest request, of 4,096 octets, into both frames, and then one of an octet more into the first. It is refused,
// and the frame stays as it was, as the other shows.
fn is_bounded(rt: &impl Abort, alloc: Global, frame: &mut Frame, kept: &mut Frame, code: u8) {
    sign_greatest(rt, alloc, frame, code);
    sign_greatest(rt, alloc, kept, code);
    holds(rt, is_refused(rt, alloc, frame, code), "a refusal");
    holds(
        rt,
        frame.octets() == kept.octets(),
        "a frame after a refusal",
    );
}

fn sign_greatest(rt: &impl Abort, alloc: Global, frame: &mut Frame, code: u8) {
    let most = proxied(rt, alloc, code, 15, 249, &[]);
    let signed = sign(rt, frame, &most, (7, UNUSED), &Secret::new(SECRET));
    holds(
        rt,
        signed.is_ok() && frame.octets().len() == 4096,
        "the greatest",
    );
}

fn is_refused(rt: &impl Abort, alloc: Global, frame: &mut Frame, code: u8) -> bool {
    let over = proxied(rt, alloc, code, 15, 250, &[]);
    let signed = sign(rt, frame, &over, (8, UNUSED), &Secret::new(SECRET));
    over.size() == 4077 && signed == Err(TooLong)
}

#[test]
fn a_request_of_more_than_4096_octets_is_refused(rt: HostRuntime) {
    const CODES: &[u8] = &[
        code::ACCESS_REQUEST,
        code::ACCOUNTING_REQUEST,
        code::STATUS_SERVER,
    ];
    let mut frame = new_frame(&rt, rt.alloc());
    let mut kept = new_frame(&rt, rt.alloc());
    for code in CODES.iter() {
        is_bounded(&rt, rt.alloc(), &mut frame, &mut kept, *code);
    }
}
