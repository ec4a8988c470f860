//! Digests and HMACs were computed by Python's hashlib and hmac, but for the exchanges of RFC 2865, section 7.1, and of
//! RFC 5997, section 6.
ghost use Rattle.std.specs.Prelude.{◌≤◌};
ghost use Rattle.rad_packet.specs.Attributes.{value_max};

mod accounting;
mod changed_bits;
mod clients;
mod doors;
mod example;
mod lanes;
mod lengths;
mod message_authenticator_places;
mod message_authenticators;
mod mutants;
mod networks;
mod plain;
mod proxy_states;
mod replies;
mod requests;

use Attribute::{Address, Eap, Name, Password, Port, Proxy, Short, Status, Text, Zeros};
use rad_auth::{
    Arrival, CLIENTS_MAX, ClientFault, Clients, Discard, Door, PREFIX_MAX, Request, SECRET_MAX,
    Secret, check8, network_fits, sign_request,
};
use rad_packet::{Body, Frame, TooLong, attribute, code};
use std::alloc::Global;
use std::process::Abort;
use test_common::{CLIENT, OTHER_SECRET, SECRET};

// Asserts once, of `what`.
fn holds(rt: &impl Abort, is_so: bool, what: &str) {
    assert!(rt; is_so, "{what}");
}

// The same of one of several, counted from 0.
fn holds_at(rt: &impl Abort, is_so: bool, what: &str, number: usize) {
    assert!(rt; is_so, "{what}: {number}");
}

// 192.168.1.18
const OTHER_CLIENT: u32 = 0xC0A8_0112;

// 192.168.1.19, whose Access-Requests need a Message-Authenticator.
const STRICT_CLIENT: u32 = 0xC0A8_0113;

// `RFC_REQUEST` followed by a Message-Authenticator.
const SIGNED_REQUEST: &[u8; 74] = b"\
    \x01\x00\x00\x4a\
    \x0f\x40\x3f\x94\x73\x97\x80\x57\xbd\x83\xd5\xcb\x98\xf4\x22\x7a\
    \x01\x06nemo\
    \x02\x12\x0d\xbe\x70\x8d\x93\xd4\x13\xce\x31\x96\xe4\x3f\x78\x2a\x0a\xee\
    \x04\x06\xc0\xa8\x01\x10\
    \x05\x06\x00\x00\x00\x03\
    \x50\x12\x63\xb7\x8a\x6b\x9d\x2f\x14\x99\x89\xfb\xf5\x7e\xa2\x1d\x19\x4c";

// The Status-Servers of RFC 5997, section 6, for authentication and for accounting.
const RFC_STATUS: &[u8; 38] = b"\
    \x0c\xda\x00\x26\
    \x8a\x54\xf4\x68\x6f\xb3\x94\xc5\x28\x66\xe3\x02\x18\x5d\x06\x23\
    \x50\x12\x5a\x66\x5e\x2e\x1e\x84\x11\xf3\xe2\x43\x82\x20\x97\xc8\x4f\xa3";

const RFC_ACCOUNTING_STATUS: &[u8; 38] = b"\
    \x0c\xb3\x00\x26\
    \x92\x5f\x6b\x66\xdd\x5f\xed\x57\x1f\xcb\x1d\xb7\xad\x38\x82\x60\
    \x50\x12\xe8\xd6\xea\xbd\xa9\x10\x87\x5c\xd9\x1f\xda\xde\x26\x36\x78\x58";

// The start of a session, Identifier 7.
const START: &[u8; 26] = b"\
    \x04\x07\x00\x1a\
    \xbf\x75\x02\x99\xba\x71\x11\xcf\x8a\x9d\xef\x2b\x87\x2d\x43\x6c\
    \x28\x06\x00\x00\x00\x01";

// The same followed by a Proxy-State.
const PROXIED_START: &[u8; 31] = b"\
    \x04\x07\x00\x1f\
    \x82\xef\xfc\xea\xf7\xaa\xf5\x45\x43\xe7\x6e\xe4\x58\x9a\xd7\x22\
    \x28\x06\x00\x00\x00\x01\
    \x21\x05abc";

// The start of a session under the other client's secret, Identifier 8.
const OTHER_START: &[u8; 26] = b"\
    \x04\x08\x00\x1a\
    \xa4\x86\xa9\x80\x1a\xb3\x96\x5b\xc0\x60\xc1\xbb\x88\x9e\xb4\xff\
    \x28\x06\x00\x00\x00\x01";

// A client: its address, its secret, and whether its requests need a Message-Authenticator.
type Client = (u32, &'static [u8], bool);

// Three clients, of whom the first and the last have the same secret.
const THREE: &[Client] = &[
    (CLIENT, SECRET, false),
    (OTHER_CLIENT, OTHER_SECRET, false),
    (STRICT_CLIENT, SECRET, true),
];

// A network: its address and its prefix.
type Network = (u32, u8);

// Adds a client with a single address.
fn add(
    rt: &impl Abort,
    clients: &mut Clients,
    (address, secret, require_message_authenticator): Client,
) -> Result<(), ClientFault> {
    let network = (address, PREFIX_MAX);
    add_network(rt, clients, network, secret, require_message_authenticator)
}

// Adds a client with all addresses of a network.
fn add_network(
    rt: &impl Abort,
    clients: &mut Clients,
    (address, prefix): Network,
    secret: &[u8],
    require_message_authenticator: bool,
) -> Result<(), ClientFault> {
    let has_room = clients.len() < CLIENTS_MAX;
    assert!(rt; has_room && 0 < secret.len() && secret.len() <= SECRET_MAX);
    assert!(rt; network_fits(address, prefix));
    clients.add(address, prefix, secret, require_message_authenticator)
}

fn clients_of(rt: &impl Abort, alloc: Global, rows: &[Client]) -> Clients {
    let mut clients = Clients::new(alloc);
    for row in rows {
        add(rt, &mut clients, *row).expect(rt, "a client");
    }
    clients
}

fn three_clients(rt: &impl Abort, alloc: Global) -> Clients {
    clients_of(rt, alloc, THREE)
}

fn arrival(source: u32, door: Door, octets: &[u8]) -> Option<Arrival<'_>> {
    Some(Arrival {
        source,
        port: 1024,
        door,
        octets,
    })
}

// The client's place and the Identifier of a request, or the discard.
type Verdict = Result<(u32, u8), Discard>;

fn verdict(lane: &Option<Result<Request, Discard>>) -> Option<Verdict> {
    match lane {
        None => None,
        Some(Ok(request)) => Some(Ok((request.client, request.packet.identifier()))),
        Some(Err(discard)) => Some(Err(*discard)),
    }
}

// The verdict of `check8` on a datagram.
fn verdict_on(clients: &Clients, source: u32, door: Door, octets: &[u8]) -> Option<Verdict> {
    let mut arrivals = [None; 8];
    arrivals[0] = arrival(source, door, octets);
    verdict(&check8(clients, &arrivals)[0])
}

// A datagram: its name, its source and the server's port, its octets, and its verdict.
type Case = (&'static str, u32, Door, &'static [u8], Verdict);

// Asserts the verdict on each datagram.
fn have_verdicts(rt: &impl Abort, clients: &Clients, cases: &[Case]) {
    for (name, source, door, octets, want) in cases {
        has_verdict(rt, clients, (*source, *door), octets, *want, name);
    }
}

// Asserts the verdict on a datagram.
fn has_verdict(
    rt: &impl Abort,
    clients: &Clients,
    (source, door): (u32, Door),
    octets: &[u8],
    want: Verdict,
    what: &str,
) {
    let verdict = verdict_on(clients, source, door, octets);
    assert!(rt; verdict == Some(want), "{what} from {source:x} to {door:?}");
}

// The attributes that requests have here.
#[derive(Clone, Copy)]
enum Attribute {
    // Those of the request of RFC 2865, section 7.1.
    Name,
    Password,
    Address,
    Port,
    // The start of a session.
    Status,
    Proxy,
    Eap,
    // Message-Authenticators: of zeros, of 16 octets of text, and of three.
    Zeros,
    Text,
    Short,
}

// The Type and the Value of an attribute.
fn pair(attribute: Attribute) -> (u8, &'static [u8]) {
    match attribute {
        Name => (attribute::USER_NAME, b"nemo"),
        Password => (
            attribute::USER_PASSWORD,
            b"\x0d\xbe\x70\x8d\x93\xd4\x13\xce\x31\x96\xe4\x3f\x78\x2a\x0a\xee",
        ),
        Address => (attribute::NAS_IP_ADDRESS, b"\xc0\xa8\x01\x10"),
        Port => (attribute::NAS_PORT, b"\0\0\0\x03"),
        Status => (attribute::ACCT_STATUS_TYPE, b"\0\0\0\x01"),
        Proxy => (attribute::PROXY_STATE, b"abc"),
        Eap => (attribute::EAP_MESSAGE, b"a"),
        Zeros => (attribute::MESSAGE_AUTHENTICATOR, &[0; 16]),
        Text => (attribute::MESSAGE_AUTHENTICATOR, b"Sixteen octets.."),
        Short => (attribute::MESSAGE_AUTHENTICATOR, b"abc"),
    }
}

// Adds attributes to a body.
fn extend(rt: &impl Abort, body: &mut Body, attributes: &[Attribute]) {
    for attribute in attributes {
        let (kind, value) = pair(*attribute);
        assert!(rt; value.len() <= attribute::VALUE_MAX);
        body.push(kind, value).expect(rt, "an attribute");
    }
}

// Adds so many Proxy-State attributes of 255 octets to a body, and one more with a Value of so many.
fn extend_by_proxies(rt: &impl Abort, body: &mut Body, whole: usize, last: usize)
    requires { last ≤ value_max }
{
    let zeros = [0; attribute::VALUE_MAX];
    for place in 0..=whole {
        let len = if place < whole { zeros.len() } else { last };
        body.push(attribute::PROXY_STATE, &zeros[..len])
            .expect(rt, "a Proxy-State");
    }
}

// A request with so many Proxy-States of 255 octets, one more with a Value of so many, and these attributes after them.
fn proxied(
    rt: &impl Abort,
    alloc: Global,
    code: u8,
    whole: usize,
    last: usize,
    more: &[Attribute],
) -> Body
    requires { last ≤ value_max }
{
    let mut body = Body::new(alloc, code);
    extend_by_proxies(rt, &mut body, whole, last);
    extend(rt, &mut body, more);
    body
}

fn new_frame(rt: &impl Abort, alloc: Global) -> Frame {
    Frame::new(alloc).expect(rt, "a frame")
}

// Signs a request of one of the three Codes.
fn sign(
    rt: &impl Abort,
    frame: &mut Frame,
    body: &Body,
    (identifier, authenticator): (u8, &[u8; 16]),
    secret: &Secret,
) -> Result<(), TooLong> {
    let code = body.code();
    assert!(rt;
        code == code::ACCESS_REQUEST
            || code == code::ACCOUNTING_REQUEST
            || code == code::STATUS_SERVER
    );
    sign_request(body, identifier, authenticator, secret, frame)
}
