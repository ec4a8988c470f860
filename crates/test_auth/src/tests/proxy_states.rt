//! How many octets of Proxy-State attributes a request may have: fourteen of 255 octets and one of 14 are 3,584.

use super::Attribute::{Eap, Status, Zeros};
use super::{Attribute, Verdict, has_verdict, new_frame, proxied, sign, three_clients};
use crate::tests::holds;
use rad_auth::Discard::{NoMessageAuthenticator, NoStatusType, ProxyStateTooLong};
use rad_auth::Door::{Acct, Auth};
use rad_auth::{Clients, Door, Secret};
use rad_packet::attribute::VALUE_MAX;
use rad_packet::{Frame, code};
use std::alloc::Global;
use std::process::Abort;
use test_common::{CLIENT, SECRET};

#[test]
fn fourteen_of_255_octets_and_one_of_14_are_3584(rt: HostRuntime) {
    let body = proxied(&rt, rt.alloc(), code::ACCOUNTING_REQUEST, 14, 12, &[]);
    holds(&rt, body.size() == 3584, "octets");
}

// A request: its Code, how many octets the Value of its last Proxy-State has, and what follows that.
type Proxied = (u8, usize, &'static [Attribute]);

// A request's name, the port that it goes to, and its verdict.
type Case = (&'static str, Proxied, (Door, Verdict));

const START: u8 = code::ACCOUNTING_REQUEST;

const ACCESS: u8 = code::ACCESS_REQUEST;

// Signs a request, Identifier 7, and asserts its verdict.
fn is_case(
    rt: &impl Abort,
    alloc: Global,
    frame: &mut Frame,
    clients: &Clients,
    (name, (code, last, more), (door, want)): Case,
) {
    let body = proxied(rt, alloc, code, 14, last.min(VALUE_MAX), more);
    let from = (7, b"Sixteen octets..");
    sign(rt, frame, &body, from, &Secret::new(SECRET)).expect(rt, name);
    has_verdict(rt, clients, (CLIENT, door), frame.octets(), want, name);
}

#[test]
fn a_request_has_at_most_3584_octets_of_them(rt: HostRuntime) {
    const ROWS: &[Case] = &[
        ("no status", (START, 12, &[]), (Acct, Err(NoStatusType))),
        ("the most", (START, 12, &[Status]), (Acct, Ok((0, 7)))),
        (
            "one more, and no status",
            (START, 13, &[]),
            (Acct, Err(NoStatusType)),
        ),
        (
            "one more",
            (START, 13, &[Status]),
            (Acct, Err(ProxyStateTooLong)),
        ),
        ("the most", (ACCESS, 12, &[]), (Auth, Ok((0, 7)))),
        (
            "the most, and an HMAC",
            (ACCESS, 12, &[Zeros]),
            (Auth, Ok((0, 7))),
        ),
        (
            "one more",
            (ACCESS, 13, &[]),
            (Auth, Err(ProxyStateTooLong)),
        ),
        (
            "one more, and an EAP-Message",
            (ACCESS, 13, &[Eap]),
            (Auth, Err(NoMessageAuthenticator)),
        ),
        (
            "one more, an EAP-Message, and an HMAC",
            (ACCESS, 13, &[Eap, Zeros]),
            (Auth, Err(ProxyStateTooLong)),
        ),
        (
            "the most",
            (code::STATUS_SERVER, 12, &[Zeros]),
            (Auth, Ok((0, 7))),
        ),
        (
            "the most",
            (code::STATUS_SERVER, 12, &[Zeros]),
            (Acct, Ok((0, 7))),
        ),
        (
            "one more",
            (code::STATUS_SERVER, 13, &[Zeros]),
            (Auth, Err(ProxyStateTooLong)),
        ),
        (
            "one more",
            (code::STATUS_SERVER, 13, &[Zeros]),
            (Acct, Err(ProxyStateTooLong)),
        ),
    ];
    let clients = three_clients(&rt, rt.alloc());
    let mut frame = new_frame(&rt, rt.alloc());
    for case in ROWS.iter() {
        is_case(&rt, rt.alloc(), &mut frame, &clients, *case);
    }
}
