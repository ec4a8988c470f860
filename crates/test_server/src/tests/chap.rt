//! CHAP-Passwords, over the Request Authenticator and over a CHAP-Challenge.
use super::Step::Ask;
use super::requests::Asked::Access;
use super::requests::Sent::{Chap, Hidden, Plain};
use super::requests::{MANY, Sent};
use super::texts::{ACCESS_DENIED, FIRST, MALFORMED_REQUEST, SECOND, THIRD};
use super::{Row, play};
use rad_packet::attribute::{CHAP_CHALLENGE, CHAP_PASSWORD};
use std::test::Fail;
use test_common::REQUEST_AUTHENTICATOR;

/// A response over the Request Authenticator.
const RIGHT: Sent = Chap(b"p", REQUEST_AUTHENTICATOR);

const WRONG: Sent = Chap(b"q", REQUEST_AUTHENTICATOR);

/// A response over the challenge.
const RESPONSE: Sent = Chap(b"p", b"abcde");

const CHALLENGE: Sent = Plain(CHAP_CHALLENGE, b"abcde");

/// A challenge that is too short, and a response over it.
const SHORT: Sent = Plain(CHAP_CHALLENGE, b"abcd");

const SHORT_RESPONSE: Sent = Chap(b"p", b"abcd");

#[test]
fn a_password_may_be_sent_by_chap(rt: HostRuntime) -> Result<(), Fail> {
    const ROWS: &[Row] = &[
        (
            0,
            Ask(Access(0, &[MANY, RIGHT]), FIRST),
            "over the Request Authenticator",
        ),
        (
            0,
            Ask(Access(1, &[MANY, WRONG]), ACCESS_DENIED),
            "another password",
        ),
        (
            0,
            Ask(Access(2, &[MANY, RESPONSE, CHALLENGE]), SECOND),
            "over a CHAP-Challenge",
        ),
        (
            0,
            Ask(Access(3, &[MANY, RIGHT, CHALLENGE]), ACCESS_DENIED),
            "over the Request Authenticator, beside a CHAP-Challenge",
        ),
        (
            0,
            Ask(Access(4, &[MANY, SHORT_RESPONSE, SHORT]), MALFORMED_REQUEST),
            "a CHAP-Challenge of 4 octets",
        ),
        (
            0,
            Ask(
                Access(5, &[MANY, RESPONSE, CHALLENGE, CHALLENGE]),
                MALFORMED_REQUEST,
            ),
            "two CHAP-Challenges",
        ),
        (
            0,
            Ask(Access(6, &[MANY, RIGHT, RIGHT]), MALFORMED_REQUEST),
            "two CHAP-Passwords",
        ),
        (
            0,
            Ask(
                Access(7, &[MANY, Plain(CHAP_PASSWORD, &[0; 16])]),
                MALFORMED_REQUEST,
            ),
            "a CHAP-Password of 16 octets",
        ),
        (
            0,
            Ask(
                Access(8, &[MANY, Plain(CHAP_PASSWORD, &[0; 18])]),
                MALFORMED_REQUEST,
            ),
            "a CHAP-Password of 18 octets",
        ),
        (
            0,
            Ask(Access(9, &[MANY, Hidden(b"p"), SHORT, SHORT]), THIRD),
            "CHAP-Challenges beside a User-Password",
        ),
    ];
    play(&rt, rt.alloc(), ROWS)
}
