//! Passwords that are right, and Access-Requests that are malformed.
use super::Step::{Ask, Sessions};
use super::requests::Asked::Access;
use super::requests::Sent::{Chap, Hidden, Plain};
use super::requests::{NEMO, Sent};
use super::texts::{FIRST, MALFORMED_REQUEST, SECOND, THIRD};
use super::{Row, play};
use rad_packet::attribute::{STATE, USER_NAME, USER_PASSWORD};
use std::test::Fail;
use test_common::REQUEST_AUTHENTICATOR;

const RIGHT: Sent = Hidden(b"arctangent");

const CHAP: Sent = Chap(b"arctangent", REQUEST_AUTHENTICATOR);

const ANY_STATE: Sent = Plain(STATE, &[0; 24]);

const SIXTEEN: &[u8; 16] = b"0123456789abcdef";

const SEVENTEEN: &[u8; 17] = b"0123456789abcdefg";

const LONGEST: &[u8; 128] = b"\
    0123456789abcdef0123456789abcdef0123456789abcdef0123456789abcdef\
    0123456789abcdef0123456789abcdef0123456789abcdef0123456789abcdef";

#[test]
fn a_long_password_is_right(rt: HostRuntime) -> Result<(), Fail> {
    const ROWS: &[Row] = &[
        (
            0,
            Ask(
                Access(0, &[Plain(USER_NAME, b"sixteen"), Hidden(SIXTEEN)]),
                FIRST,
            ),
            "16 octets",
        ),
        (
            0,
            Ask(
                Access(1, &[Plain(USER_NAME, b"seventeen"), Hidden(SEVENTEEN)]),
                SECOND,
            ),
            "17 octets",
        ),
        (
            0,
            Ask(
                Access(2, &[Plain(USER_NAME, b"longest"), Hidden(LONGEST)]),
                THIRD,
            ),
            "128 octets",
        ),
    ];
    play(&rt, rt.alloc(), ROWS)
}

#[test]
fn a_request_without_one_name_and_one_password_is_malformed(rt: HostRuntime) -> Result<(), Fail> {
    const ROWS: &[Row] = &[
        (
            0,
            Ask(
                Access(0, &[NEMO, Plain(USER_PASSWORD, &[0; 24])]),
                MALFORMED_REQUEST,
            ),
            "a User-Password of 24 octets",
        ),
        (
            0,
            Ask(Access(1, &[NEMO, RIGHT, CHAP]), MALFORMED_REQUEST),
            "two kinds of password",
        ),
        (
            0,
            Ask(Access(2, &[NEMO, RIGHT, RIGHT]), MALFORMED_REQUEST),
            "two User-Passwords",
        ),
        (0, Ask(Access(3, &[NEMO]), MALFORMED_REQUEST), "no password"),
        (
            0,
            Ask(Access(4, &[RIGHT]), MALFORMED_REQUEST),
            "no User-Name",
        ),
        (
            0,
            Ask(
                Access(5, &[Plain(USER_NAME, b""), RIGHT]),
                MALFORMED_REQUEST,
            ),
            "an empty User-Name",
        ),
        (
            0,
            Ask(
                Access(6, &[NEMO, RIGHT, Plain(USER_NAME, b"")]),
                MALFORMED_REQUEST,
            ),
            "a second User-Name, which is empty",
        ),
        (
            0,
            Ask(
                Access(7, &[NEMO, RIGHT, ANY_STATE, ANY_STATE]),
                MALFORMED_REQUEST,
            ),
            "two States",
        ),
        (0, Sessions(&[]), "no session"),
    ];
    play(&rt, rt.alloc(), ROWS)
}
