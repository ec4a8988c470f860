//! Passwords that are compared eight at a time, each in every lane, beside seven others and alone.

use super::chap::{RFC_CHALLENGE, RFC_VALUE as RFC_CHAP_VALUE, VALUE};
use super::hidden_passwords::RFC_VALUE;
use super::passwords::LONGEST;
use crate::tests::holds_at;
use rad_auth::{
    CHAP_VALUE_LEN, ChapResponse, HiddenPassword, PasswordCheck, Secret, passwords_right8,
    value_fits,
};
use std::process::Abort;
use test_common::{REQUEST_AUTHENTICATOR, SECRET};

// What was sent.
#[derive(Clone, Copy)]
enum Sent {
    Nothing,
    Hidden(&'static [u8]),
    Response(&'static [u8; CHAP_VALUE_LEN], Option<&'static [u8]>),
}

// A name, what was sent, a password, and whether that is right.
type Case = (&'static str, Sent, &'static [u8], bool);

const ROWS: [Case; 8] = [
    ("one block", Sent::Hidden(RFC_VALUE), b"arctangent", true),
    ("another", Sent::Hidden(RFC_VALUE), b"arctangenu", false),
    ("eight blocks", Sent::Hidden(LONGEST), b"arctangent", true),
    ("a response", Sent::Response(VALUE, None), b"shark", true),
    (
        "a response to a challenge",
        Sent::Response(RFC_CHAP_VALUE, Some(RFC_CHALLENGE)),
        b"arctangent",
        true,
    ),
    (
        "to the Request Authenticator",
        Sent::Response(RFC_CHAP_VALUE, None),
        b"arctangent",
        false,
    ),
    (
        "too long",
        Sent::Hidden(RFC_VALUE),
        b"arctangent\0\0\0\0\0\0\0",
        false,
    ),
    ("nothing", Sent::Nothing, b"", false),
];

fn check_of<'a>(
    rt: &impl Abort,
    secret: &'a Secret,
    (_, sent, password, _): Case,
) -> Option<PasswordCheck<'a>> {
    let request_authenticator = *REQUEST_AUTHENTICATOR;
    match sent {
        Sent::Nothing => None,
        Sent::Hidden(value) => {
            assert!(rt; value_fits(value));
            Some(PasswordCheck::UserPassword(HiddenPassword {
                secret,
                request_authenticator,
                value,
                password,
            }))
        }
        Sent::Response(value, challenge) => Some(PasswordCheck::ChapPassword(ChapResponse {
            value,
            password,
            request_authenticator,
            challenge,
        })),
    }
}

// The rows in eight lanes, the first one in this lane; of them the first so many alone.
fn are_told(rt: &impl Abort, secret: &Secret, first: usize, count: usize) {
    let mut checks = [None; 8];
    for row in 0..count.min(8) {
        checks[(first % 8 + row) % 8] = check_of(rt, secret, ROWS[row]);
    }
    let right = passwords_right8(&checks);
    for row in 0..8 {
        let want = row < count && ROWS[row].3;
        holds_at(rt, right[(first % 8 + row) % 8] == want, ROWS[row].0, first);
    }
}

#[test]
fn each_lane_tells_of_its_password(rt: HostRuntime) {
    let secret = Secret::new(SECRET);
    for first in 0..8 {
        are_told(&rt, &secret, first, 8);
    }
}

#[test]
fn few_passwords_are_told_alone(rt: HostRuntime) {
    let secret = Secret::new(SECRET);
    for first in 0..8 {
        are_told(&rt, &secret, first, 1);
        are_told(&rt, &secret, first, 2);
    }
}
