//! CHAP-Passwords: the responses to challenges, and values that have them.

use crate::tests::{holds, holds_at};
use rad_auth::{CHAP_VALUE_LEN, chap_response, chap_right};
use std::process::Abort;
use test_common::REQUEST_AUTHENTICATOR;

const LONGEST_PASSWORD: &[u8; 128] = b"\
    a password of one hundred and twenty-eight octets, which are as many as a password may have; \
    they fill two blocks of one digest.";

// Octets that are a block of the digest apart differ.
fn longest_challenge() -> [u8; 4096] {
    let mut challenge = [0; 4096];
    for place in 0..4096 {
        challenge[place] = (place % 251) as u8;
    }
    challenge
}

// A CHAP identifier and a response.
fn value(identifier: u8, response: &[u8; 16]) -> [u8; CHAP_VALUE_LEN] {
    let mut value = [identifier; CHAP_VALUE_LEN];
    value[1..].copy_from_slice(response);
    value
}

// A name, an identifier, a password, how many octets of the longest challenge, and the response.
type Case = (&'static str, u8, &'static [u8], usize, &'static [u8; 16]);

// Asserts that a password gives its response, and that a value with it is right.
fn has_response(rt: &impl Abort, (name, identifier, password, len, want): Case) {
    let longest = longest_challenge();
    let challenge = &longest[..len.min(4096)];
    let is_response = chap_response(identifier, password, challenge) == *want;
    let is_right = chap_right(&value(identifier, want), password, challenge);
    holds(rt, is_response && is_right, name);
}

#[test]
fn each_challenge_has_its_response(rt: HostRuntime) {
    const ROWS: &[Case] = &[
        (
            "identifier 7",
            7,
            b"shark",
            16,
            b"\xd8\xfa\xfa\x9f\xa1\xb6\x28\x85\x58\xed\x1e\xe7\x33\xf3\xa0\xaa",
        ),
        (
            "identifier 0",
            0,
            b"shark",
            16,
            b"\xc4\x7c\x76\xeb\x6a\x95\x44\xc3\x98\xf3\x65\x47\xeb\x00\x67\xd2",
        ),
        (
            "identifier 255",
            255,
            b"shark",
            16,
            b"\x27\xa7\x76\x18\xc3\x3d\x05\xc5\xf2\x69\x04\x95\xbb\xff\x10\x15",
        ),
        (
            "a password of no octets",
            7,
            b"",
            16,
            b"\xd8\xf0\x33\xcf\x05\x39\x75\x09\x07\xb9\xab\xdf\x83\x86\x16\xa3",
        ),
        (
            "a password of 128 octets",
            7,
            LONGEST_PASSWORD,
            16,
            b"\xf3\xac\xd8\x95\xdd\xfa\x65\x2f\x05\xb6\xed\x46\xc1\x62\x41\x09",
        ),
        (
            "a challenge of 5 octets",
            7,
            b"shark",
            5,
            b"\xc6\xb1\x2f\xea\x41\xc2\x7f\x80\x35\x09\xd9\x79\x89\x9e\xc8\xc6",
        ),
        (
            "a challenge of 253 octets, the longest that an attribute has",
            7,
            b"shark",
            253,
            b"\x99\x42\x2c\x1c\x38\x24\x14\xb2\xf9\x28\x95\x11\x20\x9e\xb2\x93",
        ),
        (
            "a challenge of 4,096 octets",
            7,
            b"shark",
            4096,
            b"\xb5\xc7\x3c\x1d\x6a\x92\x3d\xe5\x1e\xe8\xd8\x3f\x87\x0b\x71\x5e",
        ),
    ];
    for case in ROWS.iter() {
        has_response(&rt, *case);
    }
}

// Of `shark` and identifier 7, where the Request Authenticator is the challenge.
pub(crate) const VALUE: &[u8; CHAP_VALUE_LEN] =
    b"\x07\x1f\x2f\xc0\x46\x61\x05\xc3\x7c\xf1\xa5\xb7\x8e\x62\xd2\x5e\x3c";

// The same response with identifier 8 in front, and the response of identifier 8.
const IDENTIFIER_CHANGED: &[u8; CHAP_VALUE_LEN] =
    b"\x08\x1f\x2f\xc0\x46\x61\x05\xc3\x7c\xf1\xa5\xb7\x8e\x62\xd2\x5e\x3c";

const OTHER_VALUE: &[u8; CHAP_VALUE_LEN] =
    b"\x08\x05\xdd\xf7\x0c\x92\x51\x6c\x98\x34\x5e\x2e\x8b\x2b\x32\x75\x1a";

// The request of RFC 2865, section 7.2: its CHAP-Password, and the Request Authenticator, which is the challenge.
pub(crate) const RFC_VALUE: &[u8; CHAP_VALUE_LEN] =
    b"\x16\xe9\x75\x57\xc3\x16\x18\x58\x95\xf2\x93\xff\x63\x44\x07\x72\x75";

pub(crate) const RFC_CHALLENGE: &[u8; 16] =
    b"\x2a\xee\x86\xf0\x8d\x0d\x55\x96\x9c\xa5\x97\x8e\x0d\x33\x67\xa2";

// The first 15 octets of the Request Authenticator.
const SHORTER: &[u8; 15] = b"\x0f\x40\x3f\x94\x73\x97\x80\x57\xbd\x83\xd5\xcb\x98\xf4\x22";

// A name, a value, a password, a challenge, and whether the password is right.
type Answer = (
    &'static str,
    &'static [u8; CHAP_VALUE_LEN],
    &'static [u8],
    &'static [u8],
    bool,
);

#[test]
fn a_value_is_of_one_password_and_challenge(rt: HostRuntime) {
    const ROWS: &[Answer] = &[
        ("the password", VALUE, b"shark", REQUEST_AUTHENTICATOR, true),
        (
            "identifier 8",
            OTHER_VALUE,
            b"shark",
            REQUEST_AUTHENTICATOR,
            true,
        ),
        ("the RFC", RFC_VALUE, b"arctangent", RFC_CHALLENGE, true),
        (
            "7 as 8",
            IDENTIFIER_CHANGED,
            b"shark",
            REQUEST_AUTHENTICATOR,
            false,
        ),
        (
            "a capital letter",
            VALUE,
            b"Shark",
            REQUEST_AUTHENTICATOR,
            false,
        ),
        ("its front", VALUE, b"shar", REQUEST_AUTHENTICATOR, false),
        (
            "an octet more",
            VALUE,
            b"sharks",
            REQUEST_AUTHENTICATOR,
            false,
        ),
        (
            "a zero more",
            VALUE,
            b"shark\0",
            REQUEST_AUTHENTICATOR,
            false,
        ),
        ("no octets", VALUE, b"", REQUEST_AUTHENTICATOR, false),
        (
            "another challenge",
            VALUE,
            b"shark",
            b"Sixteen octets..",
            false,
        ),
        ("a shorter challenge", VALUE, b"shark", SHORTER, false),
        ("no challenge", VALUE, b"shark", b"", false),
    ];
    for (name, value, password, challenge, want) in ROWS.iter() {
        let is_right = chap_right(*value, password, challenge);
        holds(&rt, is_right == *want, name);
    }
}

#[test]
fn each_bit_of_a_value_counts(rt: HostRuntime) {
    for bit in 0..8 * CHAP_VALUE_LEN {
        let mut turned = *VALUE;
        turned[bit / 8] ^= 1 << (bit % 8);
        let right = chap_right(&turned, b"shark", REQUEST_AUTHENTICATOR);
        holds_at(&rt, !right, "a bit", bit);
    }
}
