//! User-Passwords as they are compared with their values, which were computed by Python's hashlib, but for that of RFC 2865,
//! section 7.1.
ghost use Rattle.std.specs.Prelude.{◌≤◌, ◌<◌};
ghost use Rattle.rad_auth.specs.Clients.{IsSecret};

use super::hidden_passwords::{RFC_VALUE, VALUE_OF_128, hidden, hidden_with, password_of};
use crate::tests::{holds, holds_at};
use rad_auth::{PASSWORD_MAX, SECRET_MAX, Secret, password_right, value_fits};
use std::process::Abort;
use test_common::{OTHER_SECRET, REQUEST_AUTHENTICATOR, SECRET};

// Whether a password is that of a value, which is one that fits.
fn is_right(
    rt: &impl Abort,
    secret: &Secret,
    authenticator: &[u8; 16],
    value: &[u8],
    password: &[u8],
) -> bool {
    assert!(rt; value_fits(value));
    password_right(secret, authenticator, value, password)
}

// Asserts whether a password is that of a value.
fn checks_as(
    rt: &impl Abort,
    secret: &Secret,
    value: &[u8],
    password: &[u8],
    want: bool,
    what: &str,
) {
    let right = is_right(rt, secret, REQUEST_AUTHENTICATOR, value, password);
    holds_at(rt, right == want, what, password.len());
}

fn is_right_whole(rt: &impl Abort, secret: &Secret, len: usize)
    requires { len ≤ 128 }
{
    let mut octets = password_of(len);
    let value = hidden(rt, secret, &octets[..len]);
    let value = value.octets();
    checks_as(rt, secret, value, &octets[..len], true, "whole");
    if len < PASSWORD_MAX {
        octets[len] = 1;
        checks_as(rt, secret, value, &octets[..len + 1], false, "one more");
    }
    if len > 0 {
        checks_as(
            rt,
            secret,
            value,
            &octets[..len - 1],
            false,
            "without the last",
        );
        octets[len - 1] ^= 1;
        checks_as(rt, secret, value, &octets[..len], false, "the last another");
    }
}

#[test]
fn a_password_of_each_length_is_right_whole(rt: HostRuntime) {
    let secret = Secret::new(SECRET);
    for len in 0..129 {
        is_right_whole(&rt, &secret, len);
    }
}

const VALUE_OF_NOTHING: &[u8; 16] =
    b"\x6c\xcc\x13\xf9\xf2\xba\x74\xab\x5f\xe2\xe4\x3f\x78\x2a\x0a\xee";

// Of `seventeen octets`, which are 16, and of the same followed by a full stop, and by an exclamation mark.
const SIXTEEN: &[u8; 16] = b"\x1f\xa9\x65\x9c\x9c\xce\x11\xce\x31\xc2\x8b\x5c\x0c\x4f\x7e\x9d";

const SEVENTEEN: &[u8; 32] = b"\
    \x1f\xa9\x65\x9c\x9c\xce\x11\xce\x31\xc2\x8b\x5c\x0c\x4f\x7e\x9d\
    \x41\x74\xf5\xba\x98\x86\x4b\x1a\x1a\x6a\xff\x91\xf6\xf0\x41\xfb";

const OTHER_SEVENTEEN: &[u8; 32] = b"\
    \x1f\xa9\x65\x9c\x9c\xce\x11\xce\x31\xc2\x8b\x5c\x0c\x4f\x7e\x9d\
    \x4e\x74\xf5\xba\x98\x86\x4b\x1a\x1a\x6a\xff\x91\xf6\xf0\x41\xfb";

// Of `arctangent` with zeros to 32 octets.
const LONGER_THAN_NEEDED: &[u8; 32] = b"\
    \x0d\xbe\x70\x8d\x93\xd4\x13\xce\x31\x96\xe4\x3f\x78\x2a\x0a\xee\
    \x78\x0a\xf8\x8a\xe7\xdf\x81\x12\xf6\x1a\x0a\x45\xb3\xea\x47\x27";

// Of `arctangent` with zeros to 128.
pub(crate) const LONGEST: &[u8; 128] = b"\
    \x0d\xbe\x70\x8d\x93\xd4\x13\xce\x31\x96\xe4\x3f\x78\x2a\x0a\xee\
    \x78\x0a\xf8\x8a\xe7\xdf\x81\x12\xf6\x1a\x0a\x45\xb3\xea\x47\x27\
    \x45\x32\x76\xec\xc1\x75\x9c\xd8\xb8\x28\xf4\x0f\x11\x35\x8f\x89\
    \x91\x76\x33\x55\x26\x08\x53\xdc\x06\x14\xb0\x14\x10\xaf\x3f\xb3\
    \x05\xa8\xe6\x39\x52\x4e\x5e\x3b\xcb\xed\x3e\x3b\xa3\xaf\xe0\x58\
    \x7b\x5c\xb3\xc4\x06\xba\x06\xd5\x80\x32\xd6\xf0\x45\xac\x20\x3f\
    \xf8\xd3\x9b\x33\x1e\x69\x2f\xd8\x93\x4c\xc2\x2c\xc7\x14\xf8\x6a\
    \xcf\xf3\x43\xda\xc8\x1e\xdd\x2e\x00\xf5\x52\x3f\x14\xe3\x2d\xab";

// A name, a value, a password, and whether that is right.
type Case = (&'static str, &'static [u8], &'static [u8], bool);

#[test]
fn all_blocks_of_a_value_count(rt: HostRuntime) {
    const ROWS: &[Case] = &[
        // Those of the RFC's value.
        ("the password", RFC_VALUE, b"arctangent", true),
        ("its front", RFC_VALUE, b"arctangen", false),
        ("an octet more", RFC_VALUE, b"arctangentx", false),
        ("a capital letter", RFC_VALUE, b"Arctangent", false),
        ("no octets", RFC_VALUE, b"", false),
        ("a zero after it", RFC_VALUE, b"arctangent\0", true),
        (
            "zeros to 16 octets",
            RFC_VALUE,
            b"arctangent\0\0\0\0\0\0",
            true,
        ),
        ("zeros to 17", RFC_VALUE, b"arctangent\0\0\0\0\0\0\0", false),
        // Those of other values.
        ("no octets", VALUE_OF_NOTHING, b"", true),
        ("a blank for no octets", VALUE_OF_NOTHING, b" ", false),
        ("a full stop", SEVENTEEN, b"seventeen octets.", true),
        ("a mark", OTHER_SEVENTEEN, b"seventeen octets!", true),
        ("a mark for a stop", SEVENTEEN, b"seventeen octets!", false),
        (
            "a stop for a mark",
            OTHER_SEVENTEEN,
            b"seventeen octets.",
            false,
        ),
        (
            "an octet past the value",
            SIXTEEN,
            b"seventeen octets.",
            false,
        ),
        ("the first block", SEVENTEEN, b"seventeen octets", false),
        ("seven blocks of zeros", LONGEST, b"arctangent", true),
        ("a block of zeros", LONGER_THAN_NEEDED, b"arctangent", true),
        (
            "its front and a block of zeros",
            LONGER_THAN_NEEDED,
            b"arctangen",
            false,
        ),
    ];
    let secret = Secret::new(SECRET);
    for (name, value, password, want) in ROWS.iter() {
        checks_as(&rt, &secret, *value, *password, *want, name);
    }
}

// Asserts that a value with a bit turned is of another password.
fn is_wrong_turned(rt: &impl Abort, secret: &Secret, password: &[u8], bit: usize)
    requires { bit < 1024 }
{
    let mut turned = *VALUE_OF_128;
    turned[bit / 8] ^= 1 << (bit % 8);
    let right = is_right(rt, secret, REQUEST_AUTHENTICATOR, &turned, password);
    holds_at(rt, !right, "a bit", bit);
}

#[test]
fn each_bit_of_a_value_counts(rt: HostRuntime) {
    let secret = Secret::new(SECRET);
    let password = password_of(128);
    checks_as(&rt, &secret, VALUE_OF_128, &password, true, "no bit");
    for bit in 0..1024 {
        is_wrong_turned(&rt, &secret, &password, bit);
    }
}

// Of `seventeen octets.` under other secrets, and under another Request Authenticator.
const UNDER_ONE_OCTET: &[u8; 32] = b"\
    \x8c\xfa\x48\x1d\x7c\x6b\x6e\x09\x82\x60\x2a\xc4\x59\xc9\xef\x5c\
    \xaf\x25\xfd\x5c\xf1\x3d\xae\x9e\x18\x84\x81\xf7\x5b\x4e\x0c\x6d";

const UNDER_OTHER_SECRET: &[u8; 32] = b"\
    \x4b\x1b\x7f\xc4\xb0\xb0\x65\x69\x97\xa6\x68\x74\xb5\xaf\x9c\xd3\
    \x5c\xf1\x6f\xe2\xa0\xad\xb6\xac\x61\xed\x0b\x9b\xbd\x9a\xbc\x3e";

const UNDER_LONGEST_SECRET: &[u8; 32] = b"\
    \x89\xde\xa7\x0d\x43\xc5\x29\x64\xfe\x98\x1f\x2d\x0f\x98\xce\xfe\
    \x1d\x01\xf4\x04\x93\xa0\xbd\x5e\x84\x9b\x13\x21\x4f\xdc\xdf\x14";

const UNDER_OTHER_AUTHENTICATOR: &[u8; 32] = b"\
    \x18\x0d\xe0\xf2\x15\xcb\x29\xf1\xa6\xd3\xf3\x1d\x23\xb1\x03\x64\
    \x45\xa1\x34\x5e\x85\x63\xbb\xd2\x37\x32\xa7\x88\xc1\x6c\x7c\x1b";

const OTHER_AUTHENTICATOR: &[u8; 16] = b"Sixteen octets..";

const LONGEST_SECRET: &[u8; SECRET_MAX] = b"\
    a secret of one hundred and twenty-eight octets, which are as many as a secret may have; \
    they fill two whole blocks of a digest.";

// Asserts that a password is right for this value under this secret alone, and not under the first.
fn is_right_under(rt: &impl Abort, first: &Secret, octets: &[u8], want: &[u8; 32], name: &str)
    requires { IsSecret octets.now }
{
    let secret = Secret::new(octets);
    let value = hidden(rt, &secret, b"seventeen octets.");
    holds(rt, value.octets() == want.as_slice(), name);
    checks_as(rt, &secret, want, b"seventeen octets.", true, name);
    checks_as(rt, first, want, b"seventeen octets.", false, name);
    checks_as(rt, &secret, SEVENTEEN, b"seventeen octets.", false, name);
}

#[test]
fn a_password_is_right_under_its_own_secret(rt: HostRuntime) {
    let first = Secret::new(SECRET);
    is_right_under(&rt, &first, b"s", UNDER_ONE_OCTET, "1 octet");
    is_right_under(&rt, &first, OTHER_SECRET, UNDER_OTHER_SECRET, "77 octets");
    is_right_under(
        &rt,
        &first,
        LONGEST_SECRET,
        UNDER_LONGEST_SECRET,
        "128 octets",
    );
}

// A name, a Request Authenticator, a value, and whether that is of the password.
type UnderAuthenticator = (&'static str, &'static [u8; 16], &'static [u8; 32], bool);

#[test]
fn a_password_is_right_under_its_own_request_authenticator(rt: HostRuntime) {
    const ROWS: &[UnderAuthenticator] = &[
        (
            "the other",
            OTHER_AUTHENTICATOR,
            UNDER_OTHER_AUTHENTICATOR,
            true,
        ),
        ("the first", REQUEST_AUTHENTICATOR, SEVENTEEN, true),
        (
            "the other for the first",
            OTHER_AUTHENTICATOR,
            SEVENTEEN,
            false,
        ),
        (
            "the first for the other",
            REQUEST_AUTHENTICATOR,
            UNDER_OTHER_AUTHENTICATOR,
            false,
        ),
    ];
    let secret = Secret::new(SECRET);
    let value = hidden_with(&rt, &secret, OTHER_AUTHENTICATOR, b"seventeen octets.");
    holds(
        &rt,
        value.octets() == UNDER_OTHER_AUTHENTICATOR.as_slice(),
        "hidden",
    );
    for (name, authenticator, value, want) in ROWS.iter() {
        let right = is_right(&rt, &secret, authenticator, *value, b"seventeen octets.");
        holds(&rt, right == *want, name);
    }
}
