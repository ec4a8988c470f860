//! The HMACs of RFC 2202, section 2, and HMACs and digests by Python's hmac and hashlib.
ghost use Rattle.std.specs.Prelude.{◌≡◌, ◌<◌, ◌≤◌, length};
ghost use Rattle.rad_md5.specs.Pieces.{HasFreePiece, message};
ghost use Rattle.rad_hmac.specs.Hmac.{hmac, text_limit};

use md5::{Digest, Md5};
use rad_hmac::{Key, hmac8};
use rad_md5::Pieces;
use std::process::Abort;

// Each case asserts by this: `what` is so in the case `name`.
fn holds(rt: &impl Abort, it: bool, what: &str, name: &str) {
    assert!(rt; it, "{what}, {name}");
}

// A message in three slices of which one is empty.
fn pieces(octets: &[u8]) -> Pieces<'_>
    requires { length octets.now < text_limit }
    ensures free { HasFreePiece result }
    ensures message { message result ≡ octets.now }
{
    let (front, back) = octets.split_at(octets.len() / 2);
    Pieces::of([front, &[], back, &[], &[]])
}

// The HMAC of one message, in the third lane; the others have empty messages.
fn hmac_of(key: &[u8], message: &[u8]) -> [u8; 16]
    requires { length message.now < text_limit }
    ensures { result ≡ hmac key.now message.now }
{
    let key = Key::new(key);
    let hmacs = hmac8(&[
        (&key, pieces(&[])),
        (&key, pieces(&[])),
        (&key, pieces(message)),
        (&key, pieces(&[])),
        (&key, pieces(&[])),
        (&key, pieces(&[])),
        (&key, pieces(&[])),
        (&key, pieces(&[])),
    ]);
    hmacs[2]
}

// A key or a message of at most 80 octets with its middle octet's lowest bit turned, in the first octets.
fn turned(octets: &[u8]) -> [u8; 80]
    requires { length octets.now ≤ 80 }
{
    let mut turned = [0; 80];
    turned[..octets.len()].copy_from_slice(octets);
    if let Some(octet) = turned.get_mut(octets.len() / 2) {
        *octet ^= 1;
    }
    turned
}

// A name, a key, a message and its HMAC.
type Case = (
    &'static str,
    &'static [u8],
    &'static [u8],
    &'static [u8; 16],
);

const CASES: [Case; 7] = [
    (
        "case 1",
        &[0x0b; 16],
        b"Hi There",
        b"\x92\x94\x72\x7a\x36\x38\xbb\x1c\x13\xf4\x8e\xf8\x15\x8b\xfc\x9d",
    ),
    (
        "case 2",
        b"Jefe",
        b"what do ya want for nothing?",
        b"\x75\x0c\x78\x3e\x6a\xb0\xb5\x03\xea\xa8\x6e\x31\x0a\x5d\xb7\x38",
    ),
    (
        "case 3",
        &[0xaa; 16],
        &[0xdd; 50],
        b"\x56\xbe\x34\x52\x1d\x14\x4c\x88\xdb\xb8\xc7\x33\xf0\xe8\xb3\xf6",
    ),
    (
        "case 4",
        b"\x01\x02\x03\x04\x05\x06\x07\x08\x09\x0a\x0b\x0c\x0d\x0e\x0f\x10\x11\x12\x13\x14\x15\x16\x17\x18\x19",
        &[0xcd; 50],
        b"\x69\x7e\xaf\x0a\xca\x3a\x3a\xea\x3a\x75\x16\x47\x46\xff\xaa\x79",
    ),
    (
        "case 5",
        &[0x0c; 16],
        b"Test With Truncation",
        b"\x56\x46\x1e\xf2\x34\x2e\xdc\x00\xf9\xba\xb9\x95\x69\x0e\xfd\x4c",
    ),
    (
        "case 6",
        &[0xaa; 80],
        b"Test Using Larger Than Block-Size Key - Hash Key First",
        b"\x6b\x1a\xb7\xfe\x4b\xd7\xbf\x8f\x0b\x62\xe6\xce\x61\xb9\xd0\xcd",
    ),
    (
        "case 7",
        &[0xaa; 80],
        b"Test Using Larger Than Block-Size Key and Larger Than One Block-Size Data",
        b"\x6f\x63\x0f\xad\x67\xcd\xa0\xee\x1f\xb1\xf5\x62\xdb\x3a\xa5\x3e",
    ),
];

// A bit of the message or of the key turned gives another HMAC.
fn turned_has_another(rt: &impl Abort, key: &[u8], message: &[u8], want: &[u8; 16], name: &str)
    requires key { length key.now ≤ 80 }
    requires message { length message.now ≤ 80 }
{
    let other_message = hmac_of(key, &turned(message)[..message.len()]);
    holds(rt, other_message != *want, "a bit of the message", name);
    let other_key = hmac_of(&turned(key)[..key.len()], message);
    holds(rt, other_key != *want, "a bit of the key", name);
}

fn has_its_hmac(rt: &impl Abort, (name, key, message, want): Case) {
    assert!(rt; key.len() <= 80 && message.len() <= 80, "{name}");
    holds(rt, hmac_of(key, message) == *want, "the HMAC", name);
    turned_has_another(rt, key, message, want, name);
}

#[test]
fn messages_have_the_hmacs_of_the_rfc(rt: HostRuntime) {
    for case in CASES.iter() {
        has_its_hmac(&rt, *case);
    }
}

// 200 octets of text.
const TEXT: &[u8; 200] =
    b"This document describes HMAC, a mechanism for message authentication using cryptographic hash functions. HMAC can be used with any iterative cryptographic hash function, e.g., MD5, SHA-1, in combinati";

fn is_hmac(rt: &impl Abort, key: &[u8], message: &[u8], want: &[u8; 16], name: &str)
    requires { length message.now ≤ 80 }
{
    holds(rt, hmac_of(key, message) == *want, "the HMAC", name);
}

#[test]
fn a_key_is_digested_from_65_octets_on(rt: HostRuntime) {
    let of_no_octets = b"\x74\xe6\xf7\x29\x8a\x9c\x2d\x16\x89\x35\xf5\x8c\x00\x1b\xad\x88";
    let of_63_octets = b"\xa8\xf8\x67\xe6\x5c\x7d\xf6\x72\x72\xb8\x12\xad\xc9\xc5\xfd\x15";
    let of_64_octets = b"\xc5\x0f\x12\xc9\x5f\x2f\x4b\xb7\x1d\xba\xa8\xcf\xd4\x71\x2b\xce";
    let of_65_octets = b"\x18\x3e\xbc\x5e\x13\x2e\x65\xa1\xdf\x13\x07\xfc\x45\xcf\x13\x08";
    let digest_of_65_octets = b"\x34\x53\x0d\xab\xb7\xcb\x68\xaf\x86\x6f\xa2\x15\x61\x55\x0f\x98";
    is_hmac(&rt, &[], &[], of_no_octets, "no octets");
    is_hmac(&rt, &TEXT[..63], b"Hi There", of_63_octets, "63 octets");
    is_hmac(&rt, &TEXT[..64], b"Hi There", of_64_octets, "64 octets");
    is_hmac(&rt, &TEXT[..65], b"Hi There", of_65_octets, "65 octets");
    is_hmac(
        &rt,
        digest_of_65_octets,
        b"Hi There",
        of_65_octets,
        "their digest",
    );
}

// The digest of a key, each octet xored with this one, followed by a message.
fn padded_digest(key: &[u8; 64], pad: u8, message: &[u8]) -> [u8; 16] {
    let mut block = *key;
    for octet in block.iter_mut() {
        *octet ^= pad;
    }
    Md5::new_with_prefix(&block)
        .chain_update(message)
        .finalize()
}

// HMAC by plain digests.
fn plain_hmac(key: &[u8], message: &[u8]) -> [u8; 16] {
    let mut block = [0; 64];
    if key.len() > 64 {
        block[..16].copy_from_slice(&Md5::digest(key));
    } else {
        block[..key.len()].copy_from_slice(key);
    }
    padded_digest(&block, 0x5c, &padded_digest(&block, 0x36, message))
}

#[test]
fn each_lane_has_its_own_key_and_message(rt: HostRuntime) {
    let text: &[u8] = TEXT;
    let keys = [
        &text[0..1],
        &text[1..17],
        &text[20..83],
        &text[40..103],
        &text[60..124],
        &text[70..135],
        &text[80..160],
        &text[7..192],
    ];
    let messages = [
        &text[199..199],
        &text[100..101],
        &text[3..58],
        &text[5..61],
        &text[8..71],
        &text[9..73],
        &text[11..76],
        &text[0..200],
    ];
    let hmacs = hmac8(&[
        (&Key::new(keys[0]), pieces(messages[0])),
        (&Key::new(keys[1]), pieces(messages[1])),
        (&Key::new(keys[2]), pieces(messages[2])),
        (&Key::new(keys[3]), pieces(messages[3])),
        (&Key::new(keys[4]), pieces(messages[4])),
        (&Key::new(keys[5]), pieces(messages[5])),
        (&Key::new(keys[6]), pieces(messages[6])),
        (&Key::new(keys[7]), pieces(messages[7])),
    ]);
    let names = [
        "lane 0", "lane 1", "lane 2", "lane 3", "lane 4", "lane 5", "lane 6", "lane 7",
    ];
    for lane in 0..8 {
        let want = plain_hmac(keys[lane], messages[lane]);
        holds(&rt, hmacs[lane] == want, "the HMAC", names[lane]);
    }
}
