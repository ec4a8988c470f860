//! Message-Authenticators that follow an Access-Request: how many, of what length, and over what.
use super::{OTHER_CLIENT, STRICT_CLIENT, Verdict, has_verdict, three_clients};
use rad_auth::Clients;
use rad_auth::Discard::{
    BadAttributes, BadMessageAuthenticator, NoMessageAuthenticator, Truncated, UnknownClient,
};
use rad_auth::Door::Auth;
use std::process::Abort;
use test_common::{CLIENT, RFC_REQUEST, STRANGER};

const HMAC: &[u8; 18] = b"\x50\x12\x63\xb7\x8a\x6b\x9d\x2f\x14\x99\x89\xfb\xf5\x7e\xa2\x1d\x19\x4c";

// The same octets as an attribute of another Type.
const OTHER_TYPE: &[u8; 18] =
    b"\x51\x12\x63\xb7\x8a\x6b\x9d\x2f\x14\x99\x89\xfb\xf5\x7e\xa2\x1d\x19\x4c";

// Under the other client's secret.
const OTHER_HMAC: &[u8; 18] =
    b"\x50\x12\x32\xbc\x70\xcc\x99\x42\x51\x6f\xdb\x53\xad\xb0\xe4\xf4\x09\x3b";

const PADDED_HMAC: &[u8; 21] =
    b"\x50\x12\x63\xb7\x8a\x6b\x9d\x2f\x14\x99\x89\xfb\xf5\x7e\xa2\x1d\x19\x4cabc";

const HMAC_OVER_PADDING: &[u8; 21] =
    b"\x50\x12\x64\xa3\x8b\xfd\x77\xac\x7f\xd2\x7c\x43\x97\x00\x75\x34\xf8\xd5abc";

// Over the RFC's request alone.
const HMAC_OVER_OTHERS: &[u8; 18] =
    b"\x50\x12\xec\xe3\x20\x85\x3d\x91\xe0\x48\x43\x2b\x28\x97\x70\x31\xc6\x76";

// With zeros in the Authenticator's place too.
const HMAC_OVER_ZEROS: &[u8; 18] =
    b"\x50\x12\x3c\xc9\xfe\x49\x53\x5d\xd7\x14\x9c\x8b\x1d\xe2\xfc\x8e\xad\x04";

const HMAC_AND_TEXT: &[u8; 36] = b"\
    \x50\x12\x18\xfc\xe4\x04\x9a\x22\x25\xd1\xe2\x54\x04\x26\x3d\xff\x20\xa6\
    \x50\x12Sixteen octets..";

const TEXT_AND_HMAC: &[u8; 36] = b"\
    \x50\x12Sixteen octets..\
    \x50\x12\xda\x45\x4f\x1a\x0b\x1f\x02\x33\xf9\xb5\x91\x7f\x25\x36\xdc\xa3";

// The HMAC over both as zeros, in both.
const HMAC_TWICE: &[u8; 36] = b"\
    \x50\x12\xb7\x6e\x32\x9a\x78\xbb\xea\xba\xa3\x23\x04\x31\x93\xce\xb9\x46\
    \x50\x12\xb7\x6e\x32\x9a\x78\xbb\xea\xba\xa3\x23\x04\x31\x93\xce\xb9\x46";

const SHORT_AND_HMAC: &[u8; 23] = b"\
    \x50\x05abc\
    \x50\x12\x16\xbd\xcb\xca\x4d\xd2\x7b\xcd\xc9\x19\xad\xd4\xd8\xb9\x3c\x7f";

const HMAC_AND_SHORT: &[u8; 23] = b"\
    \x50\x12\x93\xc5\x6d\x66\x1a\xad\x5c\xa9\xb5\x02\x33\xe9\x44\xf4\x60\x8a\
    \x50\x05abc";

const EAP_AND_HMAC: &[u8; 21] = b"\
    \x4f\x03a\
    \x50\x12\x54\xa6\x6c\x24\x3b\xa4\x57\x28\x35\xc1\x7e\x99\xd7\x94\x5d\x6c";

const HMAC_AND_EAP: &[u8; 21] = b"\
    \x50\x12\x7a\xf4\x5c\xd5\x42\xeb\x59\x0d\x6c\xcd\xd0\xf9\x5f\xb4\x64\x5f\
    \x4f\x03a";

// The HMAC that is right before the EAP-Message.
const EAP_AND_WRONG_HMAC: &[u8; 21] = b"\
    \x4f\x03a\
    \x50\x12\x7a\xf4\x5c\xd5\x42\xeb\x59\x0d\x6c\xcd\xd0\xf9\x5f\xb4\x64\x5f";

const ZEROS: &[u8; 18] = b"\x50\x12\0\0\0\0\0\0\0\0\0\0\0\0\0\0\0\0";

// What follows the RFC's request: its name, the source, the Length, the octets, and the verdict.
type Case = (&'static str, u32, u16, &'static [u8], Verdict);

// The most octets that follow the RFC's request.
const MORE_MAX: usize = 36;

// Asserts the verdict on the RFC's request with another Length, and followed by more octets.
fn is_case(rt: &impl Abort, clients: &Clients, (name, source, len, more, want): Case) {
    let more = &more[..more.len().min(MORE_MAX)];
    let mut octets = [0; 56 + MORE_MAX];
    octets[..56].copy_from_slice(RFC_REQUEST);
    octets[2..4].copy_from_slice(&len.to_be_bytes());
    octets[56..56 + more.len()].copy_from_slice(more);
    let octets = &octets[..56 + more.len()];
    has_verdict(rt, clients, (source, Auth), octets, want, name);
}

#[test]
fn each_message_authenticator_gets_its_verdict(rt: HostRuntime) {
    const ROWS: &[Case] = &[
        // Those that are admitted.
        ("nothing", CLIENT, 56, b"", Ok((0, 0))),
        ("padding", CLIENT, 56, b"abc", Ok((0, 0))),
        ("zeros past Length", CLIENT, 56, ZEROS, Ok((0, 0))),
        ("the HMAC", CLIENT, 74, HMAC, Ok((0, 0))),
        ("the HMAC and padding", CLIENT, 74, PADDED_HMAC, Ok((0, 0))),
        (
            "the HMAC with another Type",
            CLIENT,
            74,
            OTHER_TYPE,
            Ok((0, 0)),
        ),
        (
            "an EAP-Message and the HMAC",
            CLIENT,
            77,
            EAP_AND_HMAC,
            Ok((0, 0)),
        ),
        (
            "the HMAC and an EAP-Message",
            CLIENT,
            77,
            HMAC_AND_EAP,
            Ok((0, 0)),
        ),
        ("nothing", OTHER_CLIENT, 56, b"", Ok((1, 0))),
        ("the HMAC", OTHER_CLIENT, 74, OTHER_HMAC, Ok((1, 0))),
        ("the HMAC", STRICT_CLIENT, 74, HMAC, Ok((2, 0))),
        (
            "the HMAC and padding",
            STRICT_CLIENT,
            74,
            PADDED_HMAC,
            Ok((2, 0)),
        ),
        (
            "the HMAC after EAP",
            STRICT_CLIENT,
            77,
            EAP_AND_HMAC,
            Ok((2, 0)),
        ),
        // Those with a wrong or doubled one.
        ("zeros", CLIENT, 74, ZEROS, Err(BadMessageAuthenticator)),
        (
            "no octets",
            CLIENT,
            58,
            b"\x50\x02",
            Err(BadMessageAuthenticator),
        ),
        (
            "15 octets",
            CLIENT,
            73,
            b"\x50\x11fifteen octets.",
            Err(BadMessageAuthenticator),
        ),
        (
            "17 octets",
            CLIENT,
            75,
            b"\x50\x13seventeen octets.",
            Err(BadMessageAuthenticator),
        ),
        (
            "another client's HMAC",
            OTHER_CLIENT,
            74,
            HMAC,
            Err(BadMessageAuthenticator),
        ),
        (
            "the HMAC over padding too",
            CLIENT,
            74,
            HMAC_OVER_PADDING,
            Err(BadMessageAuthenticator),
        ),
        (
            "the HMAC over the others",
            CLIENT,
            74,
            HMAC_OVER_OTHERS,
            Err(BadMessageAuthenticator),
        ),
        (
            "the HMAC over zeros",
            CLIENT,
            74,
            HMAC_OVER_ZEROS,
            Err(BadMessageAuthenticator),
        ),
        (
            "the HMAC and text",
            CLIENT,
            92,
            HMAC_AND_TEXT,
            Err(BadMessageAuthenticator),
        ),
        (
            "text and the HMAC",
            CLIENT,
            92,
            TEXT_AND_HMAC,
            Err(BadMessageAuthenticator),
        ),
        (
            "the HMAC twice",
            CLIENT,
            92,
            HMAC_TWICE,
            Err(BadMessageAuthenticator),
        ),
        (
            "the HMAC twice",
            STRICT_CLIENT,
            92,
            HMAC_TWICE,
            Err(BadMessageAuthenticator),
        ),
        (
            "3 octets and the HMAC",
            CLIENT,
            79,
            SHORT_AND_HMAC,
            Err(BadMessageAuthenticator),
        ),
        (
            "the HMAC and 3 octets",
            CLIENT,
            79,
            HMAC_AND_SHORT,
            Err(BadMessageAuthenticator),
        ),
        (
            "EAP and a wrong HMAC",
            CLIENT,
            77,
            EAP_AND_WRONG_HMAC,
            Err(BadMessageAuthenticator),
        ),
        // Those that have none, and other discards.
        (
            "Length 57 of 56 octets",
            STRANGER,
            57,
            b"",
            Err(UnknownClient),
        ),
        ("the HMAC", STRANGER, 74, HMAC, Err(UnknownClient)),
        ("Length 57 of 56 octets", CLIENT, 57, b"", Err(Truncated)),
        (
            "Length 57 of 56 octets",
            STRICT_CLIENT,
            57,
            b"",
            Err(Truncated),
        ),
        (
            "an attribute of Length 1",
            CLIENT,
            58,
            b"\x07\x01",
            Err(BadAttributes),
        ),
        (
            "the HMAC and one octet",
            CLIENT,
            75,
            PADDED_HMAC,
            Err(BadAttributes),
        ),
        (
            "an EAP-Message",
            CLIENT,
            59,
            b"\x4f\x03a",
            Err(NoMessageAuthenticator),
        ),
        (
            "an EAP-Message",
            STRICT_CLIENT,
            59,
            b"\x4f\x03a",
            Err(NoMessageAuthenticator),
        ),
        (
            "an EAP-Message of no octets",
            CLIENT,
            58,
            b"\x4f\x02",
            Err(NoMessageAuthenticator),
        ),
        (
            "nothing",
            STRICT_CLIENT,
            56,
            b"",
            Err(NoMessageAuthenticator),
        ),
        (
            "the HMAC past Length",
            STRICT_CLIENT,
            56,
            HMAC,
            Err(NoMessageAuthenticator),
        ),
        (
            "the HMAC with another Type",
            STRICT_CLIENT,
            74,
            OTHER_TYPE,
            Err(NoMessageAuthenticator),
        ),
    ];
    let clients = three_clients(&rt, rt.alloc());
    for case in ROWS.iter() {
        is_case(&rt, &clients, *case);
    }
}
