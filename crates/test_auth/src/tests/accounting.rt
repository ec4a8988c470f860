//! What an Accounting-Request says, and what its attributes are.

use super::{Case, have_verdicts, three_clients};
use rad_auth::Discard::{BadAuthenticator, NoStatusType};
use rad_auth::Door::Acct;
use test_common::CLIENT;

#[test]
fn accounting_requests_get_their_verdicts(rt: HostRuntime) {
    // Identifier 7.
    const ROWS: &[Case] = &[
        (
            "no attribute",
            CLIENT,
            Acct,
            b"\x04\x07\x00\x14\
              \x91\x2c\x5d\x7a\x60\x64\xce\x68\x5c\x37\x78\xe1\x92\x41\xf2\x31",
            Err(NoStatusType),
        ),
        (
            "no attribute, and a bit of the Authenticator turned",
            CLIENT,
            Acct,
            b"\x04\x07\x00\x14\
              \x90\x2c\x5d\x7a\x60\x64\xce\x68\x5c\x37\x78\xe1\x92\x41\xf2\x31",
            Err(BadAuthenticator),
        ),
        (
            "an Acct-Status-Type of no octets",
            CLIENT,
            Acct,
            b"\x04\x07\x00\x16\
              \x8d\x53\xd5\xda\xbe\xb6\x06\x60\x22\x05\x54\x63\x32\x1e\x63\xa1\
              \x28\x02",
            Err(NoStatusType),
        ),
        (
            "an Acct-Status-Type of 3 octets",
            CLIENT,
            Acct,
            b"\x04\x07\x00\x19\
              \xe5\x88\xcf\xc1\xc6\x32\x90\x03\x4b\xf6\xcf\xbb\xee\x91\x0a\xc4\
              \x28\x05\x00\x00\x01",
            Err(NoStatusType),
        ),
        (
            "an Acct-Status-Type of 5 octets",
            CLIENT,
            Acct,
            b"\x04\x07\x00\x1b\
              \x66\x9b\xf4\x34\x5e\x86\x75\xb0\xb1\x4c\xbe\xb9\xab\x78\xde\x7d\
              \x28\x07\x00\x00\x00\x00\x01",
            Err(NoStatusType),
        ),
        (
            "one of 5 octets and one of 4",
            CLIENT,
            Acct,
            b"\x04\x07\x00\x21\
              \xac\xab\x2a\x9e\xc2\xb2\x7d\xd1\x8f\xe5\xd2\xff\x84\xc3\x8f\x55\
              \x28\x07\x00\x00\x00\x00\x01\
              \x28\x06\x00\x00\x00\x01",
            Ok((0, 7)),
        ),
        (
            "one of 4 octets and one of 5",
            CLIENT,
            Acct,
            b"\x04\x07\x00\x21\
              \x47\xa9\x99\x73\x22\x4b\xb4\xd1\xf4\x4d\xce\x33\xb0\x67\xd8\x01\
              \x28\x06\x00\x00\x00\x01\
              \x28\x07\x00\x00\x00\x00\x01",
            Ok((0, 7)),
        ),
        (
            "a wrong Message-Authenticator",
            CLIENT,
            Acct,
            b"\x04\x07\x00\x2c\
              \x39\x33\x63\x94\x0b\x8c\x5d\x70\x6f\xb6\xee\xc4\x94\xc5\xd3\x79\
              \x28\x06\x00\x00\x00\x01\
              \x50\x12Sixteen octets..",
            Ok((0, 7)),
        ),
        (
            "a Message-Authenticator of 3 octets",
            CLIENT,
            Acct,
            b"\x04\x07\x00\x1f\
              \x51\x9b\x5f\x28\x88\x0f\x75\x95\x08\xa1\xdc\x95\x9d\x8b\xa4\x06\
              \x28\x06\x00\x00\x00\x01\
              \x50\x05abc",
            Ok((0, 7)),
        ),
        (
            "two Message-Authenticators of zeros",
            CLIENT,
            Acct,
            b"\x04\x07\x00\x3e\
              \x37\x97\x72\xe1\x28\x1b\x99\x2c\x33\xe0\xe7\xfd\xa7\xec\x7d\xab\
              \x28\x06\x00\x00\x00\x01\
              \x50\x12\0\0\0\0\0\0\0\0\0\0\0\0\0\0\0\0\
              \x50\x12\0\0\0\0\0\0\0\0\0\0\0\0\0\0\0\0",
            Ok((0, 7)),
        ),
        (
            "a Message-Authenticator, and no status",
            CLIENT,
            Acct,
            b"\x04\x07\x00\x26\
              \xaa\x9a\x0e\x2d\x75\x3e\xdf\x87\x44\x55\x17\x0f\xde\x88\x20\x5e\
              \x50\x12\0\0\0\0\0\0\0\0\0\0\0\0\0\0\0\0",
            Err(NoStatusType),
        ),
        (
            "an EAP-Message",
            CLIENT,
            Acct,
            b"\x04\x07\x00\x1d\
              \x4c\x1c\xab\x74\x71\x0f\xba\x31\xdc\x1e\x4a\x5f\x1f\x6a\xaa\xf3\
              \x28\x06\x00\x00\x00\x01\
              \x4f\x03a",
            Ok((0, 7)),
        ),
        (
            "an Authenticator over packet and padding",
            CLIENT,
            Acct,
            b"\x04\x07\x00\x1a\
              \xea\x6c\xb8\xdf\x8f\x98\x91\x72\x70\xd7\x21\x7c\x56\x33\xe3\x8a\
              \x28\x06\x00\x00\x00\x01\
              abc",
            Err(BadAuthenticator),
        ),
    ];
    have_verdicts(&rt, &three_clients(&rt, rt.alloc()), ROWS);
}
