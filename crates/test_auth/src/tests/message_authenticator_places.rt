//! Message-Authenticators that stand first or in the middle of an Access-Request.
use super::{Case, OTHER_CLIENT, STRICT_CLIENT, have_verdicts, three_clients};
use rad_auth::Discard::BadMessageAuthenticator;
use rad_auth::Door::Auth;
use test_common::CLIENT;

const FIRST: &[u8; 74] = b"\
    \x01\x00\x00\x4a\
    \x0f\x40\x3f\x94\x73\x97\x80\x57\xbd\x83\xd5\xcb\x98\xf4\x22\x7a\
    \x50\x12\x8f\x16\xb4\x5f\x90\xd3\x49\x49\x89\xa4\xf1\x4f\x44\x21\xc6\x18\
    \x01\x06nemo\
    \x02\x12\x0d\xbe\x70\x8d\x93\xd4\x13\xce\x31\x96\xe4\x3f\x78\x2a\x0a\xee\
    \x04\x06\xc0\xa8\x01\x10\
    \x05\x06\x00\x00\x00\x03";

const IN_THE_MIDDLE: &[u8; 74] = b"\
    \x01\x00\x00\x4a\
    \x0f\x40\x3f\x94\x73\x97\x80\x57\xbd\x83\xd5\xcb\x98\xf4\x22\x7a\
    \x01\x06nemo\
    \x02\x12\x0d\xbe\x70\x8d\x93\xd4\x13\xce\x31\x96\xe4\x3f\x78\x2a\x0a\xee\
    \x50\x12\x13\x1d\xf7\x66\x86\x15\x1a\x16\x5e\x8d\x1c\x17\x76\x5f\xda\x8a\
    \x04\x06\xc0\xa8\x01\x10\
    \x05\x06\x00\x00\x00\x03";

#[test]
fn a_message_authenticator_may_stand_anywhere(rt: HostRuntime) {
    // Where it is last, `message_authenticators` has it.
    const ROWS: &[Case] = &[
        ("first", CLIENT, Auth, FIRST, Ok((0, 0))),
        ("in the middle", CLIENT, Auth, IN_THE_MIDDLE, Ok((0, 0))),
        ("first", STRICT_CLIENT, Auth, FIRST, Ok((2, 0))),
        (
            "in the middle",
            STRICT_CLIENT,
            Auth,
            IN_THE_MIDDLE,
            Ok((2, 0)),
        ),
        (
            "first",
            OTHER_CLIENT,
            Auth,
            FIRST,
            Err(BadMessageAuthenticator),
        ),
        (
            "in the middle",
            OTHER_CLIENT,
            Auth,
            IN_THE_MIDDLE,
            Err(BadMessageAuthenticator),
        ),
    ];
    have_verdicts(&rt, &three_clients(&rt, rt.alloc()), ROWS);
}
