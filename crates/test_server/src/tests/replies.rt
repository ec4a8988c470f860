//! What replies say, and the Proxy-States at their end.
use super::Answered::{Accept, Reject, Response};
use super::Step::Ask;
use super::requests::Asked::{Access, Account, Status};
use super::requests::Sent::{Hidden, Plain};
use super::requests::{SIGNATURE, START, Sent};
use super::{Row, play};
use rad_auth::Door::{Acct, Auth};
use rad_packet::attribute::{PROXY_STATE, USER_NAME};
use std::test::Fail;

const CORAL: Sent = Plain(USER_NAME, b"coral");

const MARLIN: Sent = Plain(USER_NAME, b"marlin");

const PROXY: Sent = Plain(PROXY_STATE, b"zz");

const NEXT_PROXY: Sent = Plain(PROXY_STATE, b"a");

/// The two Proxy-States.
const PROXIES: &[u8; 7] = b"\x21\x04zz\x21\x03a";

/// All that the configuration grants to coral, in the first session.
const ALL: &[u8; 54] = b"\
    \x06\x06\x00\x00\x00\x02\
    \x07\x06\x00\x00\x00\x01\
    \x08\x06\x0a\x00\x01\x01\
    \x1b\x06\x00\x00\x0e\x10\
    \x12\x09welcome\
    \x19\x0eRAP1\x00\x00\x00\x00\x00\x00\x00\x01\
    \x21\x04zz\x21\x03a";

/// What the configuration grants to marlin, in the second session: the replies stand after the Class, the group's first.
const REPLIES: &[u8; 52] = b"\
    \x08\x06\x0a\x00\x03\x07\
    \x1b\x06\x00\x00\x02\x58\
    \x12\x04hi\
    \x19\x0eRAP1\x00\x00\x00\x00\x00\x00\x00\x02\
    \x0b\x06gold\
    \x1a\x09\x00\x00\x00\x09\x01\x03x\
    \x21\x04zz\x21\x03a";

#[test]
fn a_reply_ends_with_the_proxy_states(rt: HostRuntime) -> Result<(), Fail> {
    const ROWS: &[Row] = &[
        (
            0,
            Ask(
                Access(0, &[PROXY, CORAL, Hidden(b"p"), NEXT_PROXY]),
                Accept(ALL),
            ),
            "an Access-Accept",
        ),
        (
            0,
            Ask(
                Access(1, &[PROXY, CORAL, Hidden(b"q"), NEXT_PROXY]),
                Reject(b"\x12\x0faccess denied\x21\x04zz\x21\x03a"),
            ),
            "an Access-Reject",
        ),
        (
            0,
            Ask(Account(0, &[PROXY, NEXT_PROXY, START]), Response(PROXIES)),
            "an Accounting-Response",
        ),
        (
            0,
            Ask(
                Status(Auth, &[PROXY, SIGNATURE, NEXT_PROXY]),
                Accept(PROXIES),
            ),
            "an Access-Accept of a Status-Server",
        ),
        (
            0,
            Ask(
                Status(Acct, &[PROXY, SIGNATURE, NEXT_PROXY]),
                Response(PROXIES),
            ),
            "its Accounting-Response",
        ),
        (
            0,
            Ask(
                Access(2, &[PROXY, MARLIN, Hidden(b"p"), NEXT_PROXY]),
                Accept(REPLIES),
            ),
            "an Access-Accept with the replies of a group and a user",
        ),
    ];
    play(&rt, rt.alloc(), ROWS)
}
