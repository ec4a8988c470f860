//! Requests that come again, and the replies that are kept for them.
use super::Answered::Accept;
use super::Step::{Ask, AskFrom, Replies, Sessions, Still};
use super::requests::Asked::{Access, Account, OtherOctets, Status};
use super::requests::Sent::Hidden;
use super::requests::{Asked, BRUCE, EXAMPLE, NEMO, PADDED_EXAMPLE, SIGNATURE, START, Sent};
use super::texts::{ACCESS_DENIED, BRUCE_FIRST, BRUCE_SECOND, NEMO_FIRST, RESPONSE, SESSION_LIMIT};
use super::{Row, play};
use rad_auth::Door::{Acct, Auth};
use rad_pool::Phase::Pending;
use std::test::Fail;
use test_common::{PORT, RFC_REQUEST};

/// A request that bruce may have granted twice.
const REQUEST: Asked = Access(0, &[BRUCE, Hidden(b"shark")]);

const RIGHT: Sent = Hidden(b"arctangent");

const WRONG: Sent = Hidden(b"arctangents");

#[test]
fn a_repeat_gets_the_same_reply_in_the_window(rt: HostRuntime) -> Result<(), Fail> {
    const ROWS: &[Row] = &[
        (0, Ask(REQUEST, BRUCE_FIRST), "bruce"),
        (29_999, Ask(REQUEST, BRUCE_FIRST), "in the window"),
        (29_999, Still(REQUEST, BRUCE_FIRST), "once more"),
        (29_999, Sessions(&[(1, Pending, 0)]), "still one session"),
        (29_999, Replies(&[(PORT, 0, 0)]), "still one reply"),
        (30_000, Ask(REQUEST, BRUCE_SECOND), "after it"),
        (
            30_000,
            Sessions(&[(1, Pending, 0), (2, Pending, 30_000)]),
            "two sessions",
        ),
        (30_000, Replies(&[(PORT, 0, 30_000)]), "the new reply"),
    ];
    play(&rt, rt.alloc(), ROWS)
}

#[test]
fn a_repeat_does_not_lengthen_the_window(rt: HostRuntime) -> Result<(), Fail> {
    const ROWS: &[Row] = &[
        (0, Ask(REQUEST, BRUCE_FIRST), "bruce"),
        (20_000, Ask(REQUEST, BRUCE_FIRST), "in the window"),
        (40_000, Ask(REQUEST, BRUCE_SECOND), "after it"),
        (40_000, Replies(&[(PORT, 0, 40_000)]), "the new reply"),
    ];
    play(&rt, rt.alloc(), ROWS)
}

#[test]
fn a_repeat_is_known_by_its_key_and_octets(rt: HostRuntime) -> Result<(), Fail> {
    const ROWS: &[Row] = &[
        (0, Ask(EXAMPLE, NEMO_FIRST), "nemo"),
        (1, Ask(PADDED_EXAMPLE, NEMO_FIRST), "the same with padding"),
        (
            2,
            AskFrom(PORT + 1, EXAMPLE, SESSION_LIMIT),
            "the same octets from another port",
        ),
        (
            3,
            Ask(OtherOctets(RFC_REQUEST), ACCESS_DENIED),
            "the same octets from another source",
        ),
        (
            4,
            Ask(Account(0, &[START]), RESPONSE),
            "the same Identifier to the accounting port",
        ),
        (
            5,
            Ask(Access(1, &[NEMO, RIGHT]), SESSION_LIMIT),
            "another Identifier",
        ),
        (6, Ask(EXAMPLE, NEMO_FIRST), "the first octets"),
        (
            6,
            Replies(&[
                (PORT, 0, 0),
                (PORT + 1, 0, 2),
                (PORT, 0, 3),
                (PORT, 0, 4),
                (PORT, 1, 5),
            ]),
            "a reply for each key",
        ),
    ];
    play(&rt, rt.alloc(), ROWS)
}

#[test]
fn a_key_has_one_kept_reply(rt: HostRuntime) -> Result<(), Fail> {
    const ROWS: &[Row] = &[
        (0, Ask(EXAMPLE, NEMO_FIRST), "nemo"),
        (
            1,
            Ask(Access(0, &[NEMO, RIGHT]), SESSION_LIMIT),
            "other octets under the same key",
        ),
        (1, Replies(&[(PORT, 0, 1)]), "the reply to them"),
        (2, Ask(EXAMPLE, SESSION_LIMIT), "the first octets"),
        (2, Replies(&[(PORT, 0, 2)]), "the new reply"),
    ];
    play(&rt, rt.alloc(), ROWS)
}

#[test]
fn each_reply_but_that_to_a_status_server_is_kept(rt: HostRuntime) -> Result<(), Fail> {
    const ROWS: &[Row] = &[
        (
            0,
            Ask(Access(0, &[NEMO, WRONG]), ACCESS_DENIED),
            "an Access-Reject",
        ),
        (
            0,
            Ask(Account(0, &[START]), RESPONSE),
            "an Accounting-Response",
        ),
        (
            1_000,
            Ask(Access(0, &[NEMO, WRONG]), ACCESS_DENIED),
            "the Access-Reject once more",
        ),
        (
            1_000,
            Ask(Account(0, &[START]), RESPONSE),
            "the Accounting-Response once more",
        ),
        (
            1_000,
            Still(Status(Auth, &[SIGNATURE]), Accept(b"")),
            "a Status-Server",
        ),
        (
            1_000,
            Still(Status(Acct, &[SIGNATURE]), RESPONSE),
            "one to the accounting port",
        ),
        (
            1_000,
            Replies(&[(PORT, 0, 0), (PORT, 0, 0)]),
            "the first two are kept",
        ),
    ];
    play(&rt, rt.alloc(), ROWS)
}
