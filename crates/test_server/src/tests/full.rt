//! Tables that are full.
use super::Answered::{Accept, Busy, Challenge};
use super::Step::{Ask, AskFrom, Challenges, Fill, Replies, Sessions, Still};
use super::requests::Asked::{Access, Account, OtherAccount, Status};
use super::requests::Sent::Hidden;
use super::requests::{BRUCE, DORY, DORY_AGAIN, EXAMPLE, KAY, NEMO, SIGNATURE, START, STOP};
use super::texts::{NO_ADDRESS_LEFT, RESPONSE, SERVER_FULL, SESSION_LIMIT};
use super::{Filling, Row, play};
use rad_auth::Door::Acct;
use rad_pool::Phase::Pending;
use std::test::Fail;
use test_common::PORT;

/// nemo's attributes, in the session of number 65,536.
const NEMO_LAST: &[u8; 32] = b"\
    \x06\x06\x00\x00\x00\x02\
    \x07\x06\x00\x00\x00\x01\
    \x08\x06\x0a\x00\x00\x01\
    \x19\x0eRAP1\x00\x00\x00\x00\x00\x01\x00\x00";

/// What kay is sent with the challenge of number 1,025.
const CHALLENGED_LAST: &[u8; 33] = b"\
    \x12\x07code?\
    \x18\x1a\0\0\0\0\0\0\x04\x01\0\0\0\0\0\0\0\0\0\0\0\0\0\0\0\x01";

#[test]
fn there_are_65536_sessions_and_no_more(rt: HostRuntime) -> Result<(), Fail> {
    const ROWS: &[Row] = &[
        (
            0,
            Fill(Filling::Sessions, 65_536),
            "as many as there may be",
        ),
        (30_000, Ask(DORY, SERVER_FULL), "no room for dory"),
        (
            60_000,
            Ask(
                DORY_AGAIN,
                Accept(b"\x08\x06\x0a\0\0\x01\x19\x0eRAP1\0\0\0\0\0\x01\0\x01"),
            ),
            "the others are gone",
        ),
        (
            60_000,
            Sessions(&[(65_537, Pending, 60_000)]),
            "the next number",
        ),
    ];
    play(&rt, rt.alloc(), ROWS)
}

#[test]
fn a_full_server_is_reported_last(rt: HostRuntime) -> Result<(), Fail> {
    const ROWS: &[Row] = &[
        (0, Fill(Filling::Sessions, 65_535), "room for one more"),
        (0, Ask(EXAMPLE, Accept(NEMO_LAST)), "nemo"),
        (
            30_000,
            Ask(Access(1, &[NEMO, Hidden(b"arctangent")]), SESSION_LIMIT),
            "nemo has a session",
        ),
        (
            30_000,
            Ask(DORY, NO_ADDRESS_LEFT),
            "dory's pool has no address left",
        ),
        (
            30_000,
            Ask(Access(2, &[BRUCE, Hidden(b"shark")]), SERVER_FULL),
            "bruce lacks no more than room",
        ),
    ];
    play(&rt, rt.alloc(), ROWS)
}

#[test]
fn there_are_65536_kept_replies_and_no_more(rt: HostRuntime) -> Result<(), Fail> {
    const ROWS: &[Row] = &[
        (0, Fill(Filling::Replies, 65_536), "as many as there may be"),
        (
            29_999,
            Ask(Account(0, &[START]), RESPONSE),
            "a repeat of the first",
        ),
        (
            29_999,
            Still(OtherAccount(0, &[START]), Busy),
            "no room for one more",
        ),
        (
            29_999,
            Still(Status(Acct, &[SIGNATURE]), RESPONSE),
            "a Status-Server, whose reply isn't kept",
        ),
        (
            29_999,
            Ask(Account(0, &[STOP]), RESPONSE),
            "other octets in the first one's place",
        ),
        (
            30_000,
            Ask(OtherAccount(0, &[START]), RESPONSE),
            "the others are gone",
        ),
        (
            30_000,
            Replies(&[(PORT, 0, 29_999), (PORT, 0, 30_000)]),
            "two are kept",
        ),
    ];
    play(&rt, rt.alloc(), ROWS)
}

#[test]
fn there_are_1024_challenges_and_no_more(rt: HostRuntime) -> Result<(), Fail> {
    const ROWS: &[Row] = &[
        (
            0,
            Fill(Filling::Challenges, 1_024),
            "as many as there may be",
        ),
        (
            59_999,
            AskFrom(PORT + 4, Access(0, &[KAY, Hidden(b"pw")]), SERVER_FULL),
            "no room for one more",
        ),
        (
            60_000,
            AskFrom(
                PORT + 4,
                Access(1, &[KAY, Hidden(b"pw")]),
                Challenge(CHALLENGED_LAST),
            ),
            "the others are gone",
        ),
        (60_000, Challenges(&[(1_025, 60_000)]), "the next number"),
    ];
    play(&rt, rt.alloc(), ROWS)
}
