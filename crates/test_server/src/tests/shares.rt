//! The shares of clients and users in the tables.
use super::Answered::{Busy, Challenge};
use super::Step::{Ask, AskFrom, Fill, Still};
use super::requests::Asked::{Access, Account, OtherAccess, OtherAccount};
use super::requests::Sent::Hidden;
use super::requests::{Asked, FIRST_CLASS, KAY, NEMO, START, STOP, Sent};
use super::texts::{
    FIRST, FIRST_CHALLENGE, RESPONSE, SECOND, SECOND_CHALLENGE, SERVER_FULL, SESSION_LIMIT, THIRD,
};
use super::{Filling, Row, play_over};
use rad_config::Config;
use std::test::Fail;
use test_common::PORT;

// The text of a configuration, which `$more` continues at its last user, `kay`: the first client may have 655 kept replies and 10
// challenges, and `nemo` two sessions in the table.
macro_rules! shares {
    ($more:literal) => {
        concat!(
            r#"
window = 30
hold = 60

[[client]]
address = "192.168.1.16"
secret = "xyzzy5461"
share = 1

[[client]]
address = "192.168.1.20"
secret = "second"

[[user]]
name = "nemo"
password = "arctangent"
grants = 2

[[user]]
name = "kay"
password = "pw"
challenge = "code?"
answer = "4711"
"#,
            $more
        )
    };
}

/// `kay` may have as many challenges as there are.
const SHARED: &str = shares!("");

/// `kay` may have two challenges.
const LIMITED: &str = shares!("challenges = 2\n");

/// kay's log-in.
const LOGIN: &[Sent] = &[KAY, Hidden(b"pw")];

/// nemo's.
const NEMO_LOGIN: &[Sent] = &[NEMO, Hidden(b"arctangent")];

/// The Stop of the first session.
const STOPPED: Asked = Account(200, &[STOP, FIRST_CLASS]);

/// What kay is sent with the challenges of numbers 3 and 11.
const THIRD_CHALLENGED: &[u8; 33] = b"\
    \x12\x07code?\
    \x18\x1a\0\0\0\0\0\0\0\x03\0\0\0\0\0\0\0\0\0\0\0\0\0\0\0\x01";

const ELEVENTH: &[u8; 33] = b"\
    \x12\x07code?\
    \x18\x1a\0\0\0\0\0\0\0\x0b\0\0\0\0\0\0\0\0\0\0\0\0\0\0\0\x01";

#[test]
fn a_client_has_no_more_replies_than_its_share(rt: HostRuntime) -> Result<(), Fail> {
    const ROWS: &[Row] = &[
        (
            0,
            Fill(Filling::Replies, 655),
            "as many as its share allows",
        ),
        (0, AskFrom(PORT + 4, Account(0, &[START]), Busy), "one more"),
        (0, Still(Account(255, &[START]), RESPONSE), "a repeat"),
        (
            1,
            Ask(Account(0, &[STOP]), RESPONSE),
            "other octets in the place of the first",
        ),
        (
            1,
            Ask(OtherAccount(0, &[START]), RESPONSE),
            "another client",
        ),
        (
            29_999,
            AskFrom(PORT + 4, Account(1, &[START]), Busy),
            "one more, while the others live",
        ),
        (
            30_000,
            AskFrom(PORT + 4, Account(1, &[START]), RESPONSE),
            "the others are gone",
        ),
    ];
    let config = Config::read(rt.alloc(), SHARED)?;
    play_over(&rt, rt.alloc(), &config, ROWS)
}

#[test]
fn a_client_has_no_more_challenges_than_its_share(rt: HostRuntime) -> Result<(), Fail> {
    const ROWS: &[Row] = &[
        (
            0,
            Fill(Filling::Challenges, 10),
            "as many as its share allows",
        ),
        (
            0,
            AskFrom(PORT + 4, Access(0, LOGIN), SERVER_FULL),
            "one more",
        ),
        (
            0,
            Ask(OtherAccess(0, LOGIN), Challenge(ELEVENTH)),
            "another client",
        ),
    ];
    let config = Config::read(rt.alloc(), SHARED)?;
    play_over(&rt, rt.alloc(), &config, ROWS)
}

#[test]
fn a_user_has_no_more_challenges_than_allowed(rt: HostRuntime) -> Result<(), Fail> {
    const ROWS: &[Row] = &[
        (0, Ask(Access(0, LOGIN), FIRST_CHALLENGE), "one"),
        (
            0,
            Ask(OtherAccess(0, LOGIN), SECOND_CHALLENGE),
            "two, from two clients",
        ),
        (0, Ask(Access(1, LOGIN), SESSION_LIMIT), "no third one"),
        (
            60_000,
            Ask(Access(2, LOGIN), Challenge(THIRD_CHALLENGED)),
            "both are over",
        ),
    ];
    let config = Config::read(rt.alloc(), LIMITED)?;
    play_over(&rt, rt.alloc(), &config, ROWS)
}

#[test]
fn a_user_has_no_more_sessions_in_the_table_than_allowed(rt: HostRuntime) -> Result<(), Fail> {
    const ROWS: &[Row] = &[
        (0, Ask(Access(0, NEMO_LOGIN), FIRST), "one"),
        (1_000, Ask(STOPPED, RESPONSE), "it ends"),
        (2_000, Ask(Access(1, NEMO_LOGIN), SECOND), "another"),
        (
            3_000,
            Ask(
                Account(201, &[STOP, Sent::Plain(25, b"RAP1\0\0\0\0\0\0\0\x02")]),
                RESPONSE,
            ),
            "it ends too",
        ),
        (
            29_999,
            Ask(Access(2, NEMO_LOGIN), SESSION_LIMIT),
            "both are still in the table",
        ),
        (
            30_000,
            Ask(Access(3, NEMO_LOGIN), THIRD),
            "the first is gone",
        ),
    ];
    let config = Config::read(rt.alloc(), SHARED)?;
    play_over(&rt, rt.alloc(), &config, ROWS)
}
