//! Sessions that are given up since no report of them comes.
use super::Step::{Ask, Sessions};
use super::requests::Asked::{Access, Account};
use super::requests::Sent::Hidden;
use super::requests::{
    Asked, DORY, DORY_AGAIN, EXAMPLE, FIRST_CLASS, INTERIM_UPDATE, NEMO, START, Sent,
};
use super::texts::{DORY_SECOND, NEMO_FIRST, NO_ADDRESS_LEFT, RESPONSE, SESSION_LIMIT};
use super::{Answered, Row, play_stale};
use rad_pool::Phase::{Active, Pending};
use std::test::Fail;

/// The Start of nemo's session.
const STARTED: Asked = Account(0, &[START, FIRST_CLASS]);

/// An Interim-Update of it.
const UPDATED: Asked = Account(1, &[INTERIM_UPDATE, FIRST_CLASS]);

const RIGHT: Sent = Hidden(b"arctangent");

/// nemo's, in the second session.
const NEMO_SECOND: Answered = Answered::Accept(
    b"\
    \x06\x06\x00\x00\x00\x02\
    \x07\x06\x00\x00\x00\x01\
    \x08\x06\x0a\x00\x00\x01\
    \x19\x0eRAP1\x00\x00\x00\x00\x00\x00\x00\x02",
);

#[test]
fn a_silent_session_is_given_up(rt: HostRuntime) -> Result<(), Fail> {
    const ROWS: &[Row] = &[
        (0, Ask(EXAMPLE, NEMO_FIRST), "nemo"),
        (1_000, Ask(STARTED, RESPONSE), "a Start"),
        (100_999, Ask(DORY, NO_ADDRESS_LEFT), "not yet stale"),
        (101_000, Ask(DORY_AGAIN, DORY_SECOND), "stale"),
        (
            101_000,
            Sessions(&[(2, Pending, 101_000)]),
            "dory's session",
        ),
    ];
    play_stale(&rt, rt.alloc(), ROWS)
}

#[test]
fn an_interim_update_renews_a_session(rt: HostRuntime) -> Result<(), Fail> {
    const ROWS: &[Row] = &[
        (0, Ask(EXAMPLE, NEMO_FIRST), "nemo"),
        (1_000, Ask(STARTED, RESPONSE), "a Start"),
        (100_000, Ask(UPDATED, RESPONSE), "an Interim-Update"),
        (101_000, Ask(DORY, NO_ADDRESS_LEFT), "it is renewed"),
        (199_999, Ask(DORY, NO_ADDRESS_LEFT), "not yet stale"),
        (200_000, Ask(DORY_AGAIN, DORY_SECOND), "stale"),
    ];
    play_stale(&rt, rt.alloc(), ROWS)
}

#[test]
fn another_start_renews_a_session(rt: HostRuntime) -> Result<(), Fail> {
    const ROWS: &[Row] = &[
        (0, Ask(EXAMPLE, NEMO_FIRST), "nemo"),
        (1_000, Ask(STARTED, RESPONSE), "a Start"),
        (
            100_000,
            Ask(Account(2, &[START, FIRST_CLASS]), RESPONSE),
            "another Start",
        ),
        (199_999, Ask(DORY, NO_ADDRESS_LEFT), "not yet stale"),
        (200_000, Ask(DORY_AGAIN, DORY_SECOND), "stale"),
    ];
    play_stale(&rt, rt.alloc(), ROWS)
}

#[test]
fn a_repeat_of_an_interim_update_renews_nothing(rt: HostRuntime) -> Result<(), Fail> {
    const ROWS: &[Row] = &[
        (0, Ask(EXAMPLE, NEMO_FIRST), "nemo"),
        (1_000, Ask(STARTED, RESPONSE), "a Start"),
        (80_000, Ask(UPDATED, RESPONSE), "an Interim-Update"),
        (109_999, Ask(UPDATED, RESPONSE), "its repeat"),
        (179_999, Ask(DORY, NO_ADDRESS_LEFT), "not yet stale"),
        (180_000, Ask(DORY_AGAIN, DORY_SECOND), "stale"),
    ];
    play_stale(&rt, rt.alloc(), ROWS)
}

#[test]
fn a_stale_session_is_not_revived(rt: HostRuntime) -> Result<(), Fail> {
    const ROWS: &[Row] = &[
        (0, Ask(EXAMPLE, NEMO_FIRST), "nemo"),
        (1_000, Ask(STARTED, RESPONSE), "a Start"),
        (
            101_000,
            Ask(UPDATED, RESPONSE),
            "an Interim-Update too late",
        ),
        (101_000, Sessions(&[]), "it is gone"),
    ];
    play_stale(&rt, rt.alloc(), ROWS)
}

#[test]
fn a_stale_session_counts_for_no_limit(rt: HostRuntime) -> Result<(), Fail> {
    const ROWS: &[Row] = &[
        (0, Ask(EXAMPLE, NEMO_FIRST), "nemo"),
        (1_000, Ask(STARTED, RESPONSE), "a Start"),
        (
            100_999,
            Ask(Access(1, &[NEMO, RIGHT]), SESSION_LIMIT),
            "not yet stale",
        ),
        (
            101_000,
            Ask(Access(2, &[NEMO, RIGHT]), NEMO_SECOND),
            "stale",
        ),
    ];
    play_stale(&rt, rt.alloc(), ROWS)
}

#[test]
fn a_session_without_a_report_is_held_no_longer(rt: HostRuntime) -> Result<(), Fail> {
    const ROWS: &[Row] = &[
        (0, Ask(EXAMPLE, NEMO_FIRST), "nemo"),
        (59_999, Ask(DORY, NO_ADDRESS_LEFT), "held"),
        (60_000, Ask(DORY_AGAIN, DORY_SECOND), "no longer held"),
    ];
    play_stale(&rt, rt.alloc(), ROWS)
}

#[test]
fn an_interim_update_starts_the_time_of_a_session(rt: HostRuntime) -> Result<(), Fail> {
    const ROWS: &[Row] = &[
        (0, Ask(EXAMPLE, NEMO_FIRST), "nemo"),
        (59_999, Ask(UPDATED, RESPONSE), "an Interim-Update"),
        (59_999, Sessions(&[(1, Active, 0)]), "it is active"),
        (159_998, Ask(DORY, NO_ADDRESS_LEFT), "not yet stale"),
        (159_999, Ask(DORY_AGAIN, DORY_SECOND), "stale"),
    ];
    play_stale(&rt, rt.alloc(), ROWS)
}
