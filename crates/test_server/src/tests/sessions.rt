//! Sessions and their addresses as time passes.
use super::Step::{Ask, Sessions};
use super::requests::Asked::{Access, Account};
use super::requests::{BRUCE, DORY, DORY_AGAIN, EXAMPLE, FIRST_CLASS, NEMO, START, STOP, Sent};
use super::texts::{DORY_SECOND, NEMO_FIRST, NO_ADDRESS_LEFT, RESPONSE, SESSION_LIMIT};
use super::{Answered, Row, play};
use rad_pool::Phase::{Active, Ended, Pending};
use std::test::Fail;

/// bruce's, in the second session: 10.0.2.1.
const BRUCE_LATER: Answered = Answered::Accept(
    b"\x08\x06\x0a\0\x02\x01\x19\x0eRAP1\0\0\0\0\0\0\0\x02",
);

#[test]
fn an_address_is_given_to_one_alone(rt: HostRuntime) -> Result<(), Fail> {
    const ROWS: &[Row] = &[
        (0, Ask(EXAMPLE, NEMO_FIRST), "nemo"),
        (0, Ask(DORY, NO_ADDRESS_LEFT), "dory"),
        (0, Sessions(&[(1, Pending, 0)]), "nemo's session"),
    ];
    play(&rt, rt.alloc(), ROWS)
}

#[test]
fn an_address_is_given_again_after_the_window(rt: HostRuntime) -> Result<(), Fail> {
    const ROWS: &[Row] = &[
        (0, Ask(EXAMPLE, NEMO_FIRST), "nemo"),
        (
            5_000,
            Ask(Account(0, &[STOP, FIRST_CLASS]), RESPONSE),
            "a Stop",
        ),
        (5_000, Sessions(&[(1, Ended, 0)]), "it has ended"),
        (29_999, Ask(DORY, NO_ADDRESS_LEFT), "in the window"),
        (30_000, Ask(DORY_AGAIN, DORY_SECOND), "after it"),
        (30_000, Sessions(&[(2, Pending, 30_000)]), "dory's session"),
    ];
    play(&rt, rt.alloc(), ROWS)
}

#[test]
fn a_session_without_a_start_is_held(rt: HostRuntime) -> Result<(), Fail> {
    const ROWS: &[Row] = &[
        (0, Ask(EXAMPLE, NEMO_FIRST), "nemo"),
        (59_999, Ask(DORY, NO_ADDRESS_LEFT), "held"),
        (60_000, Ask(DORY_AGAIN, DORY_SECOND), "no longer held"),
    ];
    play(&rt, rt.alloc(), ROWS)
}

#[test]
fn a_session_with_a_start_is_not_given_up(rt: HostRuntime) -> Result<(), Fail> {
    const ROWS: &[Row] = &[
        (0, Ask(EXAMPLE, NEMO_FIRST), "nemo"),
        (
            1_000,
            Ask(Account(0, &[START, FIRST_CLASS]), RESPONSE),
            "a Start",
        ),
        (60_000, Ask(DORY, NO_ADDRESS_LEFT), "after the hold"),
        (60_000, Sessions(&[(1, Active, 0)]), "it is active"),
    ];
    play(&rt, rt.alloc(), ROWS)
}

#[test]
fn a_user_has_so_many_sessions_and_no_more(rt: HostRuntime) -> Result<(), Fail> {
    const ROWS: &[Row] = &[
        (0, Ask(EXAMPLE, NEMO_FIRST), "nemo"),
        // nemo's pool has no address left either.
        (
            1,
            Ask(
                Access(1, &[NEMO, Sent::Hidden(b"arctangent")]),
                SESSION_LIMIT,
            ),
            "nemo once more",
        ),
        (1, Sessions(&[(1, Pending, 0)]), "one session"),
    ];
    play(&rt, rt.alloc(), ROWS)
}

#[test]
fn the_clock_does_not_go_back(rt: HostRuntime) -> Result<(), Fail> {
    const ROWS: &[Row] = &[
        (10_000, Ask(EXAMPLE, NEMO_FIRST), "nemo"),
        (
            5_000,
            Ask(Access(1, &[BRUCE, Sent::Hidden(b"shark")]), BRUCE_LATER),
            "bruce, earlier",
        ),
        (
            10_000,
            Sessions(&[(1, Pending, 10_000), (2, Pending, 10_000)]),
            "both are made at the clock",
        ),
    ];
    play(&rt, rt.alloc(), ROWS)
}
