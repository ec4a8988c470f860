//! Challenges and their answers.
use super::Step::{Ask, Challenges, Sessions, Still};
use super::requests::Asked::{Access, OtherAccess};
use super::requests::Sent::{Hidden, Plain};
use super::requests::{Asked, KAY, Sent};
use super::texts::{
    ACCESS_DENIED, FIRST, FIRST_CHALLENGE, MALFORMED_REQUEST, SECOND_CHALLENGE, SESSION_LIMIT,
    STATE_UNKNOWN, WRONG_STATE,
};
use super::{Row, play};
use rad_packet::attribute::{STATE, USER_NAME};
use rad_pool::Phase::Pending;
use std::test::Fail;

/// kay's request, and one with another Identifier.
const REQUEST: Asked = Access(0, &[KAY, PASSWORD]);

const NEXT_REQUEST: Asked = Access(10, &[KAY, PASSWORD]);

const PASSWORD: Sent = Hidden(b"pw");

/// The answer to the challenge.
const ANSWER: Sent = Hidden(b"4711");

/// The States of the first two challenges.
const FIRST_STATE: Sent = Plain(
    STATE,
    b"\0\0\0\0\0\0\0\x01\0\0\0\0\0\0\0\0\0\0\0\0\0\0\0\x01",
);

const SECOND_STATE: Sent = Plain(
    STATE,
    b"\0\0\0\0\0\0\0\x02\0\0\0\0\0\0\0\0\0\0\0\0\0\0\0\x01",
);

/// The first State with another draw.
const OTHER_DRAW: Sent = Plain(
    STATE,
    b"\0\0\0\0\0\0\0\x01\0\0\0\0\0\0\0\0\0\0\0\0\0\0\0\x02",
);

#[test]
fn a_challenge_is_answered_once(rt: HostRuntime) -> Result<(), Fail> {
    const ROWS: &[Row] = &[
        (0, Ask(REQUEST, FIRST_CHALLENGE), "kay"),
        (0, Still(REQUEST, FIRST_CHALLENGE), "a repeat"),
        (0, Sessions(&[]), "no session"),
        (0, Challenges(&[(1, 0)]), "one challenge"),
        (
            1,
            Ask(Access(1, &[KAY, ANSWER, FIRST_STATE]), FIRST),
            "the answer",
        ),
        (
            1,
            Still(Access(1, &[KAY, ANSWER, FIRST_STATE]), FIRST),
            "its repeat",
        ),
        (1, Sessions(&[(1, Pending, 1)]), "a session"),
        (1, Challenges(&[]), "no challenge is left"),
        (
            1,
            Ask(Access(2, &[KAY, ANSWER, FIRST_STATE]), STATE_UNKNOWN),
            "the answer once more",
        ),
        (2, Ask(NEXT_REQUEST, SECOND_CHALLENGE), "kay once more"),
        (
            2,
            Ask(Access(3, &[KAY, ANSWER, SECOND_STATE]), SESSION_LIMIT),
            "kay has a session",
        ),
        (2, Challenges(&[]), "this challenge is gone too"),
    ];
    play(&rt, rt.alloc(), ROWS)
}

#[test]
fn an_answer_takes_its_challenge_out(rt: HostRuntime) -> Result<(), Fail> {
    const ROWS: &[Row] = &[
        (0, Ask(REQUEST, FIRST_CHALLENGE), "kay"),
        (0, Ask(NEXT_REQUEST, SECOND_CHALLENGE), "kay once more"),
        (
            0,
            Ask(Access(1, &[KAY, FIRST_STATE]), MALFORMED_REQUEST),
            "no answer",
        ),
        (
            0,
            Ask(Access(2, &[KAY, ANSWER, OTHER_DRAW]), STATE_UNKNOWN),
            "a State with another draw",
        ),
        (0, Challenges(&[(1, 0), (2, 0)]), "both challenges wait"),
        (
            0,
            Ask(
                Access(3, &[Plain(USER_NAME, b"dory"), ANSWER, FIRST_STATE]),
                WRONG_STATE,
            ),
            "dory's name",
        ),
        (0, Challenges(&[(2, 0)]), "one challenge waits"),
        (
            0,
            Ask(Access(4, &[KAY, ANSWER, FIRST_STATE]), STATE_UNKNOWN),
            "kay after it",
        ),
        (
            0,
            Ask(Access(5, &[KAY, PASSWORD, SECOND_STATE]), ACCESS_DENIED),
            "a wrong answer",
        ),
        (0, Challenges(&[]), "no challenge waits"),
        (
            0,
            Ask(Access(6, &[KAY, ANSWER, SECOND_STATE]), STATE_UNKNOWN),
            "the right one after it",
        ),
        (0, Sessions(&[]), "no session"),
    ];
    play(&rt, rt.alloc(), ROWS)
}

#[test]
fn a_challenge_is_answered_by_its_client(rt: HostRuntime) -> Result<(), Fail> {
    const ROWS: &[Row] = &[
        (0, Ask(REQUEST, FIRST_CHALLENGE), "kay"),
        (
            0,
            Ask(OtherAccess(1, &[KAY, ANSWER, FIRST_STATE]), STATE_UNKNOWN),
            "the second client",
        ),
        (0, Challenges(&[(1, 0)]), "the challenge waits"),
        (
            0,
            Ask(Access(1, &[KAY, ANSWER, FIRST_STATE]), FIRST),
            "its own client",
        ),
    ];
    play(&rt, rt.alloc(), ROWS)
}

#[test]
fn a_challenge_is_held(rt: HostRuntime) -> Result<(), Fail> {
    const ROWS: &[Row] = &[
        (0, Ask(REQUEST, FIRST_CHALLENGE), "kay"),
        (0, Ask(NEXT_REQUEST, SECOND_CHALLENGE), "kay once more"),
        (
            59_999,
            Ask(Access(1, &[KAY, ANSWER, FIRST_STATE]), FIRST),
            "held",
        ),
        (59_999, Challenges(&[(2, 0)]), "the second one waits"),
        (
            60_000,
            Ask(Access(2, &[KAY, ANSWER, SECOND_STATE]), STATE_UNKNOWN),
            "no longer held",
        ),
        (60_000, Challenges(&[]), "no challenge waits"),
    ];
    play(&rt, rt.alloc(), ROWS)
}
