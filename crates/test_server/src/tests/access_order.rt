//! Which of several reasons an Access-Request is refused for.
use super::Step::{Ask, Challenges, Sessions};
use super::requests::Asked::Access;
use super::requests::Sent::{Hidden, Plain};
use super::requests::{EXAMPLE, KAY, NEMO, SIGNATURE, Sent};
use super::texts::{
    ACCESS_DENIED, EAP_NOT_SUPPORTED, FIRST_CHALLENGE, MALFORMED_REQUEST, NEMO_FIRST,
    SESSION_LIMIT, STATE_UNKNOWN,
};
use super::{Row, play};
use rad_packet::attribute::{EAP_MESSAGE, STATE, USER_NAME};
use std::test::Fail;

const RIGHT: Sent = Hidden(b"arctangent");

const WRONG: Sent = Hidden(b"arctangents");

const NOBODY: Sent = Plain(USER_NAME, b"Nemo");

const EAP: Sent = Plain(EAP_MESSAGE, b"\x02\0\0\x05\x01");

const ANY_STATE: Sent = Plain(STATE, &[0; 24]);

#[test]
fn the_first_reason_is_reported(rt: HostRuntime) -> Result<(), Fail> {
    const ROWS: &[Row] = &[
        (
            0,
            Ask(Access(1, &[SIGNATURE, EAP, ANY_STATE]), EAP_NOT_SUPPORTED),
            "an EAP-Message, before what is malformed",
        ),
        (
            0,
            Ask(Access(2, &[SIGNATURE, NEMO, RIGHT, EAP]), EAP_NOT_SUPPORTED),
            "an EAP-Message beside a right password",
        ),
        (
            0,
            Ask(Access(3, &[WRONG, ANY_STATE]), MALFORMED_REQUEST),
            "no name, before an unknown State",
        ),
        (
            0,
            Ask(Access(4, &[NOBODY, WRONG, ANY_STATE]), STATE_UNKNOWN),
            "an unknown State, before an unknown name",
        ),
        (
            0,
            Ask(Access(5, &[NEMO, WRONG, ANY_STATE]), STATE_UNKNOWN),
            "an unknown State, before a wrong password",
        ),
        (
            0,
            Ask(Access(6, &[NEMO, RIGHT, ANY_STATE]), STATE_UNKNOWN),
            "an unknown State beside a right password",
        ),
        (
            0,
            Ask(Access(7, &[NOBODY, RIGHT]), ACCESS_DENIED),
            "an unknown name",
        ),
        (
            0,
            Ask(Access(8, &[NEMO, WRONG]), ACCESS_DENIED),
            "a wrong password",
        ),
        (0, Sessions(&[]), "no session"),
        (0, Ask(EXAMPLE, NEMO_FIRST), "a right password"),
        (
            0,
            Ask(Access(20, &[NEMO, WRONG]), ACCESS_DENIED),
            "a wrong password, before the limit of sessions",
        ),
        (
            0,
            Ask(Access(21, &[NEMO, RIGHT]), SESSION_LIMIT),
            "the limit of sessions",
        ),
    ];
    play(&rt, rt.alloc(), ROWS)
}

#[test]
fn a_user_with_a_challenge_is_challenged_first(rt: HostRuntime) -> Result<(), Fail> {
    const ROWS: &[Row] = &[
        (
            0,
            Ask(Access(0, &[KAY, Hidden(b"pwd")]), ACCESS_DENIED),
            "a wrong password",
        ),
        (
            0,
            Ask(Access(1, &[KAY, Hidden(b"4711")]), ACCESS_DENIED),
            "the answer for a password",
        ),
        (
            0,
            Ask(Access(2, &[KAY, Hidden(b"pw")]), FIRST_CHALLENGE),
            "a right password",
        ),
        (0, Sessions(&[]), "no session"),
        (0, Challenges(&[(1, 0)]), "one challenge"),
    ];
    play(&rt, rt.alloc(), ROWS)
}
