//! Which servers are the same.
use super::Answered::Accept;
use super::Step::{Copy, Open, Sessions};
use super::campus::{CAMPUS, HAMLET};
use super::requests::Asked::{Access, Account, Status};
use super::requests::Sent::Hidden;
use super::requests::{EXAMPLE, KAY, SIGNATURE, START};
use super::texts::{FIRST_CHALLENGE, NEMO_FIRST, RESPONSE};
use super::{Row, play};
use rad_auth::Door::Auth;
use rad_pool::Phase::Pending;
use std::test::Fail;

#[test]
fn the_same_configuration_and_steps_make_the_same_server(rt: HostRuntime) -> Result<(), Fail> {
    const ROWS: &[Row] = &[
        (0, Sessions(&[]), "it remembers nothing yet"),
        (0, Open(CAMPUS, true), "the same configuration"),
        (0, Open(HAMLET, false), "another configuration"),
        (0, Copy(EXAMPLE, NEMO_FIRST), "a session is a change"),
        (0, Sessions(&[(1, Pending, 0)]), "nemo's session"),
        (0, Open(CAMPUS, false), "the same without that session"),
        (
            5,
            Copy(Status(Auth, &[SIGNATURE]), Accept(b"")),
            "a later clock is a change",
        ),
        (
            5,
            Copy(Access(1, &[KAY, Hidden(b"pw")]), FIRST_CHALLENGE),
            "a challenge is a change",
        ),
        (
            5,
            Copy(Account(1, &[START]), RESPONSE),
            "a kept reply is a change",
        ),
    ];
    play(&rt, rt.alloc(), ROWS)
}
