//! Status-Servers at both ports.
use super::Answered::Accept;
use super::Step::{Ask, Sessions};
use super::requests::Asked::Status;
use super::requests::SIGNATURE;
use super::texts::RESPONSE;
use super::{Row, play};
use rad_auth::Door::{Acct, Auth};
use std::test::Fail;

#[test]
fn a_status_server_is_answered_on_both_ports(rt: HostRuntime) -> Result<(), Fail> {
    const ROWS: &[Row] = &[
        (
            0,
            Ask(Status(Auth, &[SIGNATURE]), Accept(b"")),
            "the authentication port",
        ),
        (
            0,
            Ask(Status(Acct, &[SIGNATURE]), RESPONSE),
            "the accounting port",
        ),
        (
            1,
            Ask(Status(Auth, &[SIGNATURE]), Accept(b"")),
            "the same once more",
        ),
        (
            1,
            Ask(Status(Acct, &[SIGNATURE]), RESPONSE),
            "the same once more",
        ),
        (1, Sessions(&[]), "no session"),
    ];
    play(&rt, rt.alloc(), ROWS)
}
