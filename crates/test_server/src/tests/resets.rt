//! An Accounting-On or an Accounting-Off, and the sessions that it ends.
use super::Step::{Ask, Sessions};
use super::requests::Asked::{Access, Account, NextAccount, OtherAccess, OtherAccount};
use super::requests::Sent::{Hidden, Plain};
use super::requests::{
    ACCOUNTING_OFF, ACCOUNTING_ON, Asked, DORY, DORY_AGAIN, EXAMPLE, FIRST_CLASS, INTERIM_UPDATE,
    MANY, START, Sent,
};
use super::texts::{
    DORY_SECOND, FIRST, NEMO_FIRST, NO_ADDRESS_LEFT, RESPONSE, SECOND, SESSION_LIMIT,
};
use super::{Row, play, play_over};
use rad_config::Config;
use rad_packet::attribute::USER_NAME;
use rad_pool::Phase::{Active, Ended, Pending};
use std::test::Fail;

/// One client, which is a network.
const NETWORK: &str = r#"
[[client]]
address = "192.168.1.16/30"
secret = "xyzzy5461"

[[pool]]
name = "one"
first = "10.0.0.1"
last = "10.0.0.1"

[[user]]
name = "nemo"
password = "arctangent"
pool = "one"
service = 2
protocol = 1
"#;

/// The Start of the first session.
const STARTED: Asked = Account(0, &[START, FIRST_CLASS]);

/// The password of `many`.
const RIGHT: Sent = Hidden(b"p");

/// A user who may have one session, and has no pool.
const SIXTEEN: &[Sent] = &[Plain(USER_NAME, b"sixteen"), Hidden(b"0123456789abcdef")];

#[test]
fn an_accounting_on_ends_the_sessions_of_its_source(rt: HostRuntime) -> Result<(), Fail> {
    const ROWS: &[Row] = &[
        (0, Ask(EXAMPLE, NEMO_FIRST), "nemo"),
        (1_000, Ask(STARTED, RESPONSE), "a Start"),
        (
            5_000,
            Ask(Account(1, &[ACCOUNTING_ON]), RESPONSE),
            "an Accounting-On",
        ),
        (5_000, Sessions(&[(1, Ended, 0)]), "it has ended"),
        (29_999, Ask(DORY, NO_ADDRESS_LEFT), "in the window"),
        (30_000, Ask(DORY_AGAIN, DORY_SECOND), "after it"),
    ];
    play(&rt, rt.alloc(), ROWS)
}

#[test]
fn an_accounting_off_of_another_source_ends_no_session(rt: HostRuntime) -> Result<(), Fail> {
    const ROWS: &[Row] = &[
        (0, Ask(EXAMPLE, NEMO_FIRST), "nemo"),
        (1_000, Ask(STARTED, RESPONSE), "a Start"),
        (
            5_000,
            Ask(OtherAccount(1, &[ACCOUNTING_OFF]), RESPONSE),
            "an Accounting-Off of the second client",
        ),
        (30_000, Ask(DORY, NO_ADDRESS_LEFT), "dory"),
        (30_000, Sessions(&[(1, Active, 0)]), "it is active"),
    ];
    play(&rt, rt.alloc(), ROWS)
}

#[test]
fn each_source_has_its_sessions(rt: HostRuntime) -> Result<(), Fail> {
    const ROWS: &[Row] = &[
        (0, Ask(EXAMPLE, NEMO_FIRST), "nemo"),
        (
            0,
            Ask(OtherAccess(1, &[MANY, RIGHT]), SECOND),
            "many, of the second client",
        ),
        (
            1_000,
            Ask(OtherAccount(0, &[ACCOUNTING_ON, FIRST_CLASS]), RESPONSE),
            "an Accounting-On of the second client",
        ),
        (
            1_000,
            Sessions(&[(1, Pending, 0), (2, Ended, 0)]),
            "its session has ended",
        ),
        (
            2_000,
            Ask(Account(0, &[ACCOUNTING_OFF]), RESPONSE),
            "an Accounting-Off of the first",
        ),
        (
            2_000,
            Sessions(&[(1, Ended, 0), (2, Ended, 0)]),
            "both have ended",
        ),
    ];
    play(&rt, rt.alloc(), ROWS)
}

#[test]
fn an_accounting_on_means_no_session_by_its_class(rt: HostRuntime) -> Result<(), Fail> {
    const ROWS: &[Row] = &[
        (0, Ask(EXAMPLE, NEMO_FIRST), "nemo"),
        (0, Ask(Access(1, &[MANY, RIGHT]), SECOND), "many"),
        (1_000, Ask(STARTED, RESPONSE), "a Start"),
        (
            2_000,
            Ask(Account(1, &[ACCOUNTING_ON, FIRST_CLASS]), RESPONSE),
            "an Accounting-On with the first Class",
        ),
        (
            2_000,
            Sessions(&[(1, Ended, 0), (2, Ended, 0)]),
            "both have ended",
        ),
    ];
    play(&rt, rt.alloc(), ROWS)
}

#[test]
fn an_accounting_on_of_no_session_changes_nothing(rt: HostRuntime) -> Result<(), Fail> {
    const ROWS: &[Row] = &[
        (
            0,
            Ask(Account(1, &[ACCOUNTING_ON]), RESPONSE),
            "an Accounting-On",
        ),
        (0, Sessions(&[]), "no session"),
        (1_000, Ask(EXAMPLE, NEMO_FIRST), "nemo"),
        (
            2_000,
            Ask(OtherAccount(1, &[ACCOUNTING_ON]), RESPONSE),
            "an Accounting-On of the second client",
        ),
        (
            2_000,
            Sessions(&[(1, Pending, 1_000)]),
            "the session is pending",
        ),
    ];
    play(&rt, rt.alloc(), ROWS)
}

#[test]
fn an_ended_source_is_not_revived(rt: HostRuntime) -> Result<(), Fail> {
    const ROWS: &[Row] = &[
        (0, Ask(EXAMPLE, NEMO_FIRST), "nemo"),
        (
            1_000,
            Ask(Account(1, &[ACCOUNTING_OFF]), RESPONSE),
            "an Accounting-Off",
        ),
        (2_000, Ask(STARTED, RESPONSE), "a Start after it"),
        (
            2_000,
            Ask(Account(2, &[INTERIM_UPDATE, FIRST_CLASS]), RESPONSE),
            "an Interim-Update after it",
        ),
        (2_000, Sessions(&[(1, Ended, 0)]), "it has ended"),
    ];
    play(&rt, rt.alloc(), ROWS)
}

#[test]
fn a_repeat_of_an_accounting_on_ends_no_session(rt: HostRuntime) -> Result<(), Fail> {
    const ON: Asked = Account(1, &[ACCOUNTING_ON]);
    const ROWS: &[Row] = &[
        (0, Ask(ON, RESPONSE), "an Accounting-On"),
        (1_000, Ask(EXAMPLE, NEMO_FIRST), "nemo"),
        (29_999, Ask(ON, RESPONSE), "its repeat"),
        (
            29_999,
            Sessions(&[(1, Pending, 1_000)]),
            "the session is pending",
        ),
        (30_000, Ask(ON, RESPONSE), "after the window"),
        (
            30_000,
            Sessions(&[(1, Ended, 1_000)]),
            "the session has ended",
        ),
    ];
    play(&rt, rt.alloc(), ROWS)
}

#[test]
fn a_session_ended_so_counts_for_no_limit(rt: HostRuntime) -> Result<(), Fail> {
    const ROWS: &[Row] = &[
        (0, Ask(Access(1, SIXTEEN), FIRST), "a session"),
        (1_000, Ask(Access(2, SIXTEEN), SESSION_LIMIT), "one is open"),
        (
            2_000,
            Ask(Account(1, &[ACCOUNTING_ON]), RESPONSE),
            "an Accounting-On",
        ),
        (3_000, Ask(Access(3, SIXTEEN), SECOND), "another session"),
    ];
    play(&rt, rt.alloc(), ROWS)
}

#[test]
fn the_addresses_of_a_network_have_sessions_of_their_own(rt: HostRuntime) -> Result<(), Fail> {
    const ROWS: &[Row] = &[
        (0, Ask(EXAMPLE, NEMO_FIRST), "nemo"),
        (
            1_000,
            Ask(NextAccount(0, &[START, FIRST_CLASS]), RESPONSE),
            "a Start from another address of the client",
        ),
        (1_000, Sessions(&[(1, Active, 0)]), "it is active"),
        (
            5_000,
            Ask(NextAccount(1, &[ACCOUNTING_ON]), RESPONSE),
            "an Accounting-On of that address",
        ),
        (5_000, Sessions(&[(1, Active, 0)]), "it is active still"),
        (
            6_000,
            Ask(Account(1, &[ACCOUNTING_ON]), RESPONSE),
            "an Accounting-On of its source",
        ),
        (6_000, Sessions(&[(1, Ended, 0)]), "it has ended"),
    ];
    let config = Config::read(rt.alloc(), NETWORK)?;
    play_over(&rt, rt.alloc(), &config, ROWS)
}
