//! Which session a report means, and what it changes.
use super::Step::{Ask, Sessions};
use super::requests::Asked::{Account, OtherAccount};
use super::requests::Sent::Plain;
use super::requests::{EXAMPLE, FIRST_CLASS, INTERIM_UPDATE, NEMO, START, STOP, Sent};
use super::texts::{DORY_SECOND, NEMO_FIRST, NO_ADDRESS_LEFT, RESPONSE};
use super::{Row, play, requests};
use rad_packet::attribute::{ACCT_STATUS_TYPE, CLASS, FRAMED_IP_ADDRESS, USER_NAME};
use rad_pool::Phase::{Active, Ended, Pending};
use std::test::Fail;

/// nemo's address.
const ADDRESS: Sent = Plain(FRAMED_IP_ADDRESS, &[10, 0, 0, 1]);

/// The Class of a session that isn't there, and one of no session.
const SECOND_CLASS: Sent = Plain(CLASS, b"RAP1\0\0\0\0\0\0\0\x02");

const OTHER_CLASS: Sent = Plain(CLASS, b"RAP2\0\0\0\0\0\0\0\x02");

/// An Acct-Status-Type that says nothing, since it has three octets.
const NO_STATUS: Sent = Plain(ACCT_STATUS_TYPE, b"abc");

/// Values of no session: one that isn't assigned, the first and the last of tunnels, and Failed.
const UNASSIGNED: Sent = Plain(ACCT_STATUS_TYPE, &[0, 0, 0, 4]);

const TUNNEL_START: Sent = Plain(ACCT_STATUS_TYPE, &[0, 0, 0, 9]);

const TUNNEL_LINK_REJECT: Sent = Plain(ACCT_STATUS_TYPE, &[0, 0, 0, 14]);

const FAILED: Sent = Plain(ACCT_STATUS_TYPE, &[0, 0, 0, 15]);

const DORY: Sent = Plain(USER_NAME, b"dory");

#[test]
fn a_session_is_ended_by_its_own_client(rt: HostRuntime) -> Result<(), Fail> {
    const ROWS: &[Row] = &[
        (0, Ask(EXAMPLE, NEMO_FIRST), "nemo"),
        (
            1_000,
            Ask(OtherAccount(0, &[STOP, FIRST_CLASS]), RESPONSE),
            "a Stop of the second client",
        ),
        (
            1_000,
            Ask(OtherAccount(1, &[STOP, ADDRESS, NEMO]), RESPONSE),
            "its Stop by address",
        ),
        (1_000, Sessions(&[(1, Pending, 0)]), "they change nothing"),
        (
            2_000,
            Ask(Account(0, &[STOP, FIRST_CLASS]), RESPONSE),
            "a Stop of its own client",
        ),
        (2_000, Sessions(&[(1, Ended, 0)]), "it has ended"),
    ];
    play(&rt, rt.alloc(), ROWS)
}

#[test]
fn a_session_is_meant_by_its_address_and_user(rt: HostRuntime) -> Result<(), Fail> {
    const ROWS: &[Row] = &[
        (0, Ask(EXAMPLE, NEMO_FIRST), "nemo"),
        (
            1_000,
            Ask(Account(0, &[STOP, ADDRESS, DORY]), RESPONSE),
            "another user's name",
        ),
        (
            1_000,
            Ask(
                Account(1, &[STOP, ADDRESS, Plain(USER_NAME, b"Nemo")]),
                RESPONSE,
            ),
            "nobody's name",
        ),
        (
            1_000,
            Ask(Account(2, &[STOP, NEMO]), RESPONSE),
            "no address",
        ),
        (
            1_000,
            Ask(
                Account(3, &[STOP, Plain(FRAMED_IP_ADDRESS, &[10, 0, 0, 2]), NEMO]),
                RESPONSE,
            ),
            "another address",
        ),
        (1_000, Sessions(&[(1, Pending, 0)]), "they change nothing"),
        (
            2_000,
            Ask(Account(4, &[STOP, ADDRESS, NEMO]), RESPONSE),
            "the user's name",
        ),
        (2_000, Sessions(&[(1, Ended, 0)]), "it has ended"),
    ];
    play(&rt, rt.alloc(), ROWS)
}

#[test]
fn other_statuses_change_nothing(rt: HostRuntime) -> Result<(), Fail> {
    const ROWS: &[Row] = &[
        (0, Ask(EXAMPLE, NEMO_FIRST), "nemo"),
        (
            1_000,
            Ask(Account(0, &[UNASSIGNED, FIRST_CLASS]), RESPONSE),
            "a value that isn't assigned",
        ),
        (
            1_000,
            Ask(Account(1, &[TUNNEL_START, FIRST_CLASS]), RESPONSE),
            "Tunnel-Start",
        ),
        (
            1_000,
            Ask(Account(2, &[TUNNEL_LINK_REJECT, FIRST_CLASS]), RESPONSE),
            "Tunnel-Link-Reject",
        ),
        (
            1_000,
            Ask(Account(3, &[FAILED, FIRST_CLASS]), RESPONSE),
            "Failed",
        ),
        (
            1_000,
            Sessions(&[(1, Pending, 0)]),
            "the session is pending",
        ),
    ];
    play(&rt, rt.alloc(), ROWS)
}

#[test]
fn a_report_of_no_session_changes_nothing(rt: HostRuntime) -> Result<(), Fail> {
    const ROWS: &[Row] = &[
        (0, Ask(EXAMPLE, NEMO_FIRST), "nemo"),
        (
            1_000,
            Ask(Account(0, &[START, SECOND_CLASS, ADDRESS, NEMO]), RESPONSE),
            "a Start of a session that isn't there",
        ),
        (
            1_000,
            Sessions(&[(1, Pending, 0)]),
            "the session is pending",
        ),
        (
            2_000,
            Ask(Account(1, &[START, FIRST_CLASS]), RESPONSE),
            "its Start",
        ),
        (
            3_000,
            Ask(Account(2, &[STOP, SECOND_CLASS, ADDRESS, NEMO]), RESPONSE),
            "a Stop of a session that isn't there",
        ),
        (3_000, Sessions(&[(1, Active, 0)]), "the session is active"),
    ];
    play(&rt, rt.alloc(), ROWS)
}

#[test]
fn an_interim_update_makes_up_for_a_lost_start(rt: HostRuntime) -> Result<(), Fail> {
    const ROWS: &[Row] = &[
        (0, Ask(EXAMPLE, NEMO_FIRST), "nemo"),
        (
            1_000,
            Ask(Account(0, &[INTERIM_UPDATE, FIRST_CLASS]), RESPONSE),
            "an Interim-Update",
        ),
        (1_000, Sessions(&[(1, Active, 0)]), "the session is active"),
        (
            2_000,
            Ask(Account(1, &[INTERIM_UPDATE, FIRST_CLASS]), RESPONSE),
            "another",
        ),
        (2_000, Sessions(&[(1, Active, 0)]), "it still is"),
        (
            60_000,
            Ask(requests::DORY, NO_ADDRESS_LEFT),
            "dory, after the hold",
        ),
        (
            61_000,
            Ask(Account(2, &[STOP, FIRST_CLASS]), RESPONSE),
            "its Stop",
        ),
        (
            61_000,
            Ask(requests::DORY_AGAIN, DORY_SECOND),
            "dory, after the Stop",
        ),
    ];
    play(&rt, rt.alloc(), ROWS)
}

#[test]
fn an_interim_update_revives_no_session(rt: HostRuntime) -> Result<(), Fail> {
    const ROWS: &[Row] = &[
        (0, Ask(EXAMPLE, NEMO_FIRST), "nemo"),
        (
            1_000,
            Ask(Account(0, &[STOP, FIRST_CLASS]), RESPONSE),
            "a Stop",
        ),
        (
            2_000,
            Ask(Account(1, &[INTERIM_UPDATE, FIRST_CLASS]), RESPONSE),
            "an Interim-Update after it",
        ),
        (2_000, Sessions(&[(1, Ended, 0)]), "it has ended"),
    ];
    play(&rt, rt.alloc(), ROWS)
}

#[test]
fn the_first_attribute_that_counts_decides(rt: HostRuntime) -> Result<(), Fail> {
    const ROWS: &[Row] = &[
        (0, Ask(EXAMPLE, NEMO_FIRST), "nemo"),
        (
            1_000,
            Ask(Account(0, &[NO_STATUS, START, STOP, FIRST_CLASS]), RESPONSE),
            "a Start before a Stop",
        ),
        (1_000, Sessions(&[(1, Active, 0)]), "it has started"),
        (
            2_000,
            Ask(
                Account(1, &[STOP, OTHER_CLASS, FIRST_CLASS, SECOND_CLASS]),
                RESPONSE,
            ),
            "the first Class of a session",
        ),
        (2_000, Sessions(&[(1, Ended, 0)]), "it has ended"),
    ];
    play(&rt, rt.alloc(), ROWS)
}
