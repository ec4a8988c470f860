//! Rounds: their outcomes, their entries, and the sessions after them.
use super::datagrams::Sent::{Access, Account, Octets, Strange};
use super::datagrams::{
    ACCOUNTING_OFF, ACCOUNTING_ON, ANSWER, BY_CHAP, BY_CHAP_CHALLENGE, BY_EAP, INTERIM_UPDATE,
    NEMO_ACCEPTED, START, STOP, Sent, starts,
};
use super::serving::Wanted::{Accept, Busy, Code, Dropped, Reject, Response};
use super::serving::{
    Wanted, are_in_turn, are_outcomes, are_same, are_sessions, are_tags, first_round, has_each,
    has_len, round,
};
use crate::tests::holds;
use rad_auth::Discard::{Short, UnknownClient};
use rad_config::Config;
use rad_packet::code::{ACCESS_ACCEPT, ACCESS_CHALLENGE};
use rad_shell::{Done, OpenGate, Service};
use std::alloc::Global;
use std::process::Abort;
use std::sync::Wait;
use std::thread::Threads;
use test_common::{CAMPUS, RFC_REQUEST, STATUS_SERVER};

/// nemo's Access-Request.
const V: Sent = Octets(RFC_REQUEST);

/// The first octets of it, one too few.
const SHORTER: Sent = Octets(
    b"\x01\x00\x00\x38\x0f\x40\x3f\x94\x73\x97\x80\x57\xbd\x83\xd5\xcb\x98\xf4\x22",
);

/// The Access-Accept of nemo in the first session.
const ACCEPTED: Wanted = Wanted::Octets(NEMO_ACCEPTED);

/// A round: the moment, what is sent, the outcomes, the tags of the entries, the numbers of the sessions after it, and what it
/// shows. No round has more than eight datagrams, so one worker has them all, and their order is known.
type Row = (
    u32,
    &'static [Sent],
    &'static [Wanted],
    &'static [u64],
    &'static [u64],
    &'static str,
);

#[test]
fn eight_of_nine_users_get_the_eight_addresses(rt: HostRuntime) {
    const SENT: &[Sent] = &[
        Access(1, b"u1", b"p"),
        Access(2, b"u2", b"p"),
        Access(3, b"u3", b"p"),
        Access(4, b"u4", b"p"),
        Access(5, b"u5", b"p"),
        Access(6, b"u6", b"p"),
        Access(7, b"u7", b"p"),
        Access(8, b"u8", b"p"),
        Access(9, b"u9", b"p"),
    ];
    const IN_TURN: &[Wanted] = &[
        Accept(&[10, 0, 1, 1]),
        Accept(&[10, 0, 1, 2]),
        Accept(&[10, 0, 1, 3]),
        Accept(&[10, 0, 1, 4]),
        Accept(&[10, 0, 1, 5]),
        Accept(&[10, 0, 1, 6]),
        Accept(&[10, 0, 1, 7]),
        Accept(&[10, 0, 1, 8]),
        Reject(b"no address left"),
    ];
    const NUMBERS: &[u64] = &[1, 2, 3, 4, 5, 6, 7, 8];
    let done = first_round(&rt, rt.alloc(), SENT, 2, &OpenGate, NUMBERS);
    // Which user is refused depends on the schedule: it is the one who was asked last.
    holds(&rt, are_in_turn(&done, IN_TURN), "by the history's order");
}

#[test]
fn a_request_sent_nine_times_has_one_session(rt: HostRuntime) {
    const SENT: &[Sent] = &[V, V, V, V, V, V, V, V, V];
    let done = first_round(&rt, rt.alloc(), SENT, 2, &OpenGate, &[1]);
    holds(&rt, has_each(&done, 9, ACCEPTED), "nine equal replies");
}

#[test]
fn a_round_may_be_full(rt: HostRuntime) {
    let done = full_round(&rt, rt.alloc());
    holds(&rt, has_each(&done, 512, Response), "512 replies");
}

#[test]
fn rounds_follow_one_another(rt: HostRuntime) {
    const ROWS: &[Row] = &[
        (0, &[], &[], &[], &[], "no datagram"),
        (
            0,
            &[Strange(RFC_REQUEST), V, SHORTER],
            &[Dropped(UnknownClient), ACCEPTED, Dropped(Short)],
            &[1],
            &[1],
            "one of three is admitted",
        ),
        (29_999, &[V], &[ACCEPTED], &[0], &[1], "a repeat"),
        (
            30_000,
            &[Account(0, 0, START)],
            &[Response],
            &[0],
            &[1],
            "a Start",
        ),
        (
            60_000,
            &[Access(1, b"dory", b"reef")],
            &[Reject(b"no address left")],
            &[0],
            &[1],
            "the session is held after the Start",
        ),
        (
            60_001,
            &[Account(0, 1, STOP), Access(2, b"dory", b"reef")],
            &[Response, Accept(&[10, 0, 0, 1])],
            &[0, 1],
            &[2],
            "a Stop, and dory: the window has passed",
        ),
    ];
    let played = play(&rt, rt.alloc(), ROWS);
    holds(&rt, played.is_some(), "memory for a service");
}

#[test]
fn each_kind_of_request_is_answered(rt: HostRuntime) {
    const ROWS: &[Row] = &[
        (
            0,
            &[
                Octets(BY_CHAP),
                Octets(BY_CHAP_CHALLENGE),
                Access(3, b"kay", b"pw"),
                Octets(BY_EAP),
                Octets(STATUS_SERVER),
            ],
            &[
                Accept(&[10, 0, 1, 1]),
                Accept(&[10, 0, 1, 2]),
                Code(ACCESS_CHALLENGE),
                Reject(b"eap not supported"),
                Code(ACCESS_ACCEPT),
            ],
            &[0, 1, 2, 3, 4],
            &[1, 2],
            "CHAP, a challenge, EAP and a Status-Server",
        ),
        (
            0,
            &[Octets(ANSWER)],
            &[Code(ACCESS_ACCEPT)],
            &[0],
            &[1, 2, 3],
            "the answer to a challenge",
        ),
        (
            0,
            &[
                Account(0, 0, INTERIM_UPDATE),
                Account(0, 1, STOP),
                Account(0, 2, ACCOUNTING_ON),
                Account(0, 3, ACCOUNTING_OFF),
                Account(0, 4, 15),
            ],
            &[Response, Response, Response, Response, Response],
            &[0, 1, 2, 3, 4],
            &[1, 2, 3],
            "each status",
        ),
    ];
    let played = play(&rt, rt.alloc(), ROWS);
    holds(&rt, played.is_some(), "memory for a service");
}

#[test]
fn a_full_table_of_replies_is_busy(rt: HostRuntime) {
    const SENT: &[Sent] = &[Account(256, 0, START), Account(0, 0, START)];
    let done = round_of_full_table(&rt, rt.alloc(), SENT);
    holds(
        &rt,
        are_outcomes(&done, &[Busy, Response]),
        "no room for one more, and a repeat of the first",
    );
}

#[test]
fn workers_do_not_change_outcomes(rt: HostRuntime) {
    holds(&rt, agree(&rt, rt.alloc()), "one worker and eight");
}

// A round of 512 Starts.
fn full_round<R: Abort + Threads + Wait + Sync>(rt: &R, alloc: Global) -> Option<Done> {
    let sent = starts(alloc, 0, 512)?;
    first_round(rt, alloc, &sent, 8, &OpenGate, &[])
}

// Plays rounds of two workers, and asserts of each that it is as it must be.
fn play<R: Abort + Threads + Wait + Sync>(rt: &R, alloc: Global, rows: &[Row]) -> Option<()> {
    let config = Config::read(alloc, CAMPUS).ok()?;
    play_with(rt, alloc, &config, rows)
}

fn play_with<R: Abort + Threads + Wait + Sync>(
    rt: &R,
    alloc: Global,
    config: &Config,
    rows: &[Row],
) -> Option<()> {
    let mut service = Service::open(alloc, config).ok()?;
    play_rows(rt, alloc, &mut service, rows);
    Some(())
}

fn play_rows<R: Abort + Threads + Wait + Sync>(
    rt: &R,
    alloc: Global,
    service: &mut Service,
    rows: &[Row],
) {
    for row in rows.iter() {
        holds(rt, plays(rt, alloc, service, row), row.5);
    }
}

// Whether a round is as it must be.
fn plays<R: Threads + Wait + Sync>(
    rt: &R,
    alloc: Global,
    service: &mut Service,
    row: &Row,
) -> bool {
    let (moment, sent, outcomes, tags, sessions, _) = row;
    let done = round(rt, alloc, service, *moment, sent, 2, &OpenGate);
    are_outcomes(&done, outcomes) && are_tags(&done, tags) && are_sessions(service, sessions)
}

// A round of two workers, once 65,536 replies are kept.
fn round_of_full_table<R: Threads + Wait + Sync>(
    rt: &R,
    alloc: Global,
    sent: &[Sent],
) -> Option<Done> {
    let config = Config::read(alloc, CAMPUS).ok()?;
    round_of_full_table_with(rt, alloc, &config, sent)
}

fn round_of_full_table_with<R: Threads + Wait + Sync>(
    rt: &R,
    alloc: Global,
    config: &Config,
    sent: &[Sent],
) -> Option<Done> {
    let mut service = Service::open(alloc, config).ok()?;
    fill_and_round(rt, alloc, &mut service, sent)
}

fn fill_and_round<R: Threads + Wait + Sync>(
    rt: &R,
    alloc: Global,
    service: &mut Service,
    sent: &[Sent],
) -> Option<Done> {
    if fills(rt, alloc, service) {
        round(rt, alloc, service, 0, sent, 2, &OpenGate)
    } else {
        None
    }
}

// Whether rounds of 512 Starts, until 65,536 of them are answered, have a reply and an entry for each.
fn fills<R: Threads + Wait + Sync>(rt: &R, alloc: Global, service: &mut Service) -> bool {
    for round in 0..128 {
        if !answers_starts(rt, alloc, service, 512 * round) {
            return false;
        }
    }
    true
}

// Whether a round of 512 Starts, from this number on, has a reply and an entry for each.
fn answers_starts<R: Threads + Wait + Sync>(
    rt: &R,
    alloc: Global,
    service: &mut Service,
    first: u32,
) -> bool {
    let Some(sent) = starts(alloc, first, first.saturating_add(512)) else {
        return false;
    };
    let done = round(rt, alloc, service, 0, &sent, 8, &OpenGate);
    has_each(&done, 512, Response)
}

// Datagrams whose outcomes are the same in each order: 64 Starts, and then eight others.
fn mixed(alloc: Global) -> Option<Vec<Sent>> {
    const OTHERS: &[Sent] = &[
        Strange(RFC_REQUEST),
        V,
        SHORTER,
        Access(1, b"dory", b"wrong"),
        Access(2, b"kay", b"pw"),
        V,
        Account(0, 0, START),
        Access(3, b"nobody", b"p"),
    ];
    let mut sent = starts(alloc, 0, 64)?;
    for other in OTHERS.iter() {
        sent.push(*other).ok()?;
    }
    Some(sent)
}

// Whether a round with one worker and one with eight have the same outcomes, where none was refused memory.
fn agree<R: Abort + Threads + Wait + Sync>(rt: &R, alloc: Global) -> bool {
    let Some(sent) = mixed(alloc) else {
        return false;
    };
    let done = first_round(rt, alloc, &sent, 1, &OpenGate, &[1]);
    let other = first_round(rt, alloc, &sent, 8, &OpenGate, &[1]);
    has_len(&done, 72, 70) && are_same(&done, &other)
}
