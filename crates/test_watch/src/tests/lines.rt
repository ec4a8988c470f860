//! Lines of a log.
use super::turns::{Fate, Row, lines_of};
use crate::tests::holds;
use rad_auth::{Discard, Door};
use rad_watch::Level;

/// An Access-Request of a user with a strange name: `a"`, a line feed, `\` and an octet that isn't ASCII.
const STRANGE: &[u8] = b"\x01\x07\x00\x1b................\x01\x07a\"\n\\\xff";

/// An Access-Request of the user `ann`.
const ANN: &[u8] = b"\x01\x07\x00\x19................\x01\x05ann";

/// A Start of the session 258 of `ann`, with its address.
const START: &[u8] = b"\x04\x07\x00\x33................\x01\x05ann\x08\x06\x0a\x00\x00\x05\
    \x19\x0eRAP1\x00\x00\x00\x00\x00\x00\x01\x02\x28\x06\x00\x00\x00\x01";

/// Reports with another Acct-Status-Type: 2, 3, 7, 8 and 9.
const STOP: &[u8] = b"\x04\x07\x00\x1a................\x28\x06\x00\x00\x00\x02";

const INTERIM: &[u8] = b"\x04\x07\x00\x1a................\x28\x06\x00\x00\x00\x03";

const ON: &[u8] = b"\x04\x07\x00\x1a................\x28\x06\x00\x00\x00\x07";

const OFF: &[u8] = b"\x04\x07\x00\x1a................\x28\x06\x00\x00\x00\x08";

const FAILED: &[u8] = b"\x04\x07\x00\x1a................\x28\x06\x00\x00\x00\x0f";

/// A Status-Server.
const STATUS: &[u8] = b"\x0c\x07\x00\x14................";

/// A datagram with its fate, and what its line says after the time, if a log of all has one; and whether a log of what is refused
/// has it.
type Told = (Row, &'static str, bool);

const TOLD: &[Told] = &[
    (
        (Door::Auth, b"\x01", Fate::Dropped(Discard::Short)),
        "event=discard reason=\"Short\" client=1 source=192.0.2.7:1700 port=auth",
        true,
    ),
    (
        (Door::Auth, STRANGE, Fate::Busy),
        "event=busy client=1 source=192.0.2.7:1700 port=auth user=\"a\\x22\\x0a\\x5c\\xff\"",
        true,
    ),
    (
        (Door::Acct, START, Fate::NoMemory),
        "event=nomemory client=1 source=192.0.2.7:1700 port=acct user=\"ann\"",
        true,
    ),
    (
        (Door::Auth, ANN, Fate::Reply(3, &[(18, b"access denied")])),
        "event=reject reason=\"access denied\" client=1 source=192.0.2.7:1700 port=auth user=\"ann\"",
        true,
    ),
    (
        (
            Door::Auth,
            ANN,
            Fate::Reply(
                2,
                &[
                    (8, b"\x0a\x00\x00\x05"),
                    (25, b"RAP1\x00\x00\x00\x00\x00\x00\x01\x02"),
                ],
            ),
        ),
        "event=accept client=1 source=192.0.2.7:1700 port=auth user=\"ann\" address=10.0.0.5 session=258",
        false,
    ),
    (
        (
            Door::Auth,
            ANN,
            Fate::Reply(11, &[(18, b"code?"), (24, b"secret state")]),
        ),
        "event=challenge client=1 source=192.0.2.7:1700 port=auth user=\"ann\"",
        false,
    ),
    (
        (Door::Acct, START, Fate::Report(258)),
        "event=start client=1 source=192.0.2.7:1700 port=acct user=\"ann\" address=10.0.0.5 session=258",
        false,
    ),
    (
        (Door::Acct, START, Fate::Repeat(5, &[])),
        "event=start client=1 source=192.0.2.7:1700 port=acct user=\"ann\" address=10.0.0.5 session=258 repeat=1",
        false,
    ),
    (
        (Door::Acct, START, Fate::Reply(5, &[])),
        "event=start reason=\"no session\" client=1 source=192.0.2.7:1700 port=acct user=\"ann\" address=10.0.0.5 session=258",
        true,
    ),
    (
        (Door::Acct, STOP, Fate::Reply(5, &[])),
        "event=stop reason=\"no session\" client=1 source=192.0.2.7:1700 port=acct",
        true,
    ),
    (
        (Door::Acct, INTERIM, Fate::Report(1)),
        "event=interim client=1 source=192.0.2.7:1700 port=acct",
        false,
    ),
    (
        (Door::Auth, ANN, Fate::Repeat(3, &[(18, b"access denied")])),
        "event=reject reason=\"access denied\" client=1 source=192.0.2.7:1700 port=auth user=\"ann\" repeat=1",
        true,
    ),
    (
        (Door::Acct, ON, Fate::Reply(5, &[])),
        "event=on client=1 source=192.0.2.7:1700 port=acct",
        false,
    ),
    (
        (Door::Acct, OFF, Fate::Reply(5, &[])),
        "event=off client=1 source=192.0.2.7:1700 port=acct",
        false,
    ),
    (
        (Door::Acct, FAILED, Fate::Reply(5, &[])),
        "event=accounting client=1 source=192.0.2.7:1700 port=acct",
        false,
    ),
    (
        (Door::Auth, STATUS, Fate::Reply(2, &[])),
        "event=status client=1 source=192.0.2.7:1700 port=auth",
        false,
    ),
];

const TIME: &[u8] = b"time=2026-11-26T10:00:00.250Z ";

#[test]
fn each_event_has_its_line(rt: HostRuntime) {
    for (row, line, _) in TOLD.iter() {
        let lines = lines_of(rt.alloc(), Some(Level::All), &[*row], 0);
        holds(&rt, is_line(lines, line), line);
    }
}

#[test]
fn a_log_of_what_is_refused_has_no_other_line(rt: HostRuntime) {
    for (row, line, is_refused) in TOLD.iter() {
        let lines = lines_of(rt.alloc(), Some(Level::Refused), &[*row], 0);
        holds(&rt, lines.is_some() == *is_refused, line);
    }
}

#[test]
fn without_a_level_there_is_no_line(rt: HostRuntime) {
    for (row, line, _) in TOLD.iter() {
        holds(&rt, lines_of(rt.alloc(), None, &[*row], 1).is_none(), line);
    }
}

#[test]
fn lines_are_left_out_beyond_twenty(rt: HostRuntime) {
    for (row, line, _) in TOLD.iter() {
        let lines = lines_of(rt.alloc(), Some(Level::All), &[*row; 25], 2);
        holds(&rt, are_left_out(lines, line), line);
    }
}

// Whether 20 lines are followed by one that tells of 5 more of this line's event.
fn are_left_out(lines: Option<Vec<u8>>, line: &str) -> bool {
    let Some(lines) = lines else {
        return false;
    };
    let Some(rest) = lines.strip_suffix(b"\" client=1 count=5\n") else {
        return false;
    };
    let event = line.split(' ').next().unwrap_or("");
    let event = event.strip_prefix("event=").unwrap_or("");
    let is_told = match rest.strip_suffix(event.as_bytes()) {
        Some(rest) => rest.ends_with(LEFT_OUT),
        None => false,
    };
    is_told && count_lines(&lines) == 21
}

const LEFT_OUT: &[u8] = b"\ntime=2026-11-26T10:00:01.250Z event=left_out reason=\"";

// Whether this is one line, with the time and what follows it.
fn is_line(lines: Option<Vec<u8>>, line: &str) -> bool {
    let Some(lines) = lines else {
        return false;
    };
    let Some(rest) = lines.strip_prefix(TIME) else {
        return false;
    };
    rest.strip_suffix(b"\n") == Some(line.as_bytes())
}

fn count_lines(lines: &[u8]) -> usize {
    lines.iter().filter(|octet| **octet == b'\n').count()
}
