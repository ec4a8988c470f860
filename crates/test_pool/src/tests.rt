//! A test is a table of calls, which `play` makes in sessions that are opened for it.
mod copies;
mod found;
mod granted;
mod limits;
mod own;
mod pair;
mod pairs;
mod plain;
mod resets;
mod restored;
mod silent;
mod wide;

use rad_config::{Config, MOMENT_MAX};
use rad_pool::{Grant, Phase, Refusal, Session, Sessions};
use std::alloc::Global;
use std::process::Abort;
use std::test::Fail;
use test_common::campus;

// Asserts once, of `what`.
fn holds(rt: &impl Abort, is_so: bool, what: &str) {
    assert!(rt; is_so, "{what}");
}

/// Two clients; users who share a pool of one address, one with two sessions and two addresses, and one without addresses.
const CAMPUS: &str = campus!("");

const NEMO: u32 = 0;

const DORY: u32 = 1;

const BRUCE: u32 = 2;

const KAY: u32 = 3;

/// The address of the pool `one`, and those of the pool `two`.
const ONE: u32 = 0x0A00_0001;

const TWO: u32 = 0x0A00_0201;

const TWO_NEXT: u32 = 0x0A00_0202;

/// Who asks for a session: the client's place, and the address that its Access-Request comes from.
#[derive(Clone, Copy)]
struct Asker {
    client: u32,
    source: u32,
}

/// The first client, at its own address.
const HERE: Asker = Asker {
    client: 0,
    source: 0xC0A8_0110,
};

/// A call, and what it must return or leave.
#[derive(Clone, Copy)]
enum Call {
    /// A user of the first client is granted the session with this number and address.
    Grant(u32, u64, Option<u32>),
    /// The same of a session that another asks for.
    GrantFrom(Asker, u32, u64, Option<u32>),
    /// A user is refused a session.
    Refuse(u32, Refusal),
    Start(u64),
    /// An Interim-Update.
    Renew(u64),
    Stop(u64),
    /// An Accounting-On or an Accounting-Off of a source.
    Reset(u32),
    Expire,
    /// The number and phase of each session, oldest first.
    Rows(&'static [(u64, Phase)]),
}

/// The moment of a call in milliseconds, the call, and what is said if it has another outcome.
type Row = (u64, Call, &'static str);

// Makes the calls, each at its moment, in sessions that are opened for it, and asserts what each returns.
fn play(rt: &impl Abort, alloc: Global, rows: &[Row]) -> Result<(), Fail> {
    let config = Config::read(alloc, CAMPUS)?;
    play_over(rt, alloc, &config, rows)
}

// The same where a session is stale after 100 seconds.
fn play_with_stale(rt: &impl Abort, alloc: Global, rows: &[Row]) -> Result<(), Fail> {
    let text = format!(in alloc; "stale = 100\n{CAMPUS}")?;
    let config = Config::read(alloc, &text)?;
    play_over(rt, alloc, &config, rows)
}

fn play_over(rt: &impl Abort, alloc: Global, config: &Config, rows: &[Row]) -> Result<(), Fail> {
    let mut sessions = Sessions::open(alloc, config)?;
    play_in(rt, &mut sessions, config, rows);
    Ok(())
}

fn play_in(rt: &impl Abort, sessions: &mut Sessions, config: &Config, rows: &[Row]) {
    for row in rows.iter() {
        let (now, call, what) = *row;
        holds(rt, make(sessions, config, now, &call), what);
    }
}

// Makes a call, and returns whether it returned what it must.
fn make(sessions: &mut Sessions, config: &Config, now: u64, call: &Call) -> bool {
    match call {
        Call::Grant(user, number, address) => {
            let grant = grant_of(*number, *address);
            ask(sessions, config, *user, now) == grant
        }
        Call::GrantFrom(asker, user, number, address) => {
            let grant = grant_of(*number, *address);
            ask_from(sessions, config, *asker, *user, now) == grant
        }
        Call::Refuse(user, refusal) => ask(sessions, config, *user, now) == Some(Err(*refusal)),
        Call::Expire => expire(sessions, now),
        Call::Rows(wanted) => are_rows(sessions, wanted),
        report => {
            tell(sessions, now, report);
            true
        }
    }
}

fn grant_of(number: u64, address: Option<u32>) -> Option<Result<Grant, Refusal>> {
    Some(Ok(Grant { number, address }))
}

// Makes the call of a report.
fn tell(sessions: &mut Sessions, now: u64, report: &Call) {
    match report {
        Call::Start(number) => sessions.start(*number, now),
        Call::Renew(number) => sessions.renew(*number, now),
        Call::Stop(number) => sessions.stop(*number),
        Call::Reset(source) => sessions.end_source(*source),
        _ => {}
    }
}

// What the first client is granted for a user, or None if there is no such user or moment, or `peek` differs.
fn ask(
    sessions: &mut Sessions,
    config: &Config,
    user: u32,
    now: u64,
) -> Option<Result<Grant, Refusal>> {
    ask_from(sessions, config, HERE, user, now)
}

// The same for one who asks.
fn ask_from(
    sessions: &mut Sessions,
    config: &Config,
    asker: Asker,
    user: u32,
    now: u64,
) -> Option<Result<Grant, Refusal>> {
    if config.users().len() <= user as usize || MOMENT_MAX < now {
        return None;
    }
    let peeked = sessions.peek(config, asker.client, user, now);
    let granted = sessions.grant(config, asker.client, asker.source, user, now);
    if granted == peeked {
        Some(granted)
    } else {
        None
    }
}

fn expire(sessions: &mut Sessions, now: u64) -> bool {
    if MOMENT_MAX < now {
        return false;
    }
    sessions.expire(now);
    true
}

// Whether these are the sessions, oldest first.
fn are_rows(sessions: &Sessions, wanted: &[(u64, Phase)]) -> bool {
    let mut rest = wanted.iter();
    for session in sessions.rows() {
        let Session { number, phase, .. } = session;
        if rest.next() != Some(&(number, phase)) {
            return false;
        }
    }
    rest.next().is_none()
}
