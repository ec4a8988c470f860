//! Turns whose outcomes are made up.
use rad_auth::{Arrival, Discard, Door};
use rad_config::Config;
use rad_packet::attribute::{REPLY_MESSAGE, VALUE_MAX};
use rad_packet::code::{ACCESS_REJECT, ACCOUNTING_RESPONSE};
use rad_packet::{Body, Frame, Octets, write};
use rad_server::{Answer, Denial, Entry};
use rad_shell::{Done, Outcome, Service, Timed, Turn};
use rad_watch::{Level, Now, Watcher};
use std::alloc::{AllocError, Global};

/// What becomes of a datagram.
#[derive(Clone, Copy)]
pub enum Fate {
    Dropped(Discard),
    Busy,
    NoMemory,
    /// A new reply with this Code and these attributes: Type and Value of each.
    Reply(u8, Attributes),
    /// A new Access-Reject that says so.
    Denied(Denial),
    /// The same reply, which was kept.
    Repeat(u8, Attributes),
    /// A new Accounting-Response, to a report that means the session of this number.
    Report(u64),
}

/// Type and Value of each attribute.
pub type Attributes = &'static [(u8, &'static [u8])];

/// A datagram and its fate.
pub type Row = (Door, &'static [u8], Fate);

/// A configuration with one client.
pub const TEXT: &str = "[[client]]\naddress = \"192.0.2.0/24\"\nsecret = \"s\"\n";

/// 2026-11-26, 10:00:00.250 in UTC.
pub const NOW: Now = Now {
    since_1970: 1_795_687_200_250,
    moment: 5_000,
};

/// A second later.
pub const LATER: Now = Now {
    since_1970: 1_795_687_201_250,
    moment: 6_000,
};

/// The lines of a log of this level, after one turn for each row, and then so many turns without a datagram a second later.
pub fn lines_of(
    alloc: Global,
    level: Option<Level>,
    rows: &[Row],
    later: usize,
) -> Option<Vec<u8>> {
    let config = Config::read(alloc, TEXT).ok()?;
    lines_with(alloc, &config, level, rows, later)
}

fn lines_with(
    alloc: Global,
    config: &Config,
    level: Option<Level>,
    rows: &[Row],
    later: usize,
) -> Option<Vec<u8>> {
    let service = Service::open(alloc, config).ok()?;
    lines_by(alloc, &service, level, rows, later)
}

fn lines_by(
    alloc: Global,
    service: &Service,
    level: Option<Level>,
    rows: &[Row],
    later: usize,
) -> Option<Vec<u8>> {
    let mut watcher = watcher_of(alloc, service, level, rows)?;
    for _ in 0..later {
        see_nothing(alloc, service, &mut watcher);
    }
    watcher.take_lines()
}

/// A watcher of this level that has seen one turn for each row.
pub fn watcher_of(
    alloc: Global,
    service: &Service,
    level: Option<Level>,
    rows: &[Row],
) -> Option<Watcher> {
    let mut watcher = Watcher::open(alloc, service.server().config(), level, NOW).ok()?;
    for row in rows.iter() {
        see(alloc, service, &mut watcher, row);
    }
    Some(watcher)
}

/// A datagram of the client.
pub fn arrival(door: Door, octets: &[u8]) -> Arrival<'_> {
    Arrival {
        source: 0xC000_0207,
        port: 1700,
        door,
        octets,
    }
}

// Lets a watcher see a turn with one datagram.
fn see(alloc: Global, service: &Service, watcher: &mut Watcher, row: &Row) {
    let (door, octets, fate) = *row;
    let arrivals = [Timed {
        arrival: arrival(door, octets),
        moment: 0,
        draw: [0; 16],
    }];
    if let Ok(done) = done_by(alloc, door, octets, fate) {
        let turn = Turn {
            service,
            arrivals: &arrivals,
            done: &done,
            marks: &[!matches!(fate, Fate::Repeat(..) | Fate::Busy)],
            faults: 0,
            last_failure: None,
        };
        watcher.see(&turn, 150, NOW);
    }
}

fn see_nothing(alloc: Global, service: &Service, watcher: &mut Watcher) {
    let done = Done {
        outcomes: Vec::new(alloc),
        history: Vec::new(alloc),
    };
    let turn = Turn {
        service,
        arrivals: &[],
        done: &done,
        marks: &[],
        faults: 0,
        last_failure: None,
    };
    watcher.see(&turn, 0, LATER);
}

fn done_by(alloc: Global, door: Door, octets: &[u8], fate: Fate) -> Result<Done, AllocError> {
    let mut done = Done {
        outcomes: Vec::new(alloc),
        history: Vec::new(alloc),
    };
    done.outcomes.push(outcome_of(alloc, fate)?)?;
    match fate {
        Fate::Dropped(_) | Fate::NoMemory => {}
        Fate::Busy => push_entry(alloc, &mut done, door, octets, (Answer::Busy, None))?,
        Fate::Reply(code, _) | Fate::Repeat(code, _) => {
            let answer = Answer::Send(Body::new(alloc, code));
            push_entry(alloc, &mut done, door, octets, (answer, None))?;
        }
        Fate::Denied(_) => {
            let answer = Answer::Send(Body::new(alloc, ACCESS_REJECT));
            push_entry(alloc, &mut done, door, octets, (answer, None))?;
        }
        Fate::Report(session) => {
            let answer = Answer::Send(Body::new(alloc, ACCOUNTING_RESPONSE));
            push_entry(alloc, &mut done, door, octets, (answer, Some(session)))?;
        }
    }
    Ok(done)
}

// Appends the entry of the first datagram, with its answer and session.
fn push_entry(
    alloc: Global,
    done: &mut Done,
    door: Door,
    octets: &[u8],
    (answer, session): (Answer, Option<u64>),
) -> Result<(), AllocError> {
    let octets = Octets::of(alloc, octets)?;
    done.history.push(Entry {
        tag: 0,
        client: 0,
        source: 0xC000_0207,
        port: 1700,
        door,
        octets,
        moment: 0,
        draw: [0; 16],
        answer,
        session,
    })?;
    Ok(())
}

fn outcome_of(alloc: Global, fate: Fate) -> Result<Outcome, AllocError> {
    match fate {
        Fate::Dropped(discard) => Ok(Outcome::Dropped(discard)),
        Fate::Busy => Ok(Outcome::Busy),
        Fate::NoMemory => Ok(Outcome::NoMemory),
        Fate::Reply(code, attributes) | Fate::Repeat(code, attributes) => {
            reply_with(alloc, code, attributes)
        }
        Fate::Denied(denial) => {
            let text = denial.text().as_bytes();
            reply_with(alloc, ACCESS_REJECT, &[(REPLY_MESSAGE, text)])
        }
        Fate::Report(_) => reply_with(alloc, ACCOUNTING_RESPONSE, &[]),
    }
}

fn reply_with(alloc: Global, code: u8, attributes: &[(u8, &[u8])]) -> Result<Outcome, AllocError> {
    let mut body = Body::new(alloc, code);
    for (kind, value) in attributes.iter() {
        if value.len() <= VALUE_MAX {
            body.push(*kind, value)?;
        }
    }
    let mut frame = Frame::new(alloc)?;
    let _is_short = write(&body, 7, &[0; 16], &mut frame).is_ok();
    Ok(Outcome::Reply(frame))
}
