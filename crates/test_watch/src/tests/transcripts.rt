//! Lines of a recording.
use super::turns::{TEXT, arrival};
use crate::tests::holds;
use rad_auth::{Discard, Door};
use rad_config::Config;
use rad_packet::code::{ACCESS_ACCEPT, ACCESS_CHALLENGE};
use rad_packet::{Body, Octets};
use rad_server::{Answer, Entry};
use rad_shell::{Done, Outcome, Service, Timed, Turn};
use rad_watch::record;
use std::alloc::{AllocError, Global};

/// The octets of three datagrams. The history has the second, which was challenged, before the first, which was accepted; the third
/// was discarded.
const OCTETS: [&[u8]; 3] = [b"\x01\x02", b"\xa0", b""];

const LINES: &str =
    "9 auth 192.0.2.7:1700 a0 5d5d5d5d5d5d5d5d5d5d5d5d5d5d5d5d\n9 auth 192.0.2.7:1700 0102\n9 auth 192.0.2.7:1700 -\n";

#[test]
fn a_recording_has_the_order_of_the_history(rt: HostRuntime) {
    holds(
        &rt,
        is_recorded(rt.alloc()),
        "the second with its draw, the first, the third",
    );
}

fn is_recorded(alloc: Global) -> bool {
    match Config::read(alloc, TEXT) {
        Ok(config) => is_recorded_with(alloc, &config),
        Err(_) => false,
    }
}

fn is_recorded_with(alloc: Global, config: &Config) -> bool {
    match (Service::open(alloc, config), done(alloc)) {
        (Ok(service), Ok(done)) => is_recorded_of(alloc, &service, &done),
        _ => false,
    }
}

fn is_recorded_of(alloc: Global, service: &Service, done: &Done) -> bool {
    let arrivals = OCTETS.map(|octets| timed(octets));
    let turn = Turn {
        service,
        arrivals: &arrivals,
        done,
        marks: &[],
        faults: 0,
        last_failure: None,
    };
    let mut text = Vec::new(alloc);
    record(&mut text, &turn) && text.as_slice() == LINES.as_bytes()
}

fn timed(octets: &[u8]) -> Timed<'_> {
    Timed {
        arrival: arrival(Door::Auth, octets),
        moment: 9,
        draw: [0; 16],
    }
}

fn done(alloc: Global) -> Result<Done, AllocError> {
    let mut done = Done {
        outcomes: Vec::new(alloc),
        history: Vec::new(alloc),
    };
    done.outcomes.push(Outcome::Busy)?;
    done.outcomes.push(Outcome::Busy)?;
    done.outcomes.push(Outcome::Dropped(Discard::Short))?;
    done.history.push(entry(alloc, 1, ACCESS_CHALLENGE)?)?;
    done.history.push(entry(alloc, 0, ACCESS_ACCEPT)?)?;
    Ok(done)
}

fn entry(alloc: Global, tag: u64, code: u8) -> Result<Entry, AllocError> {
    Ok(Entry {
        tag,
        client: 0,
        source: 0,
        port: 0,
        door: Door::Auth,
        octets: Octets::of(alloc, b"")?,
        moment: 9,
        draw: [0x5d; 16],
        answer: Answer::Send(Body::new(alloc, code)),
        session: None,
    })
}
