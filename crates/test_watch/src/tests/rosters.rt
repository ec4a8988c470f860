//! The table of sessions.
use crate::tests::holds;
use rad_auth::{Arrival, Door};
use rad_config::Config;
use rad_server::Server;
use rad_watch::{Now, Roster};
use std::alloc::Global;
use test_common::{CAMPUS, CLIENT, DRAW, PORT, RFC_REQUEST, admit};

/// When the session is granted: 2026-11-26, 10:00:00.250 in UTC.
const GRANTED: u64 = 1_795_687_200_250;

/// The moment of it.
const MOMENT: u64 = 5_000;

const HEAD: &str = "number\tphase\tuser\taddress\tclient\tsource\tsince\tseen\n";

const NEMO: &str =
    "1\tpending\tnemo\t10.0.0.1\t1\t192.168.1.16\t2026-11-26T10:00:00.250Z\t2026-11-26T10:00:00.250Z\n";

/// Milliseconds since the grant, and the lines after the head line. The session is held for 60 seconds.
const ROWS: &[(u64, &str)] = &[(0, NEMO), (59_999, NEMO), (60_000, ""), (1 << 62, "")];

#[test]
fn a_session_is_told_while_it_is_live(rt: HostRuntime) {
    for (since, lines) in ROWS.iter() {
        holds(&rt, tells(rt.alloc(), *since, lines), lines);
    }
}

fn tells(alloc: Global, since: u64, lines: &str) -> bool {
    match Config::read(alloc, CAMPUS) {
        Ok(config) => tells_with(alloc, &config, since, lines),
        Err(_) => false,
    }
}

fn tells_with(alloc: Global, config: &Config, since: u64, lines: &str) -> bool {
    match Server::open(alloc, config) {
        Ok(mut server) => grants(&mut server) && tells_of(alloc, &server, since, lines),
        Err(_) => false,
    }
}

// Whether nemo is answered.
fn grants(server: &mut Server) -> bool {
    let arrival = Arrival {
        source: CLIENT,
        port: PORT,
        door: Door::Auth,
        octets: RFC_REQUEST,
    };
    match admit(server.config().clients(), arrival) {
        Some(request) => server.step(&request, MOMENT, DRAW).is_ok(),
        None => false,
    }
}

fn tells_of(alloc: Global, server: &Server, since: u64, lines: &str) -> bool {
    let now = Now {
        since_1970: GRANTED.saturating_add(since),
        moment: MOMENT.saturating_add(since),
    };
    let Ok(roster) = Roster::of(alloc, server, now) else {
        return false;
    };
    match roster.text(alloc, server.config()) {
        Ok(text) => text
            .strip_prefix(HEAD.as_bytes())
            .is_some_and(|rest| rest == lines.as_bytes()),
        Err(_) => false,
    }
}
