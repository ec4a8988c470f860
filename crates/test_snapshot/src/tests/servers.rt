//! Servers to be written: one that remembers nothing, and one that remembers rows of each kind.
ghost use Rattle.std.specs.Prelude.{◌≤◌, length};
ghost use Rattle.rad_packet.specs.Attributes.{value_max};

use rad_auth::Door;
use rad_config::Config;
use rad_packet::attribute::{CLASS, FRAMED_IP_ADDRESS, MESSAGE_AUTHENTICATOR, STATE};
use rad_packet::code::{ACCESS_ACCEPT, ACCESS_CHALLENGE, ACCESS_REJECT, ACCOUNTING_RESPONSE};
use rad_packet::{Body, Octets};
use rad_pool::{Phase, Session};
use rad_recent::{Challenge, Kept, Key};
use rad_server::{Server, StateRow};
use std::alloc::{AllocError, Global};
use test_common::{CLIENT, PORT, SECOND_CLIENT};

// The text of a configuration, which `$more` continues: two clients; `nemo` with a pool of one address, and `many` with many
// sessions and none.
macro_rules! text {
    ($more:literal) => {
        concat!(
            r#"
window = 30
hold = 60

[[client]]
address = "192.168.1.16"
secret = "xyzzy5461"

[[client]]
address = "192.168.1.20"
secret = "second"

[[pool]]
name = "one"
first = "10.0.0.1"
last = "10.0.0.1"

[[user]]
name = "nemo"
password = "arctangent"
pool = "one"

[[user]]
name = "many"
password = "p"
sessions = 4096
"#,
            $more
        )
    };
}

/// These, and `kay` with challenges.
pub(crate) const TEXT: &str = text!(
    r#"
[[user]]
name = "kay"
password = "pw"
challenge = "code?"
answer = "4711"
"#
);

/// The same without `kay`.
pub(crate) const WITHOUT_KAY: &str = text!("");

/// How many sessions a server has that remembers rows of each kind.
pub(crate) const SESSIONS: u64 = 301;

// The moment of the clock, and of the rows.
const CLOCK: u64 = 9_000;

const MADE: u64 = 8_000;

const SEEN: u64 = 8_500;

/// A server that remembers rows of each kind; none if one is refused.
pub(crate) fn busy<'c>(alloc: Global, config: &'c Config) -> Option<Server<'c>> {
    let mut server = Server::open(alloc, config).ok()?;
    server.pass(CLOCK);
    if puts_sessions(&mut server)
        && puts_replies(alloc, &mut server)
        && puts_challenges(&mut server)
    {
        Some(server)
    } else {
        None
    }
}

// The session of this number: the first has an address, and the others are in each phase in turn.
fn session(number: u64) -> Session {
    let phase = match number % 3 {
        0 => Phase::Pending,
        1 => Phase::Active,
        _ => Phase::Ended,
    };
    Session {
        number,
        client: (number % 2) as u32,
        source: if number % 2 == 0 {
            CLIENT
        } else {
            SECOND_CLIENT
        },
        user: if number == 1 { 0 } else { 1 },
        address: if number == 1 { Some(0x0A00_0001) } else { None },
        phase,
        made: MADE,
        seen: SEEN,
    }
}

// Whether sessions are put back, with gaps in their numbers, and a last number beyond them.
fn puts_sessions(server: &mut Server) -> bool {
    for place in 0..SESSIONS {
        if server
            .restore(StateRow::Session(session(place * 7 + 1)))
            .is_err()
        {
            return false;
        }
    }
    server.restore(StateRow::LastSession(5_000)).is_ok()
}

// Whether a reply of each Code is put back.
fn puts_replies(alloc: Global, server: &mut Server) -> bool {
    let codes = [
        ACCESS_ACCEPT,
        ACCESS_REJECT,
        ACCESS_CHALLENGE,
        ACCOUNTING_RESPONSE,
    ];
    for code in codes {
        let Ok(reply) = reply(alloc, code) else {
            return false;
        };
        if server.restore(StateRow::Reply(reply)).is_err() {
            return false;
        }
    }
    true
}

// The kept reply of this Code.
fn reply(alloc: Global, code: u8) -> Result<Kept, AllocError> {
    let is_accounting = code == ACCOUNTING_RESPONSE;
    Ok(Kept {
        client: if is_accounting { Some(1) } else { Some(0) },
        key: Key {
            source: if is_accounting { SECOND_CLIENT } else { CLIENT },
            port: PORT,
            door: if is_accounting {
                Door::Acct
            } else {
                Door::Auth
            },
            id: code,
        },
        octets: Octets::of(alloc, &[code, 200, 0, 20])?,
        body: body(alloc, code)?,
        made: MADE,
    })
}

// The body of a reply of this Code: that of an Access-Accept gives the address of the first session.
fn body(alloc: Global, code: u8) -> Result<Body, AllocError> {
    let mut body = Body::new(alloc, code);
    if code == ACCOUNTING_RESPONSE {
        return Ok(body);
    }
    body.push(MESSAGE_AUTHENTICATOR, &[0; 16])?;
    match code {
        ACCESS_ACCEPT => {
            body.push(CLASS, b"RAP1\0\0\0\0\0\0\0\x01")?;
            body.push(FRAMED_IP_ADDRESS, &[10, 0, 0, 1])?;
        }
        ACCESS_CHALLENGE => body.push(STATE, &[255; 253])?,
        _ => {}
    }
    Ok(body)
}

// Whether challenges are put back, and a last number beyond them.
fn puts_challenges(server: &mut Server) -> bool {
    for number in 1..9 {
        let row = Challenge {
            number: number * 2,
            draw: [number as u8; 16],
            client: 1,
            user: 2,
            made: MADE,
        };
        if server.restore(StateRow::Challenge(row)).is_err() {
            return false;
        }
    }
    server.restore(StateRow::LastChallenge(40)).is_ok()
}
