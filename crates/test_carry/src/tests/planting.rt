//! A server of the old configuration, whose rows are put in by hand.
ghost use Rattle.std.specs.Prelude.{◌≤◌};
ghost use Rattle.rad_packet.specs.Attributes.{value_max};

use rad_auth::Door;
use rad_config::Config;
use rad_packet::attribute::{CLASS, FRAMED_IP_ADDRESS, MESSAGE_AUTHENTICATOR};
use rad_packet::code::{ACCESS_ACCEPT, ACCOUNTING_RESPONSE};
use rad_packet::{Body, Octets};
use rad_pool::{Phase, Session};
use rad_recent::{Challenge, Kept, Key};
use rad_server::{Server, StateRow};
use std::alloc::{AllocError, Global};
use test_common::{CLIENT, DRAW, PORT, SECOND_CLIENT};

/// The clock of the old server.
pub(crate) const CLOCK: u64 = 5_000;

/// nemo's session, and two of bruce's.
const SESSIONS: [Session; 3] = [
    Session {
        number: 1,
        client: 0,
        source: CLIENT,
        user: 0,
        address: Some(0x0A00_0001),
        phase: Phase::Active,
        made: 1_000,
        seen: 2_000,
    },
    Session {
        number: 2,
        client: 1,
        source: SECOND_CLIENT,
        user: 1,
        address: Some(0x0A00_0201),
        phase: Phase::Pending,
        made: 3_000,
        seen: 3_000,
    },
    Session {
        number: 4,
        client: 1,
        source: SECOND_CLIENT,
        user: 1,
        address: Some(0x0A00_0202),
        phase: Phase::Active,
        made: 4_000,
        seen: 4_500,
    },
];

/// The last numbers of sessions and challenges.
pub(crate) const LAST_SESSION: u64 = 7;

pub(crate) const LAST_CHALLENGE: u64 = 100;

/// A kept reply: its source and client, its Identifier, and what it says.
#[derive(Clone, Copy)]
struct Reply {
    source: u32,
    client: u32,
    id: u8,
    said: Said,
    made: u64,
}

#[derive(Clone, Copy)]
enum Said {
    /// An Access-Accept with a Class, and with an address.
    Granted(&'static [u8; 12], &'static [u8; 4]),
    /// An Access-Accept with a Class, and without an address.
    Accepted(&'static [u8; 12]),
    /// An Accounting-Response.
    Noted,
}

const REPLIES: [Reply; 4] = [
    Reply {
        source: CLIENT,
        client: 0,
        id: 1,
        said: Said::Granted(b"RAP1\0\0\0\0\0\0\0\x01", &[10, 0, 0, 1]),
        made: 1_000,
    },
    Reply {
        source: SECOND_CLIENT,
        client: 1,
        id: 2,
        said: Said::Granted(b"RAP1\0\0\0\0\0\0\0\x02", &[10, 0, 2, 1]),
        made: 3_000,
    },
    Reply {
        source: SECOND_CLIENT,
        client: 1,
        id: 3,
        said: Said::Accepted(b"RAP1\0\0\0\0\0\0\0\x04"),
        made: 4_000,
    },
    Reply {
        source: CLIENT,
        client: 0,
        id: 4,
        said: Said::Noted,
        made: 4_500,
    },
];

/// A server with three sessions, four kept replies, and so many challenges of the first client for kay.
pub(crate) fn planted<'c>(
    alloc: Global,
    config: &'c Config,
    challenges: u64,
) -> Option<Server<'c>> {
    let mut server = Server::open(alloc, config).ok()?;
    server.pass(CLOCK);
    if plant(alloc, &mut server, challenges) {
        Some(server)
    } else {
        None
    }
}

fn plant(alloc: Global, server: &mut Server, challenges: u64) -> bool {
    plant_sessions(server)
        && plant_replies(alloc, server)
        && plant_challenges(server, challenges)
        && server.restore(StateRow::LastSession(LAST_SESSION)).is_ok()
        && server
            .restore(StateRow::LastChallenge(LAST_CHALLENGE))
            .is_ok()
}

fn plant_sessions(server: &mut Server) -> bool {
    for session in SESSIONS.iter() {
        if server.restore(StateRow::Session(*session)).is_err() {
            return false;
        }
    }
    true
}

fn plant_replies(alloc: Global, server: &mut Server) -> bool {
    for reply in REPLIES.iter() {
        if !plant_reply(alloc, server, *reply) {
            return false;
        }
    }
    true
}

fn plant_reply(alloc: Global, server: &mut Server, reply: Reply) -> bool {
    match kept(alloc, reply) {
        Ok(row) => server.restore(StateRow::Reply(row)).is_ok(),
        Err(_) => false,
    }
}

fn kept(alloc: Global, reply: Reply) -> Result<Kept, AllocError> {
    let body = body_of(alloc, reply.said)?;
    let octets = Octets::of(alloc, &[1, reply.id])?;
    Ok(Kept {
        client: Some(reply.client),
        key: Key {
            source: reply.source,
            port: PORT,
            door: Door::Auth,
            id: reply.id,
        },
        octets,
        body,
        made: reply.made,
    })
}

fn body_of(alloc: Global, said: Said) -> Result<Body, AllocError> {
    match said {
        Said::Noted => Ok(Body::new(alloc, ACCOUNTING_RESPONSE)),
        Said::Accepted(class) => accept(alloc, class, None),
        Said::Granted(class, address) => accept(alloc, class, Some(address)),
    }
}

fn accept(alloc: Global, class: &[u8; 12], address: Option<&[u8; 4]>) -> Result<Body, AllocError> {
    let mut body = Body::new(alloc, ACCESS_ACCEPT);
    body.push(MESSAGE_AUTHENTICATOR, &[0; 16])?;
    if let Some(address) = address {
        body.push(FRAMED_IP_ADDRESS, address)?;
    }
    body.push(CLASS, class)?;
    Ok(body)
}

fn plant_challenges(server: &mut Server, count: u64) -> bool {
    for number in 0..count {
        let row = Challenge {
            number: number.saturating_add(1),
            draw: *DRAW,
            client: 0,
            user: 2,
            made: 4_000,
        };
        if server.restore(StateRow::Challenge(row)).is_err() {
            return false;
        }
    }
    true
}
