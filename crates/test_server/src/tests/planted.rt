//! Rows that a server can't have had are refused, and it stays as it was.
use super::campus::CAMPUS;
use super::holds;
use rad_auth::Door;
use rad_config::Config;
use rad_packet::attribute::{CLASS, FRAMED_IP_ADDRESS, MESSAGE_AUTHENTICATOR};
use rad_packet::code::{ACCESS_ACCEPT, ACCESS_REQUEST, ACCOUNTING_RESPONSE, STATUS_SERVER};
use rad_packet::{Body, Octets};
use rad_pool::{Phase, Session};
use rad_recent::{Challenge, Kept, Key};
use rad_server::{RowFault, Server, StateRow};
use std::alloc::{AllocError, Global};
use std::process::Abort;
use std::test::Fail;
use test_common::{CLIENT, PORT, STRANGER};

// The place of the user who has an answer.
const KAY: u32 = 3;

// What a kept reply says. Its request was made to the port for authentication.
#[derive(Clone, Copy)]
struct Reply {
    source: u32,
    client: Option<u32>,
    id: u8,
    request: u8,
    code: u8,
    attributes: &'static [(u8, &'static [u8])],
    made: u64,
}

// A row that is planted.
#[derive(Clone, Copy)]
enum Planted {
    Session(Session),
    LastSession(u64),
    Reply(Reply),
    Challenge(Challenge),
    LastChallenge(u64),
}

const SESSION: Session = Session {
    number: 3,
    client: 0,
    source: CLIENT,
    user: 0,
    address: Some(0x0A00_0001),
    phase: Phase::Ended,
    made: 5,
    seen: 6,
};

const ACCEPT: Reply = Reply {
    source: CLIENT,
    client: Some(0),
    id: 1,
    request: ACCESS_REQUEST,
    code: ACCESS_ACCEPT,
    attributes: &[
        (MESSAGE_AUTHENTICATOR, &[0; 16]),
        (FRAMED_IP_ADDRESS, &[10, 0, 0, 1]),
        (CLASS, b"RAP1\0\0\0\0\0\0\0\x03"),
    ],
    made: 5,
};

const CHALLENGE: Challenge = Challenge {
    number: 2,
    draw: [0; 16],
    client: 1,
    user: KAY,
    made: 10,
};

// The clock is at 10 when these are put back, one after the other.
const TAKEN: &[Planted] = &[
    Planted::Session(SESSION),
    Planted::LastSession(4),
    Planted::Reply(ACCEPT),
    Planted::Challenge(CHALLENGE),
    Planted::LastChallenge(2),
];

const REFUSED: &[(Planted, RowFault, &str)] = &[
    (
        Planted::Session(Session {
            number: 4,
            address: None,
            ..SESSION
        }),
        RowFault::Number,
        "a number that was given to one who is gone",
    ),
    (
        Planted::Session(Session {
            number: 5,
            seen: 11,
            ..SESSION
        }),
        RowFault::Moments,
        "a session that is seen after the clock",
    ),
    (
        Planted::Session(Session {
            number: 5,
            ..SESSION
        }),
        RowFault::AddressHeld,
        "an address that another session has",
    ),
    (
        Planted::LastSession(3),
        RowFault::Number,
        "a last number that is too small",
    ),
    (
        Planted::Reply(Reply {
            id: 2,
            code: ACCOUNTING_RESPONSE,
            ..ACCEPT
        }),
        RowFault::Body,
        "an Accounting-Response with a Message-Authenticator",
    ),
    (
        Planted::Reply(Reply {
            id: 2,
            attributes: &[],
            ..ACCEPT
        }),
        RowFault::Body,
        "an Access-Accept without one",
    ),
    (
        Planted::Reply(Reply {
            id: 2,
            request: STATUS_SERVER,
            ..ACCEPT
        }),
        RowFault::Request,
        "the reply to a Status-Server",
    ),
    (
        Planted::Reply(Reply {
            id: 2,
            client: Some(1),
            ..ACCEPT
        }),
        RowFault::Owner,
        "a reply that takes another client's share",
    ),
    (
        Planted::Reply(Reply {
            id: 2,
            source: STRANGER,
            ..ACCEPT
        }),
        RowFault::Owner,
        "a reply to a source without a client",
    ),
    (
        Planted::Reply(Reply {
            id: 2,
            made: 6,
            ..ACCEPT
        }),
        RowFault::Session,
        "an Access-Accept of another moment than its session",
    ),
    (
        Planted::Reply(Reply {
            id: 2,
            attributes: &[
                (MESSAGE_AUTHENTICATOR, &[0; 16]),
                (FRAMED_IP_ADDRESS, &[10, 0, 0, 2]),
                (CLASS, b"RAP1\0\0\0\0\0\0\0\x03"),
            ],
            ..ACCEPT
        }),
        RowFault::Session,
        "one of another address",
    ),
    (
        Planted::Reply(Reply {
            id: 2,
            attributes: &[
                (MESSAGE_AUTHENTICATOR, &[0; 16]),
                (FRAMED_IP_ADDRESS, &[10, 0, 0, 1]),
                (CLASS, b"RAP1\0\0\0\0\0\0\0\x04"),
            ],
            ..ACCEPT
        }),
        RowFault::Session,
        "one of a session that is gone",
    ),
    (
        Planted::Reply(ACCEPT),
        RowFault::Key,
        "a second reply to one request",
    ),
    (
        Planted::Challenge(Challenge {
            number: 3,
            client: 2,
            ..CHALLENGE
        }),
        RowFault::Client,
        "a challenge of a client that isn't there",
    ),
    (
        Planted::Challenge(Challenge {
            number: 3,
            user: 1_000,
            ..CHALLENGE
        }),
        RowFault::User,
        "a challenge of a user who isn't there",
    ),
    (
        Planted::Challenge(Challenge {
            number: 3,
            user: 0,
            ..CHALLENGE
        }),
        RowFault::Answer,
        "a challenge of a user without an answer",
    ),
    (
        Planted::Challenge(CHALLENGE),
        RowFault::Number,
        "a challenge twice",
    ),
    (
        Planted::Challenge(Challenge {
            number: 3,
            made: 11,
            ..CHALLENGE
        }),
        RowFault::Moments,
        "a challenge that was made after the clock",
    ),
    (
        Planted::LastChallenge(1),
        RowFault::Number,
        "a last number that is too small",
    ),
];

#[test]
fn rows_that_cannot_be_are_refused(rt: HostRuntime) -> Result<(), Fail> {
    let config = Config::read(rt.alloc(), CAMPUS)?;
    rows_of(&rt, rt.alloc(), &config)
}

// Puts rows back into a server of a configuration.
fn rows_of(rt: &impl Abort, alloc: Global, config: &Config) -> Result<(), Fail> {
    let mut server = Server::open(alloc, config)?;
    server.pass(10);
    each_is_taken_or_refused(rt, alloc, &mut server)
}

fn each_is_taken_or_refused(
    rt: &impl Abort,
    alloc: Global,
    server: &mut Server,
) -> Result<(), Fail> {
    for planted in TAKEN.iter() {
        let taken = server.restore(planted.row(alloc)?);
        holds(rt, taken.is_ok(), "a row that could be");
    }
    each_is_refused(rt, alloc, server)
}

// Each row is refused for its rule, and leaves the server as it was.
fn each_is_refused(rt: &impl Abort, alloc: Global, server: &mut Server) -> Result<(), Fail> {
    let before = server.copy()?;
    for (planted, fault, what) in REFUSED.iter() {
        let refused = server.restore(planted.row(alloc)?);
        holds(rt, refused == Err(*fault) && server.same(&before), what);
    }
    Ok(())
}

// A client has 1 % of the kept replies, and a user one challenge.
const LIMITED: &str = r#"
window = 30
hold = 60

[[client]]
address = "192.168.1.16"
secret = "xyzzy5461"
share = 1

[[user]]
name = "kay"
password = "pw"
challenge = "code?"
answer = "4711"
challenges = 1
"#;

const LIMITED_REPLY: Reply = Reply {
    code: ACCOUNTING_RESPONSE,
    attributes: &[],
    made: 0,
    ..ACCEPT
};

const LIMITED_CHALLENGE: Challenge = Challenge {
    client: 0,
    user: 0,
    made: 0,
    ..CHALLENGE
};

#[test]
fn no_more_rows_are_put_back_than_allowed(rt: HostRuntime) -> Result<(), Fail> {
    let config = Config::read(rt.alloc(), LIMITED)?;
    limits_of(&rt, rt.alloc(), &config)
}

// Puts rows back into a server of a configuration that limits them.
fn limits_of(rt: &impl Abort, alloc: Global, config: &Config) -> Result<(), Fail> {
    let mut server = Server::open(alloc, config)?;
    challenges_are_limited(rt, &mut server);
    replies_are_limited(rt, alloc, &mut server)
}

// As many replies are put back as the client's share allows, and no more.
fn replies_are_limited(rt: &impl Abort, alloc: Global, server: &mut Server) -> Result<(), Fail> {
    for place in 0..655 {
        let row = reply_at(alloc, place)?;
        holds(rt, server.restore(row).is_ok(), "a reply of the share");
    }
    let beyond = server.restore(reply_at(alloc, 655)?);
    holds(rt, beyond == Err(RowFault::Share), "one more reply");
    Ok(())
}

// One challenge of the user is put back, and no more.
fn challenges_are_limited(rt: &impl Abort, server: &mut Server) {
    let first = server.restore(StateRow::Challenge(LIMITED_CHALLENGE));
    holds(rt, first.is_ok(), "the user's challenge");
    let second = server.restore(StateRow::Challenge(Challenge {
        number: 3,
        ..LIMITED_CHALLENGE
    }));
    let is_refused = second == Err(RowFault::Share);
    holds(rt, is_refused, "one more challenge");
}

// A reply to a request from the port of a place.
fn reply_at(alloc: Global, place: u16) -> Result<StateRow, AllocError> {
    let mut kept = LIMITED_REPLY.kept(alloc)?;
    kept.key.port = PORT.wrapping_add(place);
    Ok(StateRow::Reply(kept))
}

impl Planted {
    fn row(&self, alloc: Global) -> Result<StateRow, AllocError> {
        Ok(match self {
            Planted::Session(session) => StateRow::Session(*session),
            Planted::LastSession(last) => StateRow::LastSession(*last),
            Planted::Reply(reply) => StateRow::Reply(reply.kept(alloc)?),
            Planted::Challenge(challenge) => StateRow::Challenge(*challenge),
            Planted::LastChallenge(last) => StateRow::LastChallenge(*last),
        })
    }
}

impl Reply {
    fn kept(&self, alloc: Global) -> Result<Kept, AllocError> {
        let mut body = Body::new(alloc, self.code);
        for (kind, value) in self.attributes.iter() {
            body.push(*kind, &value[..value.len().min(16)])?;
        }
        Ok(Kept {
            client: self.client,
            key: Key {
                source: self.source,
                port: PORT,
                door: Door::Auth,
                id: self.id,
            },
            octets: Octets::new(vec![in alloc; self.request; 1]?),
            body,
            made: self.made,
        })
    }
}
