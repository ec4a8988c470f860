//! Calls that put rows back.
use crate::trial::{Called, Trial, Verdict, judge};
use rad_auth::Door;
use rad_config::Config;
use rad_packet::code::ACCOUNTING_RESPONSE;
use rad_packet::{Body, Octets};
use rad_pool::{Phase, Session, Sessions};
use rad_recent::{Challenge, Challenges, Kept, Key, Recent};
use rad_server::{RowFault, Server, StateRow};
use std::alloc::Global;
use test_common::{CAMPUS, CLIENT, DRAW};

#[derive(Clone, Copy)]
pub(crate) enum Call {
    Session,
    LastSession,
    Reply,
    Challenge,
    LastChallenge,
    ServerSession,
    ServerLastSession,
    ServerReply,
    ServerChallenge,
    ServerLastChallenge,
}

pub(crate) fn judge_call(alloc: Global, call: Call) -> Verdict {
    match Config::read(alloc, CAMPUS) {
        Ok(config) => judge_with(alloc, &config, call),
        Err(_) => Verdict::Unready,
    }
}

fn judge_with(alloc: Global, config: &Config, call: Call) -> Verdict {
    match call {
        Call::Session | Call::LastSession | Call::Reply | Call::Challenge | Call::LastChallenge =>
            judge(alloc, TablesTrial::ready(alloc, config, call)),
        _ => judge(alloc, ServerTrial::ready(alloc, config, call)),
    }
}

// The place of a user of the configuration.
fn place(config: &Config, name: &[u8]) -> u32 {
    config.user(name).unwrap_or(0)
}

fn session(config: &Config) -> Session {
    Session {
        number: 70,
        client: 0,
        source: CLIENT,
        user: place(config, b"nemo"),
        address: None,
        phase: Phase::Active,
        made: 0,
        seen: 0,
    }
}

// A request without octets and a body without attributes take no memory.
fn reply(alloc: Global) -> Kept {
    Kept {
        client: Some(0),
        key: Key {
            source: CLIENT,
            port: 1645,
            door: Door::Acct,
            id: 7,
        },
        octets: Octets::new(Vec::new(alloc)),
        body: Body::new(alloc, ACCOUNTING_RESPONSE),
        made: 0,
    }
}

fn challenge(config: &Config) -> Challenge {
    Challenge {
        number: 70,
        draw: *DRAW,
        client: 0,
        user: place(config, b"kay"),
        made: 0,
    }
}

fn called(outcome: Result<(), RowFault>) -> Called {
    match outcome {
        Ok(()) => Called::Done,
        Err(RowFault::NoMemory) => Called::Refused,
        Err(_) => Called::Failed,
    }
}

/// A row is put back into a table that has none.
#[derive(Drop)]
struct TablesTrial<'c> {
    alloc: Global,
    config: &'c Config,
    call: Call,
    sessions: Sessions,
    recent: Recent,
    challenges: Challenges,
}

impl<'c> TablesTrial<'c> {
    fn ready(alloc: Global, config: &'c Config, call: Call) -> Option<TablesTrial<'c>> {
        Some(TablesTrial {
            alloc,
            config,
            call,
            sessions: Sessions::open(alloc, config).ok()?,
            recent: Recent::open(alloc, config).ok()?,
            challenges: Challenges::open(alloc, config).ok()?,
        })
    }
}

impl<'c> Trial for TablesTrial<'c> {
    fn copy(&self) -> Option<TablesTrial<'c>> {
        Some(TablesTrial {
            alloc: self.alloc,
            config: self.config,
            call: self.call,
            sessions: self.sessions.copy().ok()?,
            recent: self.recent.copy().ok()?,
            challenges: self.challenges.copy().ok()?,
        })
    }

    fn is_like(&self, other: &TablesTrial) -> bool {
        self.sessions.same(&other.sessions)
            && self.recent.same(&other.recent)
            && self.challenges.same(&other.challenges)
    }

    fn call(&mut self) -> Called {
        called(match self.call {
            Call::Session => self.sessions.restore(self.config, session(self.config), 0),
            Call::LastSession => self.sessions.restore_last(70),
            Call::Reply => self.recent.restore(reply(self.alloc), 0),
            Call::Challenge => self.challenges.restore(challenge(self.config), 0),
            _ => self.challenges.restore_last(70),
        })
    }
}

/// A row is put back into a server that remembers nothing.
#[derive(Drop)]
struct ServerTrial<'c> {
    alloc: Global,
    call: Call,
    server: Server<'c>,
}

impl<'c> ServerTrial<'c> {
    fn ready(alloc: Global, config: &'c Config, call: Call) -> Option<ServerTrial<'c>> {
        let server = Server::open(alloc, config).ok()?;
        Some(ServerTrial {
            alloc,
            call,
            server,
        })
    }

    fn row(&self) -> StateRow {
        let config = self.server.config();
        match self.call {
            Call::ServerSession => StateRow::Session(session(config)),
            Call::ServerLastSession => StateRow::LastSession(70),
            Call::ServerReply => StateRow::Reply(reply(self.alloc)),
            Call::ServerChallenge => StateRow::Challenge(challenge(config)),
            _ => StateRow::LastChallenge(70),
        }
    }
}

impl<'c> Trial for ServerTrial<'c> {
    fn copy(&self) -> Option<ServerTrial<'c>> {
        Some(ServerTrial {
            alloc: self.alloc,
            call: self.call,
            server: self.server.copy().ok()?,
        })
    }

    fn is_like(&self, other: &ServerTrial) -> bool {
        self.server.same(&other.server)
    }

    fn call(&mut self) -> Called {
        let row = self.row();
        called(self.server.restore(row))
    }
}
