//! Kept replies beside a plain list of them.
ghost use Rattle.std.specs.Prelude.{◌≤◌};
ghost use Rattle.rad_config.specs.Spans.{moment_max};

use rad_auth::Door;
use rad_config::{Config, MOMENT_MAX};
use rad_packet::Body;
use rad_recent::{KEPT_MAX, KeepFault, Kept, Key, Recent, RowFault};
use std::alloc::Global;

/// How long replies live, in milliseconds.
const WINDOW: u64 = 30_000;

/// A kept reply of the plain list.
#[derive(Clone, Copy)]
struct Reply {
    key: Key,
    octets: &'static [u8],
    code: u8,
    made: u64,
}

/// Both have the same calls behind them.
#[derive(Drop)]
pub struct ReplyPair {
    recent: Recent,
    plain: Vec<Reply>,
    alloc: Global,
}

impl ReplyPair {
    pub fn open(alloc: Global, config: &Config) -> Option<ReplyPair> {
        let recent = Recent::open(alloc, config).ok()?;
        Some(ReplyPair {
            recent,
            plain: Vec::new(alloc),
            alloc,
        })
    }

    /// Keeps so many replies on both, each to a key of its own, sixteen a millisecond. Whether they are kept.
    pub fn fill(&mut self, count: u64) -> bool {
        let mut is_right = true;
        for place in 0..count.min(65_536) {
            let reply = Reply {
                key: key_at(place),
                octets: b"sixteen octets..",
                code: 2,
                made: place / 16,
            };
            is_right = is_right && self.fills(&reply);
        }
        is_right
    }

    fn fills(&mut self, reply: &Reply) -> bool
        requires { reply.now.made ≤ moment_max }
    {
        let Ok(octets) = reply.octets.to_vec(self.alloc) else {
            return false;
        };
        let body = Body::new(self.alloc, reply.code);
        let kept = self.recent.keep(reply.key, octets, body, reply.made);
        kept.is_ok() && self.plain.push(*reply).is_ok()
    }

    /// Makes the call that is drawn on both, for one of so many keys. Whether they answer the same.
    pub fn call(&mut self, draw: u64, keys: u64, now: u64) -> bool
        requires { now ≤ moment_max }
    {
        let reply = drawn_reply(draw, keys, now);
        match draw % 16 {
            0 => self.expire(now),
            1 | 2 => self.looks(&reply, now),
            3 => self.peeks(&reply.key, now),
            4 => self.copies(),
            5 | 6 => self.makes_room(&reply.key, now),
            _ => self.keeps(&reply, now),
        }
    }

    fn expire(&mut self, now: u64) -> bool
        requires { now ≤ moment_max }
    {
        self.recent.expire(now);
        self.plain.retain(|reply| is_live(reply, now));
        true
    }

    fn looks(&self, reply: &Reply, now: u64) -> bool
        requires { now ≤ moment_max }
    {
        let found = match self.recent.look(&reply.key, reply.octets, now) {
            Some(body) => Some(body.code()),
            None => None,
        };
        found == find(&self.plain, reply, now)
    }

    fn peeks(&self, key: &Key, now: u64) -> bool
        requires { now ≤ moment_max }
    {
        self.recent.peek(key, now) == answer(&self.plain, key, now)
    }

    // From then on the copy is the one that is called.
    fn copies(&mut self) -> bool {
        let Ok(copy) = self.recent.copy() else {
            return true;
        };
        let is_same = copy.same(&self.recent);
        self.recent = copy;
        is_same
    }

    // Without memory nothing changes.
    fn makes_room(&mut self, key: &Key, now: u64) -> bool
        requires { now ≤ moment_max }
    {
        let answer = answer(&self.plain, key, now);
        match self.recent.room(key, now) {
            Err(KeepFault::NoMemory) => answer.is_ok(),
            made => made == answer,
        }
    }

    // Without memory nothing changes.
    fn keeps(&mut self, reply: &Reply, now: u64) -> bool
        requires { now ≤ moment_max }
    {
        let Ok(octets) = reply.octets.to_vec(self.alloc) else {
            return true;
        };
        if self.plain.reserve(1).is_err() {
            return true;
        }
        let answer = answer(&self.plain, &reply.key, now);
        let body = Body::new(self.alloc, reply.code);
        match self.recent.keep(reply.key, octets, body, now) {
            Err(KeepFault::NoMemory) => answer.is_ok(),
            Err(KeepFault::Full) => answer.is_err(),
            Ok(()) => answer.is_ok() && keep(&mut self.plain, *reply, now),
        }
    }

    /// Whether both have the same replies, oldest first.
    pub fn has_same_rows(&self) -> bool {
        let mut rest = self.plain.iter();
        for kept in self.recent.rows() {
            let Some(reply) = rest.next() else {
                return false;
            };
            if !is_reply(kept, reply) {
                return false;
            }
        }
        rest.next().is_none()
    }

    /// Whether its rows, put back one after the other, make the same table.
    pub fn is_rebuilt(&self, alloc: Global, config: &Config) -> bool {
        let Ok(mut rebuilt) = Recent::open(alloc, config) else {
            return true;
        };
        for row in self.recent.rows() {
            let Ok(reply) = row.copy() else {
                return true;
            };
            match rebuilt.restore(reply, MOMENT_MAX) {
                Ok(()) => {}
                Err(fault) => return fault == RowFault::NoMemory,
            }
        }
        rebuilt.same(&self.recent)
    }
}

// A reply to one of so many keys.
fn drawn_reply(draw: u64, keys: u64, now: u64) -> Reply {
    let octets: &'static [u8] = if draw >> 32 & 1 == 0 {
        b"sixteen octets.."
    } else {
        b"other 16 octets."
    };
    Reply {
        key: key_at((draw >> 8) % keys.max(1)),
        octets,
        code: (draw >> 24 & 255) as u8,
        made: now,
    }
}

fn key_at(place: u64) -> Key {
    Key {
        source: 0xC0A8_0110,
        port: (place / 512 % 1_024) as u16,
        door: if place % 2 == 0 {
            Door::Auth
        } else {
            Door::Acct
        },
        id: (place / 2 % 256) as u8,
    }
}

fn is_live(reply: &Reply, now: u64) -> bool {
    now < reply.made.saturating_add(WINDOW)
}

fn is_reply(kept: &Kept, reply: &Reply) -> bool {
    kept.key == reply.key
        && kept.octets.octets() == reply.octets
        && kept.body.code() == reply.code
        && kept.made == reply.made
}

// The Code of the live reply to the same request.
fn find(plain: &[Reply], request: &Reply, now: u64) -> Option<u8> {
    for reply in plain {
        if is_live(reply, now) && reply.key == request.key && reply.octets == request.octets {
            return Some(reply.code);
        }
    }
    None
}

// What `keep` answers if there is memory.
fn answer(plain: &[Reply], key: &Key, now: u64) -> Result<(), KeepFault> {
    let count = plain
        .iter()
        .filter(|reply| is_live(reply, now) && reply.key != *key)
        .count();
    if KEPT_MAX <= count {
        return Err(KeepFault::Full);
    }
    Ok(())
}

// Whether there was memory.
fn keep(plain: &mut Vec<Reply>, reply: Reply, now: u64) -> bool {
    let key = reply.key;
    plain.retain(|other| is_live(other, now) && other.key != key);
    plain.push(reply).is_ok()
}
