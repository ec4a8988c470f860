//! Sessions beside a plain list of them.
ghost use Rattle.std.specs.Prelude.{◌≤◌};
ghost use Rattle.rad_config.specs.Spans.{moment_max};

use super::plain::Plain;
use rad_config::Config;
use rad_pool::{Refusal, Sessions};
use rad_rows::HashKey;
use std::alloc::Global;

/// Where sessions come from: two neighbours, two further off, and the first and the last address. No session comes from the last
/// two.
const SOURCES: [u32; 8] = [
    0xC0A8_0110,
    0xC0A8_110D,
    0xC0A8_210A,
    0xC0A8_0111,
    0,
    u32::MAX,
    0xC0A8_3107,
    0xC0A8_0112,
];

/// The key of the hash of the sources.
const KEY: HashKey = HashKey {
    low: 0x0706_0504_0302_0100,
    high: 0x0F0E_0D0C_0B0A_0908,
};

/// Both have the same calls behind them.
#[derive(Drop)]
pub struct Pair {
    sessions: Sessions,
    plain: Plain,
}

impl Pair {
    pub fn open(alloc: Global, config: &Config) -> Option<Pair> {
        let sessions = Sessions::open_keyed(alloc, config, KEY).ok()?;
        Some(Pair {
            sessions,
            plain: Plain::open(alloc, config.spans()),
        })
    }

    /// Makes the call that is drawn on both. Whether they answer the same and have the same sessions then.
    pub fn call(&mut self, config: &Config, draw: u64, now: u64) -> bool
        requires { now ≤ moment_max }
    {
        let client = (draw >> 8 & 1) as u32;
        let user = (draw >> 9 & 7) as u32 % config.users().len().max(1) as u32;
        let source = draw >> 12 & 7;
        let answers = match draw % 64 {
            0..=3 => self.expire(now),
            4..=9 => self.peeks(config, user, now),
            10..=14 => self.starts(draw >> 16, now),
            15..=19 => self.renews(draw >> 16, now),
            20..=26 => self.stops(draw >> 16),
            27 => self.ends_source(source),
            28..=30 => self.finds_by_number(client, draw >> 16),
            31..=37 => self.finds_by_address(client, user, draw >> 16),
            38..=40 => self.copies(),
            41..=43 => self.makes_room(),
            _ => self.grants(config, client, source, user, now),
        };
        answers && self.plain.is(&self.sessions)
    }

    fn expire(&mut self, now: u64) -> bool
        requires { now ≤ moment_max }
    {
        self.sessions.expire(now);
        self.plain.expire(now);
        true
    }

    fn peeks(&self, config: &Config, user: u32, now: u64) -> bool
        requires { now ≤ moment_max }
    {
        if config.users().len() <= user as usize {
            return false;
        }
        Some(self.sessions.peek(config, 0, user, now)) == self.plain.answer(config, user, now)
    }

    // Without memory nothing changes.
    fn grants(&mut self, config: &Config, client: u32, source: u64, user: u32, now: u64) -> bool
        requires { now ≤ moment_max }
    {
        if config.users().len() <= user as usize {
            return false;
        }
        let Some(answer) = self.plain.answer(config, user, now) else {
            return false;
        };
        if self.plain.rows.reserve(1).is_err() {
            return true;
        }
        let source = SOURCES[(source % 6) as usize];
        let granted = self.sessions.grant(config, client, source, user, now);
        if granted == Err(Refusal::NoMemory) {
            return answer.is_ok();
        }
        self.plain.expire(now);
        match answer {
            Ok(grant) => granted == answer && self.plain.put(grant, client, source, user, now),
            Err(_) => granted == answer,
        }
    }

    // The number of some session, or one that a session had.
    fn number(&self, draw: u64) -> u64 {
        let place = (draw % 512) as usize % (self.plain.rows.len().min(512) + 2);
        match self.plain.rows.get(place) {
            Some(row) => row.number,
            None => self.plain.last.saturating_sub(draw >> 9 & 63),
        }
    }

    // The address of some session, or one that a session had.
    fn address(&self, draw: u64) -> Option<u32> {
        let place = (draw % 512) as usize % (self.plain.rows.len().min(512) + 2);
        match self.plain.rows.get(place) {
            Some(row) => row.address,
            None => Some(0x0A00_0001 + (draw >> 9 & 511) as u32),
        }
    }

    fn starts(&mut self, draw: u64, now: u64) -> bool {
        let number = self.number(draw);
        self.sessions.start(number, now);
        self.plain.renew(number, now);
        true
    }

    fn renews(&mut self, draw: u64, now: u64) -> bool {
        let number = self.number(draw);
        self.sessions.renew(number, now);
        self.plain.renew(number, now);
        true
    }

    fn stops(&mut self, draw: u64) -> bool {
        let number = self.number(draw);
        self.sessions.stop(number);
        self.plain.stop(number);
        true
    }

    fn ends_source(&mut self, source: u64) -> bool {
        let source = SOURCES[(source % 8) as usize];
        self.sessions.end_source(source);
        self.plain.end_source(source);
        true
    }

    fn finds_by_number(&self, client: u32, draw: u64) -> bool {
        let number = Some(self.number(draw));
        self.sessions.find(client, number, None, None)
            == self.plain.find(client, number, None, None)
    }

    fn finds_by_address(&self, client: u32, user: u32, draw: u64) -> bool {
        let address = self.address(draw);
        let name = match draw >> 20 & 3 {
            0 => None,
            1 => Some(None),
            _ => Some(Some(user)),
        };
        self.sessions.find(client, None, address, name)
            == self.plain.find(client, None, address, name)
    }

    // From then on the copy is the one that is called.
    fn copies(&mut self) -> bool {
        let Ok(copy) = self.sessions.copy() else {
            return true;
        };
        let is_same = copy.same(&self.sessions);
        self.sessions = copy;
        is_same
    }

    // Without memory nothing changes.
    fn makes_room(&mut self) -> bool {
        self.sessions.room().is_ok() || self.plain.is(&self.sessions)
    }
}
