//! Sessions as a plain list: each question walks over all of it.

use rad_config::{Config, Pool, Spans};
use rad_pool::{Grant, Phase, Refusal, SESSIONS_MAX, Session, Sessions};
use std::alloc::Global;

/// The sessions, oldest first.
#[derive(Drop)]
pub struct Plain {
    pub rows: Vec<Session>,
    /// The last number that was given, or 0.
    pub last: u64,
    spans: Spans,
}

impl Plain {
    pub fn open(alloc: Global, spans: Spans) -> Plain {
        Plain {
            rows: Vec::new(alloc),
            last: 0,
            spans,
        }
    }

    pub fn expire(&mut self, now: u64) {
        let spans = self.spans;
        self.rows.retain(|row| is_live(row, spans, now));
    }

    /// What a user is granted if there is memory, or None if there is no such user.
    pub fn answer(&self, config: &Config, user: u32, now: u64) -> Option<Result<Grant, Refusal>> {
        let asking = config.users().get(user as usize)?;
        if asking.sessions as usize <= self.count_open(user, now) {
            return Some(Err(Refusal::SessionLimit));
        }
        let address = match asking.pool {
            None => None,
            Some(place) => {
                let pool = config.pools().get(place as usize)?;
                match self.least_free(pool, now) {
                    None => return Some(Err(Refusal::NoAddress)),
                    free => free,
                }
            }
        };
        if SESSIONS_MAX <= self.count_live(now) || self.last == u64::MAX {
            return Some(Err(Refusal::Full));
        }
        Some(Ok(Grant {
            number: self.last + 1,
            address,
        }))
    }

    /// Puts the session that is granted last. Whether there was memory.
    pub fn put(&mut self, grant: Grant, client: u32, source: u32, user: u32, now: u64) -> bool {
        self.last = grant.number;
        let session = Session {
            number: grant.number,
            client,
            source,
            user,
            address: grant.address,
            phase: Phase::Pending,
            made: now,
            seen: now,
        };
        self.rows.push(session).is_ok()
    }

    /// A Start or an Interim-Update.
    pub fn renew(&mut self, number: u64, now: u64) {
        for row in self.rows.iter_mut() {
            if row.number == number && row.phase != Phase::Ended {
                row.phase = Phase::Active;
                row.seen = now;
            }
        }
    }

    pub fn stop(&mut self, number: u64) {
        for row in self.rows.iter_mut() {
            if row.number == number {
                row.phase = Phase::Ended;
            }
        }
    }

    pub fn end_source(&mut self, source: u32) {
        for row in self.rows.iter_mut() {
            if row.source == source {
                row.phase = Phase::Ended;
            }
        }
    }

    pub fn find(
        &self,
        client: u32,
        number: Option<u64>,
        address: Option<u32>,
        name: Option<Option<u32>>,
    ) -> Option<u64> {
        for row in &self.rows {
            if row.client == client && is_meant(row, number, address, name) {
                return Some(row.number);
            }
        }
        None
    }

    /// Whether these are the sessions of the table.
    pub fn is(&self, sessions: &Sessions) -> bool {
        let mut rest = self.rows.iter();
        for session in sessions.rows() {
            if rest.next() != Some(&session) {
                return false;
            }
        }
        rest.next().is_none()
    }

    fn count_live(&self, now: u64) -> usize {
        self.rows
            .iter()
            .filter(|row| is_live(row, self.spans, now))
            .count()
    }

    fn count_open(&self, user: u32, now: u64) -> usize {
        self.rows
            .iter()
            .filter(|row| {
                is_live(row, self.spans, now) && row.user == user && row.phase != Phase::Ended
            })
            .count()
    }

    fn least_free(&self, pool: &Pool, now: u64) -> Option<u32> {
        for step in 0..65_536 {
            let address = pool.first.saturating_add(step);
            if pool.last < address {
                return None;
            }
            if !self.is_held(address, now) {
                return Some(address);
            }
        }
        None
    }

    fn is_held(&self, address: u32, now: u64) -> bool {
        self.rows.iter().any(|row| row.address == Some(address) && is_live(row, self.spans, now))
    }
}

fn is_live(session: &Session, spans: Spans, now: u64) -> bool {
    match session.phase {
        Phase::Pending => now < session.made.saturating_add(spans.hold),
        Phase::Active => match spans.stale {
            Some(stale) => now < session.seen.saturating_add(stale),
            None => true,
        },
        Phase::Ended => now < session.made.saturating_add(spans.window),
    }
}

// Whether a session of the client is meant.
fn is_meant(
    session: &Session,
    number: Option<u64>,
    address: Option<u32>,
    name: Option<Option<u32>>,
) -> bool {
    if number.is_some() {
        return number == Some(session.number);
    }
    address.is_some()
        && address == session.address
        && session.phase != Phase::Ended
        && (name.is_none() || name == Some(Some(session.user)))
}
