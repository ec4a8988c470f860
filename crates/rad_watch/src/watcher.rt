//! The watcher: sums, and the lines of a log.

use crate::event::{Event, is_reject};
use crate::exchange::Exchange;
use crate::expiry::LastLook;
use crate::failed_port::FailedPort;
use crate::kind::{KINDS, Kind, Level};
use crate::limiter::Limiter;
use crate::line::write_line;
use crate::metrics::write_metrics;
use crate::now::Now;
use crate::sums::{Exchanged, Sums, add_one};
use crate::usage::Usage;
use rad_auth::Arrival;
use rad_config::Config;
use rad_packet::code::{ACCOUNTING_RESPONSE, STATUS_SERVER};
use rad_pool::Session;
use rad_server::Server;
use rad_shell::{Outcome, Timed, Turn};
use std::alloc::{AllocError, Global};
use std::io;
use std::io::Write;

/// How many octets of lines wait at most to be taken, but for one line.
const LINES_ROOM: usize = 1_048_576;

/// What an operator sees of turns.
///
/// It counts each turn, and keeps the lines of its log until they are taken. A text for which memory is refused is left out.
#[derive(Drop)]
pub struct Watcher {
    alloc: Global,
    level: Option<Level>,
    clients: u32,
    sums: Sums,
    limiter: Limiter,
    last_look: LastLook,
    // The lines since they were last taken.
    lines: Vec<u8>,
    // The second that lines are counted of, by the clock of moments.
    second: Option<u64>,
    // When it was opened.
    start: Now,
}

impl Watcher {
    /// A watcher that has seen nothing. Without a level there are no lines.
    pub fn open(
        alloc: Global,
        config: &Config,
        level: Option<Level>,
        start: Now,
    ) -> Result<Watcher, AllocError> {
        let clients = config.clients().len();
        Ok(Watcher {
            alloc,
            level,
            clients: clients as u32,
            sums: Sums::open(alloc, clients)?,
            limiter: Limiter::open(alloc, clients)?,
            last_look: LastLook::new(alloc),
            lines: Vec::new(alloc),
            second: None,
            start,
        })
    }

    /// Sees a turn that was made, which took so many microseconds.
    pub fn see(&mut self, turn: &Turn, micros: u64, now: Now) {
        self.begin_second(now);
        self.see_exchanges(turn, now);
        self.see_others(turn, now);
        if !turn.arrivals.is_empty() {
            self.sums.sizes.add(turn.arrivals.len() as u64);
            self.sums.times.add(micros);
        }
        self.count_failures(turn, now);
    }

    // Sees the exchanges of a turn, in the order of its history.
    fn see_exchanges(&mut self, turn: &Turn, now: Now) {
        let server = turn.service.server();
        let config = server.config();
        for (entry, is_fresh) in turn.done.history.iter().zip(turn.marks) {
            let place = entry.tag as usize;
            let seen = turn.arrivals.get(place).zip(turn.done.outcomes.get(place));
            if let Some((timed, outcome)) = seen {
                let exchange = Exchange::of(config.users(), server.sessions(), entry, *is_fresh);
                self.see_datagram(config, timed, outcome, Some(exchange), now);
            }
        }
    }

    // Sees the datagrams of a turn for which no exchange was made.
    fn see_others(&mut self, turn: &Turn, now: Now) {
        let config = turn.service.server().config();
        for (timed, outcome) in turn.arrivals.iter().zip(&turn.done.outcomes) {
            if matches!(outcome, Outcome::Dropped(_) | Outcome::NoMemory) {
                self.see_datagram(config, timed, outcome, None, now);
            }
        }
    }

    // Counts what became of a datagram, and tells it.
    fn see_datagram(
        &mut self,
        config: &Config,
        timed: &Timed,
        outcome: &Outcome,
        exchange: Option<Exchange>,
        now: Now,
    ) {
        let arrival = &timed.arrival;
        let client = config.clients().find(arrival.source);
        let exchanged = exchanged(arrival, exchange);
        self.sums
            .add_outcome(client, outcome, exchanged, now.since_1970);
        if !is_read(self.level, outcome) {
            return;
        }
        if let Some(event) = Event::told(config, arrival, outcome, exchange) {
            if event.kind.is_report() {
                self.sums.add_report(&event);
            }
            self.tell(&event, now);
        }
    }

    /// Sees a turn that was lost, with so many datagrams.
    pub fn lost(&mut self, datagrams: usize, now: Now) {
        self.begin_second(now);
        add_one(&mut self.sums.lost);
        self.sums.datagrams = self.sums.datagrams.saturating_add(datagrams as u64);
        self.tell_count(Kind::Lost, None, datagrams as u64, now);
    }

    /// Looks for sessions that expired since the last look.
    pub fn look(&mut self, server: &Server, now: Now) {
        if self.level != Some(Level::All) {
            return;
        }
        let config = server.config();
        let expired = self
            .last_look
            .look(server.sessions(), &config.spans(), now.moment);
        let Ok(expired) = expired else {
            return;
        };
        for session in expired.iter() {
            self.tell_expired(config, session, now);
        }
    }

    /// Ends the log: tells how many lines of the last second were left out.
    pub fn finish(&mut self, now: Now) {
        self.tell_all_left_out(now);
    }

    /// Takes the lines since the last call, if there are any.
    pub fn take_lines(&mut self) -> Option<Vec<u8>> {
        if self.lines.is_empty() {
            return None;
        }
        Some(std::mem::replace(&mut self.lines, Vec::new(self.alloc)))
    }

    /// The metrics, in Prometheus' text format, among them how many texts could not be written. None if memory is refused.
    pub fn metrics(&self, server: &Server, now: Now, unwritten: u64) -> Option<Vec<u8>> {
        let mut text = Vec::new(self.alloc);
        let usage = Usage::of(server, now.moment);
        let uptime = now.moment.saturating_sub(self.start.moment);
        let config = server.config();
        write_metrics(&mut text, &self.sums, &usage, config, uptime, unwritten).ok()?;
        Some(text)
    }

    // Tells an event, if the level has it and not too many of its kind and client were told.
    fn tell(&mut self, event: &Event, now: Now) {
        let Some(level) = self.level else {
            return;
        };
        if event.is_told_at(level) && self.limiter.tells(event.kind, event.client) {
            self.push_line(event, now);
        }
    }

    // Appends a line, unless too many octets wait already or memory is refused.
    fn push_line(&mut self, event: &Event, now: Now) {
        let len = self.lines.len();
        if len > LINES_ROOM || self.write_line(event, now).is_err() {
            self.lines.truncate(len);
            add_one(&mut self.sums.left_out);
        }
    }

    fn write_line(&mut self, event: &Event, now: Now) -> io::Result<()> {
        let time = now.text(self.alloc)?;
        write_line(&mut self.lines, time.as_bytes(), event)
    }

    fn tell_count(&mut self, kind: Kind, client: Option<u32>, count: u64, now: Now) {
        self.tell(&Event::counted(kind, client, count), now);
    }

    fn tell_expired(&mut self, config: &Config, session: &Session, now: Now) {
        self.tell(&Event::expired(config.users(), session), now);
    }

    // Counts the failures of the ports since the last turn, and tells the last one.
    fn count_failures(&mut self, turn: &Turn, now: Now) {
        let more = turn.faults.saturating_sub(self.sums.failures);
        self.sums.failures = turn.faults;
        if more == 0 {
            return;
        }
        let mut reason = Vec::new(self.alloc);
        if let Some(failed) = turn.last_failure.map(FailedPort) {
            if write!(reason, "{failed}").is_err() {
                reason.clear();
            }
        }
        let event = Event::counted(Kind::Failure, None, more);
        let reason = (!reason.is_empty()).then_some(reason.as_slice());
        self.tell(&Event { reason, ..event }, now);
    }

    // In a new second lines are counted anew, and how many were left out is told.
    fn begin_second(&mut self, now: Now) {
        let second = Some(now.moment / 1_000);
        if second == self.second || self.level.is_none() {
            return;
        }
        self.second = second;
        self.tell_all_left_out(now);
    }

    fn tell_all_left_out(&mut self, now: Now) {
        self.tell_left_out(None, now);
        for client in 0..self.clients {
            self.tell_left_out(Some(client), now);
        }
    }

    fn tell_left_out(&mut self, client: Option<u32>, now: Now) {
        for kind in KINDS.iter() {
            let count = self.limiter.begin_anew(*kind, client);
            if count > 0 {
                self.sums.left_out = self.sums.left_out.saturating_add(u64::from(count));
                self.push_line(&Event::left_out(*kind, client, count), now);
            }
        }
    }
}

// What became of a request by its exchange; one without an exchange gets no reply.
fn exchanged(arrival: &Arrival, exchange: Option<Exchange>) -> Exchanged {
    if exchange.is_some_and(|exchange| exchange.is_repeat) {
        return Exchanged::Repeat;
    }
    match arrival.octets.first() {
        Some(&STATUS_SERVER) => Exchanged::Status,
        _ => Exchanged::Fresh,
    }
}

// Whether a request is read for its line or for sums. One that was granted is read for its line alone.
fn is_read(level: Option<Level>, outcome: &Outcome) -> bool {
    match (level, outcome) {
        (_, Outcome::Reply(frame)) if is_of_accounting(frame.octets()) => true,
        (None, _) => false,
        (Some(Level::Refused), Outcome::Reply(frame)) => is_reject(frame.octets()),
        _ => true,
    }
}

// Whether a reply answers an Accounting-Request, or a Status-Server at its port.
fn is_of_accounting(reply: &[u8]) -> bool {
    reply.first() == Some(&ACCOUNTING_RESPONSE)
}
