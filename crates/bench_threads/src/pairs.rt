//! Pairs: a service, and a server that one thread has to itself, which answer the same requests.
ghost use Rattle.std.specs.Prelude.{◌≤◌, length};
ghost use Rattle.rad_shell.specs.Rounds.{AreMoments, arrivals_max};

use crate::alone::answer_alone;
use crate::datagrams::{Replies, Round, Stage, arrivals, sign_all};
use crate::lots::Lot;
use rad_config::Config;
use rad_packet::{Frame, Octets};
use rad_server::Server;
use rad_shell::{Done, OpenGate, Outcome, Service, Timed};
use std::alloc::Global;
use std::array::try_from_fn;
use std::sync::Wait;
use std::thread::Threads;
use std::time::{Clock, Instant};

const FRAMES: usize = 8;

/// Who answers.
#[derive(Clone, Copy)]
pub(crate) enum Way {
    /// One thread that has the server to itself.
    Alone,
    /// So many workers of the service.
    Workers(u64),
}

/// A server that one thread has to itself, and the frames of its replies.
#[derive(Drop)]
pub(crate) struct Alone<'c> {
    server: Server<'c>,
    frames: [Frame; FRAMES],
}

impl<'c> Alone<'c> {
    pub fn open(alloc: Global, config: &'c Config) -> Option<Alone<'c>> {
        let frames = try_from_fn(|_| Frame::new(alloc)).ok()?;
        let server = Server::open(alloc, config).ok()?;
        Some(Alone { server, frames })
    }
}

/// Both, and how many requests came to each.
#[derive(Drop)]
pub(crate) struct Pair<'p, 'c> {
    alloc: Global,
    service: &'p mut Service<'c>,
    alone: &'p mut Alone<'c>,
    service_place: u64,
    alone_place: u64,
}

impl<'p, 'c> Pair<'p, 'c> {
    pub fn new(
        alloc: Global,
        service: &'p mut Service<'c>,
        alone: &'p mut Alone<'c>,
    ) -> Pair<'p, 'c> {
        Pair {
            alloc,
            service,
            alone,
            service_place: 0,
            alone_place: 0,
        }
    }

    /// Fills the tables of both; none if memory is refused, a reply or a row is missing, or the clock fails.
    pub fn fill<R: Threads + Wait + Sync + Clock>(&mut self, rt: &R, lot: Lot) -> Option<()> {
        self.fill_by(rt, lot, Way::Alone)?;
        self.fill_by(rt, lot, Way::Workers(1))?;
        let rows = lot.size.rows();
        if has_rows(&self.alone.server, rows) && has_rows(self.service.server(), rows) {
            Some(())
        } else {
            None
        }
    }

    // Opens the sessions that are Active, and asks what is measured until all kept replies are to that.
    fn fill_by<R: Threads + Wait + Sync + Clock>(
        &mut self,
        rt: &R,
        lot: Lot,
        way: Way,
    ) -> Option<()> {
        let active = lot.active();
        let count = u64::from(lot.count).min(active).max(1);
        for round in 0..active / count {
            self.open_some(rt, lot, way, round.wrapping_mul(count), count as u16)?;
        }
        for _ in 0..lot.size.rows().div_ceil(u64::from(lot.count.max(1))) {
            self.time_one(rt, lot, way)?;
        }
        Some(())
    }

    // So many log-ins, and at the same moment the Starts of their sessions.
    fn open_some<R: Threads + Wait + Sync + Clock>(
        &mut self,
        rt: &R,
        lot: Lot,
        way: Way,
        turn: u64,
        count: u16,
    ) -> Option<()> {
        let place = self.take_places(way, count);
        let grants = Round {
            lot,
            stage: Stage::Grants,
            place,
            turn,
            count,
            moment: lot.size.moment(place),
        };
        self.answer(rt, grants, way)?;
        let starts = Round {
            stage: Stage::Starts,
            place: self.take_places(way, count),
            ..grants
        };
        self.answer(rt, starts, way)?;
        Some(())
    }

    /// Nanoseconds in which the rounds of a lot are answered; none as above.
    pub fn time<R: Threads + Wait + Sync + Clock>(
        &mut self,
        rt: &R,
        lot: Lot,
        way: Way,
    ) -> Option<u64> {
        let mut spent: u64 = 0;
        for _ in 0..lot.rounds() {
            spent = spent.saturating_add(self.time_one(rt, lot, way)?);
        }
        Some(spent)
    }

    // Nanoseconds in which the next round is answered.
    fn time_one<R: Threads + Wait + Sync + Clock>(
        &mut self,
        rt: &R,
        lot: Lot,
        way: Way,
    ) -> Option<u64> {
        let place = self.take_places(way, lot.count);
        let round = Round {
            lot,
            stage: Stage::Load,
            place,
            turn: place,
            count: lot.count,
            moment: lot.size.moment(place),
        };
        self.answer(rt, round, way)
    }

    // The place of the next request, after which so many are taken.
    fn take_places(&mut self, way: Way, count: u16) -> u64 {
        let places = match way {
            Way::Alone => &mut self.alone_place,
            Way::Workers(_) => &mut self.service_place,
        };
        let place = *places;
        *places = place.wrapping_add(u64::from(count));
        place
    }

    // Nanoseconds in which a round is answered.
    fn answer<R: Threads + Wait + Sync + Clock>(
        &mut self,
        rt: &R,
        round: Round,
        way: Way,
    ) -> Option<u64> {
        let clients = self.service.server().config().clients();
        let signed = sign_all(self.alloc, clients, round)?;
        self.answer_signed(rt, round, signed.as_slice(), way)
    }

    fn answer_signed<R: Threads + Wait + Sync + Clock>(
        &mut self,
        rt: &R,
        round: Round,
        signed: &[Octets],
        way: Way,
    ) -> Option<u64> {
        let arrivals = arrivals(self.alloc, round, signed)?;
        let arrivals = arrivals.as_slice();
        let wanted = round.replies();
        match way {
            Way::Alone => time_alone(rt, &mut *self.alone, arrivals, wanted),
            Way::Workers(workers) => {
                time_round(rt, &mut *self.service, arrivals, workers, wanted)
            }
        }
    }
}

// Whether there are so many sessions and kept replies at least.
fn has_rows(server: &Server, rows: u64) -> bool {
    let last = rows.saturating_sub(1) as usize;
    server.sessions().rows().nth(last).is_some() && server.recent().rows().nth(last).is_some()
}

fn time_alone<R: Clock>(
    rt: &R,
    alone: &mut Alone,
    arrivals: &[Timed],
    wanted: Replies,
) -> Option<u64> {
    let start = Instant::now(rt).ok()?;
    let replies = answer_alone(&mut alone.server, arrivals, &mut alone.frames);
    let spent = nanoseconds_since(rt, start)?;
    if replies == wanted { Some(spent) } else { None }
}

// Nanoseconds of a round, with the look at its replies and the reuse of its frames; none if it fails or if replies aren't as
// wanted.
fn time_round<R: Threads + Wait + Sync + Clock>(
    rt: &R,
    service: &mut Service,
    arrivals: &[Timed],
    workers: u64,
    wanted: Replies,
) -> Option<u64>
    requires count { length arrivals.now ≤ arrivals_max }
    requires moments { AreMoments arrivals.now }
{
    let start = Instant::now(rt).ok()?;
    let done = service
        .round(rt, arrivals, workers.clamp(1, 8), &OpenGate)
        .ok()?;
    let replies = count_replies(&done);
    service.reuse(done);
    let spent = nanoseconds_since(rt, start)?;
    if replies == wanted { Some(spent) } else { None }
}

fn count_replies(done: &Done) -> Replies {
    let mut replies = Replies::none();
    for outcome in done.outcomes.iter() {
        if let Outcome::Reply(frame) = outcome
            && let Some(code) = frame.octets().first()
        {
            replies.add(*code);
        }
    }
    replies
}

// None if the clock fails.
fn nanoseconds_since<R: Clock>(rt: &R, start: Instant) -> Option<u64> {
    u64::try_from(start.elapsed(rt).ok()?.as_nanos()).ok()
}
