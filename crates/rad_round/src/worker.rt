//! Workers.
ghost use Rattle.std.specs.Prelude.{◌≡◌, [], ◌+◌, ◌*◌, ◌<◌, ◌≤◌, length, IfOk, Some};
ghost use Rattle.rad_round.specs.Rounds.{arrivals_max};
ghost use Rattle.rad_round.specs.Works.{Adds, HasFinished, IsAnswered, IsIdle, taken};

use crate::batch::{Batch, check_batch, octets_in};
use crate::gate::Gate;
use crate::lanes::BATCH;
use crate::leftovers::eight_frames;
use crate::outcome::Outcome;
use crate::shared::OpenRound;
use rad_claim::ClaimSeat;
use rad_desk::Opened;
use rad_log::{Logged, Ticket};
use rad_packet::Frame;
use rad_server::{Entry, prepare8};
use std::alloc::{AllocError, Global};
use std::marker::Model;
use std::sync::Wait;
use std::sync::ledger::Share;

/// A batch that a worker claimed and answered.
#[derive(Drop)]
pub(crate) struct Answered<L: Logged> {
    pub number: usize,
    /// Those of its lanes; None in a lane without an arrival.
    pub outcomes: [Option<Outcome>; BATCH],
    /// None: nothing of it was asked.
    pub ticket: Option<Ticket<Entry, L>>,
}

impl<L: Logged> Model for Answered<L> {
    ghost use Rattle.rad_round.specs.Works.{Answered};

    ghost Value = { Answered };

    ghost view = { λ answered. record {
      number = answered.number;
      outcomes = answered.outcomes;
      ticket = answered.ticket;
    } };
}

/// A worker: its seat, its share of the ledger, and the batches that it answered.
#[derive(Drop)]
pub(crate) struct Worker<L: Opened + Logged> {
    /// None while it works, since a claim takes the seat and returns it.
    pub seat: Option<ClaimSeat>,
    pub share: Share<L>,
    pub answered: Vec<Answered<L>>,
    /// Those that no reply has taken.
    pub frames: Vec<Frame>,
}

impl<L: Opened + Logged> Model for Worker<L> {
    ghost use Rattle.std.specs.Vec.{vec_capacity};
    ghost use Rattle.rad_round.specs.Works.{Worker};

    ghost Value = { Worker };

    ghost view = { λ worker. record {
      seat = worker.seat;
      parts = worker.share.parts;
      amount = worker.share.amount;
      answered = worker.answered.items;
      capacity = vec_capacity worker.answered;
    } };
}

impl<L: Opened + Logged> Worker<L> {
    /// A worker that has done nothing, with memory for so many batches.
    pub fn new(
        alloc: Global,
        seat: ClaimSeat,
        share: Share<L>,
        frames: Vec<Frame>,
        batches: usize,
    ) -> Result<Worker<L>, AllocError>
        ensures seat { IfOk result (λ worker. worker.seat ≡ Some seat) }
        ensures share { IfOk result (λ worker.
            (worker.parts ≡ share.parts) × (worker.amount ≡ share.amount)) }
        ensures none { IfOk result (λ worker. worker.answered ≡ []) }
        ensures capacity { IfOk result (λ worker. batches ≤ worker.capacity) }
    {
        Ok(Worker {
            seat: Some(seat),
            share,
            answered: Vec::with_capacity(alloc, batches)?,
            frames,
        })
    }

    /// Claims and answers one batch after another, until there are no more.
    pub fn work<R: Wait, G: Gate>(&mut self, rt: &R, round: &OpenRound<L>, gate: &G)
        requires { IsIdle round.now.setting.claims self.old }
        ensures { HasFinished round.now.setting.claims round.now.setting.config.now.clients
            round.now.setting.arrivals.now self.new }
    {
        let Some(mut seat) = self.seat.take() else {
            unreachable!()
        };
        loop {
            let (batch, next) = round.setting.claims.claim(seat);
            seat = next;
            let Some(batch) = batch else {
                break;
            };
            self.answer(rt, round, gate, batch as usize);
        }
        self.seat = Some(seat);
    }

    // Answers a batch.
    fn answer<R: Wait, G: Gate>(&mut self, rt: &R, round: &OpenRound<L>, gate: &G, number: usize)
        requires number { number * 8 < arrivals_max }
        requires part { self.old.parts ≡ 1 }
        requires capacity { length self.old.answered < self.old.capacity }
        ensures { Adds round.now.setting.config.now.clients round.now.setting.arrivals.now
            number self.old self.new }
    {
        let Worker {
            share,
            answered,
            frames,
            ..
        } = self;
        let setting = &round.setting;
        let alloc = *answered.allocator();
        let verdicts = check_batch(setting.config.clients(), setting.arrivals, number);
        let prepared = prepare8(alloc, setting.config, &verdicts);
        let octets = octets_in(alloc, &verdicts);
        let batch = Batch::new(
            setting.config,
            setting.arrivals,
            number,
            &verdicts,
            &prepared,
            &octets,
        );
        gate.pass(number as u64);
        let batch = answer_batch(rt, round, &batch, share, frames);
        answered.push_reserved(batch);
    }
}

// Asks and seals a batch that is checked. Without memory for its frames nothing of it is asked.
fn answer_batch<L: Opened + Logged, R: Wait>(
    rt: &R,
    round: &OpenRound<L>,
    batch: &Batch,
    share: &mut Share<L>,
    frames: &mut Vec<Frame>,
) -> Answered<L>
    requires configuration { batch.now.configuration ≡ round.now.setting.config.now }
    requires part { share.old.parts ≡ 1 }
    ensures number { result.number ≡ batch.now.number }
    ensures right { IsAnswered batch.now.configuration.clients batch.now.arrivals result }
    ensures counted { share.new.amount ≡ share.old.amount + length (taken result.ticket) }
    ensures part { share.new.parts ≡ 1 }
{
    let alloc = *frames.allocator();
    let number = batch.number;
    let Ok(mut lanes) = eight_frames(alloc, frames) else {
        let outcomes = batch.outcomes_unasked();
        return Answered {
            number,
            outcomes,
            ticket: None,
        };
    };
    let mut asked = [None, None, None, None, None, None, None, None];
    let ticket = round.ask(rt, share, batch, &mut asked);
    batch.seal(&asked, &mut lanes);
    let outcomes = batch.outcomes(&asked, lanes, frames);
    Answered {
        number,
        outcomes,
        ticket,
    }
}
