//! The end of a round: what the workers made, put together. Nothing here can fail.
ghost use Rattle.std.specs.Prelude.{◌≡◌, ◌≤◌, ◌<◌, ◌*◌, [], length, vec_len, All};
ghost use Rattle.std.specs.Vec.{vec_capacity};
ghost use Rattle.rad_server.specs.Runs.{IsMarkedHistory};
ghost use Rattle.rad_round.specs.Rounds.{Round, arrivals_max};
ghost use Rattle.rad_round.specs.Works.{HasFinished, HaveHandedIn, IsAnswered, IsInLog, TakesIn, put_all, put_lane, put_lanes};

use crate::done::{Done, Marked};
use crate::lanes::BATCH;
use crate::leftovers::Leftovers;
use crate::outcome::Outcome;
use crate::shared::{OpenRound, Setting};
use crate::worker::{Answered, Worker};
use rad_claim::ClaimSeat;
use rad_desk::{Opened, Unlocked};
use rad_log::{Keeper, Logged};
use rad_packet::Frame;
use rad_server::{Entry, Server};
use std::marker::Model;
use std::sync::ledger::Share;

/// What the workers hand in: their seats, their shares in one, and the outcomes of their arrivals, each at the arrival's place.
#[derive(Drop)]
pub(crate) struct HandedIn<L: Opened> {
    seats: Vec<ClaimSeat>,
    share: Share<L>,
    outcomes: Vec<Outcome>,
}

impl<L: Opened> Model for HandedIn<L> {
    ghost use Rattle.std.specs.Vec.{vec_capacity};
    ghost use Rattle.rad_round.specs.Works.{HandedIn};

    ghost Value = { HandedIn };

    ghost view = { λ handed. record {
      seats = handed.seats.items;
      parts = handed.share.parts;
      amount = handed.share.amount;
      outcomes = handed.outcomes.items;
      capacity = vec_capacity handed.seats;
    } };
}

/// The server as it is after a round, and what the round made. There is memory for the seats, and a place for each outcome.
pub(crate) fn gather<'c, L: Opened + Logged>(
    round: OpenRound<'_, '_, 'c, L>,
    workers: Vec<Worker<L>>,
    seats: Vec<ClaimSeat>,
    outcomes: Vec<Outcome>,
    leftovers: &mut Leftovers,
) -> (Server<'c>, Marked)
    requires parts { vec_len workers ≡ L.parts }
    requires count { vec_len workers ≡ round.setting.claims.seats }
    requires finished { All (HasFinished round.setting.claims round.setting.config.now.clients
        round.setting.arrivals.now) workers.items }
    requires seats { (seats.items ≡ []) × (vec_len workers ≤ vec_capacity seats) }
    requires outcomes { length outcomes.items ≡ length round.setting.arrivals.now }
    ensures round { Round L.opening round.entry.setting.arrivals.now
        result.1.done.outcomes.items result.1.done.history.items result.0 }
    ensures marked { IsMarkedHistory L.opening
        result.1.done.history.items result.1.marks.items result.0 }
{
    let OpenRound { setting, lock } = round;
    let (unlocked, mut keeper) = lock.into_inner().into_parts();
    let Unlocked {
        history,
        marks,
        server,
        mut total,
        rest,
    } = unlocked;
    let mut handed = HandedIn {
        seats,
        share: rest,
        outcomes,
    };
    hand_in(&setting, &mut keeper, workers, &mut handed, leftovers);
    let HandedIn {
        seats,
        mut share,
        outcomes,
    } = handed;
    let Ok(_batches) = setting.claims.close(seats) else {
        unreachable!()
    };
    total.audit(&mut share);
    let done = Done { outcomes, history };
    (server, Marked { done, marks })
}

// Takes what the workers hand in, and finds the takings of their batches in the log.
fn hand_in<L: Opened + Logged>(
    setting: &Setting<L>,
    keeper: &mut Keeper<Entry, L>,
    mut workers: Vec<Worker<L>>,
    handed: &mut HandedIn<L>,
    leftovers: &mut Leftovers,
)
    requires finished { All (HasFinished setting.now.claims setting.now.config.now.clients
        setting.now.arrivals.now) workers.items }
    requires none { (handed.old.seats ≡ []) × (handed.old.parts ≡ 0) × (handed.old.amount ≡ 0) }
    requires capacity { vec_len workers ≤ handed.old.capacity }
    ensures unchanged { keeper.new ≡ keeper.old }
    ensures handed { HaveHandedIn setting.now.claims setting.now.config.now.clients
        setting.now.arrivals.now keeper.old handed.old.outcomes (vec_len workers) handed.new }
{
    while let Some(worker) = workers.pop() {
        let frames = take_in(setting, keeper, worker, handed);
        leftovers.leave(frames);
    }
}

// The same of one worker. Returns the frames that no reply has taken.
fn take_in<L: Opened + Logged>(
    setting: &Setting<L>,
    keeper: &mut Keeper<Entry, L>,
    worker: Worker<L>,
    handed: &mut HandedIn<L>,
) -> Vec<Frame>
    requires finished { HasFinished setting.now.claims setting.now.config.now.clients
        setting.now.arrivals.now worker }
    requires capacity { length handed.old.seats < handed.old.capacity }
    ensures unchanged { keeper.new ≡ keeper.old }
    ensures handed { TakesIn setting.now.claims setting.now.config.now.clients
        setting.now.arrivals.now keeper.old handed.old handed.new }
{
    let Worker {
        seat,
        share,
        answered,
        frames,
    } = worker;
    let Some(seat) = seat else { unreachable!() };
    handed.seats.push_reserved(seat);
    handed.share.merge(share);
    let places = handed.outcomes.as_mut_slice();
    put_all(setting, keeper, answered, places);
    frames
}

// Puts the outcomes of batches at the places of their arrivals, and finds the takings of the batches in the log.
fn put_all<L: Opened + Logged>(
    setting: &Setting<L>,
    keeper: &mut Keeper<Entry, L>,
    mut answered: Vec<Answered<L>>,
    places: &mut [Outcome],
)
    requires { All (IsAnswered setting.now.config.now.clients setting.now.arrivals.now)
        answered.items }
    ensures unchanged { keeper.new ≡ keeper.old }
    ensures logged { All (IsInLog keeper.old) answered.items }
    ensures put { places.new ≡ put_all answered.items places.old }
{
    while let Some(batch) = answered.pop() {
        put_batch(setting, keeper, batch, places);
    }
}

// The same of one batch.
fn put_batch<L: Opened + Logged>(
    setting: &Setting<L>,
    keeper: &mut Keeper<Entry, L>,
    answered: Answered<L>,
    places: &mut [Outcome],
)
    requires { IsAnswered setting.now.config.now.clients setting.now.arrivals.now answered }
    ensures unchanged { keeper.new ≡ keeper.old }
    ensures logged { IsInLog keeper.old answered }
    ensures put { places.new ≡ put_lanes answered.outcomes (answered.number * 8) places.old }
{
    let first = answered.number * BATCH;
    let outcomes = answered.outcomes;
    put_lanes(outcomes, first, places);
    let Some(ticket) = answered.ticket else {
        return;
    };
    keeper.find(&setting.log, ticket);
}

// Puts the outcomes of a batch at the places from this one on.
fn put_lanes(outcomes: [Option<Outcome>; BATCH], first: usize, places: &mut [Outcome])
    requires { first < arrivals_max }
    ensures { places.new ≡ put_lanes outcomes first places.old }
{
    let mut lanes = outcomes.into_iter();
    let mut place = first;
    while let Some(outcome) = lanes.next() {
        put_lane(outcome, place, places);
        place += 1;
    }
}

// Puts the outcome of a lane, if it has one, at a place.
fn put_lane(outcome: Option<Outcome>, place: usize, places: &mut [Outcome])
    ensures { places.new ≡ put_lane outcome place places.old }
{
    let Some(outcome) = outcome else {
        return;
    };
    if place < places.len() {
        places[place] = outcome;
    }
}
