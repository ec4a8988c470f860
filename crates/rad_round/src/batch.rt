//! Batches: up to eight arrivals, each in a lane, that are checked, asked and sealed side by side.
ghost use Rattle.std.specs.Prelude.{◌≡◌, ◌+◌, ◌*◌, ◌<◌, length, map, replicate, slice_get, IfSome, None};
ghost use Rattle.std.specs.Option.{option_map};
ghost use Rattle.rad_auth.specs.Admission.{HoldsAdmitted};
ghost use Rattle.rad_auth.specs.Sealing.{IsJob};
ghost use Rattle.rad_server.specs.Steps.{IsSealable};
ghost use Rattle.rad_round.specs.Rounds.{arrivals_max};
ghost use Rattle.rad_round.specs.Works.{AreAskedOf, AreLanes, AreOctets, AreSealed, AreVerdicts, HasOctets, IsAskIn, IsJobIn};
ghost use Rattle.rad_round.specs.Works.{IsJobOf, IsLaneOf, IsReady, IsSealedIn, batch_count, entry_of, unasked};

use crate::lanes::BATCH;
use crate::leftovers::put_back;
use crate::outcome::Outcome;
use crate::timed::Timed;
use rad_auth::{Arrival, Clients, Discard, Job, Request, check8, seal8};
use rad_config::Config;
use rad_desk::Receipt;
use rad_packet::{Frame, Octets};
use rad_server::{Answer, Ask, Prepared};
use std::alloc::Global;
use std::marker::Model;

/// The verdict on an arrival; None in a lane without one.
pub(crate) type Verdict<'a> = Option<Result<Request<'a>, Discard>>;

/// How many batches there are.
pub(crate) fn batch_count(arrivals: &[Timed]) -> u64
    ensures { result ≡ batch_count arrivals.now }
{
    arrivals.len().div_ceil(BATCH) as u64
}

/// Checks the arrivals of the batch of this number.
pub(crate) fn check_batch<'a>(
    clients: &Clients,
    arrivals: &[Timed<'a>],
    number: usize,
) -> [Verdict<'a>; BATCH]
    requires { number * 8 < arrivals_max }
    ensures { AreVerdicts clients.now arrivals.now (number * 8) result }
{
    let first = number * BATCH;
    check8(
        clients,
        &[
            arrival_at(arrivals, first),
            arrival_at(arrivals, first + 1),
            arrival_at(arrivals, first + 2),
            arrival_at(arrivals, first + 3),
            arrival_at(arrivals, first + 4),
            arrival_at(arrivals, first + 5),
            arrival_at(arrivals, first + 6),
            arrival_at(arrivals, first + 7),
        ],
    )
}

/// The arrivals of a batch, what admission says of each, and what is made ready of the requests before the lock is taken.
#[derive(Drop)]
pub(crate) struct Batch<'r, 'a> {
    config: &'r Config,
    arrivals: &'r [Timed<'a>],
    /// Batches are counted from 0: batch b begins with arrival 8b.
    pub number: usize,
    verdicts: &'r [Verdict<'a>; BATCH],
    prepared: &'r [Option<Prepared<'r, 'a>>],
    octets: &'r [Option<Octets>],
}

impl<'r, 'a> Model for Batch<'r, 'a> {
    ghost use Rattle.rad_round.specs.Works.{CheckedBatch, IsReady};

    ghost Value = { CheckedBatch };

    ghost view = { λ batch. record {
      configuration = batch.config.now;
      arrivals = batch.arrivals.now;
      number = batch.number;
      verdicts = batch.verdicts.now;
    } };

    ghost invariant = { λ batch. IsReady batch.config.now batch.arrivals.now batch.number
        batch.verdicts.now batch.prepared.now batch.octets.now };
}

impl<'r, 'a> Batch<'r, 'a> {
    /// The batch of this number, with the verdicts on its arrivals. Its requests are prepared, and their octets are copied except
    /// where memory was refused.
    pub fn new(
        config: &'r Config,
        arrivals: &'r [Timed<'a>],
        number: usize,
        verdicts: &'r [Verdict<'a>; BATCH],
        prepared: &'r [Option<Prepared<'r, 'a>>],
        octets: &'r [Option<Octets>],
    ) -> Batch<'r, 'a>
        requires { IsReady config.now arrivals.now number verdicts.now prepared.now octets.now }
        ensures configuration { result.configuration ≡ config.now }
        ensures arrivals { result.arrivals ≡ arrivals.now }
        ensures number { result.number ≡ number }
    {
        Batch {
            config,
            arrivals,
            number,
            verdicts,
            prepared,
            octets,
        }
    }

    /// Whether there is a request in the batch.
    pub fn has_requests(&self) -> bool {
        self.prepared.iter().any(|request| request.is_some())
    }

    /// What is asked for the request in a lane, if there is one and its octets are there.
    pub fn ask(&self, lane: usize) -> Option<Ask<'r, 'a>>
        requires { lane < 8 }
        ensures { IfSome result (IsAskIn self.now lane) }
    {
        let number = self.number * BATCH + lane;
        let (requests, octets, arrivals) = (self.prepared, self.octets, self.arrivals);
        let prepared = requests[lane].as_ref()?;
        let octets = octets[lane].as_ref()?;
        let timed = arrivals.get(number)?;
        let Timed { moment, draw, .. } = timed;
        Some(Ask::new(number as u64, prepared, octets, *moment, draw))
    }

    /// Seals the replies of the batch, each into the frame of its lane.
    pub fn seal(&self, asked: &[Option<Receipt>], frames: &mut [Frame; BATCH])
        requires asked { AreAskedOf self.now asked.now }
        ensures { AreSealed self.now.configuration.clients self.now.verdicts asked.now frames.new }
    {
        let jobs = [
            self.job(asked, 0),
            self.job(asked, 1),
            self.job(asked, 2),
            self.job(asked, 3),
            self.job(asked, 4),
            self.job(asked, 5),
            self.job(asked, 6),
            self.job(asked, 7),
        ];
        seal8(&jobs, frames);
    }

    // The reply to be sealed in a lane, if there is one.
    fn job<'s>(&'s self, asked: &'s [Option<Receipt>], lane: usize) -> Option<Job<'s>>
        requires lane { lane < 8 }
        requires asked { AreAskedOf self.now asked.now }
        ensures job { IfSome result IsJob }
        ensures of_lane { IsJobIn self.now.configuration.clients self.now.verdicts
            asked.now lane result }
    {
        let verdicts = self.verdicts;
        job_of(self.config.clients(), &verdicts[lane], &asked[lane])
    }

    /// The outcomes of the batch, once its replies are sealed. Frames that no reply takes are left.
    pub fn outcomes(
        &self,
        asked: &[Option<Receipt>],
        frames: [Frame; BATCH],
        left: &mut Vec<Frame>,
    ) -> [Option<Outcome>; BATCH]
        requires asked { AreAskedOf self.now asked.now }
        requires sealed { AreSealed self.now.configuration.clients self.now.verdicts
            asked.now frames }
        ensures { AreLanes self.now.configuration.clients self.now.arrivals self.now.number
            result (map entry_of asked.now) }
    {
        let [a, b, c, d, e, f, g, h] = frames;
        [
            self.outcome(asked, 0, a, left),
            self.outcome(asked, 1, b, left),
            self.outcome(asked, 2, c, left),
            self.outcome(asked, 3, d, left),
            self.outcome(asked, 4, e, left),
            self.outcome(asked, 5, f, left),
            self.outcome(asked, 6, g, left),
            self.outcome(asked, 7, h, left),
        ]
    }

    // The outcome in a lane. Its frame is left if no reply takes it.
    fn outcome(
        &self,
        asked: &[Option<Receipt>],
        lane: usize,
        frame: Frame,
        left: &mut Vec<Frame>,
    ) -> Option<Outcome>
        requires lane { lane < 8 }
        requires asked { AreAskedOf self.now asked.now }
        requires sealed { IsSealedIn self.now.configuration.clients self.now.verdicts
            asked.now lane frame }
        ensures { IsLaneOf self.now.configuration.clients self.now.arrivals
            (self.now.number * 8 + lane) result (slice_get asked.now lane) }
    {
        let verdicts = self.verdicts;
        let Some(receipt) = &asked[lane] else {
            put_back(left, frame);
            return unasked(&verdicts[lane]);
        };
        match &receipt.entry.answer {
            Answer::Busy => {
                put_back(left, frame);
                Some(Outcome::Busy)
            }
            Answer::Send(_) => Some(Outcome::Reply(frame)),
        }
    }

    /// The outcomes where nothing of the batch was asked.
    pub fn outcomes_unasked(&self) -> [Option<Outcome>; BATCH]
        ensures { AreLanes self.now.configuration.clients self.now.arrivals self.now.number
            result (replicate 8 None) }
    {
        let [a, b, c, d, e, f, g, h] = self.verdicts;
        [
            unasked(a),
            unasked(b),
            unasked(c),
            unasked(d),
            unasked(e),
            unasked(f),
            unasked(g),
            unasked(h),
        ]
    }
}

// The outcome in a lane of which no exchange was made.
fn unasked(verdict: &Verdict) -> Option<Outcome>
    ensures { result ≡ unasked verdict.now }
{
    match verdict {
        None => None,
        Some(Err(discard)) => Some(Outcome::Dropped(*discard)),
        Some(Ok(_)) => Some(Outcome::NoMemory),
    }
}

// The arrival of this number, if there is one.
fn arrival_at<'a>(arrivals: &[Timed<'a>], number: usize) -> Option<Arrival<'a>>
    ensures { result ≡ option_map (λ timed. timed.arrival) (slice_get arrivals.now number) }
{
    let timed = arrivals.get(number)?;
    Some(timed.arrival)
}

/// The octets of the requests, up to Length. Where memory is refused there are none.
pub(crate) fn octets_in(alloc: Global, verdicts: &[Verdict; BATCH]) -> [Option<Octets>; BATCH]
    ensures octets { AreOctets verdicts.now result }
    ensures lanes { length result ≡ 8 }
{
    [
        octets_of(alloc, &verdicts[0]),
        octets_of(alloc, &verdicts[1]),
        octets_of(alloc, &verdicts[2]),
        octets_of(alloc, &verdicts[3]),
        octets_of(alloc, &verdicts[4]),
        octets_of(alloc, &verdicts[5]),
        octets_of(alloc, &verdicts[6]),
        octets_of(alloc, &verdicts[7]),
    ]
}

// The octets of a request, if it is one and there is memory.
fn octets_of(alloc: Global, verdict: &Verdict) -> Option<Octets>
    ensures { IfSome result (HasOctets verdict.now) }
{
    let Some(Ok(request)) = verdict else {
        return None;
    };
    Octets::of(alloc, request.packet.octets()).ok()
}

// The reply to a request that is to be sealed, if there is one.
fn job_of<'a>(
    clients: &'a Clients,
    verdict: &Verdict,
    asked: &'a Option<Receipt>,
) -> Option<Job<'a>>
    requires admitted { HoldsAdmitted clients.now verdict.now }
    requires sealable { IfSome asked.now (λ receipt. IsSealable receipt.entry.answer) }
    ensures job { IfSome result IsJob }
    ensures of_lane { IsJobOf clients.now verdict.now asked.now result }
{
    let Some(Ok(request)) = verdict else {
        return None;
    };
    let Some(receipt) = asked else {
        return None;
    };
    let Answer::Send(body) = &receipt.entry.answer else {
        return None;
    };
    Some(Job::of(clients, request, body))
}
