//! What the workers of a round share: the lock, what lies under it, and what lies beside it.
ghost use Rattle.std.specs.Prelude.{◌≡◌, ◌≤◌, ◌<◌, ◌+◌, ◌++◌, [], ◌∷◌, length, replicate, IfSome, None};
ghost use Rattle.rad_log.specs.Logs.{taking};
ghost use Rattle.rad_server.specs.Runs.{IsHistory, IsMarkedHistory};
ghost use Rattle.rad_round.specs.Rounds.{AreMoments, arrivals_max};
ghost use Rattle.rad_round.specs.Works.{AreAskedOf, IsAskedIn, IsLogged, batch_count, entries_in, entry_of, somes, taken};

use crate::batch::Batch;
use crate::lanes::BATCH;
use crate::timed::Timed;
use rad_claim::Claims;
use rad_config::Config;
use rad_desk::{Locked, Opened, Receipt, Unlocked};
use rad_log::{Keeper, Log, Logged, Ticket};
use rad_server::Entry;
use std::marker::{Model, PhantomData};
use std::sync::ledger::Share;
use std::sync::{Mutex, Wait};

/// What lies under the lock of a round: what lies under a desk's, and the keeper of the log of takings.
#[derive(Drop)]
pub(crate) struct Shared<'c, L: Opened + Logged> {
    locked: Locked<'c, L>,
    keeper: Keeper<Entry, L>,
}

impl<'c, L: Opened + Logged> Model for Shared<'c, L> {
    ghost use Rattle.rad_round.specs.Works.{IsLogged, Shared};

    ghost Value = { Shared };

    ghost view = { λ shared. record { history = shared.locked.history; log = shared.keeper } };

    ghost invariant = { λ shared. IsLogged shared.locked.history shared.keeper };
}

impl<'c, L: Opened + Logged> Shared<'c, L> {
    /// Before the first taking.
    pub fn new(locked: Locked<'c, L>, keeper: Keeper<Entry, L>) -> Shared<'c, L>
        requires { (locked.history ≡ []) × (keeper ≡ []) }
    {
        Shared { locked, keeper }
    }

    /// Asks the requests of a batch, one after another, and publishes their entries. The share counts them.
    ///
    /// The receipts are put into the lanes, in which there is none yet. Where memory is refused, a request isn't asked.
    pub fn take(
        &mut self,
        log: &Log<Entry>,
        share: &mut Share<L>,
        batch: &Batch,
        asked: &mut [Option<Receipt>],
    ) -> Ticket<Entry, L>
        requires log { log.now ≡ L.table }
        requires part { share.old.parts ≡ 1 }
        requires configuration { batch.now.configuration ≡ L.opening.configuration }
        requires none { asked.old ≡ replicate 8 None }
        ensures asked { AreAskedOf batch.now asked.new }
        ensures taking { result ≡ taking batch.now.number (entries_in asked.new) }
        ensures counted { share.new.amount ≡ share.old.amount + length (entries_in asked.new) }
        ensures part { share.new.parts ≡ 1 }
    {
        ask(&mut self.locked, share, batch, asked);
        self.keeper
            .publish(log, batch.number as u64, self.locked.history())
    }

    /// What lay under the lock, once it is open, and the keeper.
    pub fn into_parts(self) -> (Unlocked<'c, L>, Keeper<Entry, L>)
        ensures run { IsHistory L.opening result.0.history.items result.0.server }
        ensures marked { IsMarkedHistory L.opening result.0.history.items result.0.marks.items
            result.0.server }
        ensures total { result.0.total.total ≡ length result.0.history.items }
        ensures rest { (result.0.rest.parts ≡ 0) × (result.0.rest.amount ≡ 0) }
        ensures logged { IsLogged result.0.history.items result.1 }
    {
        let Shared { locked, keeper } = self;
        (locked.into_parts(), keeper)
    }
}

// Asks the requests of a batch, one after another.
fn ask<'c, L: Opened>(
    locked: &mut Locked<'c, L>,
    share: &mut Share<L>,
    batch: &Batch,
    asked: &mut [Option<Receipt>],
)
    requires part { share.old.parts ≡ 1 }
    requires configuration { batch.now.configuration ≡ L.opening.configuration }
    requires none { asked.old ≡ replicate 8 None }
    ensures asked { AreAskedOf batch.now asked.new }
    ensures history { locked.new.history ≡ locked.old.history ++ entries_in asked.new }
    ensures counted { share.new.amount ≡ share.old.amount + length (entries_in asked.new) }
    ensures part { share.new.parts ≡ 1 }
{
    for lane in 0..BATCH {
        asked[lane] = ask_one(locked, share, batch, lane);
    }
}

// Asks the request in a lane, if there is one and its octets are there.
fn ask_one<'c, L: Opened>(
    locked: &mut Locked<'c, L>,
    share: &mut Share<L>,
    batch: &Batch,
    lane: usize,
) -> Option<Receipt>
    requires part { share.old.parts ≡ 1 }
    requires configuration { batch.now.configuration ≡ L.opening.configuration }
    requires lane { lane < 8 }
    ensures asked { IfSome result (IsAskedIn batch.now lane) }
    ensures history { locked.new.history ≡ locked.old.history ++ somes (entry_of result ∷ []) }
    ensures counted { share.new.amount ≡ share.old.amount + length (somes (entry_of result ∷ [])) }
    ensures part { share.new.parts ≡ 1 }
{
    let ask = batch.ask(lane)?;
    locked.exchange(share, ask).ok()
}

/// What stays as it is while a round goes on.
#[derive(Drop)]
pub(crate) struct Setting<'r, 'a, L: Opened + Logged> {
    pub log: Log<Entry>,
    pub claims: Claims,
    pub config: &'r Config,
    pub arrivals: &'r [Timed<'a>],
    pub of: PhantomData<L>,
    pub ghost of_log: { log ≡ L.table },
    pub ghost of_server: { config.now ≡ L.opening.configuration },
    pub ghost batches: { claims.batches ≡ batch_count arrivals.now },
    pub ghost count: { length arrivals.now ≤ arrivals_max },
    pub ghost moments: { AreMoments arrivals.now },
}

/// A round that goes on: what its workers share.
#[derive(Drop)]
pub(crate) struct OpenRound<'r, 'a, 'c, L: Opened + Logged> {
    pub setting: Setting<'r, 'a, L>,
    pub lock: Mutex<Shared<'c, L>>,
}

impl<'r, 'a, 'c, L: Opened + Logged> OpenRound<'r, 'a, 'c, L> {
    /// Asks the requests of a batch with one taking of the lock, if it has any: to wake a thread that waits takes longer than an
    /// exchange. The share counts the entries.
    pub fn ask<R: Wait>(
        &self,
        rt: &R,
        share: &mut Share<L>,
        batch: &Batch,
        asked: &mut [Option<Receipt>],
    ) -> Option<Ticket<Entry, L>>
        requires part { share.old.parts ≡ 1 }
        requires configuration { batch.now.configuration ≡ self.now.setting.config.now }
        requires none { asked.old ≡ replicate 8 None }
        ensures asked { AreAskedOf batch.now asked.new }
        ensures taken { taken result ≡ entries_in asked.new }
        ensures numbered { IfSome result (λ taking. taking.number ≡ batch.now.number) }
        ensures counted { share.new.amount ≡ share.old.amount + length (taken result) }
        ensures part { share.new.parts ≡ 1 }
    {
        if !batch.has_requests() {
            return None;
        }
        let mut shared = self.lock.lock(rt);
        Some(shared.take(&self.setting.log, share, batch, asked))
    }
}
