//! A round: its workers, each on a thread, over one lock.
ghost use Rattle.std.specs.Prelude.{◌≡◌, ◌<◌, ◌≤◌, length, vec_len, All, IfErr, IfOk, OnOk};
ghost use Rattle.rad_claim.specs.Claims.{IsNewSeatOf};
ghost use Rattle.rad_server.specs.Runs.{IsMarkedHistory};
ghost use Rattle.rad_round.specs.Rounds.{AreMoments, Round, arrivals_max};
ghost use Rattle.rad_round.specs.Works.{HasFinished, IsIdle, IsMemoryFor};

use crate::batch::batch_count;
use crate::done::Marked;
use crate::gate::Gate;
use crate::gather::gather;
use crate::leftovers::Leftovers;
use crate::memory::Memory;
use crate::shared::{OpenRound, Setting, Shared};
use crate::timed::Timed;
use crate::worker::Worker;
use rad_claim::ClaimSeat;
use rad_desk::{Locked, Opened};
use rad_log::Logged;
use rad_server::Server;
use std::alloc::{AllocError, Global};
use std::marker::{Brand, PhantomData};
use std::sync::ledger::Share;
use std::sync::{Mutex, Wait};
use std::thread::{Threads, for_each_mut};

/// A round on a server that is moved in. It comes back as it is afterwards, or as it was if memory for the workers is refused,
/// before the first exchange.
pub(crate) fn run_round<'c, R: Threads + Wait + Sync, G: Gate + Sync>(
    rt: &R,
    server: Server<'c>,
    memory: Memory,
    arrivals: &[Timed],
    gate: &G,
    leftovers: &mut Leftovers,
) -> Result<(Server<'c>, Marked), Server<'c>>
    requires memory { IsMemoryFor arrivals.now memory.claims.seats memory }
    requires count { length arrivals.now ≤ arrivals_max }
    requires moments { AreMoments arrivals.now }
    ensures round { IfOk result (λ made. Round server.entry arrivals.now
        made.1.done.outcomes.items made.1.done.history.items made.0) }
    ensures marked { IfOk result (λ made. IsMarkedHistory server.entry
        made.1.done.history.items made.1.marks.items made.0) }
    ensures unchanged { IfErr result (λ left. left ≡ server.entry) }
{
    run_in::<Brand, R, G>(rt, server, memory, arrivals, gate, leftovers)
}

// The same, where `L` stands for the round's own ledger and log: `run_round` gives it a brand that no other round has.
fn run_in<'c, L: Opened + Logged + Send + Sync, R: Threads + Wait + Sync, G: Gate + Sync>(
    rt: &R,
    server: Server<'c>,
    memory: Memory,
    arrivals: &[Timed],
    gate: &G,
    leftovers: &mut Leftovers,
) -> Result<(Server<'c>, Marked), Server<'c>>
    requires memory { IsMemoryFor arrivals.now L.parts memory }
    requires blank { (memory.blank.name ≡ L.name) × (memory.blank.parts ≡ L.parts) }
    requires log { memory.log ≡ L.table }
    requires opening { server ≡ L.opening }
    requires count { length arrivals.now ≤ arrivals_max }
    requires moments { AreMoments arrivals.now }
    ensures round { IfOk result (λ made. Round L.opening arrivals.now
        made.1.done.outcomes.items made.1.done.history.items made.0) }
    ensures marked { IfOk result (λ made. IsMarkedHistory L.opening
        made.1.done.history.items made.1.marks.items made.0) }
    ensures unchanged { IfErr result (λ left. left ≡ L.opening) }
{
    let Memory {
        alloc,
        blank,
        log,
        first,
        claims,
        seats,
        returned,
        history,
        marks,
        outcomes,
    } = memory;
    let (total, mut rest) = blank.open::<L>();
    let setting = Setting {
        log,
        claims,
        config: server.config(),
        arrivals,
        of: PhantomData,
    };
    let Ok(mut workers) = begin(alloc, &setting, seats, &mut rest, leftovers) else {
        return Err(server);
    };
    let locked = Locked::new(server, history, marks, total, rest);
    let lock = Mutex::new(Shared::new(locked, first.keeper()));
    let round = OpenRound { setting, lock };
    work_all(rt, &round, workers.as_mut_slice(), gate);
    Ok(gather(round, workers, returned, outcomes, leftovers))
}

// A worker for each seat, with memory for all batches.
fn begin<L: Opened + Logged>(
    alloc: Global,
    setting: &Setting<L>,
    mut seats: Vec<ClaimSeat>,
    rest: &mut Share<L>,
    leftovers: &mut Leftovers,
) -> Result<Vec<Worker<L>>, AllocError>
    requires seats { All (IsNewSeatOf setting.now.claims) seats.items }
    requires rest { (rest.old.parts ≡ vec_len seats) × (rest.old.amount ≡ 0) }
    ensures count { IfOk result (λ workers. vec_len workers ≡ vec_len seats) }
    ensures idle { IfOk result (λ workers. All (IsIdle setting.now.claims) workers.items) }
    ensures rest { OnOk result ((rest.new.parts ≡ 0) × (rest.new.amount ≡ 0)) }
{
    let batches = batch_count(setting.arrivals) as usize;
    let mut workers = Vec::with_capacity(alloc, seats.len())?;
    while let Some(seat) = seats.pop() {
        let share = rest.split_off(1, 0);
        let worker = Worker::new(alloc, seat, share, leftovers.take(), batches)?;
        workers.push(worker)?;
    }
    Ok(workers)
}

// Lets the workers work, each on a thread, one of them on this one.
fn work_all<'c, L: Opened + Logged + Send + Sync, R: Threads + Wait + Sync, G: Gate + Sync>(
    rt: &R,
    round: &OpenRound<'_, '_, 'c, L>,
    workers: &mut [Worker<L>],
    gate: &G,
)
    requires workers { 0 < length workers.old }
    requires idle { All (IsIdle round.now.setting.claims) workers.old }
    ensures { All (HasFinished round.now.setting.claims round.now.setting.config.now.clients
        round.now.setting.arrivals.now) workers.new }
{
    let count = workers.len();
    for_each_mut(
        rt,
        workers,
        count,
        &|_number: usize, worker: &mut Worker<L>|
            requires { IsIdle round.now.setting.claims worker.now }
            ensures { HasFinished round.entry.now.setting.claims
                round.entry.now.setting.config.now.clients
                round.entry.now.setting.arrivals.now worker.exit.now }
        { worker.work(rt, round, gate) },
    );
}
