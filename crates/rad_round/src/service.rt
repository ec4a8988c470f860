//! The service: a server that answers rounds of datagrams.
ghost use Rattle.std.specs.Prelude.{◌≡◌, ◌≢◌, ◌≤◌, length, Err, IfErr, IfOk, OnErr};
ghost use Rattle.rad_desk.specs.declared.mismatch.Mismatch.{Mismatch};
ghost use Rattle.rad_server.specs.Repeats.{Repeat};
ghost use Rattle.rad_server.specs.Runs.{IsLawfulThroughout, IsMarkedHistory};
ghost use Rattle.rad_config.specs.Spans.{moment_max};
ghost use Rattle.rad_server.specs.States.{at_moment, opening};
ghost use Rattle.rad_round.specs.Rounds.{AreMoments, Round, arrivals_max, workers_max};
ghost use Rattle.rad_round.specs.declared.round_fault.RoundFault.{RoundFault};

use crate::batch::batch_count;
use crate::done::{Done, Marked};
use crate::gate::Gate;
use crate::leftovers::Leftovers;
use crate::memory::Memory;
use crate::round::run_round;
use crate::round_fault::RoundFault;
use crate::timed::Timed;
use rad_config::Config;
use rad_server::{HashKey, Server, runs_are_lawful, runs_repeat};
use std::alloc::{AllocError, Global};
use std::marker::Model;
use std::sync::Wait;
use std::thread::Threads;

/// The most datagrams of a round.
pub const ARRIVALS_MAX: usize = 512;

/// The most workers of a round.
pub const WORKERS_MAX: u64 = 8;

/// A server that answers rounds of datagrams. Contracts see that server.
#[derive(Drop)]
pub struct Service<'c> {
    alloc: Global,
    // None while a round has it.
    server: Option<Server<'c>>,
    leftovers: Leftovers,
}

impl<'c> Model for Service<'c> {
    ghost use Rattle.std.specs.Prelude.{IsSome};
    ghost use Rattle.rad_server.specs.Servers.{Server};
    ghost use Rattle.rad_round.specs.Services.{server_of};

    ghost Value = { Server };

    ghost view = { λ service. server_of service.server };

    ghost invariant = { λ service. IsSome service.server };
}

impl<'c> Service<'c> {
    /// A service whose server remembers nothing yet.
    pub fn open(alloc: Global, config: &'c Config) -> Result<Service<'c>, AllocError>
        ensures configuration { IfOk result (λ service. service.configuration ≡ config.now) }
        ensures state { IfOk result (λ service. service.state ≡ opening config.now) }
    {
        Service::open_keyed(alloc, config, HashKey::KNOWN)
    }

    /// The same service, with a key for the hashes of its server's tables, which those who send requests shouldn't know. Contracts
    /// don't see it.
    pub fn open_keyed(
        alloc: Global,
        config: &'c Config,
        key: HashKey,
    ) -> Result<Service<'c>, AllocError>
        ensures configuration { IfOk result (λ service. service.configuration ≡ config.now) }
        ensures state { IfOk result (λ service. service.state ≡ opening config.now) }
    {
        let server = Server::open_keyed(alloc, config, key)?;
        Ok(Service::of(alloc, server))
    }

    /// A service whose server is this one.
    pub fn of(alloc: Global, server: Server<'c>) -> Service<'c>
        ensures { result ≡ server.entry }
    {
        Service {
            alloc,
            server: Some(server),
            leftovers: Leftovers::new(alloc),
        }
    }

    /// The server as it was opened, or as the last round that returned Ok left it; or later, if time has passed since.
    pub fn server(&self) -> &Server<'c>
        ensures { result.now ≡ self.now }
    {
        let Some(server) = &self.server else {
            unreachable!()
        };
        server
    }

    /// Where its memory comes from.
    pub fn alloc(&self) -> Global {
        self.alloc
    }

    /// Answers the datagrams of a round, at most `ARRIVALS_MAX`, by at most so many workers, from 1 to `WORKERS_MAX`.
    ///
    /// Batch b has the datagrams 8b to 8b + 7, as far as there are any. The workers claim them, each the next one whenever it is
    /// done. The caller's thread is one of the workers, and no more workers start than there are batches. The tag of an entry is
    /// the number of its datagram. A round fails only if memory is refused before its first exchange, and then the server is as it
    /// was. The call may wait for other threads.
    pub fn round<R: Threads + Wait + Sync, G: Gate + Sync>(
        &mut self,
        rt: &R,
        arrivals: &[Timed],
        workers: u64,
        gate: &G,
    ) -> Result<Done, RoundFault>
        requires workers { (1 ≤ workers) × (workers ≤ workers_max) }
        requires count { length arrivals.now ≤ arrivals_max }
        requires moments { AreMoments arrivals.now }
        ensures round { IfOk result (λ done.
            Round self.old arrivals.now done.outcomes.items done.history.items self.new) }
        ensures repeat { IfOk result (λ done.
            Repeat self.old.configuration self.old.state done.history.items) }
        ensures lawful { IfOk result (λ done.
            IsLawfulThroughout self.old.configuration self.old.state done.history.items) }
        ensures unchanged { OnErr result (self.new ≡ self.old) }
        ensures opening { result ≢ Err (RoundFault.Mismatch Mismatch.Opening) }
        ensures count { result ≢ Err (RoundFault.Mismatch Mismatch.Count) }
        ensures thread { result ≢ Err RoundFault.NoThread }
        ensures fault { IfErr result (λ fault. fault ≡ RoundFault.NoMemory) }
    {
        self.server().state_is_lawful();
        runs_repeat();
        runs_are_lawful();
        let marked = self.round_marked(rt, arrivals, workers, gate)?;
        Ok(marked.done)
    }

    /// The same round, and which requests of its history were fresh: got a new reply, which is kept.
    ///
    /// The others leave the server as time would (`rad_server::fresh_are_enough`).
    pub fn round_marked<R: Threads + Wait + Sync, G: Gate + Sync>(
        &mut self,
        rt: &R,
        arrivals: &[Timed],
        workers: u64,
        gate: &G,
    ) -> Result<Marked, RoundFault>
        requires workers { (1 ≤ workers) × (workers ≤ workers_max) }
        requires count { length arrivals.now ≤ arrivals_max }
        requires moments { AreMoments arrivals.now }
        ensures round { IfOk result (λ made. Round self.old arrivals.now
            made.done.outcomes.items made.done.history.items self.new) }
        ensures marked { IfOk result (λ made. IsMarkedHistory self.old
            made.done.history.items made.marks.items self.new) }
        ensures unchanged { OnErr result (self.new ≡ self.old) }
        ensures fault { IfErr result (λ fault. fault ≡ RoundFault.NoMemory) }
    {
        let workers = workers.min(batch_count(arrivals).max(1));
        let Service {
            alloc,
            server: current,
            leftovers,
        } = self;
        let memory = Memory::new(*alloc, arrivals, workers, leftovers)?;
        let Some(server) = current.take() else {
            unreachable!()
        };
        match run_round(rt, server, memory, arrivals, gate, leftovers) {
            Ok((server, marked)) => {
                *current = Some(server);
                Ok(marked)
            }
            Err(server) => {
                *current = Some(server);
                Err(RoundFault::NoMemory)
            }
        }
    }

    /// Lets time pass for the server up to a moment that is no datagram's: what is no longer live is removed. It takes no memory.
    ///
    /// The moment is in milliseconds, at most `MOMENT_MAX`. No later round can tell (`rad_server::time_passes_unseen`).
    pub fn pass(&mut self, moment: u64)
        requires { moment ≤ moment_max }
        ensures configuration { self.new.configuration ≡ self.old.configuration }
        ensures state { self.new.state ≡ at_moment moment self.old.state }
    {
        let Some(server) = &mut self.server else {
            unreachable!()
        };
        server.pass(moment);
    }

    /// Takes back what a round made, once its replies are sent. Its frames and lists serve later rounds.
    pub fn reuse(&mut self, done: Done)
        ensures { self.new ≡ self.old }
    {
        self.leftovers.give_back(done);
    }
}
