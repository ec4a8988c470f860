//! The calls of turns that the program makes, and the generations that begin between them.
ghost use Rattle.std.specs.Prelude.{◌≡◌, ◌+◌, ◌⊎◌, IsTrue, OnErr, OnOk};
ghost use Rattle.rad_serve.specs.Calls.{HasBegun, MadeCalls};
ghost use Rattle.rad_serve.specs.Lives.{StaysOneRun};
ghost use Rattle.rad_server.specs.Servers.{Server};
ghost use Rattle.rad_shell.specs.Serving.{ended, port_faults};
ghost use Rattle.rad_state.specs.Generations.{Generation, just_begun};

use crate::options::Options;
use rad_journal::{Journal, JournalFault, kept_are_restored, kept_is_enough};
use rad_server::{Server, fresh_are_enough, lawful_steps, runs_are_lawful, time_passes_unseen};
use rad_shell::{Gate, Ports, ServeFault, Served, Service, Turns, Watch};
use rad_state::{Generations, Keeping};
use rand_core::Rng;
use std::alloc::Global;
use std::sync::Wait;
use std::thread::Threads;

/// How many turns a call makes: between two of them a generation may begin. A turn waits for at most a second.
const CALL_TURNS: u32 = 8;

/// Calls of `Turns::run_keeping` follow one another, on the same service, and between two of them a new generation begins where one
/// is due.
///
/// If the number of turns is given, the first call makes them all. Where the server was restored from what a generation keeps,
/// whatever a crash leaves is one run, and each reply that ever went is in it.
pub(crate) fn make_calls<
    R: Threads + Wait + Sync,
    P: Ports,
    J: Journal,
    K: Generations<J>,
    D: Rng,
    G: Gate + Sync,
    W: Watch + Drop,
>(
    rt: &R,
    options: &Options,
    service: &mut Service,
    turns: &mut Turns<D, G, W>,
    ports: &mut P,
    keeping: &mut Keeping<K, J>,
) -> Result<Served, ServeFault>
    ensures called { (made : MadeCalls J.keeps
        (record {
          server = service.old;
          random = D.stream turns.old.random.now;
          passed = P.passed ports.old;
        })
        (ended result)
        (record {
          server = service.new;
          random = D.stream turns.new.random.now;
          passed = P.passed ports.new;
        })) × (IsTrue J.keeps → K.is_clean keeping.new.generations → J.is_clean keeping.new.journal
        → J.is_open keeping.old.journal → (base : Server)
        → K.has_base keeping.old.generations keeping.old.journal base
        → service.old.configuration ≡ base.configuration
        → StaysOneRun base (J.kept keeping.old.journal) service.old made.tally K.is_alone
        (P.passed ports.old) (P.passed ports.new)
        (K.may_leave keeping.new.generations keeping.new.journal)) }
    ensures reported { P.reported ports.new ≡ P.reported ports.old + port_faults result }
    ensures back { K.reaches_back
        → J.is_clean keeping.new.journal → J.is_clean keeping.old.journal }
{
    service.server().state_is_lawful();
    fresh_are_enough();
    runs_are_lawful();
    lawful_steps();
    kept_are_restored();
    time_passes_unseen();
    kept_is_enough();
    let rounds = options.rounds.unwrap_or(CALL_TURNS);
    let workers = options.workers.count();
    let mut served = Served::nothing();
    for _ in rt.forever() {
        let journal = &mut keeping.journal;
        let made = turns.run_keeping(rt, service, ports, journal, rounds, workers)?;
        served.add(&made);
        if options.rounds.is_some() {
            return Ok(served);
        }
        if let Err(fault) = begin_if_due(service.alloc(), keeping, service.server()) {
            return Err(ServeFault::Journal(fault));
        }
    }
    Ok(served)
}

// Begins a generation at the server, if one is due and anything is kept at all.
fn begin_if_due<J: Journal, K: Generations<J>>(
    alloc: Global,
    keeping: &mut Keeping<K, J>,
    server: &Server,
) -> Result<(), JournalFault>
    ensures clean { K.is_clean keeping.new.generations → K.is_clean keeping.old.generations }
    ensures back { K.reaches_back
        → J.is_clean keeping.new.journal → J.is_clean keeping.old.journal }
    ensures begun { OnOk result ((keeping.new ≡ keeping.old) ⊎ ((K.is_alone → ⊥)
        × (K.is_clean keeping.new.generations → J.is_clean keeping.new.journal
        → server.now.configuration ≡ K.configuration keeping.old.generations
        → HasBegun (J.kept keeping.new.journal) (J.is_open keeping.new.journal)
        (K.has_base keeping.new.generations keeping.new.journal server.now)))) }
    ensures configuration { K.configuration keeping.new.generations
        ≡ K.configuration keeping.old.generations }
    ensures same { OnErr result (keeping.new.journal ≡ keeping.old.journal) }
    ensures crash { OnErr result (K.is_clean keeping.new.generations
        → J.is_clean keeping.new.journal
        → (base : Server) → K.has_base keeping.old.generations keeping.old.journal base
        → server.now.configuration ≡ K.configuration keeping.old.generations
        → (left : Generation) → K.may_leave keeping.new.generations keeping.new.journal left
        → ((left.base ≡ base) × J.may_leave keeping.old.journal left.entries)
        ⊎ ((K.is_alone → ⊥) × (left ≡ just_begun server.now))) }
    ensures keeps { OnErr result (IsTrue J.keeps) }
{
    let Keeping {
        generations,
        journal,
    } = keeping;
    if !journal.keeps() || !generations.is_due(journal, server.clock()) {
        return Ok(());
    }
    generations.begin(alloc, journal, server)
}
