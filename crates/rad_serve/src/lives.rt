//! Lives: a server that crashes and starts again, however often.
ghost use Rattle.std.specs.Prelude.{[], Some, IsTrue};
ghost use Rattle.rad_config.specs.Configurations.{Configuration};
ghost use Rattle.rad_config.specs.Ranges.{IsConfiguration};
ghost use Rattle.rad_serve.specs.Lives.{AreOneRun, IsOneRun, LivesAreOneRun, went_since};
ghost use Rattle.rad_state.specs.Generations.{LeavesOf, fresh_server, just_begun};

use crate::calls::make_calls;
use crate::options::Options;
use rad_journal::{Reopen, restore};
use rad_server::{Server, time_passes_unseen};
use rad_shell::{Gate, Ports, Service, Turns, Watch};
use rad_state::{Keeping, OneGeneration};
use rand_core::Rng;
use std::alloc::AllocGlobal;
use std::sync::Wait;
use std::thread::Threads;

/// Which lives are made.
#[derive(Clone, Copy)]
pub struct Lives<'a> {
    /// How many turns a life makes, if it has an end, and by how many workers.
    pub options: &'a Options,
    /// How many there are.
    pub count: u32,
}

/// Makes lives: in each it crashes, opens the journal again, restores a server from it, and makes the program's calls.
///
/// A life that fails, at whatever point, is followed by the next one. Whatever a crash leaves, at any time, is one run, and each
/// reply that ever went, over all lives, is the reply to an entry of it. This holds while no wrong answer of the disk has been
/// taken as true.
pub fn live<
    R: Threads + Wait + Sync + AllocGlobal,
    J: Reopen,
    P: Ports,
    D: Rng,
    G: Gate + Sync,
    W: Watch + Drop,
>(
    rt: &R,
    lives: Lives,
    turns: &mut Turns<D, G, W>,
    ports: &mut P,
    keeping: &mut Keeping<OneGeneration, J>,
)
    requires keeps { IsTrue J.Journal.keeps }
    requires before { J.Journal.is_clean keeping.old.journal → AreOneRun []
        (LeavesOf keeping.old.generations.config.now (J.Journal.may_leave keeping.old.journal))
        (went_since (Some []) (P.passed ports.old)) }
    ensures one_run { J.Journal.is_clean keeping.new.journal → AreOneRun []
        (LeavesOf keeping.new.generations.config.now (J.Journal.may_leave keeping.new.journal))
        (went_since (Some []) (P.passed ports.new)) }
    ensures clean { J.Journal.is_clean keeping.new.journal
        → J.Journal.is_clean keeping.old.journal }
{
    for _ in 0..lives.count {
        live_once(rt, lives.options, turns, ports, keeping);
    }
}

fn live_once<
    R: Threads + Wait + Sync + AllocGlobal,
    J: Reopen,
    P: Ports,
    D: Rng,
    G: Gate + Sync,
    W: Watch + Drop,
>(
    rt: &R,
    options: &Options,
    turns: &mut Turns<D, G, W>,
    ports: &mut P,
    keeping: &mut Keeping<OneGeneration, J>,
)
    requires keeps { IsTrue J.Journal.keeps }
    requires before { J.Journal.is_clean keeping.old.journal → AreOneRun []
        (LeavesOf keeping.old.generations.config.now (J.Journal.may_leave keeping.old.journal))
        (went_since (Some []) (P.passed ports.old)) }
    ensures one_run { J.Journal.is_clean keeping.new.journal → AreOneRun []
        (LeavesOf keeping.new.generations.config.now (J.Journal.may_leave keeping.new.journal))
        (went_since (Some []) (P.passed ports.new)) }
    ensures clean { J.Journal.is_clean keeping.new.journal
        → J.Journal.is_clean keeping.old.journal }
{
    if keeping.journal.crash_and_reopen(rt.alloc()).is_err() {
        return;
    }
    let Ok(mut server) = Server::open(rt.alloc(), keeping.generations.config) else {
        return;
    };
    if restore(rt.alloc(), &mut keeping.journal, &mut server).is_err() {
        return;
    }
    let mut service = Service::of(rt.alloc(), server);
    let _ended = make_calls(rt, options, &mut service, turns, ports, keeping);
}

/// Before the first life, where nothing was kept or sent yet, that is one run: so `live` can begin there.
///
/// The call costs nothing: it does nothing at run time.
#[tactic(auto, using(crate::proofs::LifeLemmas::nothing_yet))]
pub fn nothing_is_one_run()
    ensures { (configuration : Configuration) → IsConfiguration configuration
        → IsOneRun [] (just_begun (fresh_server configuration)) [] }
{}

/// A life that goes on from a generation is one run with all that came before it.
///
/// So lives follow one another, of whatever configurations. The call costs nothing: it does nothing at run time.
pub fn lives_are_one_run()
    ensures { LivesAreOneRun }
{
    time_passes_unseen();
}
