//! Lives over a journal and ports in memory.
ghost use Rattle.std.specs.Prelude.{◌≡◌, [], List, Some, IfOk, IsTrue};
ghost use Rattle.rad_journal.specs.Stores.{IsFresh, kept_in};
ghost use Rattle.rad_journal.specs.declared.kept.Kept.{Kept};
ghost use Rattle.rad_serve.specs.Lives.{went_since};
ghost use Rattle.rad_shell.specs.Memory.{kept_passages};
ghost use Rattle.sqlite_trees.specs.Memory.{memory_view};

use super::serving::options;
use crate::tests::holds;
use rad_auth::Door;
use rad_config::Config;
use rad_journal::{JournalFault, Reopen, StoreJournal};
use rad_serve::{Lives, Options, live, nothing_is_one_run};
use rad_shell::{Datagram, Gate, MemoryPorts, OpenGate, Passed, Ports, Turns, Unwatched, Watch};
use rad_state::{Keeping, OneGeneration};
use rand_chacha::ChaCha20Rng;
use rand_core::{Rng, SeedableRng};
use sqlite_trees::memory::MemStore;
use std::alloc::{AllocError, AllocGlobal, Global};
use std::sync::Wait;
use std::test::Fail;
use std::thread::Threads;
use test_common::{CAMPUS, CLIENT, JOURNAL_TABLES, PORT, RFC_REQUEST};

/// The Codes of an Access-Accept and an Access-Reject.
const ACCEPT: u8 = 2;

const REJECT: u8 = 3;

#[test]
fn a_later_life_goes_on(rt: HostRuntime) -> Result<(), Fail> {
    let config = Config::read(rt.alloc(), CAMPUS)?;
    let right = is_right(&rt, &config);
    holds(
        &rt,
        right == Some(true),
        "a log-in, in the next life its repeat and another one, and in the last one nothing",
    );
    Ok(())
}

// Each function from here on opens one thing and lends it to the next; none if memory is refused.
fn is_right<R: Threads + Wait + Sync + AllocGlobal>(rt: &R, config: &Config) -> Option<bool> {
    let options = options(rt.alloc(), "", "", 0)?;
    is_right_with(rt, config, &options)
}

fn is_right_with<R: Threads + Wait + Sync + AllocGlobal>(
    rt: &R,
    config: &Config,
    options: &Options,
) -> Option<bool> {
    let mut ports = MemoryPorts::new(rt.alloc());
    is_right_over(rt, config, options, &mut ports)
}

fn is_right_over<R: Threads + Wait + Sync + AllocGlobal>(
    rt: &R,
    config: &Config,
    options: &Options,
    ports: &mut MemoryPorts,
) -> Option<bool> {
    let alloc = rt.alloc();
    log_in(alloc, ports, 1, 0).ok()?;
    log_in(alloc, ports, 2, 0).ok()?;
    log_in(alloc, ports, 2, 1).ok()?;
    let mut keeping = Keeping {
        generations: OneGeneration { config },
        journal: begun(alloc).ok()?,
    };
    is_right_in(rt, options, ports, &mut keeping)
}

#[tactic(auto, using(crate::proofs::LifeLemmas::leaves_nothing))]
fn is_right_in<R: Threads + Wait + Sync + AllocGlobal>(
    rt: &R,
    options: &Options,
    ports: &mut MemoryPorts,
    keeping: &mut Keeping<OneGeneration, StoreJournal<MemStore>>,
) -> Option<bool>
    requires { kept_in (memory_view keeping.old.journal.store) ≡ [] }
{
    if !is_unused(ports) {
        return None;
    }
    let mut random = ChaCha20Rng::from_seed([7; 32]);
    let mut turns = Turns::open(rt.alloc(), &mut random, &OpenGate, Unwatched).ok()?;
    live_thrice(rt, options, &mut turns, ports, keeping);
    Some(have_replies(ports))
}

// Whether there were three turns with the right replies.
fn have_replies(ports: &MemoryPorts) -> bool {
    ports.turns() == 3 && are_replies(ports)
}

// Lets nemo's log-in come in a turn, with an Identifier.
fn log_in(
    alloc: Global,
    ports: &mut MemoryPorts,
    turn: u64,
    identifier: u8,
) -> Result<(), AllocError> {
    let mut octets = RFC_REQUEST.to_vec(alloc)?;
    octets[1] = identifier;
    ports.arrive(Datagram {
        turn,
        address: CLIENT,
        port: PORT,
        door: Door::Auth,
        moment: turn,
        octets,
    })
}

// A store that was just made, with empty tables.
fn blank(alloc: Global) -> Result<MemStore, AllocError>
    ensures fresh { IfOk result (λ store. IsFresh (memory_view store)) }
    ensures empty { IfOk result (λ store. kept_in (memory_view store) ≡ []) }
{
    let store = MemStore::new(alloc, &JOURNAL_TABLES)?;
    Ok(store)
}

// Its journal, which has kept nothing.
fn begun(alloc: Global) -> Result<StoreJournal<MemStore>, JournalFault>
    ensures { IfOk result (λ journal. kept_in (memory_view journal.store) ≡ []) }
{
    let store = blank(alloc)?;
    let journal = StoreJournal::open(alloc, store)?;
    Ok(journal)
}

// Two lives, and another one. Nothing was kept or sent before.
#[tactic(auto, using(crate::proofs::LifeLemmas::one_run_of_nothing))]
fn live_thrice<
    R: Threads + Wait + Sync + AllocGlobal,
    J: Reopen,
    P: Ports,
    D: Rng,
    G: Gate + Sync,
    W: Watch + Drop,
>(
    rt: &R,
    options: &Options,
    turns: &mut Turns<D, G, W>,
    ports: &mut P,
    keeping: &mut Keeping<OneGeneration, J>,
)
    requires keeps { IsTrue J.Journal.keeps }
    requires unkept { (left : List Kept) → J.Journal.may_leave keeping.old.journal left
        → left ≡ [] }
    requires unsent { went_since (Some []) (P.passed ports.old) ≡ [] }
{
    nothing_is_one_run();
    let _clients = keeping.generations.config.clients();
    live(rt, Lives { options, count: 2 }, turns, ports, keeping);
    live(rt, Lives { options, count: 1 }, turns, ports, keeping);
}

// Whether nothing has passed ports yet, as far as they can tell. So nothing was sent.
fn is_unused(ports: &MemoryPorts) -> bool
    ensures { IsTrue result → went_since (Some []) (kept_passages ports.now.passed) ≡ [] }
{
    ports.passed().is_empty()
}

// Whether an Access-Accept was sent in the first turn, the same octets in the second, and an Access-Reject.
fn are_replies(ports: &MemoryPorts) -> bool {
    let mut sent = ports.passed().iter().filter_map(|passed| match passed {
        Passed::Out(sent) => Some(sent),
        _ => None,
    });
    let (Some(accept), Some(again), Some(reject)) = (sent.next(), sent.next(), sent.next()) else {
        return false;
    };
    accept.turn == 1
        && again.turn == 2
        && reject.turn == 2
        && begins(accept, ACCEPT, 0)
        && begins(reject, REJECT, 1)
        && again.octets == accept.octets
        && sent.next().is_none()
}

// Whether a datagram has this Code and this Identifier, and goes where the log-ins came from.
fn begins(sent: &Datagram, code: u8, identifier: u8) -> bool {
    sent.octets.starts_with(&[code, identifier])
        && sent.address == CLIENT
        && sent.port == PORT
        && sent.door == Door::Auth
}
