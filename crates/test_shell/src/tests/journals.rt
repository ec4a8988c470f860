//! Turns over journals.
ghost use Rattle.std.specs.Prelude.{◌≡◌, [], refl, true};
ghost use Rattle.std.proofs.Common.{ap};
ghost use Rattle.rad_journal.specs.Records.{records_of};

use super::coming::{arrive, is_sum, random, sent_count};
use super::watching::UNSEEN;
use rad_journal::Kept;
use rad_shell::{Journal, JournalFault, MemoryPorts, OpenGate, ServeFault, Service, Turns, Watch};
use rand_core::Rng;
use std::alloc::Global;
use std::sync::Wait;
use std::thread::Threads;
use test_common::{CLIENT, RFC_REQUEST};

/// A journal with memory for so many entries, which forgets them. Nothing is claimed of what it keeps.
#[derive(Drop)]
struct Counting {
    left: usize,
}

impl Journal for Counting {
    ghost keeps = { true };

    ghost kept = { λ _. [] };

    ghost may_leave = { λ _ left. left ≡ [] };

    ghost leaves_beside = { λ _ _. Unit {0} };

    ghost may_record = { λ _ left rows. rows ≡ (λ register. records_of register left) };

    ghost is_clean = { λ _. ⊥ };

    ghost is_open = { λ _. ⊥ };

    ghost has_failed = { λ _ _. Unit {0} };

    ghost records = { λ _ left _. ((λ register. records_of register left), refl) };

    ghost recorded = { λ _ _ left rows is register. ap (λ r. r register) is };

    ghost settled = { λ _ _ left is. is };

    ghost stays = { λ _ _ _. refl };

    fn keeps(&self) -> bool {
        true
    }

    fn commit(&mut self, entries: &[Kept]) -> Result<(), JournalFault> {
        match self.left.checked_sub(entries.len()) {
            Some(left) => {
                self.left = left;
                Ok(())
            }
            None => Err(JournalFault::Full),
        }
    }

    fn entry(&mut self, _alloc: Global, _place: u32) -> Result<Option<Kept>, JournalFault> {
        Ok(None)
    }
}

/// Whether of a login, its repeat in the same turn and one in the next, one entry is kept.
pub(crate) fn keeps_what_is_fresh<R: Threads + Wait + Sync>(
    rt: &R,
    alloc: Global,
    service: &mut Service,
) -> bool {
    let mut ports = MemoryPorts::new(alloc);
    let mut random = random();
    match Turns::open(alloc, &mut random, &OpenGate, UNSEEN) {
        Ok(mut turns) => keeps_one(rt, alloc, service, &mut ports, &mut turns),
        Err(_) => false,
    }
}

// Whether it is so in these turns, over these ports.
fn keeps_one<R: Threads + Wait + Sync, D: Rng, W: Watch + Drop>(
    rt: &R,
    alloc: Global,
    service: &mut Service,
    ports: &mut MemoryPorts,
    turns: &mut Turns<D, OpenGate, W>,
) -> bool {
    let mut journal = Counting { left: 9 };
    arrive(alloc, ports, CLIENT, 0, RFC_REQUEST).is_ok()
        && arrive(alloc, ports, CLIENT, 0, RFC_REQUEST).is_ok()
        && is_sum(
            turns.run_keeping(rt, service, ports, &mut journal, 1, 1),
            1,
            2,
            2,
            0,
        )
        && journal.left == 8
        && arrive(alloc, ports, CLIENT, 0, RFC_REQUEST).is_ok()
        && is_sum(
            turns.run_keeping(rt, service, ports, &mut journal, 1, 1),
            1,
            1,
            1,
            0,
        )
        && journal.left == 8
        && sent_count(ports) == 3
}

/// Whether nothing is sent of a turn for which a journal has no memory.
pub(crate) fn sends_nothing_unkept<R: Threads + Wait + Sync>(
    rt: &R,
    alloc: Global,
    service: &mut Service,
) -> bool {
    let mut ports = MemoryPorts::new(alloc);
    let mut random = random();
    let Ok(mut turns) = Turns::open(alloc, &mut random, &OpenGate, UNSEEN) else {
        return false;
    };
    sends_nothing(rt, alloc, service, &mut ports, &mut turns)
}

fn sends_nothing<R: Threads + Wait + Sync, D: Rng, W: Watch + Drop>(
    rt: &R,
    alloc: Global,
    service: &mut Service,
    ports: &mut MemoryPorts,
    turns: &mut Turns<D, OpenGate, W>,
) -> bool {
    let mut journal = Counting { left: 0 };
    arrive(alloc, ports, CLIENT, 0, RFC_REQUEST).is_ok()
        && turns.run_keeping(rt, service, ports, &mut journal, 1, 1)
            == Err(ServeFault::Journal(JournalFault::Full))
        && sent_count(ports) == 0
}
