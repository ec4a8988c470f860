//! Batches at the gates that they wait at.
use super::datagrams::Sent;
use super::datagrams::Sent::Octets;
use super::serving::{begins_with_tags, first_round, has_len};
use crate::tests::holds;
use rad_shell::Gate;
use std::sync::atomic::{AtomicU64, Ordering};
use std::thread::yield_now;
use test_common::RFC_REQUEST;

/// How often a batch looks whether the other one has come.
const TURNS: u64 = 50_000_000;

/// A gate that holds each of two batches until the other one has come too.
#[derive(Drop)]
struct Meeting {
    /// How often each batch came.
    first: AtomicU64,
    second: AtomicU64,
    /// How often one didn't see the other come, or another batch came.
    faults: AtomicU64,
}

impl Meeting {
    fn new() -> Meeting {
        Meeting {
            first: AtomicU64::new(0),
            second: AtomicU64::new(0),
            faults: AtomicU64::new(0),
        }
    }

    // Whether each batch came once, and saw the other come.
    fn was_held(&self) -> bool {
        self.first.load(Ordering::SeqCst) == 1
            && self.second.load(Ordering::SeqCst) == 1
            && self.faults.load(Ordering::SeqCst) == 0
    }
}

impl Gate for Meeting {
    fn pass(&self, batch: u64) {
        let meets = match batch {
            0 => meets(&self.first, &self.second),
            1 => meets(&self.second, &self.first),
            _ => false,
        };
        if !meets {
            self.faults.fetch_add(1, Ordering::SeqCst);
        }
    }
}

// Counts that one came, and waits for the other. Whether it came.
fn meets(own: &AtomicU64, other: &AtomicU64) -> bool {
    own.fetch_add(1, Ordering::SeqCst);
    sees(other)
}

// Waits for another batch. Whether it came.
fn sees(other: &AtomicU64) -> bool {
    for _ in 0..TURNS {
        if other.load(Ordering::SeqCst) != 0 {
            return true;
        }
        yield_now();
    }
    false
}

/// A gate that counts the batches, each of which should come in its turn.
#[derive(Drop)]
pub(crate) struct InTurn {
    passed: AtomicU64,
    /// How often another batch came than the next one.
    faults: AtomicU64,
}

impl InTurn {
    pub fn new() -> InTurn {
        InTurn {
            passed: AtomicU64::new(0),
            faults: AtomicU64::new(0),
        }
    }

    /// Whether so many batches came, each in its turn.
    pub fn has_passed(&self, count: u64) -> bool {
        self.passed.load(Ordering::SeqCst) == count && self.faults.load(Ordering::SeqCst) == 0
    }
}

impl Gate for InTurn {
    fn pass(&self, batch: u64) {
        if self.passed.fetch_add(1, Ordering::SeqCst) != batch {
            self.faults.fetch_add(1, Ordering::SeqCst);
        }
    }
}

/// A gate that holds the first of six batches until the last one has come, and the second until the first has come.
#[derive(Drop)]
struct LastFirst {
    first: AtomicU64,
    last: AtomicU64,
    /// How often a batch didn't see the other one come.
    faults: AtomicU64,
}

impl LastFirst {
    fn new() -> LastFirst {
        LastFirst {
            first: AtomicU64::new(0),
            last: AtomicU64::new(0),
            faults: AtomicU64::new(0),
        }
    }

    // Whether both batches saw the other one come.
    fn was_held(&self) -> bool {
        self.faults.load(Ordering::SeqCst) == 0
    }
}

impl Gate for LastFirst {
    fn pass(&self, batch: u64) {
        let sees = match batch {
            0 => meets(&self.first, &self.last),
            1 => sees(&self.first),
            5 => meets(&self.last, &self.first),
            _ => true,
        };
        if !sees {
            self.faults.fetch_add(1, Ordering::SeqCst);
        }
    }
}

/// One more than a batch has lanes.
const SENT: &[Sent] = &[V, V, V, V, V, V, V, V, V];

const V: Sent = Octets(RFC_REQUEST);

#[test]
fn one_worker_has_each_batch_in_its_turn(rt: HostRuntime) {
    let in_turn = InTurn::new();
    let done = first_round(&rt, rt.alloc(), SENT, 1, &in_turn, &[1]);
    holds(&rt, has_len(&done, 9, 9), "nine outcomes and entries");
    holds(&rt, in_turn.has_passed(2), "each batch came in its turn");
}

#[test]
fn two_workers_have_a_batch_each_at_once(rt: HostRuntime) {
    let meeting = Meeting::new();
    let done = first_round(&rt, rt.alloc(), SENT, 2, &meeting, &[1]);
    holds(&rt, has_len(&done, 9, 9), "nine outcomes and entries");
    holds(&rt, meeting.was_held(), "each batch saw the other come");
}

// While one worker is held with the first batch, the other one claims all others. So four of them are exchanged then, of which the
// last three wouldn't be before the first batch if that had its exchanges before its gate.
#[test]
fn a_batch_has_no_exchange_before_its_gate(rt: HostRuntime) {
    const SIX: &[Sent] = &[V; 48];
    const OTHERS: &[u64] = &[
        8, 9, 10, 11, 12, 13, 14, 15, 16, 17, 18, 19, 20, 21, 22, 23, 24, 25, 26, 27, 28, 29, 30,
        31, 32, 33, 34, 35, 36, 37, 38, 39,
    ];
    let last_first = LastFirst::new();
    let done = first_round(&rt, rt.alloc(), SIX, 2, &last_first, &[1]);
    holds(&rt, last_first.was_held(), "each batch saw the other come");
    holds(&rt, begins_with_tags(&done, OTHERS), "the others first");
}
