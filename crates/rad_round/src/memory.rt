//! Memory for a round.
ghost use Rattle.std.specs.Prelude.{◌≡◌, ◌≤◌, length, IfOk};
ghost use Rattle.rad_round.specs.Rounds.{arrivals_max, workers_max};
ghost use Rattle.rad_round.specs.Works.{IsMemoryFor};

use crate::batch::batch_count;
use crate::leftovers::Leftovers;
use crate::outcome::Outcome;
use crate::timed::Timed;
use rad_claim::{ClaimSeat, Claims};
use rad_log::{FirstSeat, Log};
use rad_server::Entry;
use std::alloc::{AllocError, Global};
use std::sync::ledger::Blank;

/// What a round needs that takes memory, but for its workers and what the steps of its server take.
#[derive(Drop)]
pub(crate) struct Memory {
    pub alloc: Global,
    pub blank: Blank,
    pub log: Log<Entry>,
    pub first: FirstSeat<Entry>,
    pub claims: Claims,
    pub seats: Vec<ClaimSeat>,
    /// Empty, with memory for the seats when they come back.
    pub returned: Vec<ClaimSeat>,
    /// Empty, with memory for an entry of each arrival.
    pub history: Vec<Entry>,
    /// Empty, with memory for a mark of each entry.
    pub marks: Vec<bool>,
    /// A place for the outcome of each arrival.
    pub outcomes: Vec<Outcome>,
}

impl Memory {
    /// Memory for these arrivals and so many workers.
    pub fn new(
        alloc: Global,
        arrivals: &[Timed],
        workers: u64,
        leftovers: &mut Leftovers,
    ) -> Result<Memory, AllocError>
        requires workers { (1 ≤ workers) × (workers ≤ workers_max) }
        requires count { length arrivals.now ≤ arrivals_max }
        ensures { IfOk result (IsMemoryFor arrivals.now workers) }
    {
        let (log, first) = Log::open(alloc)?;
        let (claims, seats) = Claims::open(alloc, batch_count(arrivals), workers)?;
        Ok(Memory {
            alloc,
            blank: Blank::new(workers),
            log,
            first,
            claims,
            seats,
            returned: Vec::with_capacity(alloc, workers as usize)?,
            history: leftovers.take_history(arrivals.len())?,
            marks: Vec::with_capacity(alloc, arrivals.len())?,
            outcomes: leftovers.take_outcomes(arrivals.len())?,
        })
    }
}
