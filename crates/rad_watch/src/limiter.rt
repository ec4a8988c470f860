//! How many lines of one kind and client are told.
ghost use Rattle.std.specs.Prelude.{◌≡◌, ◌+◌, ◌^◌, ◌-◌, min, nat_lt};
ghost use Rattle.rad_watch.specs.Limits.{lines_max};

use crate::kind::{KINDS, Kind};
use std::alloc::{AllocError, Global};

/// The most lines of one kind and client that are told of a second.
pub const LINES_MAX: u32 = 20;

/// How many lines of each kind and client there were to tell in a second.
#[derive(Drop)]
pub(crate) struct Limiter {
    // For those of no client, and then for each client, one count for each kind.
    counts: Vec<u32>,
}

impl Limiter {
    /// Nothing was told yet to so many clients.
    pub fn open(alloc: Global, clients: usize) -> Result<Limiter, AllocError> {
        let counts = vec![in alloc; 0; KINDS.len().saturating_mul(clients.saturating_add(1))]?;
        Ok(Limiter { counts })
    }

    /// Counts one more line. Whether it is told.
    pub fn tells(&mut self, kind: Kind, client: Option<u32>) -> bool {
        match self.counts.get_mut(place_of(kind, client)) {
            Some(count) => is_told(count),
            None => false,
        }
    }

    /// How many lines were left out. From now on they are counted anew.
    pub fn begin_anew(&mut self, kind: Kind, client: Option<u32>) -> u32 {
        match self.counts.get_mut(place_of(kind, client)) {
            Some(count) => begin_anew(count),
            None => 0,
        }
    }
}

// Of the lines that were counted, how many were left out. Then none is counted.
fn begin_anew(count: &mut u32) -> u32
    ensures left_out { result ≡ count.old - lines_max }
    ensures anew { count.new ≡ 0 }
{
    let left_out = count.saturating_sub(LINES_MAX);
    *count = 0;
    left_out
}

// Counts one more line. Whether it is one of the first of its second.
fn is_told(count: &mut u32) -> bool
    ensures told { result ≡ nat_lt count.old lines_max }
    ensures counted { count.new ≡ min (count.old + 1) (2 ^ 32 - 1) }
{
    let is_first = *count < LINES_MAX;
    *count = count.saturating_add(1);
    is_first
}

fn place_of(kind: Kind, client: Option<u32>) -> usize {
    let slot = match client {
        None => 0,
        Some(client) => (client as usize).saturating_add(1),
    };
    slot.saturating_mul(KINDS.len())
        .saturating_add(kind as usize)
}
