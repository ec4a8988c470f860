//! Until when the rows of neighbouring blocks live.
ghost use Rattle.std.specs.Prelude.{◌≡◌, ◌≢◌, ◌≤◌, ◌<◌, ◌*◌, ◌/◌, ◌%◌, ℕ, [], All, OnOk, length, replicate, set, slice_index};

use std::alloc::{AllocError, Global};
use std::marker::Model;

/// How many neighbouring blocks have one bound: those at the places from a multiple of it on.
const GROUP: usize = 64;

/// A bound of each group of blocks: a moment before which each of their rows lives.
#[derive(Drop)]
pub struct Bounds {
    groups: Vec<u64>,
    // None of them is earlier.
    least: u64,
}

impl Model for Bounds {
    ghost use Rattle.std.specs.Prelude.{List, ℕ, ◌≤◌, All};

    ghost Value = { List ℕ };

    ghost view = { λ bounds. bounds.groups.items };

    ghost invariant = { λ bounds. All (λ bound. bounds.least ≤ bound) bounds.groups.items };
}

impl Bounds {
    pub fn open(alloc: Global) -> Bounds
        ensures { result ≡ [] }
    {
        Bounds {
            groups: Vec::new(alloc),
            least: u64::MAX,
        }
    }

    /// Makes sure that one more block than so many has a bound.
    pub fn grow(&mut self, len: usize) -> Result<(), AllocError>
        ensures enough { OnOk result (len ≤ 64 * length self.old → len < 64 * length self.new) }
        ensures longer { length self.old ≤ length self.new }
        ensures same { (group : ℕ) → group < length self.old
            → slice_index self.new group ≡ slice_index self.old group }
    {
        if self.groups.len() <= len / GROUP {
            self.groups.push(u64::MAX)?;
        }
        Ok(())
    }

    /// Makes the bound of the block at this place no later.
    pub fn lower(&mut self, place: usize, bound: u64)
        requires { place / 64 < length self.old }
        ensures len { length self.new ≡ length self.old }
        ensures earlier { (group : ℕ) → slice_index self.new group ≤ slice_index self.old group }
        ensures here { slice_index self.new (place / 64) ≤ bound }
    {
        let group = place / GROUP;
        let before = self.groups[group];
        self.put(group, before.min(bound));
    }

    /// The same, where the bounds of a group are found anew: the first of its blocks lets the one before go.
    pub fn renew(&mut self, place: usize, bound: u64)
        requires { place / 64 < length self.old }
        ensures len { length self.new ≡ length self.old }
        ensures earlier { (group : ℕ) → (group ≡ place / 64 → place % 64 ≢ 0)
            → slice_index self.new group ≤ slice_index self.old group }
        ensures here { slice_index self.new (place / 64) ≤ bound }
    {
        if place % GROUP == 0 {
            self.put(place / GROUP, bound);
        } else {
            self.lower(place, bound);
        }
    }

    fn put(&mut self, group: usize, bound: u64)
        requires { group < length self.old }
        ensures { self.new ≡ set self.old group bound }
    {
        self.groups[group] = bound;
        self.least = self.least.min(bound);
    }

    /// Forgets each bound, until it is found anew.
    pub fn forget(&mut self)
        ensures { self.new ≡ replicate (length self.old) 0 }
    {
        self.groups.fill(0);
        self.least = 0;
    }

    /// The first place from this one on, of `len`, that the bounds don't pass over at a moment.
    pub fn next_due(&self, now: u64, place: usize, len: usize) -> usize
        requires enough { len ≤ 64 * length self.now }
        requires within { place ≤ len }
        ensures from { place ≤ result }
        ensures to { result ≤ len }
        ensures begun { place % 64 ≢ 0 → result ≡ place }
        ensures later { (other : ℕ) → place ≤ other → other < result
            → now < slice_index self.now (other / 64) }
    {
        if place % GROUP != 0 {
            return place;
        }
        if now < self.least {
            return len;
        }
        for group in place / GROUP..len.div_ceil(GROUP) {
            if self.groups[group] <= now {
                return group * GROUP;
            }
        }
        len
    }

    /// After a sweep, looks for the least bound if it was due.
    pub fn settle(&mut self, now: u64)
        ensures { self.new ≡ self.old }
    {
        if self.least <= now {
            self.least = least_of(&self.groups);
        }
    }
}

// A moment that none of these is before.
fn least_of(bounds: &[u64]) -> u64
    ensures { All (λ bound. result ≤ bound) bounds.now }
{
    let mut least: u64 = u64::MAX;
    for bound in bounds {
        least = least.min(*bound);
    }
    least
}
