//! The addresses of a pool.
ghost use Rattle.std.specs.Prelude.{◌≡◌, ℕ, ◌+◌, ◌*◌, ◌<◌, ◌≤◌, ◌^◌, length, slice_index, IfNone, IfOk, IfSome};
ghost use Rattle.rad_places.specs.Marks.{marked};
ghost use Rattle.rad_places.specs.Places.{place_of, unused, uses_at, with_note, with_use, without_use};

use crate::marks::Marks;
use std::alloc::{AllocError, Global};
use std::marker::Model;

/// How often each address of a pool is in use, and the number that was noted last for each.
///
/// Addresses are IPv4, most significant octet first. Places are counted from 0: the address at a place is the pool's first one plus
/// the place.
#[derive(Drop)]
pub struct Places {
    first: u32,
    uses: Vec<u64>,
    notes: Vec<u64>,
    // The places whose address isn't in use.
    free: Marks,
}

impl Model for Places {
    ghost use Rattle.std.specs.Prelude.{◌≡◌, length};
    ghost use Rattle.rad_places.specs.Places.{MarksFree, SeenPlaces};

    ghost Value = { SeenPlaces };

    ghost view = { λ places. record {
      first = places.first;
      uses = places.uses.items;
      notes = places.notes.items;
    } };

    ghost invariant = { λ places. MarksFree places.uses.items places.free
        × (length places.notes.items ≡ length places.uses.items) };
}

impl Places {
    /// So many addresses from the first on, none of them in use, and 0 noted for each.
    pub fn open(alloc: Global, first: u32, count: u32) -> Result<Places, AllocError>
        ensures { IfOk result (λ places. places ≡ unused first count) }
    {
        let uses = vec![in alloc; 0; count as usize]?;
        let notes = vec![in alloc; 0; count as usize]?;
        let free = all_marked(alloc, count)?;
        Ok(Places {
            first,
            uses,
            notes,
            free,
        })
    }

    /// An equal one.
    pub fn copy(&self) -> Result<Places, AllocError>
        ensures { IfOk result (λ copy. copy ≡ self.now) }
    {
        let uses = self.uses.clone()?;
        let notes = self.notes.clone()?;
        let free = self.free.copy()?;
        Ok(Places {
            first: self.first,
            uses,
            notes,
            free,
        })
    }

    /// The first address.
    pub fn first(&self) -> u32
        ensures { result ≡ self.now.first }
    {
        self.first
    }

    /// How many addresses there are.
    pub fn len(&self) -> usize
        ensures { result ≡ length self.now.uses }
    {
        self.uses.len()
    }

    /// The place of an address, if it is one of the pool.
    pub fn place_of(&self, address: u32) -> Option<usize>
        ensures { result ≡ place_of address self.now }
    {
        if address < self.first {
            return None;
        }
        let place = (address - self.first) as usize;
        if place < self.uses.len() {
            Some(place)
        } else {
            None
        }
    }

    /// How often the address at a place is in use.
    pub fn uses(&self, place: usize) -> u64
        requires { place < length self.now.uses }
        ensures { result ≡ uses_at place self.now }
    {
        self.uses[place]
    }

    /// The least place whose address isn't in use.
    pub fn least_free(&self) -> Option<usize>
        ensures free { IfSome result (λ place.
            (place < length self.now.uses) × (uses_at place self.now ≡ 0)) }
        ensures least { IfSome result (λ place.
            (other : ℕ) → other < place → 0 < uses_at other self.now) }
        ensures none { IfNone result
            ((place : ℕ) → place < length self.now.uses → 0 < uses_at place self.now) }
    {
        self.free.least()
    }

    /// One use more of the address at a place.
    pub fn add_use(&mut self, place: usize)
        requires within { place < length self.old.uses }
        requires fits { uses_at place self.old + 1 < 2 ^ 64 }
        ensures { self.new ≡ with_use place self.old }
    {
        let uses = self.uses[place] + 1;
        self.uses[place] = uses;
        self.free.unmark(place);
    }

    /// One use less of the address at a place. Without any it stays so.
    pub fn remove_use(&mut self, place: usize)
        requires { place < length self.old.uses }
        ensures { self.new ≡ without_use place self.old }
    {
        let uses = self.uses[place].saturating_sub(1);
        self.uses[place] = uses;
        if uses == 0 {
            self.free.mark(place);
        }
    }

    /// The number that was noted last for the address at a place, or 0.
    pub fn note(&self, place: usize) -> u64
        requires { place < length self.now.uses }
        ensures { result ≡ slice_index self.now.notes place }
    {
        self.notes[place]
    }

    /// Notes a number for the address at a place.
    pub fn set_note(&mut self, place: usize, number: u64)
        requires { place < length self.old.uses }
        ensures { self.new ≡ with_note place number self.old }
    {
        self.notes[place] = number;
    }
}

// So many places from 0 on, each marked, and no other.
fn all_marked(alloc: Global, count: u32) -> Result<Marks, AllocError>
    ensures enough { IfOk result (λ marks. count ≤ 64 * length marks) }
    ensures within { IfOk result (λ marks.
        (place : ℕ) → place < count → marked marks place ≡ 1) }
    ensures others { IfOk result (λ marks.
        (place : ℕ) → count ≤ place → marked marks place ≡ 0) }
{
    let mut marks = Marks::open(alloc, count)?;
    for place in 0..count {
        marks.mark(place as usize);
    }
    Ok(marks)
}
