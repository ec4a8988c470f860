//! Places that are marked, as bits of words, and a summary of the words that have one.
ghost use Rattle.std.specs.Prelude.{◌≡◌, ◌≢◌, ◌≤◌, ◌<◌, ◌*◌, ◌/◌, ◌^◌, ℕ, length, IfNone, IfOk, IfSome, slice_index};
ghost use Rattle.rad_places.specs.Marks.{marked};

use std::alloc::{AllocError, Global};
use std::marker::Model;

/// Places from 0 on, of which some are marked. Contracts see the words.
#[derive(Drop)]
pub(crate) struct Marks {
    words: Vec<u64>,
    // Its bits tell which words aren't 0.
    summary: Vec<u64>,
}

impl Model for Marks {
    ghost use Rattle.std.specs.Prelude.{ℕ, List};
    ghost use Rattle.rad_places.specs.Marks.{IsSummary};

    ghost Value = { List ℕ };

    ghost view = { λ marks. marks.words.items };

    ghost invariant = { λ marks. IsSummary marks.words.items marks.summary.items };
}

impl Marks {
    /// At least so many places, none of them marked.
    pub(crate) fn open(alloc: Global, count: u32) -> Result<Marks, AllocError>
        ensures enough { IfOk result (λ marks. count ≤ 64 * length marks) }
        ensures none { IfOk result (λ marks. (place : ℕ) → marked marks place ≡ 0) }
    {
        let summaries = count as usize / 4_096 + 1;
        let words = vec![in alloc; 0; 64 * summaries]?;
        let summary = vec![in alloc; 0; summaries]?;
        Ok(Marks { words, summary })
    }

    /// Equal marks.
    pub(crate) fn copy(&self) -> Result<Marks, AllocError>
        ensures { IfOk result (λ copy. copy ≡ self.now) }
    {
        let words = self.words.clone()?;
        let summary = self.summary.clone()?;
        Ok(Marks { words, summary })
    }

    /// The least place that is marked.
    pub(crate) fn least(&self) -> Option<usize>
        ensures marked { IfSome result (λ place.
            (place < 64 * length self.now) × (marked self.now place ≡ 1)) }
        ensures least { IfSome result (λ place.
            (other : ℕ) → other < place → marked self.now other ≡ 0) }
        ensures none { IfNone result
            ((place : ℕ) → place < 64 * length self.now → marked self.now place ≡ 0) }
    {
        let word = first_marked(&self.summary)?;
        Some(lowest_in(&self.words, word))
    }

    /// Marks a place.
    pub(crate) fn mark(&mut self, place: usize)
        requires { place < 64 * length self.old }
        ensures here { marked self.new place ≡ 1 }
        ensures others { (other : ℕ) → other ≢ place →
            marked self.new other ≡ marked self.old other }
        ensures len { length self.new ≡ length self.old }
    {
        mark(&mut self.words, place);
        mark(&mut self.summary, place / 64);
    }

    /// Takes the mark of a place away.
    pub(crate) fn unmark(&mut self, place: usize)
        requires { place < 64 * length self.old }
        ensures here { marked self.new place ≡ 0 }
        ensures others { (other : ℕ) → other ≢ place →
            marked self.new other ≡ marked self.old other }
        ensures len { length self.new ≡ length self.old }
    {
        unmark(&mut self.words, place);
        if self.words[place / 64] == 0 {
            unmark(&mut self.summary, place / 64);
        } else {
            mark(&mut self.summary, place / 64);
        }
    }
}

fn mark(words: &mut Vec<u64>, place: usize)
    requires { place < 64 * length words.old.items }
    ensures here { marked words.new.items place ≡ 1 }
    ensures others { (other : ℕ) → other ≢ place →
        marked words.new.items other ≡ marked words.old.items other }
    ensures len { length words.new.items ≡ length words.old.items }
    ensures elsewhere { (word : ℕ) → word ≢ place / 64 →
        slice_index words.new.items word ≡ slice_index words.old.items word }
{
    let word = place / 64;
    let bit = place % 64;
    let old = words[word];
    words[word] = old | (1 << bit);
}

fn unmark(words: &mut Vec<u64>, place: usize)
    requires { place < 64 * length words.old.items }
    ensures here { marked words.new.items place ≡ 0 }
    ensures others { (other : ℕ) → other ≢ place →
        marked words.new.items other ≡ marked words.old.items other }
    ensures len { length words.new.items ≡ length words.old.items }
    ensures elsewhere { (word : ℕ) → word ≢ place / 64 →
        slice_index words.new.items word ≡ slice_index words.old.items word }
{
    let word = place / 64;
    let bit = place % 64;
    let old = words[word];
    words[word] = old & !(1 << bit);
}

// The least place that is marked.
fn first_marked(words: &[u64]) -> Option<usize>
    requires { 64 * length words.now < 2 ^ 64 }
    ensures marked { IfSome result (λ place.
        (place < 64 * length words.now) × (marked words.now place ≡ 1)) }
    ensures least { IfSome result (λ place.
        (other : ℕ) → other < place → marked words.now other ≡ 0) }
    ensures none { IfNone result
        ((place : ℕ) → place < 64 * length words.now → marked words.now place ≡ 0) }
{
    for (word, bits) in words.iter().enumerate() {
        if *bits != 0 {
            return Some(lowest_in(words, word));
        }
    }
    None
}

// The least place that is marked, where this word is the first that isn't 0.
fn lowest_in(words: &[u64], word: usize) -> usize
    requires within { word < length words.now }
    requires some { 0 < slice_index words.now word }
    requires before { (other : ℕ) → other < word → slice_index words.now other ≡ 0 }
    requires fits { 64 * length words.now < 2 ^ 64 }
    ensures marked { (result < 64 * length words.now) × (marked words.now result ≡ 1) }
    ensures least { (other : ℕ) → other < result → marked words.now other ≡ 0 }
{
    let bits = words[word];
    word * 64 + bits.trailing_zeros() as usize
}
