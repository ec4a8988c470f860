//! Digests of any number of messages, which are put in order of their length for speed.
ghost use Rattle.std.specs.Prelude.{◌≡◌, ℕ, ◌<◌, ◌≤◌, length, map, slice_index, take, EachIndex};
ghost use Rattle.std.specs.List.{Contains};
ghost use Rattle.rad_md5.specs.Lanes.{ArePlaces};
ghost use Rattle.rad_md5.specs.Pieces.{IsDigested, digest};

use crate::block::block_count;
use crate::digest::{DIGEST_LEN, digests_in, hash8, place_digests};
use crate::lanes::LANES;
use crate::pieces::Pieces;

// How many messages are put in order at a time, so that the messages of a group have about as many blocks.
const WINDOW: usize = 64;

// Writes the digests of the messages at some places: a group of at most eight.
fn digest_group(messages: &[Pieces], places: &[usize], digests: &mut [[u8; DIGEST_LEN]])
    requires places { ArePlaces places.now messages.now }
    requires equal { length digests.old ≡ length messages.now }
    ensures same { length digests.new ≡ length digests.old }
    ensures kept { (i : ℕ) → IsDigested messages.now digests.old i
        → IsDigested messages.now digests.new i }
    ensures placed { EachIndex places.now (λ j.
        IsDigested messages.now digests.new (slice_index places.now j)) }
{
    place_digests(&digests_in(hash8(messages, places)), places, digests);
}

// How many blocks each of at most 64 messages has.
fn block_counts(messages: &[Pieces]) -> [usize; WINDOW]
    requires { length messages.now ≤ 64 }
{
    let mut counts = [0; WINDOW];
    for i in 0..messages.len() {
        counts[i] = block_count(&messages[i]);
    }
    counts
}

// The numbers from 0 to 63.
fn in_order() -> [usize; WINDOW]
    ensures each { (k : ℕ) → k < 64 → slice_index result k ≡ k }
    ensures all { length result ≡ 64 }
{
    let mut places = [0; WINDOW];
    'places: for k in 0..WINDOW {
        places[k] = k;
    }
    places
}

// The places of at most 64 messages. That those with the fewest blocks come first is for speed: no clause says it.
fn shortest_first(messages: &[Pieces]) -> [usize; WINDOW]
    requires { length messages.now ≤ 64 }
    ensures every { EachIndex messages.now (Contains (take (length messages.now) result)) }
    ensures inside { EachIndex messages.now (λ k. slice_index result k < length messages.now) }
    ensures all { length result ≡ 64 }
{
    let counts = block_counts(messages);
    let mut places = in_order();
    places[..messages.len()].sort_unstable_by_key(|place| counts.get(*place).copied());
    places
}

// The digests of at most 64 messages.
fn digest_window(messages: &[Pieces], digests: &mut [[u8; DIGEST_LEN]])
    requires few { length messages.now ≤ 64 }
    requires equal { length digests.old ≡ length messages.now }
    ensures { digests.new ≡ map digest messages.now }
{
    let places = shortest_first(messages);
    let groups = messages.len().div_ceil(LANES);
    'groups: for i in 0..groups {
        let start = LANES * i;
        let end = messages.len().min(start + LANES);
        digest_group(messages, &places[start..end], digests);
    }
}

/// The digest of each message.
pub fn digest_each(messages: &[Pieces], digests: &mut [[u8; DIGEST_LEN]])
    requires { length digests.old ≡ length messages.now }
    ensures { digests.new ≡ map digest messages.now }
{
    let windows = messages.len().div_ceil(WINDOW);
    'windows: for i in 0..windows {
        let start = WINDOW * i;
        let end = messages.len().min(start + WINDOW);
        digest_window(&messages[start..end], &mut digests[start..end]);
    }
}
