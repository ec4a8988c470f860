//! Digests of messages, eight at a time.
ghost use Rattle.std.specs.Prelude.{◌≡◌, ℕ, ◌+◌, ◌<◌, ◌≤◌, List, [], false, length, map, slice_index, slice_index_or, true};
ghost use Rattle.std.specs.Prelude.{EachIndex};
ghost use Rattle.md5.specs.Md5.{digest_bytes, initial_hash};
ghost use Rattle.rad_md5.specs.Lanes.{ArePlaces, AreWanted, EachLane, HasDigests, HaveAtMost, IsHashedAfter, IsWanted, lane};
ghost use Rattle.rad_md5.specs.Pieces.{IsDigested, digest};

use crate::block::{block_count, next_blocks, words8};
use crate::compress::compress8;
use crate::each_lane;
use crate::lanes::{LANES, State};
use crate::pieces::Pieces;
use crate::table::{BLOCK_LEN, INITIAL_HASH};
use md5::{Digest, Md5};
use std::simd::u32x8;

/// How many octets a digest has.
pub const DIGEST_LEN: usize = 16;

// The blocks of the longest message.
fn most_blocks(messages: &[Pieces], places: &[usize]) -> usize
    requires { ArePlaces places.now messages.now }
    ensures enough { HaveAtMost result messages.now places.now }
    ensures least { (n : ℕ) → HaveAtMost n messages.now places.now → result ≤ n }
{
    let mut most = 0;
    'lanes: for j in 0..places.len() {
        most = most.max(block_count(&messages[places[j]]));
    }
    most
}

// The hash value before the first block, in each lane.
fn initial_state() -> State
    ensures { EachLane (λ j. lane j result ≡ initial_hash) }
{
    let [a, b, c, d] = INITIAL_HASH;
    State {
        a: u32x8::splat(a),
        b: u32x8::splat(b),
        c: u32x8::splat(c),
        d: u32x8::splat(d),
    }
}

// Takes block n of each message that has one into the state of its lane.
#[inline(always)]
fn turn(
    messages: &[Pieces],
    places: &[usize],
    n: usize,
    blocks: &mut [[u8; BLOCK_LEN]; LANES],
    state: State,
) -> State
    requires { ArePlaces places.now messages.now }
    ensures { IsHashedAfter n messages.now places.now state
        → IsHashedAfter (n + 1) messages.now places.now result }
{
    let live = next_blocks(messages, places, n, blocks);
    compress8(state, &words8(blocks), live)
}

/// The hash value of a message in each lane. Lane j is that of the message at place j of `places`.
pub(crate) fn hash8(messages: &[Pieces], places: &[usize]) -> State
    requires { ArePlaces places.now messages.now }
    ensures { HasDigests messages.now places.now result }
{
    let mut blocks = [[0; BLOCK_LEN]; LANES];
    let mut state = initial_state();
    'turns: for n in 0..most_blocks(messages, places) {
        let next = turn(messages, places, n, &mut blocks, state);
        state = next;
    }
    state
}

// The digest that these words are, low octets first (RFC 1321, section 3.5).
#[inline(always)]
fn digest_octets(words: [u32; 4]) -> [u8; DIGEST_LEN]
    ensures { result ≡ digest_bytes words 4 }
{
    let [a, b, c, d] = words;
    let [a0, a1, a2, a3] = a.to_le_bytes();
    let [b0, b1, b2, b3] = b.to_le_bytes();
    let [c0, c1, c2, c3] = c.to_le_bytes();
    let [d0, d1, d2, d3] = d.to_le_bytes();
    [
        a0, a1, a2, a3, b0, b1, b2, b3, c0, c1, c2, c3, d0, d1, d2, d3,
    ]
}

/// The digest in each lane.
pub(crate) fn digests_in(state: State) -> [[u8; DIGEST_LEN]; LANES]
    ensures made { EachLane (λ j. slice_index_or result j [] ≡ digest_bytes (lane j state) 4) }
    ensures eight { length result ≡ 8 }
{
    let a = state.a.to_array();
    let b = state.b.to_array();
    let c = state.c.to_array();
    let d = state.d.to_array();
    each_lane!(j => digest_octets([a[j], b[j], c[j], d[j]]))
}

// The places of eight messages in their order.
const IN_ORDER: [usize; LANES] = [0, 1, 2, 3, 4, 5, 6, 7];

/// The digests of eight messages.
pub fn digest8(messages: &[Pieces; LANES]) -> [[u8; DIGEST_LEN]; LANES]
    ensures { result ≡ map digest messages.now }
{
    digests_in(hash8(messages, &IN_ORDER))
}

/// The digest of a message.
pub fn digest_one(message: &Pieces) -> [u8; DIGEST_LEN]
    ensures { result ≡ digest message.now }
{
    let [a, b, c, d, e] = message.slices();
    let mut hasher = Md5::new();
    hasher.update(*a);
    hasher.update(*b);
    hasher.update(*c);
    hasher.update(*d);
    hasher.update(*e);
    hasher.finalize()
}

// The fewest messages for which a pass of eight takes less time than one after the other.
const PASS_PAYS_FROM: usize = 3;

/// Whether so many of eight messages are wanted that a pass of eight takes less time than one after the other. No clause says it.
pub fn pass_pays(wanted: &[bool; LANES]) -> bool {
    wanted.iter().filter(|is_wanted| **is_wanted).count() >= PASS_PAYS_FROM
}

/// The digests of those of eight messages that are wanted, in their lanes. What is in the other lanes says nothing.
pub fn digest_some(messages: &[Pieces; LANES], wanted: &[bool; LANES]) -> [[u8; DIGEST_LEN]; LANES]
    ensures { EachLane (λ j. slice_index_or wanted.now j false ≡ true
        → IsDigested messages.now result j) }
{
    if pass_pays(wanted) {
        return digest8(messages);
    }
    each_lane!(j, message of messages => digest_if(wanted[j], message))
}

// The digest of a message, if it is wanted.
fn digest_if(is_wanted: bool, message: &Pieces) -> [u8; DIGEST_LEN]
    ensures { is_wanted ≡ true → result ≡ digest message.now }
{
    if is_wanted {
        digest_one(message)
    } else {
        [0; DIGEST_LEN]
    }
}

/// Writes the digest of each lane at its place.
pub(crate) fn place_digests(
    made: &[[u8; DIGEST_LEN]; LANES],
    places: &[usize],
    digests: &mut [[u8; DIGEST_LEN]],
)
    requires few { length places.now ≤ 8 }
    requires inside { EachIndex places.now (λ j. slice_index places.now j < length digests.old) }
    ensures same { length digests.new ≡ length digests.old }
    ensures kept { (wanted : ℕ → List ℕ) → AreWanted made.now places.now wanted
        → (i : ℕ) → IsWanted wanted digests.old i → IsWanted wanted digests.new i }
    ensures placed { (wanted : ℕ → List ℕ) → AreWanted made.now places.now wanted
        → EachIndex places.now (λ j. IsWanted wanted digests.new (slice_index places.now j)) }
{
    'lanes: for j in 0..places.len() {
        digests[places[j]] = made[j];
    }
}
