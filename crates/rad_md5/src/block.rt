//! The blocks of eight messages, side by side (RFC 1321, sections 3.1, 3.2 and 3.4).
ghost use Rattle.std.specs.Prelude.{◌≡◌, ℕ, ◌+◌, ◌-◌, ◌*◌, ◌/◌, ◌^◌, ◌<◌, ◌≤◌, List, [], ◌++◌, length, take, slice_index};
ghost use Rattle.std.specs.Prelude.{slice_index_or};
ghost use Rattle.md5.specs.Md5.{block_words, padding, word_at};
ghost use Rattle.rad_md5.specs.Blocks.{block_at, block_count, filled};
ghost use Rattle.rad_md5.specs.Lanes.{ArePlaces, EachLane, HaveBlocks, HaveEnded, words_of};
ghost use Rattle.rad_md5.specs.Pieces.{message, message_limit};

use crate::each_lane;
use crate::lanes::LANES;
use crate::pieces::Pieces;
use crate::table::{BLOCK_LEN, LENGTH_AT, PADDING};
use std::simd::u32x8;

// Word k of a block, low octet first.
#[inline(always)]
fn word(block: &[u8; BLOCK_LEN], k: usize) -> u32
    requires { k < 16 }
    ensures { result ≡ word_at block.now (4 * k) }
{
    let at = 4 * k;
    u32::from_le_bytes([block[at], block[at + 1], block[at + 2], block[at + 3]])
}

// Word k of eight blocks.
#[inline(always)]
fn words_at(blocks: &[[u8; BLOCK_LEN]; 8], k: usize) -> u32x8
    requires { k < 16 }
    ensures { EachLane (λ j. slice_index result j
        ≡ word_at (slice_index_or blocks.now j []) (4 * k)) }
{
    u32x8::from_array(each_lane!(j => word(&blocks[j], k)))
}

/// The words of eight blocks: word k of all of them is vector k.
#[inline(always)]
pub(crate) fn words8(blocks: &[[u8; BLOCK_LEN]; 8]) -> [u32x8; 16]
    ensures { EachLane (λ j. words_of j result ≡ block_words (slice_index_or blocks.now j []) 16) }
{
    [
        words_at(blocks, 0),
        words_at(blocks, 1),
        words_at(blocks, 2),
        words_at(blocks, 3),
        words_at(blocks, 4),
        words_at(blocks, 5),
        words_at(blocks, 6),
        words_at(blocks, 7),
        words_at(blocks, 8),
        words_at(blocks, 9),
        words_at(blocks, 10),
        words_at(blocks, 11),
        words_at(blocks, 12),
        words_at(blocks, 13),
        words_at(blocks, 14),
        words_at(blocks, 15),
    ]
}

// Writes the first K octets and the last K, which may overlap: moves of fixed length need no call.
#[inline(always)]
fn write_ends<const K: usize>(block: &mut [u8; BLOCK_LEN], at: usize, part: &[u8])
    requires room { at + length part.now ≤ 64 }
    requires cover { (K ≤ length part.now) × (length part.now ≤ 2 * K) }
    ensures { take (at + length part.now) block.new ≡ take at block.old ++ part.now }
{
    let end = at + part.len();
    let mut front = [0; K];
    let mut back = [0; K];
    front.copy_from_slice(&part[..K]);
    back.copy_from_slice(&part[part.len() - K..]);
    block[at..at + K].copy_from_slice(&front);
    block[end - K..end].copy_from_slice(&back);
}

// Writes octets into a block.
#[inline(always)]
fn write(block: &mut [u8; BLOCK_LEN], at: usize, part: &[u8])
    requires { at + length part.now ≤ 64 }
    ensures { take (at + length part.now) block.new ≡ take at block.old ++ part.now }
{
    // Long parts are tested first; a `match` would be tested from the short end.
    if part.len() >= 32 {
        write_ends::<32>(block, at, part);
    } else if part.len() >= 16 {
        write_ends::<16>(block, at, part);
    } else if part.len() >= 8 {
        write_ends::<8>(block, at, part);
    } else if part.len() >= 4 {
        write_ends::<4>(block, at, part);
    } else if part.len() >= 2 {
        write_ends::<2>(block, at, part);
    } else if part.len() == 1 {
        block[at] = part[0];
    }
}

// Puts what a slice holds after its first `skip` octets into a block from `at` on, as far as there is room.
//
// Returns where to go on, and how many octets of the next slices are still to be skipped.
#[inline(always)]
fn put(block: &mut [u8; BLOCK_LEN], at: usize, skip: usize, slice: &[u8]) -> (usize, usize)
    requires { at ≤ 64 }
    ensures place { result.0 ≤ 64 }
    ensures octets { (rest : List ℕ) → filled block.old at skip (slice.now ++ rest)
        ≡ filled block.new result.0 result.1 rest }
{
    if slice.len() <= skip {
        return (at, skip - slice.len());
    }
    let len = (slice.len() - skip).min(BLOCK_LEN - at);
    write(block, at, &slice[skip..skip + len]);
    (at + len, 0)
}

// Writes the padding into block n of a message of this length, from `at` on: all of it, or what the block before has no
// room for (RFC 1321, sections 3.1 and 3.2).
#[inline(always)]
fn pad(block: &mut [u8; BLOCK_LEN], at: usize, n: usize, len: usize)
    requires room { at < 64 }
    requires begun { n * 64 ≤ len → n * 64 + at ≡ len }
    requires over { len < n * 64 → at ≡ 0 }
    requires last { n < (len + length (padding len)) / 64 }
    requires short { len < message_limit }
    ensures { block.new ≡ filled block.old at (n * 64 - len) (padding len) }
{
    // The bit 1 is in this block, or in the one before.
    let start = (n * BLOCK_LEN).saturating_sub(len).min(1);
    write(block, at, &PADDING[start..start + BLOCK_LEN - at]);
    if at < LENGTH_AT {
        block[LENGTH_AT..].copy_from_slice(&(len as u64 * 8).to_le_bytes());
    }
}

// Writes block n of a message.
fn fill(pieces: &Pieces, n: usize, block: &mut [u8; BLOCK_LEN])
    requires { n < block_count (message pieces.now) }
    ensures { block.new ≡ block_at (message pieces.now) n }
{
    let len = pieces.len();
    let [a, b, c, d, e] = pieces.slices();
    let (at, skip) = put(block, 0, n * BLOCK_LEN, a);
    let (at, skip) = put(block, at, skip, b);
    let (at, skip) = put(block, at, skip, c);
    let (at, skip) = put(block, at, skip, d);
    let (at, _) = put(block, at, skip, e);
    if at < BLOCK_LEN {
        pad(block, at, n, len);
    }
}

/// How many blocks a message has with its padding.
pub(crate) fn block_count(pieces: &Pieces) -> usize
    ensures { result ≡ block_count (message pieces.now) }
{
    (pieces.len() + 8) / BLOCK_LEN + 1
}

// Writes block n of a message and returns a mask of ones, or of zeros if there is no block n.
#[inline(always)]
fn next_block(pieces: &Pieces, n: usize, block: &mut [u8; BLOCK_LEN]) -> u32
    ensures live { n < block_count (message pieces.now)
        → (result ≡ 2 ^ 32 - 1) × (block.new ≡ block_at (message pieces.now) n) }
    ensures ended { block_count (message pieces.now) ≤ n → result ≡ 0 }
{
    if n < block_count(pieces) {
        fill(pieces, n, block);
        u32::MAX
    } else {
        0
    }
}

/// Writes block n of each message that has one, and returns which lanes are live.
///
/// Lane j is that of the message at place j of `places`.
pub(crate) fn next_blocks(
    messages: &[Pieces],
    places: &[usize],
    n: usize,
    blocks: &mut [[u8; BLOCK_LEN]; LANES],
) -> u32x8
    requires { ArePlaces places.now messages.now }
    ensures live { HaveBlocks n messages.now places.now result blocks.new }
    ensures ended { HaveEnded n messages.now places.now result }
{
    let mut live = [0; LANES];
    'lanes: for j in 0..places.len() {
        live[j] = next_block(&messages[places[j]], n, &mut blocks[j]);
    }
    u32x8::from_array(live)
}
