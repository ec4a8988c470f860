//! Digests and HMACs: `bench/digests.c`.
//!
//! Each export takes messages, one in each slot of 256 octets, does its work over them as many times as asked, and
//! writes what it made of them one after the other. A message is cut as a server cuts a packet: a header of 4 octets, an
//! authenticator of 16, attributes, and a secret of 9.
ghost use Rattle.std.specs.Prelude.{◌+◌, ◌-◌, ◌*◌, ◌<◌, ◌≤◌, ◌^◌, length};
ghost use Rattle.rad_md5.specs.Pieces.{HasFreePiece, message};

use crate::plain;
use rad_hmac::{Key, hmac8};
use rad_md5::{DIGEST_LEN, LANES, Pieces, digest_each, digest8};
use std::alloc::{AllocError, Global};

const SLOT: usize = 256;

const SECRET_LEN: usize = 9;

const SHORTEST: usize = 20 + SECRET_LEN;

// The key of all HMACs.
const SECRET: &[u8; SECRET_LEN] = b"xyzzy5461";

// Message i.
fn message<'a>(slots: &'a [u8], lengths: &[u32], i: usize) -> &'a [u8]
    requires place { i < length lengths.now }
    requires slots { 256 * length lengths.now ≤ length slots.now }
    ensures { (29 ≤ length result.now) × (length result.now ≤ 256) }
{
    &slots[SLOT * i..SLOT * i + (lengths[i] as usize).clamp(SHORTEST, SLOT)]
}

// A message in the pieces of a packet and a secret.
fn cut(octets: &[u8]) -> Pieces
    requires { (29 ≤ length octets.now) × (length octets.now ≤ 256) }
    ensures free { HasFreePiece result }
    ensures short { length (message result) < 2 ^ 32 - 64 }
{
    let secret = octets.len() - SECRET_LEN;
    Pieces::of([
        &octets[..4],
        &octets[4..20],
        &octets[20..secret],
        &octets[secret..],
        &[],
    ])
}

// Eight messages from the i-th on.
fn eight<'a>(slots: &'a [u8], lengths: &[u32], i: usize) -> [Pieces<'a>; LANES]
    requires places { i + 8 ≤ length lengths.now }
    requires slots { 256 * length lengths.now ≤ length slots.now }
{
    [
        cut(message(slots, lengths, i)),
        cut(message(slots, lengths, i + 1)),
        cut(message(slots, lengths, i + 2)),
        cut(message(slots, lengths, i + 3)),
        cut(message(slots, lengths, i + 4)),
        cut(message(slots, lengths, i + 5)),
        cut(message(slots, lengths, i + 6)),
        cut(message(slots, lengths, i + 7)),
    ]
}

// The HMACs of eight messages from the i-th on.
fn hmac_eight(key: &Key, slots: &[u8], lengths: &[u32], i: usize) -> [[u8; DIGEST_LEN]; LANES]
    requires places { i + 8 ≤ length lengths.now }
    requires slots { 256 * length lengths.now ≤ length slots.now }
{
    hmac8(&[
        (key, cut(message(slots, lengths, i))),
        (key, cut(message(slots, lengths, i + 1))),
        (key, cut(message(slots, lengths, i + 2))),
        (key, cut(message(slots, lengths, i + 3))),
        (key, cut(message(slots, lengths, i + 4))),
        (key, cut(message(slots, lengths, i + 5))),
        (key, cut(message(slots, lengths, i + 6))),
        (key, cut(message(slots, lengths, i + 7))),
    ])
}

// Writes digests one after the other, as far as there is room.
fn lay_out(digests: &[[u8; DIGEST_LEN]], out: &mut [u8]) {
    let (places, _) = out.as_chunks_mut::<DIGEST_LEN>();
    let len = digests.len().min(places.len());
    places[..len].copy_from_slice(&digests[..len]);
}

fn each_in_lanes(
    alloc: Global,
    slots: &[u8],
    lengths: &[u32],
    rounds: u32,
    out: &mut [u8],
) -> Result<(), AllocError>
    requires slots { 256 * length lengths.now ≤ length slots.now }
{
    let mut messages = Vec::new(alloc);
    for i in 0..lengths.len() {
        messages.push(cut(message(slots, lengths, i)))?;
    }
    let mut digests = Vec::from_elem(alloc, [0; DIGEST_LEN], messages.len())?;
    for _ in 0..rounds {
        digest_each(&messages, &mut digests);
    }
    lay_out(&digests, out);
    Ok(())
}

/// `digest_each` over all messages; no digest is written if memory for them is refused.
#[unsafe(no_mangle)]
pub extern "C" fn radpool_digest_each(
    alloc: Global,
    slots: &[u8],
    lengths: &[u32],
    rounds: u32,
    out: &mut [u8],
)
    requires slots { 256 * length lengths.now ≤ length slots.now }
    requires out { 16 * length lengths.now ≤ length out.old }
{
    let _done = each_in_lanes(alloc, slots, lengths, rounds, out);
}

/// `digest8` over eight messages after eight.
#[unsafe(no_mangle)]
pub extern "C" fn radpool_digest8(slots: &[u8], lengths: &[u32], rounds: u32, out: &mut [u8])
    requires slots { 256 * length lengths.now ≤ length slots.now }
    requires out { 16 * length lengths.now ≤ length out.old }
{
    for _ in 0..rounds {
        for group in 0..lengths.len() / LANES {
            let i = LANES * group;
            lay_out(
                &digest8(&eight(slots, lengths, i)),
                &mut out[DIGEST_LEN * i..],
            );
        }
    }
}

/// `hmac8` over eight messages after eight, under one key.
#[unsafe(no_mangle)]
pub extern "C" fn radpool_hmac8(slots: &[u8], lengths: &[u32], rounds: u32, out: &mut [u8])
    requires slots { 256 * length lengths.now ≤ length slots.now }
    requires out { 16 * length lengths.now ≤ length out.old }
{
    let key = Key::new(SECRET);
    for _ in 0..rounds {
        for group in 0..lengths.len() / LANES {
            let i = LANES * group;
            lay_out(
                &hmac_eight(&key, slots, lengths, i),
                &mut out[DIGEST_LEN * i..],
            );
        }
    }
}

/// The toolchain's `md5` over one message after the other.
#[unsafe(no_mangle)]
pub extern "C" fn kit_md5(slots: &[u8], lengths: &[u32], rounds: u32, out: &mut [u8])
    requires slots { 256 * length lengths.now ≤ length slots.now }
    requires out { 16 * length lengths.now ≤ length out.old }
{
    for _ in 0..rounds {
        for i in 0..lengths.len() {
            lay_out(
                &[plain::digest(&[message(slots, lengths, i)])],
                &mut out[DIGEST_LEN * i..],
            );
        }
    }
}

/// The plain formula of HMAC with the toolchain's `md5`, over one message after the other, under one key.
#[unsafe(no_mangle)]
pub extern "C" fn kit_hmac(slots: &[u8], lengths: &[u32], rounds: u32, out: &mut [u8])
    requires slots { 256 * length lengths.now ≤ length slots.now }
    requires out { 16 * length lengths.now ≤ length out.old }
{
    for _ in 0..rounds {
        for i in 0..lengths.len() {
            lay_out(
                &[plain::hmac(SECRET, &[message(slots, lengths, i)])],
                &mut out[DIGEST_LEN * i..],
            );
        }
    }
}
