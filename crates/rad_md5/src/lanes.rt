//! Words of eight messages side by side, one lane for each message: the operators of `u32x8`, with a clause for each lane.
ghost use Rattle.std.specs.Prelude.{◌≡◌, ◌<◌, bit_and, bit_or, bit_xor, slice_index};
ghost use Rattle.std.specs.Int.{w32, bit_not, rotate_left};
ghost use Rattle.md5.specs.Md5.{add32};
ghost use Rattle.rad_md5.specs.Lanes.{EachEnded, EachLive, IsLanewise1, IsLanewise2};

use std::simd::u32x8;

/// How many messages are hashed side by side.
pub const LANES: usize = 8;

/// The four variables of eight messages (RFC 1321, section 3.3).
#[derive(Clone, Copy)]
pub(crate) struct State {
    pub(crate) a: u32x8,
    pub(crate) b: u32x8,
    pub(crate) c: u32x8,
    pub(crate) d: u32x8,
}

/// The bits that both have, lane by lane.
#[inline(always)]
pub(crate) fn and(x: u32x8, y: u32x8) -> u32x8
    ensures { IsLanewise2 bit_and x y result }
{
    x & y
}

/// The bits that one or both have, lane by lane.
#[inline(always)]
pub(crate) fn or(x: u32x8, y: u32x8) -> u32x8
    ensures { IsLanewise2 bit_or x y result }
{
    x | y
}

/// The bits that just one has, lane by lane.
#[inline(always)]
pub(crate) fn xor(x: u32x8, y: u32x8) -> u32x8
    ensures { IsLanewise2 bit_xor x y result }
{
    x ^ y
}

/// The sum, modulo 2^32, lane by lane.
#[inline(always)]
pub(crate) fn add(x: u32x8, y: u32x8) -> u32x8
    ensures { IsLanewise2 add32 x y result }
{
    x + y
}

/// The other bits, lane by lane.
#[inline(always)]
pub(crate) fn not(x: u32x8) -> u32x8
    ensures { IsLanewise1 (bit_not w32) x result }
{
    !x
}

/// The bits rotated towards the high end, lane by lane.
#[inline(always)]
pub(crate) fn rotate_left(x: u32x8, s: u32) -> u32x8
    requires { (0 < s) × (s < 32) }
    ensures { IsLanewise1 (λ word. rotate_left w32 word s) x result }
{
    (x << u32x8::splat(s)) | (x >> u32x8::splat(32 - s))
}

/// Adds to a variable what the steps made of it, in the lanes that are live: a mask of zeros makes the addend zero.
#[inline(always)]
pub(crate) fn carry(h: u32x8, v: u32x8, live: u32x8) -> u32x8
    ensures taken { EachLive live (λ j. slice_index result j
        ≡ add32 (slice_index h j) (slice_index v j)) }
    ensures left { EachEnded live (λ j. slice_index result j ≡ slice_index h j) }
{
    add(h, and(v, live))
}
