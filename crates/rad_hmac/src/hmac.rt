//! HMACs of messages under keys, eight at a time.
ghost use Rattle.std.specs.Prelude.{◌≡◌, ◌<◌, ◌++◌, [], false, length, map, replicate, slice_index_or, true, All};
ghost use Rattle.std.specs.Simd.Lanes.{zip2};
ghost use Rattle.md5.specs.Md5.{md5};
ghost use Rattle.rad_md5.specs.Lanes.{EachLane};
ghost use Rattle.rad_md5.specs.Pieces.{HasFreePiece, message};
ghost use Rattle.rad_hmac.specs.Hmac.{keyed_message, mac_of, mac_under, text_limit, xor};

use crate::key::Key;
use rad_md5::{BLOCK_LEN, DIGEST_LEN, LANES, Pieces, digest_one, digest8, each_lane, pass_pays};

// The octet that ipad repeats.
const IPAD: u8 = 0x36;

// The octet that opad repeats.
const OPAD: u8 = 0x5C;

/// HMAC-MD5 of eight messages, each under its key.
///
/// The fifth slice of each message stays empty, since a pad takes its room, and the pad's 64 octets count towards 2^32.
/// Source: RFC 2104, section 2.
pub fn hmac8(messages: &[(&Key, Pieces); LANES]) -> [[u8; DIGEST_LEN]; LANES]
    requires free { All (λ keyed. HasFreePiece keyed.1) messages.now }
    requires short { All (λ keyed. length (keyed_message keyed) < text_limit) messages.now }
    ensures { result ≡ map mac_of messages.now }
{
    let inner = inner8(&pads8(messages, IPAD), messages);
    outer8(&pads8(messages, OPAD), &inner)
}

/// The HMACs of those of eight messages that are wanted, in their lanes. What is in the other lanes says nothing.
///
/// The rest is as for `hmac8`.
pub fn hmac_some(
    messages: &[(&Key, Pieces); LANES],
    wanted: &[bool; LANES],
) -> [[u8; DIGEST_LEN]; LANES]
    requires free { All (λ keyed. HasFreePiece keyed.1) messages.now }
    requires short { All (λ keyed. length (keyed_message keyed) < text_limit) messages.now }
    ensures { EachLane (λ j. slice_index_or wanted.now j false ≡ true
        → slice_index_or result j [] ≡ slice_index_or (map mac_of messages.now) j []) }
{
    if pass_pays(wanted) {
        return hmac8(messages);
    }
    each_lane!(j, keyed of messages => hmac_if(wanted[j], keyed))
}

// The HMAC of a message under its key, if it is wanted.
fn hmac_if(is_wanted: bool, keyed: &(&Key, Pieces)) -> [u8; DIGEST_LEN]
    requires free { HasFreePiece keyed.now.1 }
    requires short { length (keyed_message keyed.now) < text_limit }
    ensures { is_wanted ≡ true → result ≡ mac_of keyed.now }
{
    if is_wanted {
        hmac_one(keyed.0, &keyed.1)
    } else {
        [0; DIGEST_LEN]
    }
}

/// HMAC-MD5 of a message under a key. The fifth slice of the message stays empty.
///
/// Source: RFC 2104, section 2.
#[tactic(auto, unfolding(crate::specs::Hmac::mac_under))]
pub fn hmac_one(key: &Key, text: &Pieces) -> [u8; DIGEST_LEN]
    requires free { HasFreePiece text.now }
    requires short { length (message text.now) < text_limit }
    ensures { result ≡ mac_under key.now (message text.now) }
{
    outer(&key.xor(OPAD), &inner(&key.xor(IPAD), text))
}

// The digest of a pad followed by a message.
fn inner(pad: &[u8; BLOCK_LEN], text: &Pieces) -> [u8; DIGEST_LEN]
    requires free { HasFreePiece text.now }
    requires short { length (message text.now) < text_limit }
    ensures { result ≡ md5 (pad.now ++ message text.now) }
{
    digest_one(&text.after(pad))
}

// The digest of a pad followed by an inner digest.
fn outer(pad: &[u8; BLOCK_LEN], inner: &[u8; DIGEST_LEN]) -> [u8; DIGEST_LEN]
    ensures { result ≡ md5 (pad.now ++ inner.now) }
{
    digest_one(&after_pad(pad, inner))
}

// Each key's exclusive or with this octet.
#[inline(always)]
fn pads8(messages: &[(&Key, Pieces); LANES], pad: u8) -> [[u8; BLOCK_LEN]; LANES]
    ensures { result ≡ map (λ keyed. xor keyed.0.now (replicate 64 pad)) messages.now }
{
    each_lane!(keyed of messages => keyed.0.xor(pad))
}

// The digest of each pad followed by its message.
#[inline(always)]
fn inner8(
    pads: &[[u8; BLOCK_LEN]; LANES],
    messages: &[(&Key, Pieces); LANES],
) -> [[u8; DIGEST_LEN]; LANES]
    requires free { All (λ keyed. HasFreePiece keyed.1) messages.now }
    requires short { All (λ keyed. length (keyed_message keyed) < text_limit) messages.now }
    ensures { result ≡ zip2 (λ pad keyed. md5 (pad ++ keyed_message keyed)) pads.now messages.now }
{
    let [pa, pb, pc, pd, pe, pf, pg, ph] = pads;
    let [a, b, c, d, e, f, g, h] = messages;
    digest8(&[
        a.1.after(pa),
        b.1.after(pb),
        c.1.after(pc),
        d.1.after(pd),
        e.1.after(pe),
        f.1.after(pf),
        g.1.after(pg),
        h.1.after(ph),
    ])
}

// The digest of each pad followed by its inner digest.
#[inline(always)]
fn outer8(
    pads: &[[u8; BLOCK_LEN]; LANES],
    inner: &[[u8; DIGEST_LEN]; LANES],
) -> [[u8; DIGEST_LEN]; LANES]
    ensures { result ≡ zip2 (λ pad digest. md5 (pad ++ digest)) pads.now inner.now }
{
    let [pa, pb, pc, pd, pe, pf, pg, ph] = pads;
    let [a, b, c, d, e, f, g, h] = inner;
    digest8(&[
        after_pad(pa, a),
        after_pad(pb, b),
        after_pad(pc, c),
        after_pad(pd, d),
        after_pad(pe, e),
        after_pad(pf, f),
        after_pad(pg, g),
        after_pad(ph, h),
    ])
}

// A pad, and the inner digest after it.
#[inline(always)]
fn after_pad<'a>(pad: &'a [u8; BLOCK_LEN], digest: &'a [u8; DIGEST_LEN]) -> Pieces<'a>
    ensures { message result ≡ pad.now ++ digest.now }
{
    Pieces::of([pad, digest, &[], &[], &[]])
}
