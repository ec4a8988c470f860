//! Keys of 64 octets.
ghost use Rattle.std.specs.Prelude.{◌≡◌, ℕ, ◌-◌, ◌≤◌, ◌++◌, List, length, replicate};
ghost use Rattle.rad_hmac.specs.Hmac.{hmac, mac_under, padded_key, xor};

use md5::{Digest, Md5};
use rad_md5::BLOCK_LEN;
use std::marker::Model;
use std::simd::u8x64;

/// A key as HMAC takes it, padded with zeros to 64 octets.
#[derive(Drop)]
pub struct Key {
    octets: [u8; BLOCK_LEN],
}

impl Model for Key {
    ghost use Rattle.std.specs.Prelude.{◌≡◌, ℕ, List, length};

    ghost Value = { List ℕ };

    ghost view = { λ key. key.octets };

    ghost invariant = { λ key. length key.octets ≡ 64 };
}

impl Key {
    /// The 64 octets of a key, made once and kept.
    ///
    /// A key of more than 64 octets is digested first. Source: RFC 2104, section 2.
    #[tactic(auto, unfolding(crate::specs::Hmac::padded_key))]
    pub fn new(key: &[u8]) -> Key
        ensures value { result ≡ padded_key key.now }
        ensures macs { (text : List ℕ) → mac_under result text ≡ hmac key.now text }
    {
        if key.len() > BLOCK_LEN {
            Key::padded(&Md5::digest(key))
        } else {
            Key::padded(key)
        }
    }

    // The key, padded with zeros.
    fn padded(key: &[u8]) -> Key
        requires { length key.now ≤ 64 }
        ensures { result ≡ key.now ++ replicate (64 - length key.now) 0 }
    {
        let mut octets = [0; BLOCK_LEN];
        octets[..key.len()].copy_from_slice(key);
        Key { octets }
    }

    /// The exclusive or of each octet with this one.
    #[inline(always)]
    pub(crate) fn xor(&self, pad: u8) -> [u8; BLOCK_LEN]
        ensures { result ≡ xor self.now (replicate 64 pad) }
    {
        (u8x64::from_array(self.octets) ^ u8x64::splat(pad)).to_array()
    }
}
