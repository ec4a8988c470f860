//! Secrets, each with the key that is made of it once.
ghost use Rattle.std.specs.Prelude.{◌≡◌, ℕ, List};
ghost use Rattle.rad_auth.specs.Clients.{IsSecret};

use rad_hmac::Key;
use std::marker::Model;

/// The most octets that a secret has.
pub const SECRET_MAX: usize = 128;

/// A secret of 1 to `SECRET_MAX` octets, and the HMAC key that is made of it once. Contracts see its octets.
#[derive(Drop)]
pub struct Secret {
    octets: [u8; SECRET_MAX],
    len: usize,
    key: Key,
}

impl Model for Secret {
    ghost use Rattle.std.specs.Prelude.{ℕ, List, take};
    ghost use Rattle.rad_auth.specs.Secrets.{KeepsSecret};

    ghost Value = { List ℕ };

    ghost view = { λ s. take s.len s.octets };

    ghost invariant = { λ s. KeepsSecret s.octets s.len s.key };
}

impl Secret {
    ghost use Rattle.std.specs.Prelude.{◌≡◌, ℕ, List};
    ghost use Rattle.rad_hmac.specs.Hmac.{hmac, mac_under};
    ghost use Rattle.rad_auth.specs.Clients.{IsSecret};

    /// The secret of these octets, of which there are 1 to `SECRET_MAX`.
    pub fn new(octets: &[u8]) -> Secret
        requires { IsSecret octets.now }
        ensures { result ≡ octets.now }
    {
        let mut kept = [0; SECRET_MAX];
        kept[..octets.len()].copy_from_slice(octets);
        Secret {
            octets: kept,
            len: octets.len(),
            key: Key::new(octets),
        }
    }

    /// The octets.
    pub fn octets(&self) -> &[u8]
        ensures value { result.now ≡ self.now }
        ensures is_secret { IsSecret result.now }
    {
        &self.octets[..self.len]
    }

    /// The HMAC key.
    pub(crate) fn key(&self) -> &Key
        ensures { (text : List ℕ) → mac_under result.now text ≡ hmac self.now text }
    {
        &self.key
    }
}
