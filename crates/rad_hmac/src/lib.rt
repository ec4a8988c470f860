//! HMAC-MD5, eight messages at a time (RFC 2104, section 2).
//!
//! A `Key` is made once of a secret, and kept; `hmac8` computes the HMACs of eight messages in pieces, each under its key,
//! in two passes of `rad_md5::digest8`. `hmac_some` computes those that are wanted, few of them one after the other. Nothing takes
//! memory, and no message is joined.
//!
//! Others rest on this: each lane of `hmac8` is the `mac_under` of `specs/Hmac.antt`, over the meaning that the crate `md5`
//! gives to a digest, and under a key of `Key::new` it is the HMAC under the key that was given.
#![tactic(auto)]

mod hmac;
mod key;

pub use hmac::{hmac_one, hmac_some, hmac8};
pub use key::Key;
