//! Digests and HMACs one after the other, by the plain formulas over the toolchain's `md5`: what the works that take many
//! side by side are compared with.
ghost use Rattle.std.specs.Prelude.{◌≤◌, length};

use md5::{Digest, Md5};

const BLOCK_LEN: usize = 64;

/// The digest of a message in pieces.
pub(crate) fn digest(message: &[&[u8]]) -> [u8; 16] {
    let mut digest = Md5::new();
    for piece in message {
        digest.update(*piece);
    }
    digest.finalize()
}

/// The HMAC of a message in pieces under a secret (RFC 2104, section 2).
pub(crate) fn hmac(secret: &[u8], message: &[&[u8]]) -> [u8; 16] {
    if secret.len() > BLOCK_LEN {
        return hmac_under(&Md5::digest(secret), message);
    }
    hmac_under(secret, message)
}

fn hmac_under(key: &[u8], message: &[&[u8]]) -> [u8; 16]
    requires { length key.now ≤ 64 }
{
    let mut inner_pad = [0x36; BLOCK_LEN];
    let mut outer_pad = [0x5C; BLOCK_LEN];
    for i in 0..key.len() {
        inner_pad[i] ^= key[i];
        outer_pad[i] ^= key[i];
    }
    let mut inner = Md5::new_with_prefix(&inner_pad);
    for piece in message {
        inner.update(*piece);
    }
    let mut outer = Md5::new_with_prefix(&outer_pad);
    outer.update(&inner.finalize());
    outer.finalize()
}
