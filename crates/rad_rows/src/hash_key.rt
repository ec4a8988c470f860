//! The key of a hash.
ghost use Rattle.core.specs.Hash.DefaultHasher.{with_keys};

use core::hash::keyed_hasher;
use std::hash::{BuildHasher, DefaultHasher};

/// The 128 bits that key the hash of a map: SipHash-1-3.
///
/// The keys of some maps come from the network. Without a key that others don't know, they could choose keys that share one hash,
/// and each look-up would go over all of them.
#[derive(Clone, Copy)]
pub struct HashKey {
    pub low: u64,
    pub high: u64,
}

impl HashKey {
    /// A key that everybody knows, where nobody else chooses what is looked up.
    pub const KNOWN: HashKey = HashKey { low: 0, high: 0 };
}

impl BuildHasher for HashKey {
    type Hasher = DefaultHasher;

    ghost build_hasher = { λ key. with_keys key.low key.high };

    fn build_hasher(&self) -> DefaultHasher {
        keyed_hasher(self.low, self.high)
    }
}
