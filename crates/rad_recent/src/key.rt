//! What requests are recognised by.
ghost use Rattle.std.specs.Prelude.{◌≡◌};
ghost use Rattle.rad_recent.specs.Recent.{same_key};

use rad_auth::Door;

/// What a repeated request has in common with its original, besides its octets.
///
/// Source: RFC 2865, section 3; RFC 5080, section 2.2.2.
#[derive(Clone, Copy, Debug, PartialEq, Eq)]
#[derive_where(Hash)]
pub struct Key {
    /// The source address, most significant octet first.
    pub source: u32,
    /// The source port.
    pub port: u16,
    // A `Door` has no hash, so two keys that differ in it alone share one.
    #[derive_where(skip(Hash))]
    pub door: Door,
    /// The Identifier.
    pub id: u8,
}

impl Key {
    // Whether both keys are equal.
    pub(crate) fn is(&self, other: &Key) -> bool
        ensures { result ≡ same_key self.now other.now }
    {
        self == other
    }
}
