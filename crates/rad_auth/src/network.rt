//! Networks: addresses whose leading bits are the same, as many as a prefix says.
ghost use Rattle.std.specs.Prelude.{◌≡◌, ℕ, ◌<◌, ◌≤◌, Contains, vec_capacity, vec_len};
ghost use Rattle.rad_auth.specs.Clients.{address_bits, network_fits};
ghost use Rattle.rad_auth.specs.ClientRows.{IsGreatestFirst, network_key};

/// The greatest prefix, which is that of a single address: an address has as many bits.
pub const PREFIX_MAX: u8 = 32;

// How many addresses there are.
const ADDRESSES: u64 = 1 << PREFIX_MAX;

/// The addresses that begin as one does, with as many bits as a prefix says.
///
/// An address has its most significant octet first. Source: RFC 4632, section 3.1.
#[derive(Clone, Copy, Debug, PartialEq, Eq)]
pub struct Network {
    pub address: u32,
    pub prefix: u8,
}

/// Whether an address and a prefix say a network: the prefix is at most `PREFIX_MAX`, and no bit of the address past it is set.
///
/// Source: RFC 4632, section 3.1.
pub fn network_fits(address: u32, prefix: u8) -> bool
    ensures { result ≡ network_fits address prefix }
{
    prefix <= PREFIX_MAX && u64::from(address) % (1 << (PREFIX_MAX - prefix)) == 0
}

/// What the network of an address and a prefix is found by: one number, which is hashed faster than a pair.
pub(crate) fn network_key(address: u32, prefix: u8) -> u64
    requires { prefix ≤ address_bits }
    ensures { result ≡ network_key address prefix }
{
    u64::from(prefix) * ADDRESSES + (u64::from(address) >> (PREFIX_MAX - prefix))
}

/// Adds a prefix to those that there are, unless it is among them.
pub(crate) fn add_prefix(prefixes: &mut Vec<u8>, prefix: u8)
    requires room { vec_len prefixes.old < vec_capacity prefixes.old }
    requires within { prefix ≤ address_bits }
    requires greatest_first { IsGreatestFirst prefixes.old.items }
    ensures added { Contains prefixes.new.items prefix }
    ensures kept { (other : ℕ) →
        Contains prefixes.old.items other → Contains prefixes.new.items other }
    ensures greatest_first { IsGreatestFirst prefixes.new.items }
{
    let place = prefixes.partition_point(|other| *other > prefix);
    if prefixes.get(place) != Some(&prefix) {
        prefixes.insert(place, prefix).unwrap();
    }
}
