//! Pools of addresses.

use crate::text::Text;

/// The most pools that a configuration has.
pub const POOLS_MAX: usize = 16;

/// Addresses that are given to sessions, from the first to the last.
///
/// An address has its most significant octet first. In a configuration the name has 1 to 64 octets, `first` is at least
/// 0.0.0.1, `last` is at most 255.255.255.253, not below `first`, and at most 65,535 above it.
#[derive(Drop)]
pub struct Pool {
    pub name: Text,
    pub first: u32,
    pub last: u32,
}
