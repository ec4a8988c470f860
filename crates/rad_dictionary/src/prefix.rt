//! IPv6 addresses and prefixes as texts spell them.
ghost use Rattle.std.specs.Prelude.{◌≡◌, ◌≤◌, IfSome, option_map};
ghost use Rattle.rad_dictionary.specs.Ipv6.{has_no_bit_past, ipv6_of, ipv6_prefix_of, length_of, prefix_with};
ghost use Rattle.rad_dictionary.specs.Seen.{prefix_octets};
ghost use Rattle.std.specs.Net.Addr.{ipv6_octets};

use rad_text::decimal;
use rad_text::split::split_once;
use std::net::Ipv6Addr;

/// How many bits an address has.
const BITS: u8 = 128;

/// An address, and how many leading bits of it a prefix has.
#[derive(Clone, Copy)]
pub(crate) struct Prefix {
    pub(crate) address: Ipv6Addr,
    pub(crate) length: u8,
}

/// The octets of the address that a text spells (RFC 4291, section 2.2).
pub(crate) fn ipv6(text: &[u8]) -> Option<[u8; 16]>
    ensures { result ≡ ipv6_of text.now }
{
    Some(address(text)?.octets())
}

// The address that a text spells.
fn address(text: &[u8]) -> Option<Ipv6Addr>
    ensures { option_map ipv6_octets result ≡ ipv6_of text.now }
{
    match Ipv6Addr::parse_ascii(text) {
        Ok(address) => Some(address),
        Err(_) => None,
    }
}

/// The prefix that a text spells, if no bit past it is set (RFC 4291, section 2.3).
#[tactic(auto, unfolding(crate::specs::Ipv6::ipv6_prefix_of))]
pub(crate) fn ipv6_prefix(text: &[u8]) -> Option<Prefix>
    ensures { option_map prefix_octets result ≡ ipv6_prefix_of text.now }
{
    let (text, length) = split_once(text, b'/')?;
    prefix_with(address(text)?, length_of(length)?)
}

// The prefix of so many bits, if no bit past them is set.
fn prefix_with(address: Ipv6Addr, length: u8) -> Option<Prefix>
    requires { length ≤ 128 }
    ensures { option_map prefix_octets result ≡ prefix_with (ipv6_octets address) length }
{
    if !has_no_bit_past(address.to_bits(), length) {
        return None;
    }
    Some(Prefix { address, length })
}

// Whether no bit of an address is set past the first ones.
fn has_no_bit_past(bits: u128, length: u8) -> bool
    requires { length ≤ 128 }
    ensures { result ≡ has_no_bit_past bits length }
{
    match BITS - length {
        BITS => bits == 0,
        past => bits % (1 << past) == 0,
    }
}

// The number of bits that one to three digits spell.
#[tactic(auto, unfolding(crate::specs::Ipv6::length_of))]
fn length_of(text: &[u8]) -> Option<u8>
    ensures value { result ≡ length_of text.now }
    ensures bound { IfSome result (λ length. length ≤ 128) }
{
    match text {
        [b'0', _, ..] => None,
        _ => Some(decimal::number(text, 3, u64::from(BITS))? as u8),
    }
}
