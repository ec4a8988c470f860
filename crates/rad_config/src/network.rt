//! Networks of clients, as texts spell them.
ghost use Rattle.std.specs.Prelude.{◌≡◌, IfSome};
ghost use Rattle.rad_config.specs.Networks.{IsNetwork, network_of, network_with, prefix_of};

use rad_auth::{PREFIX_MAX, network_fits};
use rad_text::decimal;
use rad_text::split::split_once;

/// An address, and how many leading bits of it a network's addresses have in common: all, if it is one address.
#[derive(Clone, Copy)]
pub struct Network {
    pub address: u32,
    pub prefix: u8,
}

/// The network that a text spells: an address, or an address, `/` and a prefix.
pub fn network_of(text: &[u8]) -> Option<Network>
    ensures value { result ≡ network_of text.now }
    ensures fits { IfSome result IsNetwork }
{
    match split_once(text, b'/') {
        None => network_with(text, Some(PREFIX_MAX)),
        Some((address, prefix)) => network_with(address, prefix_of(prefix)),
    }
}

// The network that an address and a prefix say, if the prefix is there and no bit past it is set.
#[tactic(auto, unfolding(crate::specs::Networks::network_with))]
fn network_with(text: &[u8], prefix: Option<u8>) -> Option<Network>
    ensures value { result ≡ network_with text.now prefix }
    ensures fits { IfSome result IsNetwork }
{
    let address = decimal::address(text)?;
    let prefix = prefix?;
    if !network_fits(address, prefix) {
        return None;
    }
    Some(Network { address, prefix })
}

// The prefix that one or two digits spell.
#[tactic(auto, unfolding(crate::specs::Networks::prefix_of))]
fn prefix_of(text: &[u8]) -> Option<u8>
    ensures { result ≡ prefix_of text.now }
{
    match text {
        [b'0', _, ..] => None,
        _ => Some(decimal::number(text, 2, u64::from(PREFIX_MAX))? as u8),
    }
}
