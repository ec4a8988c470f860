//! The networks of clients, and where they are among others.
ghost use Rattle.std.specs.Prelude.{◌≡◌, ◌≤◌, IfOk, length, map, position};
ghost use Rattle.rad_auth.specs.Clients.{clients_max, network_of};
ghost use Rattle.rad_carry.specs.Places.{network_place, network_places, same_network};

use rad_auth::{Clients, Network};
use std::alloc::{AllocError, Global};

/// The networks of the clients, in their order.
pub(crate) fn networks(alloc: Global, clients: &Clients) -> Result<Vec<Network>, AllocError>
    ensures networks { IfOk result (λ networks. networks.items ≡ map network_of clients.now) }
    ensures few { IfOk result (λ networks. length networks.items ≤ clients_max) }
{
    let count = clients.len() as u32;
    let mut networks = Vec::with_capacity(alloc, clients.len())?;
    for place in 0..count {
        networks.push(clients.network(place))?;
    }
    Ok(networks)
}

/// The new place of each of the old networks, or None where it is gone.
///
/// There are at most `CLIENTS_MAX` new ones. Where they have a network more than once, its old place counts first, and then the
/// first place that has it.
pub(crate) fn network_places(
    alloc: Global,
    old: &[Network],
    new: &[Network],
) -> Result<Vec<Option<u32>>, AllocError>
    requires few { length new.now ≤ clients_max }
    ensures { IfOk result (λ places. places.items ≡ network_places old.now new.now) }
{
    let mut places = Vec::with_capacity(alloc, old.len())?;
    for network in old {
        places.push(network_place(new, places.len(), network))?;
    }
    Ok(places)
}

// The place of a network that had this one.
fn network_place(new: &[Network], place: usize, network: &Network) -> Option<u32>
    requires { length new.now ≤ clients_max }
    ensures { result ≡ network_place new.now place network.now }
{
    match new.get(place) {
        Some(other) if same_network(network, other) => Some(place as u32),
        _ => first_place(new, network),
    }
}

// The first place of a network, if it has one.
fn first_place(new: &[Network], network: &Network) -> Option<u32>
    requires { length new.now ≤ clients_max }
    ensures { result ≡ position (same_network network.now) new.now }
{
    for (place, other) in new.iter().enumerate() {
        if same_network(network, other) {
            return Some(place as u32);
        }
    }
    None
}

// Whether a network is the other one.
fn same_network(network: &Network, other: &Network) -> bool
    ensures { result ≡ same_network network.now other.now }
{
    network.address == other.address && network.prefix == other.prefix
}
