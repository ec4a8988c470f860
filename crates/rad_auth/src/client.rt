//! The clients that share a secret with the server.
ghost use Rattle.std.specs.Prelude.{◌≡◌, ◌↔◌, IsTrue};

use crate::network::{Network, add_prefix, network_key};
use crate::secret::Secret;
use indexmap::IndexSet;
use std::alloc::Global;
use std::marker::Model;
use thiserror::Error;

/// The most clients that a list holds.
pub const CLIENTS_MAX: usize = 256;

/// Why a client was not added.
#[derive(Clone, Copy, Debug, PartialEq, Eq, Error)]
pub enum ClientFault {
    /// Another client has the address with the same prefix.
    #[error("the network occurs twice")]
    Doubled = 1,
    /// An allocation failed.
    #[error("out of memory")]
    NoMemory = 2,
}

/// The clients in the order in which they were added, at most `CLIENTS_MAX`.
#[derive(Drop)]
pub struct Clients {
    rows: Vec<ClientRow>,
    // The keys of the clients' networks: each has the place of its client.
    networks: IndexSet<u64>,
    // The prefixes that clients have, the greatest first.
    prefixes: Vec<u8>,
}

impl Model for Clients {
    ghost use Rattle.std.specs.Prelude.{List};
    ghost use Rattle.rad_auth.specs.Clients.{Client};
    ghost use Rattle.rad_auth.specs.ClientRows.{KeepsClients, row_clients};

    ghost Value = { List Client };

    ghost view = { λ a. row_clients a.rows.items };

    ghost invariant = { λ a.
        KeepsClients a.networks.keys a.prefixes.items (row_clients a.rows.items) };
}

impl Clients {
    ghost use Rattle.std.specs.Prelude.{◌≡◌, ◌<◌, ◌≤◌, ◌==◌, ◌↔◌, [], length, OnOk, OnErr, IsErrOf, IsTrue, IfSome};
    ghost use Rattle.rad_auth.specs.Clients.{Client, IsSecret, clients_max, client_place, client_at, has_network, network_fits};
    ghost use Rattle.rad_auth.specs.Clients.{network_of, secret_at, with_client};
    ghost use Rattle.rad_auth.specs.declared.client.ClientFault.TheVariants.{Doubled};

    /// An empty list of clients.
    pub fn new(alloc: Global) -> Clients
        ensures { result ≡ [] }
    {
        Clients {
            rows: Vec::new(alloc),
            networks: IndexSet::new(alloc),
            prefixes: Vec::new(alloc),
        }
    }

    /// Adds a client after the others: those whose addresses begin as this one does, with as many bits as the prefix says.
    ///
    /// There are fewer than `CLIENTS_MAX` so far, `network_fits` holds, and the secret has 1 to `SECRET_MAX` octets. Returns
    /// `Doubled` if and only if the address is already listed with this prefix, and `NoMemory` only if it isn't; either changes
    /// nothing.
    pub fn add(
        &mut self,
        address: u32,
        prefix: u8,
        secret: &[u8],
        require_message_authenticator: bool,
    ) -> Result<(), ClientFault>
        requires room { length self.old < clients_max }
        requires fits { IsTrue (network_fits address prefix) }
        requires is_secret { IsSecret secret.now }
        ensures ok { OnOk result (self.new ≡
            with_client self.old address prefix secret.now require_message_authenticator) }
        ensures err { OnErr result (self.new ≡ self.old) }
        ensures doubled { IsErrOf result Doubled ↔ IsTrue (has_network self.old address prefix) }
    {
        if self.has_network(address, prefix) {
            return Err(ClientFault::Doubled);
        }
        // The set takes the network only once rows and prefixes have room, so that all have the client or none.
        self.rows.reserve(1).map_err(|_| ClientFault::NoMemory)?;
        self.prefixes.reserve(1).map_err(|_| ClientFault::NoMemory)?;
        self.networks
            .insert(network_key(address, prefix))
            .map_err(|_| ClientFault::NoMemory)?;
        add_prefix(&mut self.prefixes, prefix);
        let row = ClientRow {
            address,
            prefix,
            secret: Secret::new(secret),
            require_message_authenticator,
        };
        self.rows.push(row).unwrap();
        Ok(())
    }

    /// How many clients there are.
    pub fn len(&self) -> usize
        ensures value { result ≡ length self.now }
        ensures bound { length self.now ≤ clients_max }
    {
        self.rows.len()
    }

    /// Whether there is no client.
    pub fn is_empty(&self) -> bool
        ensures { result ≡ (length self.now == 0) }
    {
        self.rows.is_empty()
    }

    /// Whether the other list has the same clients in the same order: addresses, prefixes, secrets, and whether
    /// Access-Requests need a Message-Authenticator.
    pub fn same(&self, other: &Clients) -> bool
        ensures { IsTrue result ↔ (self.now ≡ other.now) }
    {
        same_rows(&self.rows, &other.rows)
    }

    /// Whether a client has this address with this prefix, for which `network_fits` holds.
    pub fn has_network(&self, address: u32, prefix: u8) -> bool
        requires { IsTrue (network_fits address prefix) }
        ensures { result ≡ has_network self.now address prefix }
    {
        self.networks.contains(&network_key(address, prefix))
    }

    /// The place of the client of this source: of those whose networks hold the address, the one with the greatest prefix.
    pub fn find(&self, source: u32) -> Option<u32>
        ensures value { result ≡ client_place self.now source }
        ensures within { IfSome result (λ place. place < length self.now) }
    {
        for prefix in &self.prefixes {
            let key = network_key(source, *prefix);
            if let Some(place) = self.networks.get_index_of(&key) {
                return Some(place as u32);
            }
        }
        None
    }

    /// The network of the client at this place.
    pub fn network(&self, place: u32) -> Network
        requires { place < length self.now }
        ensures { result ≡ network_of (client_at self.now place) }
    {
        let row = &self.rows[place as usize];
        Network {
            address: row.address,
            prefix: row.prefix,
        }
    }

    /// The secret of the client at this place.
    pub fn secret(&self, place: u32) -> &Secret
        requires { place < length self.now }
        ensures { result.now ≡ secret_at self.now place }
    {
        &self.rows[place as usize].secret
    }

    /// Whether Access-Requests of the client at this place need a Message-Authenticator.
    pub fn require_message_authenticator(&self, place: u32) -> bool
        requires { place < length self.now }
        ensures { result ≡ (client_at self.now place).require_message_authenticator }
    {
        self.rows[place as usize].require_message_authenticator
    }
}

// One client, as it was added.
#[derive(Drop)]
struct ClientRow {
    address: u32,
    prefix: u8,
    secret: Secret,
    require_message_authenticator: bool,
}

impl ClientRow {
    // Whether the other row says the same of its client.
    fn same(&self, other: &ClientRow) -> bool
        ensures { IsTrue result ↔ (self.now ≡ other.now) }
    {
        self.address == other.address
            && self.prefix == other.prefix
            && self.secret.octets() == other.secret.octets()
            && self.require_message_authenticator == other.require_message_authenticator
    }
}

// Whether both have the same rows in the same order.
fn same_rows(rows: &[ClientRow], others: &[ClientRow]) -> bool
    ensures { IsTrue result ↔ (rows.now ≡ others.now) }
{
    rows.len() == others.len() && rows.iter().zip(others).all(|(row, other)| row.same(other))
}
