//! What a server remembers is carried to a server of another configuration.
ghost use Rattle.std.specs.Prelude.{◌≡◌, IfOk, OnOk};
ghost use Rattle.rad_server.specs.Restored.{rows_of};
ghost use Rattle.rad_carry.specs.Carried.{and_rows, carried, carried_by, left_out};

use crate::network::{network_places, networks};
use crate::places::Places;
use crate::put::{put, put_challenges, put_replies, put_sessions};
use rad_config::Config;
use rad_pool::{Session, Sessions};
use rad_server::{HashKey, Server, StateRow};
use std::alloc::{AllocError, Global};

/// A server of the new configuration, and what was left out.
#[derive(Drop)]
pub struct Carried<'n> {
    pub server: Server<'n>,
    /// The sessions that were not carried, in the order of their numbers, with the places of the old configuration. Whoever has one
    /// may still use its address.
    pub left_out: Vec<Session>,
}

/// A server of another configuration that remembers what this one does, as far as it fits.
///
/// Users are found by their names, clients by their networks. The new server goes on at the clock of the old one, which stays as it
/// is. A row that the new configuration refuses is left out; only memory ends the call. The key is that of the hashes.
pub fn carry<'n>(
    alloc: Global,
    server: &Server,
    config: &'n Config,
    key: HashKey,
) -> Result<Carried<'n>, AllocError>
    ensures configuration { IfOk result (λ carried. carried.server.configuration ≡ config.now) }
    ensures state { IfOk result (λ new. new.server.state
        ≡ carried server.now.configuration config.now server.now.state) }
    ensures left_out { IfOk result (λ carried. carried.left_out.items
        ≡ left_out server.now.state.sessions carried.server.state.sessions) }
{
    let old = networks(alloc, server.config().clients())?;
    let new = networks(alloc, config.clients())?;
    let clients = network_places(alloc, &old, &new)?;
    carry_by(alloc, server, config, key, &clients)
}

// The same with the clients by a list: it has the new place of each, or None where it is gone.
fn carry_by<'n>(
    alloc: Global,
    server: &Server,
    config: &'n Config,
    key: HashKey,
    clients: &[Option<u32>],
) -> Result<Carried<'n>, AllocError>
    ensures configuration { IfOk result (λ carried. carried.server.configuration ≡ config.now) }
    ensures state { IfOk result (λ carried. carried.server.state
        ≡ carried_by clients.now server.now.configuration config.now server.now.state) }
    ensures left_out { IfOk result (λ carried. carried.left_out.items
        ≡ left_out server.now.state.sessions carried.server.state.sessions) }
{
    let places = Places::by(alloc, clients, server.config(), config)?;
    let mut new = Server::open_keyed(alloc, config, key)?;
    server.state_is_lawful();
    new.pass(server.clock());
    put_rows(&mut new, &places, server)?;
    let left_out = left_out(alloc, server.sessions(), new.sessions())?;
    Ok(Carried {
        server: new,
        left_out,
    })
}

// Puts the rows of a server into a new one, in their order.
fn put_rows(new: &mut Server, places: &Places, old: &Server) -> Result<(), AllocError>
    ensures put { OnOk result (new.new.state ≡ and_rows places.now new.old.configuration
        old.now.state.sessions (rows_of old.now.state) new.old.state) }
    ensures configuration { new.new.configuration ≡ new.old.configuration }
{
    let sessions = old.sessions();
    let challenges = old.challenges();
    put_sessions(new, places, sessions)?;
    put(new, sessions, StateRow::LastSession(sessions.last()))?;
    put_replies(new, places, sessions, old.recent())?;
    put_challenges(new, places, sessions, challenges)?;
    put(new, sessions, StateRow::LastChallenge(challenges.last()))
}

// The sessions of an old table that a new one hasn't.
fn left_out(alloc: Global, old: &Sessions, new: &Sessions) -> Result<Vec<Session>, AllocError>
    ensures { IfOk result (λ left. left.items ≡ left_out old.now.table new.now.table) }
{
    let mut left = Vec::new(alloc);
    for session in old.rows() {
        if new.get(session.number).is_none() {
            left.push(session)?;
        }
    }
    Ok(left)
}
