//! Where the clients and the users of one configuration are in another.
ghost use Rattle.std.specs.Prelude.{◌≡◌, IfOk};
ghost use Rattle.rad_carry.specs.Carried.{moved_challenge, moved_client, moved_reply, moved_session};
ghost use Rattle.rad_carry.specs.Places.{moved_place, places_by, user_places};

use rad_config::Config;
use rad_pool::Session;
use rad_recent::{Challenge, Kept};
use std::alloc::{AllocError, Global};
use std::marker::Model;

/// For each client and each user of an old configuration its place in a new one, or None where it is gone.
#[derive(Drop)]
pub(crate) struct Places<'a> {
    clients: &'a [Option<u32>],
    users: Vec<Option<u32>>,
}

impl<'a> Model for Places<'a> {
    ghost use Rattle.rad_carry.specs.Places.{Places};

    ghost Value = { Places };

    ghost view = { λ places. record { clients = places.clients.now; users = places.users.items } };
}

impl<'a> Places<'a> {
    /// The places of the users by their names, and of the clients as a list says.
    pub fn by(
        alloc: Global,
        clients: &'a [Option<u32>],
        old: &Config,
        new: &Config,
    ) -> Result<Places<'a>, AllocError>
        ensures { IfOk result (λ places. places ≡ places_by clients.now old.now new.now) }
    {
        let users = user_places(alloc, old, new)?;
        Ok(Places { clients, users })
    }

    /// A session with the new places of its client and its user, if both are still there.
    pub fn session(&self, session: &Session) -> Option<Session>
        ensures { result ≡ moved_session self.now session.now }
    {
        let client = moved_place(self.clients, session.client)?;
        let user = moved_place(&self.users, session.user)?;
        Some(Session {
            client,
            user,
            ..*session
        })
    }

    /// The same of a challenge.
    pub fn challenge(&self, row: &Challenge) -> Option<Challenge>
        ensures { result ≡ moved_challenge self.now row.now }
    {
        let client = moved_place(self.clients, row.client)?;
        let user = moved_place(&self.users, row.user)?;
        Some(Challenge {
            client,
            user,
            ..*row
        })
    }

    /// A copy of a reply with the new place of the client whose share it takes, if that is still there.
    pub fn reply(&self, reply: &Kept) -> Result<Option<Kept>, AllocError>
        ensures { IfOk result (λ moved. moved ≡ moved_reply self.now reply.now) }
    {
        let Some(client) = moved_client(self.clients, reply.client) else {
            return Ok(None);
        };
        let mut copy = reply.copy()?;
        copy.client = client;
        Ok(Some(copy))
    }
}

// The new place of each user, by name.
fn user_places(alloc: Global, old: &Config, new: &Config) -> Result<Vec<Option<u32>>, AllocError>
    ensures { IfOk result (λ places. places.items ≡ user_places old.now.users new.now.users) }
{
    let users = old.users();
    let mut places = Vec::with_capacity(alloc, users.len())?;
    for user in users {
        places.push(new.user(user.name.octets()))?;
    }
    Ok(places)
}

// The new place of the client whose share a reply takes, if it is still there; nobody stays nobody.
fn moved_client(places: &[Option<u32>], client: Option<u32>) -> Option<Option<u32>>
    ensures { result ≡ moved_client places.now client }
{
    match client {
        None => Some(None),
        Some(client) => Some(Some(moved_place(places, client)?)),
    }
}

// The new place of what had this one, if it is still there.
fn moved_place(places: &[Option<u32>], place: u32) -> Option<u32>
    ensures { result ≡ moved_place places.now place }
{
    *places.get(place as usize)?
}
