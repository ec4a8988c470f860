//! The users, found by an index.
ghost use Rattle.std.specs.Prelude.{◌≡◌, ◌<◌, ◌||◌, ℕ, nat_eq};
ghost use Rattle.std.specs.List.{list_any};
ghost use Rattle.indexmap.specs.IndexSet.{spare};
ghost use Rattle.rad_config.specs.Configurations.{is_that};

use crate::user::User;
use indexmap::IndexSet;
use std::alloc::{AllocError, Global};
use std::marker::Model;

/// The most users that a configuration has.
pub const USERS_MAX: usize = 65_536;

/// The users in the order of the text, at most `USERS_MAX`.
#[derive(Drop)]
pub struct Users {
    rows: Vec<User>,
    // The users' names: a name has the place of its user.
    names: IndexSet<Vec<u8>>,
    // The addresses of users' own.
    addresses: IndexSet<u32>,
}

impl Model for Users {
    ghost use Rattle.std.specs.Prelude.{List};
    ghost use Rattle.rad_config.specs.UserTables.{KeepsUsers};
    ghost use Rattle.rad_config.specs.declared.user.User.{User};

    ghost Value = { List User };

    ghost view = { λ users. users.rows.items };

    ghost invariant = { λ users.
        KeepsUsers users.names.keys users.addresses.keys users.rows.items };
}

impl Users {
    ghost use Rattle.std.specs.Prelude.{◌≡◌, ◌<◌, ◌≤◌, [], ◌∷◌, ◌++◌, length, OnOk, IfSome, None};
    ghost use Rattle.std.specs.List.{list_any};
    ghost use Rattle.rad_config.specs.Configurations.{has_own, user_place, users_max};
    ghost use Rattle.rad_config.specs.Ranges.{AreNamedApart};

    /// No users.
    pub fn new(alloc: Global) -> Users
        ensures { result ≡ [] }
    {
        Users {
            rows: Vec::new(alloc),
            names: IndexSet::new(alloc),
            addresses: IndexSet::new(alloc),
        }
    }

    /// The users.
    pub fn rows(&self) -> &[User]
        ensures value { result.now ≡ self.now }
        ensures bound { length self.now ≤ users_max }
        ensures names { AreNamedApart self.now }
    {
        &self.rows
    }

    /// The place of the user with this name.
    pub fn find(&self, name: &[u8]) -> Option<u32>
        ensures value { result ≡ user_place self.now name.now }
        ensures within { IfSome result (λ place. place < length self.now) }
    {
        let place = self.names.get_index_of(name)?;
        Some(place as u32)
    }

    /// Whether one of the users has this address of their own.
    pub fn has_address(&self, address: u32) -> bool
        ensures { result ≡ list_any (has_own address) self.now }
    {
        self.addresses.contains(&address)
    }

    /// Adds a user, whose name is new, after the others.
    pub fn add(&mut self, user: User) -> Result<(), AllocError>
        requires room { length self.old < users_max }
        requires new { user_place self.old user.name ≡ None }
        ensures { OnOk result (self.new ≡ self.old ++ user ∷ []) }
    {
        let name = Vec::from_slice(*self.rows.allocator(), user.name.octets())?;
        self.rows.reserve(1)?;
        self.addresses.reserve(1)?;
        self.names.insert(name)?;
        add_address(&mut self.addresses, user.address);
        self.rows.push(user).unwrap();
        Ok(())
    }
}

// Adds an address, if there is one, to those that users have.
fn add_address(addresses: &mut IndexSet<u32>, address: Option<u32>)
    requires { 0 < spare addresses.old }
    ensures { (other : ℕ) → list_any (nat_eq other) addresses.new.keys
        ≡ (list_any (nat_eq other) addresses.old.keys || is_that other address) }
{
    if let Some(address) = address {
        addresses.insert(address).unwrap();
    }
}
