//! What a server remembers is carried to a server of another configuration, as far as it fits.
//!
//! Clients are found again by their networks, users by their names, and pools by the addresses of the sessions. Each row is put
//! back at its new places (`Server::restore`), or left out if a rule of the new configuration refuses it.
//!
//! Other crates rest on this: the new server remembers what `specs/Carried.antt` says, which is lawful under the new configuration,
//! and all that the old one remembers if the configuration is the same (`carried_is_lawful`).
#![tactic(auto)]

mod carrying;
mod lawful;
mod network;
mod places;
mod put;

pub use carrying::{Carried, carry};
pub use lawful::carried_is_lawful;
