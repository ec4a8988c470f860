//! The configuration of a server: what its text says, or the first fault of that text.
//!
//! `Config::read` reads a TOML text by a table of keys, each with its range and its default, if it has one; a key that isn't in
//! the table is ignored. Only reading, and copying a `Text`, takes memory. Users are found by name, and clients by network,
//! through indexes; no contract speaks of these.
//!
//! `read_text` reads a whole input, and `read_configuration` the configuration that octets are.
//!
//! Other crates rest on this: what was read is what `specs/Configurations.antt` says of the text, and it is in the ranges of
//! `specs/Ranges.antt`; of an input all octets were read (`specs/Inputs.antt`).
#![tactic(auto)]

mod config;
mod entry;
mod input;
mod keys;
mod lists;
mod network;
mod octets;
mod pool;
mod read_client;
mod read_group;
mod read_pool;
mod read_reply;
mod read_user;
mod same;
mod spans;
mod text;
mod user;
mod users;

pub use config::Config;
pub use input::{InputFault, TEXT_MAX, read_text};
pub use octets::read_configuration;
pub use pool::{POOLS_MAX, Pool};
pub use rad_config_fault::{ConfigFault, Key, Part, ReplySpot, Spot};
pub use read_group::GROUPS_MAX;
pub use spans::{MOMENT_MAX, Spans};
pub use text::Text;
pub use user::User;
pub use users::USERS_MAX;
