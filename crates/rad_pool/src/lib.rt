//! Sessions and the addresses of pools: who has access now, and which address nobody else has (RFC 2866; RFC 5080, section
//! 2.2.2).
//!
//! `Sessions` is a list, oldest first, which `expire` and `grant` cut to the live sessions. `grant` adds a session with the least
//! free address of the user's pool, `start`, `renew`, `stop` and `end_source` follow what is reported, and `find` is how an
//! Accounting-Request names one. `restore` and `restore_last` put back what a table once held.
//!
//! Other crates rest on this: what each call does to the list is what `specs/Sessions.antt`, `specs/Grants.antt`,
//! `specs/Meant.antt` and `specs/Restored.antt` say. `lawful_sessions` says what these calls keep true of a lawful table
//! (`specs/Lawful.antt`).
//!
//! `rad_rows` has the sessions under their numbers. How many open sessions each user and each source has and which addresses are in
//! use is counted beside it, with `indexmap` and `rad_places`. All of that is known to this crate alone.
#![tactic(auto)]

mod changes;
mod counts;
mod found;
mod free;
mod grant;
mod holder;
mod lawful;
mod links;
mod others;
mod report;
mod restore;
mod row;
mod session;
mod sessions;
mod sources;
mod users;
mod walk;

pub use grant::{Grant, Refusal};
pub use lawful::lawful_sessions;
pub use rad_row_fault::RowFault;
pub use session::{Phase, Session};
pub use sessions::{SESSIONS_MAX, SessionRows, Sessions};
