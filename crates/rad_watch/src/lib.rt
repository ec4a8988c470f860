//! What an operator sees of turns: lines of a log, sums, and who is on.
//!
//! A `Watcher` counts each turn, and writes a line for each event of it that its level tells. Texts are made here, and only here;
//! who calls has the clock, and puts them out. Nothing of this can change what is answered.
//!
//! What is written no contract of a public call can say. It rests on private functions with exact contracts: a line of the log is
//! that of its event (`specs/LogLines.antt`), after a time that the clock alone gives; an event is that of a request and what
//! became of it (`specs/Events.antt`); octets that others chose stand between quotes as `specs/Shown.antt` says, so none of them
//! can end a name or a line; and of each count of lines the first `LINES_MAX` of a second are told (`specs/Limits.antt`).
//!
//! By a law, `alike_are_told_alike`, an event has of a request nothing but its name, address, session and status, whatever is known
//! of its exchange: no password has a say in it (`specs/Untold.antt`).
#![tactic(auto)]

mod client_sums;
mod event;
mod exchange;
mod expiry;
mod failed_port;
mod histogram;
mod kind;
mod limiter;
mod line;
mod metrics;
mod now;
mod roster;
mod shown;
mod sums;
mod transcript;
mod untold;
mod usage;
mod watcher;

pub use failed_port::FailedPort;
pub use kind::Level;
pub use limiter::LINES_MAX;
pub use line::push_quoted;
pub use now::{Now, Utc};
pub use roster::Roster;
pub use transcript::record;
pub use untold::alike_are_told_alike;
pub use watcher::Watcher;
