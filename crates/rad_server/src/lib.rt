//! The server of one thread: from a state, an admitted request, its moment and its draw to the answer and the next state (RFC 2865,
//! RFC 2866, RFC 5080, RFC 5997).
//!
//! `Server::step` first works out what the configuration alone tells (`Prepared`), and plans: `plan` only reads, decides, and makes
//! the reply's body if it isn't there yet. Then memory is made ready, and then `commit`, which neither decides nor fails, changes
//! the state. So if memory is refused, the state is unchanged. Nothing here reads a clock or a socket.
//!
//! `exchange` appends a step to a history, and `Book` keeps a server with its history. `Server::restore` puts back what a server
//! once remembered, a `StateRow` at a time.
//!
//! Other crates rest on this: an answer and the state after it are those of `specs/Steps.antt`, an answer that is sent can be
//! sealed, and rows are put back as `specs/Restored.antt` says.
#![tactic(auto)]

mod access;
mod accounting;
mod answer;
mod ask;
mod book;
mod change;
mod commit;
mod credentials;
mod denial;
mod entry;
mod fixed_reply;
mod history;
mod inquiry;
mod lawful;
mod occurrence;
mod plan;
mod prepared;
mod reply;
mod reply_rules;
mod restore;
mod rule;
mod runs;
mod server;
mod shares;
mod state_row;
mod tables;

pub use accounting::{
    ACCOUNTING_OFF, ACCOUNTING_ON, INTERIM_UPDATE, Report, START, STOP, class_number_of,
};
pub use answer::Answer;
pub use ask::Ask;
pub use book::Book;
pub use denial::Denial;
pub use entry::Entry;
pub use history::exchange;
pub use lawful::{lawful_steps, rows_rebuild};
pub use prepared::{Prepared, prepare8};
pub use rad_row_fault::RowFault;
pub use rad_rows::HashKey;
pub use runs::{fresh_are_enough, runs_are_lawful, runs_repeat, time_passes_unseen};
pub use server::Server;
pub use state_row::StateRow;
