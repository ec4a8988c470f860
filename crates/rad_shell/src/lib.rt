//! Turns: in each, what has come to ports is answered in a round, which is kept, and then its replies are sent.
//!
//! `Turns` are made one after another, each with one round of `rad_round`, and `run_rounds` makes them for one call. Nothing is
//! decided here: answers are `rad_server`'s. A `Watch` sees each turn, and changes nothing. The names of rounds, of journals and of
//! the desk are passed on.
//!
//! Other crates rest on this: however a call of turns ends, a history leads from the server before to the one after, and without a
//! fault its sums count the entries (`specs/Serving.antt`).
#![tactic(auto)]

mod memory_ports;
mod ports;
mod received;
mod rounds;
mod serve_fault;
mod served;
mod turns;
mod watch;

pub use memory_ports::{Datagram, MemoryPorts, Passed};
pub use ports::{FailedCall, Got, PortCall, PortFault, Ports, RECEIVED_MAX};
pub use rad_desk::{
    Closed, Desk, Mismatch, Opened, PASSES_MAX, Pass, Receipt, misplaced_disagree, settle,
};
pub use rad_journal::{Journal, JournalFault, NoJournal};
pub use rad_round::{
    ARRIVALS_MAX, Done, Gate, OpenGate, Outcome, RoundFault, Service, Timed, WORKERS_MAX,
};
pub use rounds::run_rounds;
pub use serve_fault::ServeFault;
pub use served::Served;
pub use turns::Turns;
pub use watch::{Turn, Unwatched, Watch};
