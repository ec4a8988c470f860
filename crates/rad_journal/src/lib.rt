//! What a server keeps on a disk of its exchanges, over any store, and the server that it leads to.
//!
//! `Kept` is an exchange as it is kept, `keep` makes those of a turn, and a `Journal` has those of each commit so far.
//! `StoreJournal` is a journal in three tables of any `Store` of the toolchain's SQLite, two of which are registers of records, and
//! `NoJournal` keeps nothing. `restore` steps a server through a journal. Nothing here opens a file or reads a clock.
//!
//! Other crates rest on this: a commit that answers Ok has kept all of its entries, each crash from then on leaves them, and a
//! crash at any time leaves what was kept before a commit or that and all of its entries; and with the entries a record of each
//! Accounting-Request among them and of each session that is granted, and no other. What is kept of a history leads where it does
//! (`kept_is_enough`). A server that is restored has run a history that is kept as the journal has it, and a fault of an entry says
//! that there is none, and why.
#![tactic(auto)]

mod append;
mod checking;
mod journal;
mod keeping;
mod kept;
mod leading;
mod no_journal;
mod reading;
mod recording;
mod register;
mod restore_fault;
mod restoring;
mod store_journal;

pub use journal::{ENTRIES_MAX, Journal, JournalFault, Reopen};
pub use keeping::{accounting_is_recorded, grants_are_recorded, keep, kept_are_restored};
pub use kept::Kept;
pub use leading::kept_is_enough;
pub use no_journal::NoJournal;
pub use register::Register;
pub use restore_fault::RestoreFault;
pub use restoring::restore;
pub use store_journal::StoreJournal;
