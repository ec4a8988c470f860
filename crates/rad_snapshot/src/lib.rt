//! What a server remembers, as a snapshot: the rows of four tables of any store, written there and read back into a server.
//!
//! `write` puts the rows and commits nothing, and `read` opens a server that remembers what the rows say. Nothing here opens a
//! file.
//!
//! Other crates rest on this: tables that were written are exactly the rows of the server's state, in order; a server that is read
//! is one whose snapshot the tables are; and where rows are at fault, no lawful state has that snapshot. One snapshot is that of
//! one state (`snapshots_differ`).
#![tactic(auto)]

mod body;
mod columns;
mod filling;
mod laws;
mod numbers;
mod reading;
mod rest;
mod restoring;
mod rows;
mod snapshot_fault;
mod snapshot_table;
mod writing;

pub use laws::snapshots_differ;
pub use reading::read;
pub use snapshot_fault::SnapshotFault;
pub use snapshot_table::SnapshotTable;
pub use writing::write;
