//! A state's files, one for each generation: its meta, a snapshot, and a journal, in a database of the toolchain's SQLite.
//!
//! `open_files` opens a database, `make_files` makes one, and a `Folder` has them by number. `State` has the meta that was kept and
//! the times of the last entry, and then the server at which the generation begins and its journal. `FileGenerations` begins the
//! next one, at a start and while a server serves. Nothing here opens a host's file or reads a clock.
//!
//! Other crates rest on this: a crash leaves the generation before, with all its entries, or the new one, and the next moment is no
//! earlier than that of the last entry.
#![tactic(auto)]

mod beginning;
mod file_generations;
mod folder;
mod generations;
mod meta;
mod meta_table;
mod moments;
mod open_fault;
mod opening;
mod state;

pub use beginning::write_generation;
pub use file_generations::FileGenerations;
pub use folder::Folder;
pub use generations::{Generations, Keeping, OneGeneration};
pub use meta::{FORMAT, Meta, RULES};
pub use moments::{Clocks, Last, next_moment, read_last};
pub use open_fault::OpenFault;
pub use opening::{make_files, open_files};
pub use state::{State, bases_differ};
