//! What may be wrong with a configuration that has no fault, and what more there is to say of a fault; and the file of users that
//! it may name, whose text with its own is one text: a `Source`.
//!
//! Others rest on this: a warning applies exactly where `specs/Warnings.antt` says so, or `specs/Intervals.antt` of which users,
//! and the names that a table doesn't have are those that `specs/Names.antt` doesn't list. Which file of users is named, what may
//! stand there (`specs/UsersLines.antt`), and in which file a fault is told, `specs/UsersFiles.antt` says. No contract can say what
//! is printed.
#![tactic(auto)]

mod detail;
mod interval;
mod known;
mod lines;
mod named;
mod near;
mod place;
mod shared;
mod source;
#[cfg(test)]
mod tests;
mod unknown;
mod user_warning;
mod users_fault;
mod users_file;
mod users_lines;
mod warning;

pub use detail::{Detail, detail_of};
pub use lines::{push_warning, warn, warn_of_file};
pub use named::{Counts, UsersFile, entry_count, users_named};
pub use source::{Source, SourceFault, path_beside};
pub use user_warning::UserWarning;
pub use users_fault::{UsersFault, misfit};
pub use warning::{SHORT_HOLD, Warning};
