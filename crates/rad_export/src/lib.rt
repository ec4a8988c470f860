//! Accounting records as lines for other programs, in JSON or CSV.
//!
//! `Wanted` says which rows are taken, and `Format` writes a line for one. A row is one that `rad_accounting::fill` makes.
//!
//! Other crates rest on this: `Wanted::takes` answers what `specs/Taken.antt` says, and a line is the one of `specs/Lines.antt`,
//! appended whole or not at all. How a line's time is written is only tested, and so is how `moment_of` reads one.
#![tactic(auto)]

mod columns;
mod csv_line;
mod format;
mod json_line;
mod moment;
mod names;
mod shown;
mod wanted;

pub use format::Format;
pub use moment::moment_of;
pub use wanted::Wanted;
