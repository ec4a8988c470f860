//! Why a row that a table once held isn't put back.
//!
//! Other crates rest on this: the faults, and what follows from rules where memory may be refused (`specs/Follows.antt`).
#![tactic(auto)]

mod row_fault;

pub use row_fault::RowFault;
