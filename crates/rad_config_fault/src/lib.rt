//! The faults of a configuration text, and the parts and keys of one, which they name.
//!
//! Other crates rest on this: numbers and names are those of `specs/Faults.antt`.
#![tactic(auto)]

mod config_fault;

pub use config_fault::{ConfigFault, Key, Part, ReplySpot, Spot};
