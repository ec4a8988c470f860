//! What the programs in C of `bench/` measure, a module for each of them.
#![tactic(auto)]

mod admission;
mod calls;
mod clock;
mod config;
mod digests;
mod passwords;
mod plain;
mod rows;
mod step;
